//! Hexadecimal digits.

ghost use Rattle.std.specs.Prelude.{◌≡◌, ◌<◌, ◌≤◌, slice_index, false};
ghost use Rattle.hex.specs.Hex.{hex_digit_value, lower_digits};
ghost use Rattle.kl_base.specs.Digits.{is_lower_digit};

/// For each byte the value of the digit that it is, and 255 for one that is none. The digits `A-F` have 16 more than
/// their value, so that one look-up tells them from those in lower case.
static DIGITS: [u8; 256] = [
    255, 255, 255, 255, 255, 255, 255, 255, 255, 255, 255, 255, 255, 255, 255, 255, 255, 255, 255,
    255, 255, 255, 255, 255, 255, 255, 255, 255, 255, 255, 255, 255, 255, 255, 255, 255, 255, 255,
    255, 255, 255, 255, 255, 255, 255, 255, 255, 255, 0, 1, 2, 3, 4, 5, 6, 7, 8, 9, 255, 255, 255,
    255, 255, 255, 255, 26, 27, 28, 29, 30, 31, 255, 255, 255, 255, 255, 255, 255, 255, 255, 255,
    255, 255, 255, 255, 255, 255, 255, 255, 255, 255, 255, 255, 255, 255, 255, 255, 10, 11, 12, 13,
    14, 15, 255, 255, 255, 255, 255, 255, 255, 255, 255, 255, 255, 255, 255, 255, 255, 255, 255,
    255, 255, 255, 255, 255, 255, 255, 255, 255, 255, 255, 255, 255, 255, 255, 255, 255, 255, 255,
    255, 255, 255, 255, 255, 255, 255, 255, 255, 255, 255, 255, 255, 255, 255, 255, 255, 255, 255,
    255, 255, 255, 255, 255, 255, 255, 255, 255, 255, 255, 255, 255, 255, 255, 255, 255, 255, 255,
    255, 255, 255, 255, 255, 255, 255, 255, 255, 255, 255, 255, 255, 255, 255, 255, 255, 255, 255,
    255, 255, 255, 255, 255, 255, 255, 255, 255, 255, 255, 255, 255, 255, 255, 255, 255, 255, 255,
    255, 255, 255, 255, 255, 255, 255, 255, 255, 255, 255, 255, 255, 255, 255, 255, 255, 255, 255,
    255, 255, 255, 255, 255, 255, 255, 255, 255, 255, 255, 255, 255, 255, 255, 255, 255, 255, 255,
    255, 255, 255,
];

/// The value of a digit of `0-9a-f`, or 16 and more where the byte is none.
#[inline(always)]
pub fn lower_digit(byte: u8) -> u8
    ensures value { result < 16 → slice_index lower_digits result ≡ byte }
    ensures refused { 16 ≤ result → is_lower_digit byte ≡ false }
{
    DIGITS[byte as usize]
}

/// The value of a hexadecimal digit in either case, or `None` where the byte is none.
#[inline(always)]
pub fn digit_value(byte: u8) -> Option<u8>
    ensures { result ≡ hex_digit_value byte }
{
    let value = DIGITS[byte as usize];
    if value < 32 { Some(value % 16) } else { None }
}
