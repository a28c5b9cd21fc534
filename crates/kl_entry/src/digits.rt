//! Hexadecimal digits in lower case.

ghost use Rattle.std.specs.Prelude.{◌≡◌, ◌*◌, length};
ghost use Rattle.std.specs.Bool.{OnFalse, OnTrue};
ghost use Rattle.std.specs.List.{AllPass};
ghost use Rattle.hex.specs.Hex.{encode_lower};
ghost use Rattle.kl_base.specs.Bytes.{IsBytes};
ghost use Rattle.kl_base.specs.Digits.{is_lower_digit};

use kl_base::lower_digit;

/// Writes the bytes that these digits of `0-9a-f` spell, one byte for two digits. False where one is
/// no such digit.
pub(crate) fn decode(digits: &[u8], room: &mut [u8]) -> bool
    requires { length digits.now ≡ 2 * length room.old }
    ensures read { OnTrue result (digits.now ≡ encode_lower room.new) }
    ensures bytes { OnTrue result (IsBytes room.new) }
    ensures none { OnFalse result (¬ (AllPass is_lower_digit digits.now)) }
{
    for i in 0..room.len() {
        let high = lower_digit(digits[2 * i]);
        let low = lower_digit(digits[2 * i + 1]);
        if high > 15 || low > 15 {
            return false;
        }
        room[i] = high * 16 + low;
    }
    true
}
