//! Reading fields from left to right. Each call gives a field and the cursor behind it, or the
//! fault of the first field that does not fit.

ghost use Rattle.std.specs.Prelude.{◌≡◌, ◌+◌, ◌<◌, ◌^◌, length};

use crate::fault::AttestFault;

/// TPM_GENERATED_VALUE, with which all begins that a TPM made by itself.
pub const MAGIC: u32 = 0xFF54_4347;

/// TPM_ST_ATTEST_QUOTE.
pub const ATTEST_QUOTE: u16 = 0x8018;

/// The bytes that are left, and how many stood before them.
#[derive(Clone, Copy, Debug)]
pub struct Cursor<'a> {
    pub at: usize,
    pub rest: &'a [u8],
    pub ghost fits: { at + length rest.now < 2 ^ 64 },
}

/// TPMS_CLOCK_INFO.
#[derive(Clone, Copy)]
pub struct ClockInfo {
    pub clock: u64,
    pub reset: u32,
    pub restart: u32,
    pub safe: bool,
}

/// TPMS_PCR_SELECTION.
#[derive(Clone, Copy)]
pub struct BankSelection<'a> {
    pub alg: u16,
    pub select: &'a [u8],
}

impl<'a> Cursor<'a> {
    ghost use Rattle.std.specs.Prelude.{List};
    ghost use Rattle.std.specs.Int.{w8, w16, w32, w64};
    ghost use Rattle.kl_attest.specs.Inner.Reading.{Gives, start, bytes_at, number_at, counted_at, header_at, flag_at, clock_at, selection_at};
    ghost use Rattle.kl_attest.specs.Inner.Seen.{place_of, passed, clock_of, selection_of};

    pub fn new(bytes: &'a [u8]) -> Cursor<'a>
        ensures { place_of result ≡ start bytes.now }
    {
        Cursor { at: 0, rest: bytes }
    }

    #[tactic(auto, unfolding(crate::specs::Inner::Reading::bytes_at))]
    pub fn read_bytes(self, count: usize) -> Result<(&'a [u8], Cursor<'a>), AttestFault>
        ensures { Gives (λ x. (x.0.now, place_of x.1)) result (bytes_at count (place_of self.entry)) }
    {
        if self.rest.len() < count {
            return Err(AttestFault::Short(self.at));
        }
        let (field, rest) = self.rest.split_at(count);
        let at = self.at + count;
        Ok((field, Cursor { at, rest }))
    }

    #[tactic(auto, unfolding(crate::specs::Inner::Reading::bytes_at, crate::specs::Inner::Reading::number_at))]
    pub fn read_u8(self) -> Result<(u8, Cursor<'a>), AttestFault>
        ensures { Gives (λ x. (x.0, place_of x.1)) result (number_at w8 (place_of self.entry)) }
    {
        let (field, after) = self.read_bytes(1)?;
        Ok((field[0], after))
    }

    #[tactic(auto, unfolding(crate::specs::Inner::Reading::bytes_at, crate::specs::Inner::Reading::number_at))]
    pub fn read_u16(self) -> Result<(u16, Cursor<'a>), AttestFault>
        ensures { Gives (λ x. (x.0, place_of x.1)) result (number_at w16 (place_of self.entry)) }
    {
        let (field, after) = self.read_bytes(2)?;
        Ok((u16::from_be_bytes([field[0], field[1]]), after))
    }

    #[tactic(auto, unfolding(crate::specs::Inner::Reading::bytes_at, crate::specs::Inner::Reading::number_at))]
    pub fn read_u32(self) -> Result<(u32, Cursor<'a>), AttestFault>
        ensures { Gives (λ x. (x.0, place_of x.1)) result (number_at w32 (place_of self.entry)) }
    {
        let (field, after) = self.read_bytes(4)?;
        let number = u32::from_be_bytes([field[0], field[1], field[2], field[3]]);
        Ok((number, after))
    }

    #[tactic(auto, unfolding(crate::specs::Inner::Reading::bytes_at, crate::specs::Inner::Reading::number_at))]
    pub fn read_u64(self) -> Result<(u64, Cursor<'a>), AttestFault>
        ensures { Gives (λ x. (x.0, place_of x.1)) result (number_at w64 (place_of self.entry)) }
    {
        let (field, after) = self.read_bytes(8)?;
        let number = u64::from_be_bytes([
            field[0], field[1], field[2], field[3], field[4], field[5], field[6], field[7],
        ]);
        Ok((number, after))
    }

    /// The first two fields of every quote.
    #[tactic(auto, unfolding(crate::specs::Inner::Reading::known_at, crate::specs::Inner::Reading::header_at))]
    pub fn read_header(self) -> Result<Cursor<'a>, AttestFault>
        ensures { Gives passed result (header_at (place_of self.entry)) }
    {
        let (magic, after) = self.read_u32()?;
        if magic != MAGIC {
            return Err(AttestFault::Magic);
        }
        let (kind, after) = after.read_u16()?;
        if kind != ATTEST_QUOTE {
            return Err(AttestFault::AttestType);
        }
        Ok(after)
    }

    /// A size of two bytes, and that many bytes (TPM2B).
    #[tactic(auto, unfolding(crate::specs::Inner::Reading::counted_at))]
    pub fn read_sized(self) -> Result<(&'a [u8], Cursor<'a>), AttestFault>
        ensures { Gives (λ x. (x.0.now, place_of x.1)) result (counted_at w16 (place_of self.entry)) }
    {
        let (size, after) = self.read_u16()?;
        after.read_bytes(usize::from(size))
    }

    /// A flag (TPMI_YES_NO).
    #[tactic(auto, unfolding(crate::specs::Inner::Reading::known_at, crate::specs::Inner::Reading::flag_at))]
    pub fn read_safe(self) -> Result<(bool, Cursor<'a>), AttestFault>
        ensures { Gives (λ x. (x.0, place_of x.1)) result (flag_at (place_of self.entry)) }
    {
        let (flag, after) = self.read_u8()?;
        match flag {
            0 => Ok((false, after)),
            1 => Ok((true, after)),
            _ => Err(AttestFault::Safe),
        }
    }

    #[tactic(auto, unfolding(crate::specs::Inner::Reading::clock_at))]
    pub fn read_clock(self) -> Result<(ClockInfo, Cursor<'a>), AttestFault>
        ensures { Gives (λ x. (clock_of x.0, place_of x.1)) result (clock_at (place_of self.entry)) }
    {
        let (clock, after) = self.read_u64()?;
        let (reset, after) = after.read_u32()?;
        let (restart, after) = after.read_u32()?;
        let (safe, after) = after.read_safe()?;
        let info = ClockInfo {
            clock,
            reset,
            restart,
            safe,
        };
        Ok((info, after))
    }

    #[tactic(auto, unfolding(crate::specs::Inner::Reading::counted_at, crate::specs::Inner::Reading::selection_at))]
    pub fn read_selection(self) -> Result<(BankSelection<'a>, Cursor<'a>), AttestFault>
        ensures { Gives (λ x. (selection_of x.0, place_of x.1)) result (selection_at (place_of self.entry)) }
    {
        let (alg, after) = self.read_u16()?;
        let (size, after) = after.read_u8()?;
        let (select, after) = after.read_bytes(usize::from(size))?;
        Ok((BankSelection { alg, select }, after))
    }
}
