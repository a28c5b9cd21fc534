//! The PCRs that a quote covers.

ghost use Rattle.std.specs.Prelude.{◌≡◌, ◌≤◌, ◌↔◌, ℕ, IsTrue, IfSome, IfNone, SomeIff, length, slice_index, drop};
ghost use Rattle.kl_base.specs.Bytes.{IsBytes};
ghost use Rattle.kl_attest.specs.Grammar.{Selection};
ghost use Rattle.kl_attest.specs.Pcrs.{IsLone, OneSet, AreBelow24, has_pcr, is_zero, mask_of};
ghost use Rattle.kl_attest.specs.Inner.Reading.{Gives, listed_at, selections_at, behind};
ghost use Rattle.kl_attest.specs.Inner.Seen.{place_of, selection_of};

use crate::cursor::{BankSelection, Cursor};
use crate::fault::AttestFault;
use std::marker::Model;

/// The selections of a quote (TPML_PCR_SELECTION), which borrow the text that they were read from.
#[derive(Debug, Drop)]
pub struct Selections<'a> {
    count: u32,
    first: Cursor<'a>,
}

impl<'a> Model for Selections<'a> {
    ghost use Rattle.std.specs.Prelude.{List, IsOk};
    ghost use Rattle.kl_attest.specs.Grammar.{Selection};
    ghost use Rattle.kl_attest.specs.Inner.Reading.{listed_at, listed};
    ghost use Rattle.kl_attest.specs.Inner.Seen.{place_of};

    ghost Value = { List Selection };

    ghost view = { λ s. listed (listed_at s.count (place_of s.first)) };

    ghost invariant = { λ s. IsOk (listed_at s.count (place_of s.first)) };
}

impl<'a> Selections<'a> {
    /// How many selections there are.
    pub fn len(&self) -> u32
        ensures { result ≡ length self.now }
    {
        self.count
    }

    /// The algorithm of the one selection that is not empty, and its PCRs as the sum of 2^n for
    /// each PCR n. None where no selection or more than one has a PCR, or it has one above 23.
    pub fn one_set(&self) -> Option<(u16, u32)>
        ensures found { IfSome result (λ set. OneSet self.now set.0 set.1) }
        ensures none { IfNone result ((alg mask : ℕ) → ¬ (OneSet self.now alg mask)) }
        ensures only { (alg mask : ℕ) → OneSet self.now alg mask → IfSome result (λ set. (set.0 ≡ alg) × (set.1 ≡ mask)) }
    {
        let one = self.lone()?;
        let mask = mask(one.select)?;
        Some((one.alg, mask))
    }

    // The one selection that is not empty.
    fn lone(&self) -> Option<BankSelection<'a>>
        ensures found { IfSome result (λ one. IsLone self.now (selection_of one)) }
        ensures only { (one : Selection) → IsLone self.now one → IfSome result (λ found. selection_of found ≡ one) }
        ensures none { IfNone result ((one : Selection) → ¬ (IsLone self.now one)) }
    {
        hold_bytes(self.first.rest);
        let mut found = None;
        let mut rest = self.first;
        for _ in 0..self.count {
            let Ok((selection, after)) = rest.read_selection() else {
                unreachable!()
            };
            rest = after;
            if !all_zero(selection.select) {
                if found.is_some() {
                    return None;
                }
                found = Some(selection);
            }
        }
        found
    }
}

/// A count, and that many selections.
#[tactic(auto, unfolding(crate::specs::Inner::Reading::selections_at))]
pub fn read_selections<'a>(cursor: Cursor<'a>) -> Result<(Selections<'a>, Cursor<'a>), AttestFault>
    ensures { Gives (λ x. (x.0, place_of x.1)) result (selections_at (place_of cursor.entry)) }
{
    let (count, first) = cursor.read_u32()?;
    let after = pass_selections(count, first)?;
    Ok((Selections { count, first }, after))
}

// The cursor behind so many selections.
fn pass_selections<'a>(count: u32, first: Cursor<'a>) -> Result<Cursor<'a>, AttestFault>
    ensures { Gives place_of result (behind (listed_at count (place_of first.entry))) }
{
    let mut rest = first;
    for _ in 0..count {
        let (_, after) = rest.read_selection()?;
        rest = after;
    }
    Ok(rest)
}

// Says what the type of the elements says, so that a proof can take it for all of them at once.
fn hold_bytes(bytes: &[u8])
    ensures { IsBytes bytes.now }
{
    let _ = bytes.len();
}

fn all_zero(bytes: &[u8]) -> bool
    ensures { result ≡ is_zero bytes.now }
{
    bytes.iter().all(|byte| *byte == 0)
}

fn byte_or_zero(bytes: &[u8], place: usize) -> u8
    ensures { result ≡ slice_index bytes.now place }
{
    bytes.get(place).copied().unwrap_or(0)
}

// The PCRs as the sum of 2^n for each PCR n, where none is above 23.
#[tactic(auto, using(crate::proofs::Masks::above, crate::proofs::Masks::below_zero))]
fn mask(select: &[u8]) -> Option<u32>
    ensures below { IfSome result (λ mask. AreBelow24 select.now) }
    ensures mask { IfSome result (λ mask. mask ≡ mask_of select.now) }
    ensures none { IfNone result (¬ (AreBelow24 select.now)) }
{
    hold_bytes(select);
    if !is_high_zero(select) {
        return None;
    }
    Some(low_number(select))
}

// Whether the bytes behind the third, those of the PCRs from 24 on, are 0.
fn is_high_zero(select: &[u8]) -> bool
    ensures { result ≡ is_zero (drop 3 select.now) }
{
    select.iter().skip(3).all(|byte| *byte == 0)
}

// The number that the first three bytes make, the lowest first.
fn low_number(select: &[u8]) -> u32
    ensures { result ≡ mask_of select.now }
{
    let low = byte_or_zero(select, 0);
    let middle = byte_or_zero(select, 1);
    let high = byte_or_zero(select, 2);
    u32::from_le_bytes([low, middle, high, 0])
}
