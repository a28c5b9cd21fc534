//! From texts to patterns.

ghost use Rattle.std.specs.Prelude.{◌≡◌, ◌≤◌, ◌∷◌, [], ℕ, List, All, length, map, string_bytes, IfOk, IfErr};
ghost use Rattle.kl_exclude.specs.Compiled.{IsFaultOf, AreAsked};
ghost use Rattle.kl_exclude.specs.Excludes.{IsPattern};
ghost use Rattle.kl_exclude.specs.Inner.Compiling.{IsOneFaultOf};
ghost use Rattle.kl_exclude.specs.Told.{Logs, RefusesNone};

use crate::fault::{ExcludeFault, PatternFault};
use crate::maker::PatternMaker;
use crate::pattern::Pattern;
use std::alloc::Global;

/// Makes a pattern of each text, in order, until one is none.
///
/// # Errors
/// [`ExcludeFault::Syntax`] at the first text that is no pattern, [`ExcludeFault::TooLarge`] at one that the maker refused as
/// too large, where all before are patterns, and [`ExcludeFault::Memory`] where there is no memory.
pub fn compile<P: PatternMaker>(
    alloc: Global,
    maker: &mut P,
    texts: &[String],
) -> Result<Vec<Pattern>, ExcludeFault>
    requires fit { All (λ text. length (string_bytes text) ≤ 512) texts.now }
    ensures patterns { IfOk result (λ patterns. patterns.items ≡ map string_bytes texts.now) }
    ensures read { IfOk result (λ _. All IsPattern (map string_bytes texts.now)) }
    ensures sizes { IfOk result (λ _. RefusesNone (P.told maker.old) (P.told maker.new)) }
    ensures fault { IfErr result (IsFaultOf (map string_bytes texts.now) (P.told maker.old) (P.told maker.new)) }

    // Each text up to the end or the fault was asked once, in order.
    ensures asked { (asked : List (List ℕ)) × AreAsked (map string_bytes texts.now) result asked × Logs (P.told maker.old) (P.told maker.new) asked }
{
    let mut patterns = Vec::with_capacity(alloc, texts.len())?;
    for (place, text) in texts.iter().enumerate() {
        let pattern = compile_one(alloc, maker, text.as_str(), place)?;
        patterns.push(pattern)?;
    }
    Ok(patterns)
}

/// Makes a pattern of the text at this place.
fn compile_one<P: PatternMaker>(
    alloc: Global,
    maker: &mut P,
    text: &str,
    place: usize,
) -> Result<Pattern, ExcludeFault>
    requires fits { length text.now ≤ 512 }
    ensures pattern { IfOk result (λ pattern. pattern ≡ text.now) }
    ensures read { IfOk result (λ _. IsPattern text.now) }
    ensures sizes { IfOk result (λ _. RefusesNone (P.told maker.old) (P.told maker.new)) }
    ensures fault { IfErr result (IsOneFaultOf text.now place (P.told maker.old) (P.told maker.new)) }
    ensures asked { Logs (P.told maker.old) (P.told maker.new) (text.now ∷ []) }
{
    match maker.make(alloc, text) {
        Ok(made) => Ok(Pattern::new(made)),
        Err(PatternFault::Syntax) => Err(ExcludeFault::Syntax(place)),
        Err(PatternFault::TooLarge) => Err(ExcludeFault::TooLarge(place)),
        Err(PatternFault::Memory) => Err(ExcludeFault::Memory),
    }
}
