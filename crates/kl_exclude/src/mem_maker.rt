//! Patterns made by `regex`, where some texts are refused by plan.

ghost use Rattle.std.specs.Prelude.{◌≡◌, ◌≤◌, ◌∷◌, [], length, IfOk, IsErrOf, Contains};
ghost use Rattle.kl_io.specs.Calls.{Counts, one_more};
ghost use Rattle.kl_exclude.specs.Excludes.{IsPattern};
ghost use Rattle.kl_exclude.specs.Making.{IsRegexOf};
ghost use Rattle.kl_exclude.specs.Told.{new_maker, told_of, Logs};

use crate::fault::PatternFault;
use crate::maker::PatternMaker;
use crate::std_maker::StdMaker;
use kl_base::Memory;
use regex::Regex;
use std::alloc::Global;
use std::marker::Model;

/// Makes patterns by `regex`, for tests alone: the texts of some calls are refused as too large, whatever they are.
#[derive(Drop)]
pub struct MemMaker {
    sizes: Vec<u64>,
    maker: StdMaker,
}

impl Model for MemMaker {
    ghost use Rattle.kl_exclude.specs.Told.{MemMakerState};

    ghost Value = { MemMakerState };

    ghost view = { λ m. record { sizes = m.sizes.items; maker = m.maker } };
}

impl MemMaker {
    /// It refuses the texts of the calls with these numbers, from 1.
    ///
    /// # Errors
    /// [`Memory`] where there is none for the list of numbers.
    pub fn new(alloc: Global, sizes: &[u64]) -> Result<MemMaker, Memory>
        ensures state { IfOk result (λ m. m ≡ record { sizes = sizes.now; maker = new_maker }) }

        // As a `PatternMaker` it tells no call, and not what it is asked.
        ensures tells { IfOk result (λ m. ⟦<MemMaker as PatternMaker>⟧.told m ≡ told_of new_maker) }
    {
        Ok(MemMaker {
            sizes: Vec::from_slice(alloc, sizes)?,
            maker: StdMaker::new(),
        })
    }
}

impl PatternMaker for MemMaker {
    ghost told = { λ m. told_of m.maker };

    fn sizes(&self) -> u64 {
        self.maker.sizes()
    }

    fn make(&mut self, alloc: Global, text: &str) -> Result<Regex, PatternFault>
        requires fits { length text.now ≤ 512 }
        ensures made { IfOk result (IsRegexOf text.now) }
        ensures syntax { IsErrOf result PatternFault.Syntax → ¬ (IsPattern text.now) }
        ensures counted { Counts self.old.maker.calls self.new.maker.calls (IsErrOf result PatternFault.TooLarge) }
        ensures refused { IsErrOf result PatternFault.TooLarge → self.new.maker.refused ≡ text.now }
        ensures kept { ¬ (IsErrOf result PatternFault.TooLarge) → self.new.maker.refused ≡ self.old.maker.refused }
        ensures logged { Logs (told_of self.old.maker) (told_of self.new.maker) (text.now ∷ []) }

        // It refuses the listed calls, and of the others such alone as ask for a pattern, where `regex` refuses that.
        ensures listed { Contains self.old.sizes (one_more self.old.maker.calls.made) → IsErrOf result PatternFault.TooLarge }
        ensures unlisted { ¬ (Contains self.old.sizes (one_more self.old.maker.calls.made)) → IsErrOf result PatternFault.TooLarge → IsPattern text.now }
        ensures sizes { self.new.sizes ≡ self.old.sizes }
    {
        if self.sizes.contains(&self.maker.next()) {
            return Err(self.maker.refuse(text));
        }
        self.maker.make(alloc, text)
    }
}
