//! Terms that several own.

ghost use Rattle.std.specs.Prelude.{◌≡◌, IfOk, IfErr};
ghost use Rattle.std.specs.Arc.{arc_value};

use crate::terms::Terms;
use kl_base::Memory;
use std::alloc::Global;
use std::marker::Model;
use std::sync::Arc;

/// Terms that several owners share, as polls of an agent and what is installed for it. A contract sees the
/// terms.
#[derive(Drop)]
pub struct SharedTerms {
    arc: Arc<Terms>,
}

impl Model for SharedTerms {
    ghost use Rattle.std.specs.Coded.{codes};
    ghost use Rattle.std.specs.Arc.{arc_value};
    ghost use Rattle.kl_digests.specs.Digests.{digest_map_code};
    ghost use Rattle.kl_appraise.specs.Terms.{TermsFields};

    ghost Value = { TermsFields };

    ghost coded = { Prim.hlevel (codes, digest_map_code) };

    ghost view = { λ s. arc_value s.arc };
}

impl SharedTerms {
    /// These terms, to be shared.
    ///
    /// # Errors
    ///
    /// The terms, where memory ran out.
    pub fn new(alloc: Global, terms: Terms) -> Result<SharedTerms, Terms>
        ensures ok { IfOk result (λ s. s ≡ terms) }
        ensures err { IfErr result (λ t. t ≡ terms) }
    {
        match Arc::new(alloc, terms) {
            Ok(arc) => Ok(SharedTerms { arc }),
            Err(failed) => Err(failed.value),
        }
    }

    /// The terms that this `Arc` shares.
    pub fn of_arc(arc: Arc<Terms>) -> SharedTerms
        ensures { result ≡ arc_value arc }
    {
        SharedTerms { arc }
    }

    /// One owner more.
    ///
    /// # Errors
    ///
    /// [`Memory`] where the count of owners cannot grow.
    pub fn share(&self) -> Result<SharedTerms, Memory>
        ensures { IfOk result (λ s. s ≡ self.now) }
    {
        let arc = Arc::try_clone(&self.arc)?;
        Ok(SharedTerms { arc })
    }

    /// The terms.
    pub fn terms(&self) -> &Terms
        ensures { result.now ≡ self.now }
    {
        &self.arc
    }
}
