//! A poll's evidence, appraised.

ghost use Rattle.std.specs.Prelude.{◌≡◌};
ghost use Rattle.kl_incr.specs.Appraisal.{IsAppraisal};

use crate::ticket::Ticket;
use kl_appraise::{Kept, Outcome};
use kl_quote::Evidence;
use std::marker::Model;

/// A ticket, the evidence of its poll's reply, and what the rules say of that. It can't be let go: it is spent by
/// closing the poll, or by [`discard`](Appraised::discard) where a verifier refused it.
pub struct Appraised {
    ticket: Ticket,
    evidence: Evidence,
    signed: bool,
    finding: Outcome,
    next: Option<Kept>,
}

impl Model for Appraised {
    ghost use Rattle.std.specs.Coded.{codes};
    ghost use Rattle.kl_digests.specs.Digests.{digest_map_code};
    ghost use Rattle.kl_incr.specs.Appraisal.{AppraisedFields, IsAppraisal};

    ghost Value = { AppraisedFields };

    ghost coded = { Prim.hlevel (codes, digest_map_code) };

    ghost view = { λ a. record {
      ticket = a.ticket;
      evidence = a.evidence;
      signed = a.signed;
      finding = a.finding;
      next = a.next;
    } };

    ghost invariant = { λ a. IsAppraisal a.ticket a.evidence a.signed a.finding a.next };
}

/// An [`Appraised`], taken apart.
pub struct Parts {
    /// The ticket.
    pub ticket: Ticket,
    /// The evidence of the reply.
    pub evidence: Evidence,
    /// Whether the key object said yes to the signature; false where it was not asked.
    pub signed: bool,
    /// What the rules say.
    pub finding: Outcome,
    /// What is kept of the list that a pass accepts; None at another finding.
    pub next: Option<Kept>,
}

impl Appraised {
    pub(crate) fn new(
        ticket: Ticket,
        evidence: Evidence,
        signed: bool,
        finding: Outcome,
        next: Option<Kept>,
    ) -> Appraised
        requires { IsAppraisal ticket evidence signed finding next }
        ensures { result ≡ record {
          ticket = ticket;
          evidence = evidence;
          signed = signed;
          finding = finding;
          next = next;
        } }
    {
        Appraised {
            ticket,
            evidence,
            signed,
            finding,
            next,
        }
    }

    /// The ticket.
    pub fn ticket(&self) -> &Ticket
        ensures { result.now ≡ self.now.ticket }
    {
        &self.ticket
    }

    /// The evidence of the reply.
    pub fn evidence(&self) -> &Evidence
        ensures { result.now ≡ self.now.evidence }
    {
        &self.evidence
    }

    /// Whether the key object said yes to the signature; false where it was not asked.
    pub fn signed(&self) -> bool
        ensures { result ≡ self.now.signed }
    {
        self.signed
    }

    /// What the rules say of the evidence.
    pub fn finding(&self) -> Outcome
        ensures value { result ≡ self.now.finding }
        ensures holds { IsAppraisal self.now.ticket self.now.evidence self.now.signed self.now.finding self.now.next }
    {
        self.finding
    }

    /// What is kept of the list that a pass accepts; None at another finding.
    pub fn next(&self) -> Option<Kept>
        ensures { result ≡ self.now.next }
    {
        self.next
    }

    /// Its parts.
    pub fn into_parts(self) -> Parts
        ensures ticket { result.ticket ≡ self.ticket }
        ensures evidence { result.evidence ≡ self.evidence }
        ensures signed { result.signed ≡ self.signed }
        ensures finding { result.finding ≡ self.finding }
        ensures next { result.next ≡ self.next }
        ensures holds { IsAppraisal self.ticket self.evidence self.signed self.finding self.next }
    {
        let Appraised {
            ticket,
            evidence,
            signed,
            finding,
            next,
        } = self;
        Parts {
            ticket,
            evidence,
            signed,
            finding,
            next,
        }
    }

    /// Takes apart what a verifier refused. It closes nothing.
    pub fn discard(self) {
        let Appraised {
            ticket,
            evidence: _evidence,
            signed: _,
            finding: _,
            next: _,
        } = self;
        ticket.discard();
    }
}
