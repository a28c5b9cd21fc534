//! The terms that a command names.

ghost use Rattle.std.specs.Prelude.{IfOk, IfErr, IfSome};
ghost use Rattle.kl_appraise.specs.Terms.{AreTerms};
ghost use Rattle.kl_history.specs.Records.{History};
ghost use Rattle.kl_policy.specs.Reading.{IsPolicy};
ghost use Rattle.kl_session.specs.Outside.{Outside};
ghost use Rattle.kl_session.specs.Terms.{NamesTerms, Reads, WasInstalled};
ghost use Rattle.kl_session.specs.Inner.Naming.{IsPolicyFault, IsTermsFault, Tells};

use kl_appraise::{Terms, TermsFault};
use kl_base::Memory;
use kl_core::{Book, Record};
use kl_exclude::{ExcludeFault, PatternMaker};
use kl_json::JsonFault;
use kl_policy::{Limit, Policy, PolicyFault, PolicyKind, read_policy};
use kl_script::Add;
use kl_states::Text;
use std::alloc::Global;
use std::fmt;

/// Why a command names no terms.
#[derive(Clone, Copy, Debug, PartialEq, Eq)]
pub enum NoTerms {
    /// Its policy is none, for this reason, which is not want of memory.
    Policy(PolicyFault),
    /// Its mask lacks a PCR that every quote has, or has one that no TPM has.
    Mask,
    /// Its static PCRs are not those of its bank and mask.
    Static,
}

impl fmt::Display for NoTerms {
    ghost use Rattle.std.specs.Prelude.{Some};
    ghost use Rattle.kl_session.specs.Texts.{no_terms_text};

    ghost output = { λ why. Some (no_terms_text why) };

    fn fmt<W: fmt::Write>(&self, f: &mut fmt::Formatter<W>) -> fmt::Result {
        match self {
            NoTerms::Policy(why) => write!(f, "policy {}", Named(*why)),
            NoTerms::Mask => f.write_str("mask"),
            NoTerms::Static => f.write_str("static"),
        }
    }
}

/// A policy's fault by the word for it.
#[derive(Clone, Copy)]
struct Named(PolicyFault);

impl fmt::Display for Named {
    ghost use Rattle.std.specs.Prelude.{Some};
    ghost use Rattle.kl_policy.specs.Texts.{named_text};

    ghost output = { λ named. Some (named_text named.0) };

    fn fmt<W: fmt::Write>(&self, f: &mut fmt::Formatter<W>) -> fmt::Result {
        match self.0 {
            PolicyFault::Json(JsonFault::NotJson) => f.write_str("notjson"),
            PolicyFault::Json(JsonFault::Missing(name)) => write!(f, "missing {name}"),
            PolicyFault::Json(JsonFault::Kind(name)) => write!(f, "kind {name}"),
            PolicyFault::Line(place) => write!(f, "line {place}"),
            PolicyFault::BadDigest(path, place) => write!(f, "digest {path} {place}"),
            PolicyFault::Unsupported(name) => write!(f, "unsupported {name}"),
            PolicyFault::Limit(Limit::Paths) => f.write_str("limit paths"),
            PolicyFault::Limit(Limit::Patterns) => f.write_str("limit patterns"),
            PolicyFault::Limit(Limit::PatternBytes) => f.write_str("limit patternbytes"),
            PolicyFault::Exclude(ExcludeFault::Syntax(place)) => write!(f, "syntax {place}"),
            PolicyFault::Exclude(ExcludeFault::TooLarge(place)) => write!(f, "toolarge {place}"),
            PolicyFault::Json(_) | PolicyFault::Exclude(_) | PolicyFault::Memory => Ok(()),
        }
    }
}

/// Why no terms were made.
#[derive(Clone, Copy, Debug, PartialEq, Eq)]
pub enum NamingFault {
    /// The command names none.
    None(NoTerms),
    /// Memory ran out.
    Memory,
}

impl From<Memory> for NamingFault {
    ghost use Rattle.std.specs.Prelude.{◌≡◌};
    ghost use Rattle.kl_session.specs.declared.naming.NamingFault.TheVariants.{Memory as no_memory};

    ghost from_gives = { λ _ fault. fault ≡ no_memory };

    fn from(_refused: Memory) -> NamingFault {
        NamingFault::Memory
    }
}

/// The policy that a text is: that of the record at the place `latest`, where that installed one of the same text and
/// form.
pub fn policy_of<P: PatternMaker>(
    alloc: Global,
    kind: PolicyKind,
    text: Text,
    book: &Book,
    latest: u64,
    maker: &mut P,
) -> Result<Policy, NamingFault>
    ensures policy { IfOk result (IsPolicy kind text) }
    ensures reads { IfOk result (λ p. (o o' : Outside) → Tells o o' (P.told maker.old) (P.told maker.new) → Reads o o' book.now.history kind p) }
    ensures fault { IfErr result (λ f. (o o' : Outside) → Tells o o' (P.told maker.old) (P.told maker.new) → IsPolicyFault o o' kind text f) }
{
    match installed_at(book, latest) {
        Some(policy) if policy.is_of(kind, text.as_str()) => Ok(policy.share()?),
        _ => read(alloc, kind, text, maker),
    }
}

/// The policy that the record at a place installed, where it is an install.
fn installed_at(book: &Book, place: u64) -> Option<&Policy>
    ensures { IfSome result (λ policy. WasInstalled book.now.history policy.now) }
{
    match book.record(place) {
        Some(Record::Install { terms, .. }) => Some(terms.terms().policy()),
        _ => None,
    }
}

/// Reads a policy.
fn read<P: PatternMaker>(
    alloc: Global,
    kind: PolicyKind,
    text: Text,
    maker: &mut P,
) -> Result<Policy, NamingFault>
    ensures policy { IfOk result (IsPolicy kind text) }
    ensures reads { IfOk result (λ p. (o o' : Outside) (H : History) → Tells o o' (P.told maker.old) (P.told maker.new) → Reads o o' H kind p) }
    ensures fault { IfErr result (λ f. (o o' : Outside) → Tells o o' (P.told maker.old) (P.told maker.new) → IsPolicyFault o o' kind text f) }
{
    match read_policy(alloc, kind, text.into_string(), maker) {
        Ok(policy) => Ok(policy),
        Err(PolicyFault::Memory) => Err(NamingFault::Memory),
        Err(why) => Err(NamingFault::None(NoTerms::Policy(why))),
    }
}

/// The terms that an add names.
pub fn terms_of<P: PatternMaker>(
    alloc: Global,
    add: Add,
    book: &Book,
    latest: u64,
    maker: &mut P,
) -> Result<Terms, NamingFault>
    ensures names { IfOk result (λ t. NamesTerms add t) }
    ensures good { IfOk result (λ t. AreTerms t) }
    ensures reads { IfOk result (λ t. (o o' : Outside) → Tells o o' (P.told maker.old) (P.told maker.new) → Reads o o' book.now.history add.kind t.policy) }
    ensures fault { IfErr result (λ f. (o o' : Outside) → Tells o o' (P.told maker.old) (P.told maker.new) → IsTermsFault o o' book.now.history add f) }
{
    let policy = match policy_of(alloc, add.kind, add.policy, book, latest, maker) {
        Ok(policy) => policy,
        Err(fault) => return Err(fault),
    };
    let contact = add.contact.into_string();
    let statics = add.statics.into_vec();
    let ak = add.ak.into_vec();
    match Terms::new(contact, add.bank, add.mask, statics, ak, add.v, policy) {
        Ok(terms) => Ok(terms),
        Err(TermsFault::Mask) => Err(NamingFault::None(NoTerms::Mask)),
        Err(TermsFault::Static) => Err(NamingFault::None(NoTerms::Static)),
    }
}
