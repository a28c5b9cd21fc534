//! Agents are installed.

ghost use Rattle.std.specs.Prelude.{◌≡◌, ◌-◌, IfOk, IfErr, Some, string_bytes};
ghost use Rattle.kl_session.specs.Installs.{DoesAdd, DoesReplace, DoesReactivate, says_installed, says_installed_or};
ghost use Rattle.kl_session.specs.declared.naming.NoTerms.{NoTerms};
ghost use Rattle.kl_session.specs.Outside.{Outside};
ghost use Rattle.kl_session.specs.Texts.{no_terms_text, refused_line};
ghost use Rattle.kl_session.specs.Inner.Naming.{Tells};
ghost use Rattle.kl_session.specs.Inner.Stopping.{IsShort, IsUnread};

use crate::naming::{NamingFault, policy_of, terms_of};
use crate::refusals::say_refused;
use crate::stop::Stop;
use crate::texts::{installed_line, no_terms_line};
use crate::verifier::Verifier;
use kl_core::Refusal;
use kl_exclude::PatternMaker;
use kl_script::{Add, Replace};
use kl_states::AgentId;
use std::alloc::Global;

/// What is said of an install.
fn say_installed(
    alloc: Global,
    agent: AgentId,
    answer: Result<u64, Refusal>,
) -> Result<String, Stop>
    ensures line { IfOk result (λ line. says_installed agent answer ≡ Some (string_bytes line)) }
    ensures short { IfErr result (λ stop. stop ≡ Stop.Memory) }
{
    match answer {
        Ok(generation) => Ok(installed_line(alloc, agent, generation)?),
        Err(why) => say_refused(alloc, why),
    }
}

/// What is said of an install, where a refusal hands back what was to be installed.
fn say_installed_or<T: Drop>(
    alloc: Global,
    agent: AgentId,
    answer: Result<u64, (Refusal, T)>,
) -> Result<String, Stop>
    ensures line { IfOk result (λ line. says_installed_or agent answer ≡ Some (string_bytes line)) }
    ensures short { IfErr result (λ stop. stop ≡ Stop.Memory) }
{
    match answer {
        Ok(generation) => Ok(installed_line(alloc, agent, generation)?),
        Err((why, _back)) => say_refused(alloc, why),
    }
}

/// Where a policy was installed last: at the end of a history that is so long, where it is now; else where it was before.
fn newest_install<T>(answer: &Result<u64, T>, len: u64, before: u64) -> u64
    ensures now { IfOk answer.now (λ generation. result ≡ len - 1) }
    ensures before { IfErr answer.now (λ refused. result ≡ before) }
{
    match answer {
        Ok(_) => len.saturating_sub(1),
        Err(_) => before,
    }
}

/// What is said of a command that names no terms. Want of memory has no line: it ends a session.
fn say_unnamed(alloc: Global, fault: NamingFault) -> Result<String, Stop>
    ensures line { IfOk result (λ line. (why : NoTerms) × (fault ≡ NamingFault.None why)
        × (string_bytes line ≡ refused_line (no_terms_text why))) }
    ensures short { IfErr result (λ stop. stop ≡ Stop.Memory) }
{
    match fault {
        NamingFault::None(why) => Ok(no_terms_line(alloc, why)?),
        NamingFault::Memory => Err(Stop::Memory),
    }
}

impl Verifier {
    /// Installs an agent under the terms that an add names.
    pub(crate) fn add<P: PatternMaker>(
        &mut self,
        alloc: Global,
        add: Add,
        patterns: &mut P,
    ) -> Result<String, Stop>
        ensures done { IfOk result (λ line. (o o' : Outside) → Tells o o' (P.told patterns.old) (P.told patterns.new)
            → DoesAdd o o' add self.old self.new (string_bytes line)) }
        ensures short { IfErr result (λ stop. (o o' : Outside) → Tells o o' (P.told patterns.old) (P.told patterns.new)
            → IsUnread stop o o' add.kind add.policy self.old self.new (DoesAdd o o' add self.old self.new)) }
    {
        let agent = add.agent;
        match terms_of(alloc, add, &self.book, self.latest, patterns) {
            Ok(terms) => {
                let answer = self.book.add(alloc, agent, terms);
                let len = self.book.len();
                self.latest = newest_install(&answer, len, self.latest);
                say_installed_or(alloc, agent, answer)
            },
            Err(fault) => say_unnamed(alloc, fault),
        }
    }

    /// Installs the policy that a replace names.
    pub(crate) fn replace<P: PatternMaker>(
        &mut self,
        alloc: Global,
        replace: Replace,
        patterns: &mut P,
    ) -> Result<String, Stop>
        ensures done { IfOk result (λ line. (o o' : Outside) → Tells o o' (P.told patterns.old) (P.told patterns.new)
            → DoesReplace o o' replace self.old self.new (string_bytes line)) }
        ensures short { IfErr result (λ stop. (o o' : Outside) → Tells o o' (P.told patterns.old) (P.told patterns.new)
            → IsUnread stop o o' replace.kind replace.policy self.old self.new (DoesReplace o o' replace self.old self.new)) }
    {
        let Replace {
            agent,
            kind,
            policy,
        } = replace;
        match policy_of(alloc, kind, policy, &self.book, self.latest, patterns) {
            Ok(policy) => {
                let answer = self.book.replace(alloc, &agent, policy);
                let len = self.book.len();
                self.latest = newest_install(&answer, len, self.latest);
                say_installed_or(alloc, agent, answer)
            },
            Err(fault) => say_unnamed(alloc, fault),
        }
    }

    /// Makes an agent live again.
    pub(crate) fn reactivate(&mut self, alloc: Global, agent: AgentId) -> Result<String, Stop>
        ensures done { IfOk result (λ line. DoesReactivate agent self.old self.new (string_bytes line)) }
        ensures short { IfErr result (λ stop. IsShort stop self.old self.new (DoesReactivate agent self.old self.new)) }
    {
        let answer = self.book.reactivate(alloc, &agent);
        let _len = self.book.len();
        say_installed(alloc, agent, answer)
    }
}
