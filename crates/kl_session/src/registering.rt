//! The registrar's commands.

ghost use Rattle.std.specs.Prelude.{◌≡◌, ◌≢◌, ◌⊎◌, ℕ, List, Option, Err, IfOk, IfErr, string_bytes};
ghost use Rattle.kl_exclude.specs.Told.{MakerTold};
ghost use Rattle.kl_registrar.specs.Asking.{Asked};
ghost use Rattle.kl_registrar.specs.Records.{IsFull};
ghost use Rattle.kl_session.specs.Outside.{outside};
ghost use Rattle.kl_session.specs.Calls.{Called};
ghost use Rattle.kl_session.specs.Registering.{DoesActivate, DoesForget, DoesRecord, DoesRecords, DoesRegister};
ghost use Rattle.kl_session.specs.Registering.{RegisterAnswers, RegistrarDoes, register_makes, says, says_blob};
ghost use Rattle.kl_session.specs.Stopped.{RegistrarStopped};
ghost use Rattle.kl_session.specs.Texts.{done_line, reg_refused_line};
ghost use Rattle.kl_session.specs.Inner.Registrars.{IsUnregistered, LeadsTo, told_answer};
ghost use Rattle.kl_session.specs.Inner.Stopping.{IsShort};

use crate::drawing::draw;
use crate::registrar_texts::{blob_line, record_line, records_line, reg_refused_line};
use crate::stop::Stop;
use crate::texts::done_line;
use kl_io::Words;
use kl_keys::Keys;
use kl_registrar::{RegFault, Registrar};
use kl_script::{Activate, Register, RegistrarCommand};
use kl_states::AgentId;
use std::alloc::Global;

/// What is said of a refusal. Want of memory has no line: it ends a session.
fn say_refused(alloc: Global, why: RegFault) -> Result<String, Stop>
    ensures line { IfOk result (λ line. (why ≢ RegFault.Memory) × (string_bytes line ≡ reg_refused_line why)) }
    ensures short { IfErr result (λ stop. stop ≡ Stop.Memory) }
{
    match why {
        RegFault::Memory => Err(Stop::Memory),
        why => Ok(reg_refused_line(alloc, why)?),
    }
}

/// What is said of a register.
fn say_blob(
    alloc: Global,
    agent: AgentId,
    answer: Result<Vec<u8>, RegFault>,
) -> Result<String, Stop>
    ensures line { IfOk result (λ line. (answer ≢ Err RegFault.Memory) × (string_bytes line ≡ says_blob agent (told_answer (λ blob. blob.items) answer))) }
    ensures short { IfErr result (λ stop. stop ≡ Stop.Memory) }
{
    match answer {
        Ok(blob) => Ok(blob_line(alloc, agent, blob.as_slice())?),
        Err(why) => say_refused(alloc, why),
    }
}

/// Registers an agent under this secret.
fn enter<Y: Keys>(
    alloc: Global,
    registrar: &mut Registrar,
    register: Register,
    secret: [u8; 32],
    keys: &mut Y,
) -> Result<String, Stop>
    ensures done { IfOk result (λ line. LeadsTo registrar.old registrar.new (λ calls calls'.
        Called (RegisterAnswers register secret (Y.told keys.old) (Y.told keys.new)) (register_makes register secret) (says_blob register.agent)
        calls calls' (string_bytes line))) }
    ensures short { IfErr result (λ stop. LeadsTo registrar.old registrar.new (λ calls calls'. (stop ≡ Stop.Memory)
        × (((line : List ℕ) × Called (RegisterAnswers register secret (Y.told keys.old) (Y.told keys.new)) (register_makes register secret)
        (says_blob register.agent) calls calls' line)
        ⊎ ((calls' ≡ calls) × (¬ IsFull calls register.agent)
        × ((answer : Option (List ℕ)) × Asked (Y.told keys.old) (Y.told keys.new) register.ek register.ak secret answer ⊥))))) }
{
    let Register {
        agent,
        ek,
        ak,
        contact,
    } = register;
    let answer = registrar.register(
        alloc,
        agent,
        ek.as_slice(),
        ak.as_slice(),
        contact.as_str(),
        secret,
        keys,
    );
    say_blob(alloc, agent, answer)
}

/// Registers an agent.
fn register_agent<Y: Keys, N: Words>(
    alloc: Global,
    registrar: &mut Registrar,
    register: Register,
    keys: &mut Y,
    words: &mut N,
) -> Result<String, Stop>
    ensures done { IfOk result (λ line. (maker : MakerTold) (steps : ℕ) → LeadsTo registrar.old registrar.new (λ calls calls'.
        DoesRegister (outside (Y.told keys.old) (N.told words.old) maker steps) (outside (Y.told keys.new) (N.told words.new) maker steps)
        register calls calls' (string_bytes line))) }
    ensures stopped { IfErr result (λ stop. (maker : MakerTold) (steps : ℕ) → LeadsTo registrar.old registrar.new (λ calls calls'.
        IsUnregistered stop (outside (Y.told keys.old) (N.told words.old) maker steps) (outside (Y.told keys.new) (N.told words.new) maker steps)
        register calls calls')) }
{
    let Some(secret) = draw(words) else {
        return Err(Stop::NoNonce);
    };
    enter(alloc, registrar, register, secret, keys)
}

/// What is said where an agent's record was to become this.
fn say_done(
    alloc: Global,
    what: &str,
    agent: AgentId,
    answer: Result<(), RegFault>,
) -> Result<String, Stop>
    ensures line { IfOk result (λ line. string_bytes line ≡ says (done_line what.now agent) answer) }
    ensures short { IfErr result (λ stop. stop ≡ Stop.Memory) }
{
    match answer {
        Ok(()) => Ok(done_line(alloc, what, agent)?),
        Err(why) => say_refused(alloc, why),
    }
}

/// Makes an agent's record active.
fn activate_agent(
    alloc: Global,
    registrar: &mut Registrar,
    activate: Activate,
) -> Result<String, Stop>
    ensures done { IfOk result (λ line. LeadsTo registrar.old registrar.new (λ calls calls'. DoesActivate activate calls calls' (string_bytes line))) }
    ensures short { IfErr result (λ stop. LeadsTo registrar.old registrar.new (λ calls calls'.
        IsShort stop calls calls' (DoesActivate activate calls calls'))) }
{
    let Activate { agent, tag } = activate;
    let answer = registrar.activate(&agent, tag.as_str());
    say_done(alloc, "active", agent, answer)
}

/// Tells an agent's record.
fn record_of(alloc: Global, registrar: &Registrar, agent: AgentId) -> Result<String, Stop>
    ensures done { IfOk result (λ line. LeadsTo registrar.now registrar.now (λ calls calls'. DoesRecord agent calls calls' (string_bytes line))) }
    ensures short { IfErr result (λ stop. stop ≡ Stop.Memory) }
{
    match registrar.get(&agent) {
        Ok(record) => Ok(record_line(alloc, agent, record)?),
        Err(why) => say_refused(alloc, why),
    }
}

/// Tells which agents are active.
fn list_agents(alloc: Global, registrar: &Registrar) -> Result<String, Stop>
    ensures done { IfOk result (λ line. LeadsTo registrar.now registrar.now (λ calls calls'. DoesRecords calls calls' (string_bytes line))) }
    ensures short { IfErr result (λ stop. stop ≡ Stop.Memory) }
{
    match registrar.list(alloc) {
        Ok(ids) => Ok(records_line(alloc, ids.as_slice())?),
        Err(_) => Err(Stop::Memory),
    }
}

/// Takes an agent's record out.
fn forget_agent(alloc: Global, registrar: &mut Registrar, agent: AgentId) -> Result<String, Stop>
    ensures done { IfOk result (λ line. LeadsTo registrar.old registrar.new (λ calls calls'. DoesForget agent calls calls' (string_bytes line))) }
    ensures short { IfErr result (λ stop. LeadsTo registrar.old registrar.new (λ calls calls'.
        IsShort stop calls calls' (DoesForget agent calls calls'))) }
{
    let answer = registrar.remove(&agent);
    say_done(alloc, "forgotten", agent, answer)
}

/// Does what a command says, and answers the line to print, with its newline.
///
/// # Errors
/// `NoNonce` where a secret was to be drawn and could not be, which changes nothing. `Memory` where memory ran out,
/// before anything was done or after all was.
pub fn obey_registrar<Y: Keys, N: Words>(
    alloc: Global,
    registrar: &mut Registrar,
    command: RegistrarCommand,
    keys: &mut Y,
    words: &mut N,
) -> Result<String, Stop>
    ensures done { IfOk result (λ line. (maker : MakerTold) (steps : ℕ) → LeadsTo registrar.old registrar.new (λ calls calls'.
        RegistrarDoes (outside (Y.told keys.old) (N.told words.old) maker steps) (outside (Y.told keys.new) (N.told words.new) maker steps)
        calls command calls' (string_bytes line))) }
    ensures stopped { IfErr result (λ stop. (maker : MakerTold) (steps : ℕ) → LeadsTo registrar.old registrar.new (λ calls calls'.
        RegistrarStopped stop (outside (Y.told keys.old) (N.told words.old) maker steps) (outside (Y.told keys.new) (N.told words.new) maker steps)
        calls command calls')) }
{
    match command {
        RegistrarCommand::Register(register) => {
            register_agent(alloc, registrar, register, keys, words)
        },
        RegistrarCommand::Activate(activate) => activate_agent(alloc, registrar, activate),
        RegistrarCommand::Record(agent) => record_of(alloc, registrar, agent),
        RegistrarCommand::Records => list_agents(alloc, registrar),
        RegistrarCommand::Forget(agent) => forget_agent(alloc, registrar, agent),
    }
}
