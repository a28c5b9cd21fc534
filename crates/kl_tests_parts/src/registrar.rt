use crate::common::agent_of;
use kl_keys::MacKeys;
use kl_registrar::*;
use kl_states::AgentId;
use std::alloc::Global;
use std::test::*;

/// The tags of `a1` under 32 bytes 1, and under 32 bytes 2, by Python's `hmac`.
const FIRST: &str =
    "9bf28bd42e703e3f70ea22764cc281215d7b02e3ac3084f4e63139a53ffdaddb8decfda2ffb4726a2bd9c7f8c70cd4c3";

const SECOND: &str =
    "270190fbb401f468840a139f8ccf45fa8c8a3d74d4f256ad352123fca149f829a5236da6958f94b3f9f4d028072e3107";

/// The blobs of 32 bytes 1, and of 32 bytes 2, for the keys `e1` and `k1`, by Python's `hmac`.
const BLOBS: [&str; 2] = [
    "902c3b5fae105a9e9fbf187fbe12ff1d2eb2c805133ac2593baa0787d831a3151ce7c8de4def08d0da899965eb19d64daf4378f58fa9349482927857e92637f0",
    "932f385cad13599d9cbc1b7cbd11fc1e2db1cb061039c15a38a90484db32a016ae158850c97e8605c68ae2186d40c0605db16fc5d2c52a74af61573d3530fe09",
];

/// Registers an agent under 32 such bytes with the keys `e1` and `k1`, and gives the blob in digits.
fn registered(
    alloc: Global,
    registrar: &mut Registrar,
    id: &AgentId,
    byte: u8,
    keys: &mut MacKeys,
) -> Result<String, RegFault> {
    let blob = registrar.register(alloc, *id, b"e1", b"k1", "h:9002", [byte; 32], keys)?;
    match hex::encode(alloc, &blob) {
        Ok(digits) => Ok(digits),
        Err(_) => Err(RegFault::Memory),
    }
}

/// Whether an agent registers and gets this blob.
fn gets(
    alloc: Global,
    registrar: &mut Registrar,
    id: &AgentId,
    byte: u8,
    keys: &mut MacKeys,
    blob: &str,
) -> bool {
    match registered(alloc, registrar, id, byte, keys) {
        Ok(digits) => digits.as_str() == blob,
        Err(_) => false,
    }
}

/// Whether an agent that activates itself with this tag is answered so, and is refused so then.
fn is_answered(
    registrar: &mut Registrar,
    id: &AgentId,
    tag: &str,
    answer: Result<(), RegFault>,
    fault: Option<RegFault>,
) -> bool {
    registrar.activate(id, tag) == answer && registrar.get(id).err() == fault
}

/// Whether there is a record with the keys `e1` and `k1`, and 32 such bytes.
fn is_kept(registrar: &Registrar, id: &AgentId, byte: u8) -> bool {
    match registrar.get(id) {
        Ok(record) => {
            record.ek.as_slice() == b"e1".as_slice()
                && record.ak.as_slice() == b"k1".as_slice()
                && record.contact.as_str() == "h:9002"
                && record.secret == [byte; 32]
        }
        Err(_) => false,
    }
}

#[test]
fn an_agent_is_active_by_the_tag_under_its_latest_secret(rt: HostRuntime) -> Result<(), Fail> {
    let mut keys = MacKeys::new(rt.alloc(), &[])?;
    let mut registrar = Registrar::new(rt.alloc())?;
    let a1 = agent_of("a1")?;
    let upper = SECOND.to_ascii_uppercase(rt.alloc())?;
    let first = gets(rt.alloc(), &mut registrar, &a1, 1, &mut keys, BLOBS[0]);
    let second = gets(rt.alloc(), &mut registrar, &a1, 2, &mut keys, BLOBS[1]);
    assert!(rt; first && second);
    let (wrong, inactive) = (Err(RegFault::WrongTag), Some(RegFault::NotActive));
    for (tag, answer, fault) in [
        (FIRST, wrong, inactive),
        ("", wrong, inactive),
        (upper.as_str(), Ok(()), None),
        (FIRST, wrong, None),
        (SECOND, Ok(()), None),
    ] {
        assert!(rt;
            is_answered(&mut registrar, &a1, tag, answer, fault),
            "{tag}"
        );
    }
    assert!(rt; is_kept(&registrar, &a1, 2));
    Ok(())
}

#[test]
fn a_refused_register_leaves_the_record(rt: HostRuntime) -> Result<(), Fail> {
    let mut keys = MacKeys::new(rt.alloc(), &[2])?;
    let mut registrar = Registrar::new(rt.alloc())?;
    let a1 = agent_of("a1")?;
    let first = gets(rt.alloc(), &mut registrar, &a1, 1, &mut keys, BLOBS[0]);
    let answer = registrar.activate(&a1, FIRST);
    let refused = registered(rt.alloc(), &mut registrar, &a1, 2, &mut keys);
    assert!(rt; first && answer.is_ok() && refused == Err(RegFault::KeysFault));
    assert!(rt; is_kept(&registrar, &a1, 1));
    Ok(())
}

/// Whether an agent registers under 32 bytes 2, and activates itself.
fn is_entered(alloc: Global, registrar: &mut Registrar, id: &AgentId, keys: &mut MacKeys) -> bool {
    let is_registered = registered(alloc, registrar, id, 2, keys).is_ok();
    match hex::encode(alloc, &kl_keys::tag(&[2; 32], id)) {
        Ok(tag) => is_registered && registrar.activate(id, tag.as_str()).is_ok(),
        Err(_) => false,
    }
}

/// Whether these are the agents of these names.
fn are_named(ids: &[AgentId], names: &[&str]) -> bool {
    ids.len() == names.len() && ids.iter().zip(names).all(|(id, name)| id.as_str() == *name)
}

#[test]
fn active_agents_are_listed_in_the_order_of_their_names(rt: HostRuntime) -> Result<(), Fail> {
    let mut keys = MacKeys::new(rt.alloc(), &[])?;
    let mut registrar = Registrar::new(rt.alloc())?;
    for name in ["b", "a1", "a", "Z"] {
        let id = agent_of(name)?;
        assert!(rt;
            is_entered(rt.alloc(), &mut registrar, &id, &mut keys),
            "{name}"
        );
    }
    let passive = registered(rt.alloc(), &mut registrar, &agent_of("_")?, 2, &mut keys);
    let gone = agent_of("a")?;
    let twice = (registrar.remove(&gone), registrar.remove(&gone));
    assert!(rt; passive.is_ok() && twice == (Ok(()), Err(RegFault::NoAgent)));
    let ids = registrar.list(rt.alloc())?;
    assert!(rt; are_named(&ids, &["Z", "a1", "b"]));
    Ok(())
}

#[test]
fn a_registrar_has_at_most_1024_other_records(rt: HostRuntime) -> Result<(), Fail> {
    let mut keys = MacKeys::new(rt.alloc(), &[])?;
    let mut registrar = Registrar::new(rt.alloc())?;
    for number in 0..1_024 {
        let name = format!(in rt.alloc(); "g{number}")?;
        let given = registered(rt.alloc(), &mut registrar, &agent_of(&name)?, 1, &mut keys);
        assert!(rt; given.is_ok(), "{name}");
    }
    let (known, new) = (agent_of("g7")?, agent_of("z")?);
    let other = registered(rt.alloc(), &mut registrar, &new, 1, &mut keys);
    let again = registered(rt.alloc(), &mut registrar, &known, 2, &mut keys);
    let removed = registrar.remove(&known);
    let now = registered(rt.alloc(), &mut registrar, &new, 1, &mut keys);
    assert!(rt; other == Err(RegFault::Full) && again.is_ok() && removed.is_ok() && now.is_ok());
    one_activation();
    one_count();
    Ok(())
}

#[test]
fn each_fault_is_printed(rt: HostRuntime) -> Result<(), Fail> {
    let cases = [
        (RegFault::Full, "full"),
        (RegFault::KeysFault, "keys"),
        (RegFault::NoAgent, "noagent"),
        (RegFault::WrongTag, "wrongtag"),
        (RegFault::NotActive, "notactive"),
        (RegFault::Memory, "memory"),
    ];
    for (fault, text) in cases {
        let shown = fault.to_string(rt.alloc())?;
        assert!(rt; shown.as_str() == text, "{text}");
    }
    Ok(())
}
