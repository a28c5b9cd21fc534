use crate::common::agent_of;
use kl_keys::*;
use sealings::{SEALINGS, Sealing};
use std::alloc::Global;
use std::test::*;
use vectors::VECTORS;

mod sealings;
mod vectors;

#[test]
fn hmac_has_the_values_from_outside(rt: HostRuntime) {
    for vector in &VECTORS {
        let short = hmac256(vector.key, vector.message) == vector.hmac256;
        let long = hmac384(vector.key, vector.message) == vector.hmac384;
        assert!(rt; short && long, "under a key of {} bytes", vector.key.len());
    }
}

/// Whether keys sign, what they say of the signature and of one whose last byte differs, and their faults.
fn own_and_other<Y: Keys>(
    alloc: Global,
    keys: &mut Y,
    key: &[u8],
    message: &[u8],
) -> Result<(bool, Option<bool>, Option<bool>, u64), Memory> {
    let mut signature = match keys.sign(alloc, key, message) {
        Ok(signature) => signature,
        Err(KeysError::Fault) => Vec::new(alloc),
        Err(KeysError::Memory) => return Err(Memory),
    };
    let signs = !signature.is_empty();
    let own = keys.verify(key, message, &signature).ok();
    let last = signature.pop().unwrap_or(0);
    signature.push(last ^ 1)?;
    let other = keys.verify(key, message, &signature).ok();
    Ok((signs, own, other, keys.faults()))
}

#[test]
fn keys_know_their_signatures_and_fail_at_listed_calls(rt: HostRuntime) -> Result<(), Fail> {
    let known = (true, Some(true), Some(false), 0);
    let long = [7u8; 5000];
    let late = [9u64; 300];
    let cases: [(&[u64], &[u8], (bool, Option<bool>, Option<bool>, u64)); 4] = [
        (&[], b"", known),
        (&late, &long, known),
        (&[1], b"quote", (false, Some(false), Some(false), 1)),
        (&[2, 3], b"quote", (true, None, None, 2)),
    ];
    for (listed, message, answers) in cases {
        let mut keys = MacKeys::new(rt.alloc(), listed)?;
        let given = own_and_other(rt.alloc(), &mut keys, b"key", message)?;
        assert!(rt; given == answers, "of {} bytes", message.len());
    }
    Ok(())
}

type Secret = Option<[u8; 32]>;

/// The sealed secret in digits, and what is unsealed of it, of it without its last byte, and of that with another
/// first byte.
fn sealed<Y: Keys>(
    alloc: Global,
    keys: &mut Y,
    row: &Sealing,
) -> Result<(String, [Secret; 3]), Fail> {
    let mut bytes = keys.seal(alloc, row.public, &row.secret)?;
    let shown = hex::encode(alloc, &bytes)?;
    let own = keys.unseal(row.public, &bytes)?;
    if let Some(first) = bytes.first_mut() {
        *first ^= 1;
    }
    let other = keys.unseal(row.public, &bytes)?;
    drop(bytes.pop());
    let short = keys.unseal(row.public, &bytes)?;
    Ok((shown, [own, other, short]))
}

/// The blob in digits, and the secrets that are read of it with the two keys, and with their places changed.
fn credited<Y: Keys>(
    alloc: Global,
    keys: &mut Y,
    row: &Sealing,
) -> Result<(String, [Secret; 2]), Fail> {
    let blob = keys.credential(alloc, row.ek, row.ak, &row.secret)?;
    let shown = hex::encode(alloc, &blob)?;
    let own = keys.activate(row.ek, row.ak, &blob)?;
    let other = keys.activate(row.ak, row.ek, &blob)?;
    Ok((shown, [own, other]))
}

#[test]
fn secrets_are_sealed_and_read_again(rt: HostRuntime) -> Result<(), Fail> {
    for row in &SEALINGS {
        let mut keys = MacKeys::new(rt.alloc(), &[])?;
        let (shown, read) = sealed(rt.alloc(), &mut keys, row)?;
        let (blob, known) = credited(rt.alloc(), &mut keys, row)?;
        let as_sealed = shown.as_str() == row.sealed && read == [Some(row.secret), None, None];
        let as_blob = blob.as_str() == row.blob && known == [Some(row.secret), None];
        assert!(rt;
            as_sealed && as_blob && keys.faults() == 0,
            "for a key of {} bytes",
            row.public.len()
        );
    }
    Ok(())
}

#[test]
fn each_call_on_secrets_fails_where_it_is_listed(rt: HostRuntime) -> Result<(), Fail> {
    let secret = [7; 32];
    for listed in [1u64, 2, 3, 4] {
        let mut keys = MacKeys::new(rt.alloc(), &[listed])?;
        let failed = [
            keys.seal(rt.alloc(), b"p", &secret).is_err(),
            keys.unseal(b"p", b"").is_err(),
            keys.credential(rt.alloc(), b"e", b"a", &secret).is_err(),
            keys.activate(b"e", b"a", b"").is_err(),
        ];
        let expected = [listed == 1, listed == 2, listed == 3, listed == 4];
        assert!(rt; failed == expected && keys.faults() == 1, "call {listed}");
    }
    Ok(())
}

/// The tag of `a1` under 32 bytes 2, by Python's `hmac`.
const TAG: &str =
    "270190fbb401f468840a139f8ccf45fa8c8a3d74d4f256ad352123fca149f829a5236da6958f94b3f9f4d028072e3107";

#[test]
fn a_tag_is_read_in_either_case(rt: HostRuntime) -> Result<(), Fail> {
    let id = agent_of("a1")?;
    let upper = TAG.to_ascii_uppercase(rt.alloc())?;
    let cases: [(u8, &str, bool); 7] = [
        (2, TAG, true),
        (2, upper.as_str(), true),
        (1, TAG, false),
        (
            2,
            "270190fbb401f468840a139f8ccf45fa8c8a3d7404f256ad352123fca149f829a5236da6958f94b3f9f4d028072e3107",
            false,
        ),
        (
            2,
            "270190fbb401f468840a139f8ccf45fa8c8a3d74d4f256ad352123fca149f829a5236da6958f94b3f9f4d028072e310",
            false,
        ),
        (
            2,
            "270190fbb401f468840a139f8ccf45fa8c8a3d74d4f256ad352123fca149f829a5236da6958f94b3f9f4d028072e310700",
            false,
        ),
        (2, "", false),
    ];
    for (byte, text, matches) in cases {
        let key = [byte; 32];
        let shown = hex::encode(rt.alloc(), &tag(&key, &id))?;
        let given = tag_matches(&key, &id, text);
        assert!(rt;
            given == matches && (shown.as_str() == TAG) == (byte == 2),
            "{text}"
        );
    }
    Ok(())
}
