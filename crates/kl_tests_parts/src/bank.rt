//! Expected values are the examples of FIPS 180-4, and extensions computed by Python's hashlib.
use crate::common::shared;
use kl_bank::{Bank, Digest, Hasher};
use std::alloc::Global;
use std::test::*;

/// Each bank with the number of its algorithm in the TPM's standard, its name and the bytes of its digests.
const NAMED: [(Bank, u16, &str, usize); 3] = [
    (Bank::Sha1, 0x0004, "sha1", 20),
    (Bank::Sha256, 0x000B, "sha256", 32),
    (Bank::Sha384, 0x000C, "sha384", 48),
];

/// Whether a bank has this number, name and size, and is the one of that number and name.
fn is_named(alloc: Global, bank: Bank, alg: u16, name: &str, size: usize) -> bool {
    let is_shown = match bank.to_string(alloc) {
        Ok(shown) => shown.as_str() == name,
        Err(_) => false,
    };
    is_shown
        && (bank.alg(), bank.size()) == (alg, size)
        && bank.name() == name
        && Bank::from_alg(alg) == Some(bank)
        && Bank::from_name(name) == Some(bank)
}

fn first_misnamed(alloc: Global) -> Option<usize> {
    NAMED.iter().position(|(bank, alg, name, size)| !is_named(alloc, *bank, *alg, name, *size))
}

#[test]
fn each_bank_has_its_id_name_and_size(rt: HostRuntime) {
    assert_eq!(rt; first_misnamed(rt.alloc()), None);
    assert!(rt; Bank::from_alg(0x000D).is_none() && Bank::from_name("SHA256").is_none());
}

/// Whether a digest has these digits.
fn is_shown(alloc: Global, digest: &Digest, digits: &str) -> bool {
    match format!(in alloc; "{digest:?}") {
        Ok(shown) => shown.as_str() == digits,
        Err(_) => false,
    }
}

const OF_ABC: [(Bank, &str); 3] = [
    (Bank::Sha1, "a9993e364706816aba3e25717850c26c9cd0d89d"),
    (
        Bank::Sha256,
        "ba7816bf8f01cfea414140de5dae2223b00361a396177a9cb410ff61f20015ad",
    ),
    (
        Bank::Sha384,
        "cb00753f45a35e8bb5a03d699ac65007272c32ab0eded1631a8b605a43ff5bed8086072ba1e7cc2358baeca134c825a7",
    ),
];

/// Whether `abc` has this digest, hashed at once and in two pieces.
fn is_of_abc(alloc: Global, bank: Bank, digits: &str) -> bool {
    let mut hasher = Hasher::new(bank);
    hasher.update(b"a");
    hasher.update(b"bc");
    let whole = bank.hash(b"abc");
    hasher.finish() == whole && is_shown(alloc, &whole, digits)
}

fn first_other_of_abc(alloc: Global) -> Option<usize> {
    OF_ABC
        .iter()
        .position(|(bank, digits)| !is_of_abc(alloc, *bank, digits))
}

#[test]
fn abc_has_the_digests_of_the_standard(rt: HostRuntime) {
    assert_eq!(rt; first_other_of_abc(rt.alloc()), None);
}

/// Zeros, extended by zeros and by the digest of `abc`.
const EXTENDED: [(Bank, &str, &str); 3] = [
    (
        Bank::Sha1,
        "b80de5d138758541c5f05265ad144ab9fa86d1db",
        "ccd5bd41458de644ac34a2478b58ff819bef5acf",
    ),
    (
        Bank::Sha256,
        "f5a5fd42d16a20302798ef6ed309979b43003d2320d9f0e8ea9831a92759fb4b",
        "589f9ffed4c477966bfb8d41f37895b08c69047df8f911d6f3b57fbe08faee8d",
    ),
    (
        Bank::Sha384,
        "f57bb7ed82c6ae4a29e6c9879338c592c7d42a39135583e8ccbe3940f2344b0eb6eb8503db0ffd6a39ddd00cd07d8317",
        "93732e3733514a841c982cfa75ea76ab55fe011acb9cd980ef4523913c65be1b0998e04d77f8c174f81a82151619ca40",
    ),
];

/// Whether zeros are extended to these.
fn are_extended(alloc: Global, bank: Bank, by_zeros: &str, by_abc: &str) -> bool {
    let zeros = bank.zeros();
    is_shown(alloc, &bank.extend(&zeros, &zeros), by_zeros)
        && is_shown(alloc, &bank.extend(&zeros, &bank.hash(b"abc")), by_abc)
}

fn first_otherwise_extended(alloc: Global) -> Option<usize> {
    EXTENDED.iter().position(|(bank, by_zeros, by_abc)| !are_extended(
        alloc, *bank, by_zeros, by_abc,
    ))
}

#[test]
fn extending_hashes_the_old_value_and_then_the_new_digest(rt: HostRuntime) {
    assert_eq!(rt; first_otherwise_extended(rt.alloc()), None);
}

/// Whether the digests of a bank are those bytes that have its size.
fn has_its_size(bank: Bank) -> bool {
    let (bytes, size) = ([0xFF; 49], bank.size());
    bank.digest(&bytes[..size]) == Some(bank.ones())
        && bank.digest(&bytes[..size - 1]).is_none()
        && bank.digest(&bytes[..size + 1]).is_none()
        && bank.zeros() != bank.ones()
        && bank.zeros().as_slice().len() == size
}

#[test]
fn a_digest_has_the_size_of_its_bank(rt: HostRuntime) {
    assert!(rt;
        has_its_size(Bank::Sha1) && has_its_size(Bank::Sha256) && has_its_size(Bank::Sha384)
    );
}

#[test]
fn threads_may_share_banks_and_digests() {
    shared(&Bank::Sha1);
    shared::<Digest>(&Bank::Sha1.zeros());
}
