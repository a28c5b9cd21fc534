//! Expected values are computed by Python's hashlib over template data laid out by hand.
ghost use Rattle.std.specs.Prelude.{◌≡◌, ◌≤◌, length, IfOk};
ghost use Rattle.kl_bank.specs.Banks.{size_of};

use crate::common::shared;
use kl_bank::{Bank, Digest};
use kl_entry::{Entry, EntryData, FileDigest};
use kl_pcr::*;
use std::alloc::Global;
use std::marker::Brand;
use std::sync::ledger::{Blank, Ledger};
use std::test::Fail;

fn measured_from<L: Ledger>(bank: Bank, entry: &Entry<'_>, blank: Blank) -> (Digest, Digest)
    requires name { blank.name ≡ L.name }
    requires parts { blank.parts ≡ L.parts }
    requires some { 1 ≤ blank.parts }
    ensures first { length result.0 ≡ size_of bank }
    ensures second { length result.1 ≡ size_of bank }
{
    let mut steps = Steps::<L>::of(blank);
    let mut data = EntryData::new();
    data.lay_out(entry);
    let by_pieces = measured(bank, entry, &mut steps);
    let laid_out = measured_with(bank, entry, &data, &mut steps);
    (by_pieces, laid_out)
}

/// What `measured` and `measured_with` give.
fn both_measured(bank: Bank, entry: &Entry<'_>) -> (Digest, Digest)
    ensures first { length result.0 ≡ size_of bank }
    ensures second { length result.1 ≡ size_of bank }
{
    measured_from::<Brand>(bank, entry, Blank::new(1))
}

/// Each bank, with what the first entry is measured as and the end of a replay of all three.
const REPLAYS: [(Bank, &str); 3] = [
    (
        Bank::Sha1,
        "a4817d498c02bbed4f78ac1b135c293faa068eb0 e46e389dddcf113c46f93764ccd92c7188bb8405",
    ),
    (
        Bank::Sha256,
        "b158aabf860180c13238ef0e2fa8a1936fbdcf580a280409ffc7508790933114 88e85dd9cc07bea3c32a171642d393ad63edbfde677b016a99676611e6c23e4d",
    ),
    (
        Bank::Sha384,
        "096fdc620c172e8fbf6a14213e7366cf906cf83d0afb71fab5509133617731fb02ce9e683bf266cdc1c187eff5a6b353 46f5589f050f0e0fe351b8731c067e1cf93845bf46c678eeb94b28e8ab010d7289331c11cb51a8f6c2640fd6013d9dad",
    ),
];

/// Whether `boot_aggregate`, a violation and `/bin/a b` are measured and replayed so.
fn is_replayed(alloc: Global, bank: Bank, hash_and_end: &str) -> bool {
    let (Some(boot), Some(file)) = (
        FileDigest::from_bytes(&[0xAB; 32]),
        FileDigest::from_bytes(&[1; 20]),
    ) else {
        return false;
    };
    // The template hash matters only in that it is not zeros.
    let first = Entry::new([7; 20], "sha256", boot, "boot_aggregate");
    let violation = Entry::new([0; 20], "sha256", boot, "boot_aggregate");
    let last = Entry::new([7; 20], "sha1", file, "/bin/a b");
    let (hash, too) = both_measured(bank, &first);
    let (ones, ones_too) = both_measured(bank, &violation);
    let (other, _) = both_measured(bank, &last);
    let end = replay(bank, &bank.zeros(), &[hash, ones, other]);
    let same = too == hash && ones == bank.ones() && ones_too == ones;
    match format!(in alloc; "{hash:?} {end:?}") {
        Ok(shown) => same && shown.as_str() == hash_and_end,
        Err(_) => false,
    }
}

fn first_otherwise_replayed(alloc: Global) -> Option<usize> {
    REPLAYS.iter().position(|(bank, hash_and_end)| !is_replayed(alloc, *bank, hash_and_end))
}

#[test]
fn a_replay_extends_what_each_entry_is_measured_as(rt: HostRuntime) {
    assert_eq!(rt; first_otherwise_replayed(rt.alloc()), None);
}

#[test]
fn a_binding_extends_zeros_by_the_hash_of_the_key(rt: HostRuntime) -> Result<(), Fail> {
    let bound = binding(Bank::Sha256, b"key");
    let shown = format!(in rt.alloc(); "{bound:?}")?;
    let digest = pcr_digest(&[1, 2, 3]);
    assert!(rt;
        digest.starts_with(&[0x03, 0x90, 0x58, 0xC6])
            && shown.as_str() == "0ea269a4fb424fa2a658d5fb33126d8d614e7f1fea08e09fcbcd395986ca54fe"
    );
    Ok(())
}

/// The first byte of a PCR's value, where there are as many values as PCRs of the mask.
fn first_byte(bank: Bank, mask: u32, values: &[u8], n: u8) -> Option<u8> {
    if values.len() != bank.size() * mask.count_ones() as usize {
        return None;
    }
    match value(bank, mask, values, n) {
        Some(value) => value.as_slice().first().copied(),
        None => None,
    }
}

#[test]
fn a_value_stands_behind_those_of_the_lower_pcrs(rt: HostRuntime) {
    let mask = 1 << 4 | 1 << 10 | 1 << 31;
    let mut values = [4; 60];
    values[20..40].copy_from_slice(&[10; 20]);
    values[40..].copy_from_slice(&[31; 20]);
    for (n, want) in [
        (4, Some(4)),
        (10, Some(10)),
        (31, Some(31)),
        (0, None),
        (5, None),
        (30, None),
        (32, None),
        (255, None),
    ] {
        assert_eq!(rt; first_byte(Bank::Sha1, mask, &values, n), want);
    }
}

/// Each PCR with the one value that it may have, of this byte alone.
fn fixed(alloc: Global, bank: Bank, pcrs: &[(u8, u8)]) -> Result<Statics, Fail> {
    let mut statics = Vec::new(alloc);
    for (pcr, byte) in pcrs {
        let bytes = [*byte; 48];
        let value = bank
            .digest(&bytes[..bank.size()])
            .ok_or("the size is the bank's")?;
        let allowed = Digests::new(Vec::from_array(alloc, [value])?);
        statics.push(Static { pcr: *pcr, allowed })?;
    }
    Ok(Statics::new(statics))
}

/// The least wrong PCR, of static PCRs and values that fit the mask; 255 where they do not fit.
fn wrong_of(bank: Bank, mask: u32, values: &[u8], statics: &[Static]) -> Option<u8> {
    if !statics_ok(bank, mask, statics)
        || values.len() != bank.size() * mask.count_ones() as usize
    {
        return Some(255);
    }
    first_wrong(bank, mask, values, statics)
}

#[test]
fn the_least_pcr_with_a_wrong_value_is_named(rt: HostRuntime) -> Result<(), Fail> {
    let mask = 1 << 1 | 1 << 4 | 1 << 7;
    let mut values = [1; 60];
    values[20..40].copy_from_slice(&[4; 20]);
    values[40..].copy_from_slice(&[7; 20]);
    for (allowed, wrong) in [
        ([(7, 7), (4, 4), (1, 1)], None),
        ([(7, 0), (4, 4), (1, 1)], Some(7)),
        ([(7, 0), (4, 0), (1, 1)], Some(4)),
        ([(7, 7), (4, 0), (1, 0)], Some(1)),
    ] {
        let statics = fixed(rt.alloc(), Bank::Sha1, &allowed)?;
        assert_eq!(rt;
            wrong_of(Bank::Sha1, mask, &values, statics.as_slice()),
            wrong
        );
    }
    Ok(())
}

#[test]
fn static_pcrs_are_of_the_mask_and_stand_once(rt: HostRuntime) -> Result<(), Fail> {
    let mask = 1 << 0 | 1 << 4 | 1 << 10 | 1 << 16 | 1 << 23;
    for (bank, of, pcrs, fine) in [
        (Bank::Sha1, Bank::Sha1, [0, 23, 4], true),
        (Bank::Sha256, Bank::Sha256, [4, 0, 23], true),
        (Bank::Sha256, Bank::Sha384, [4, 0, 23], false),
        (Bank::Sha1, Bank::Sha1, [4, 0, 4], false),
        (Bank::Sha1, Bank::Sha1, [10, 4, 0], false),
        (Bank::Sha1, Bank::Sha1, [4, 0, 16], false),
        (Bank::Sha1, Bank::Sha1, [5, 4, 0], false),
        (Bank::Sha1, Bank::Sha1, [4, 0, 36], false),
    ] {
        let [first, second, third] = pcrs;
        let statics = fixed(rt.alloc(), of, &[(first, 1), (second, 2), (third, 3)])?;
        assert_eq!(rt; statics_ok(bank, mask, statics.as_slice()), fine);
    }
    Ok(())
}

#[test]
fn a_static_pcr_allows_something(rt: HostRuntime) {
    let allowed = Digests::new(Vec::new(rt.alloc()));
    let nothing = [Static { pcr: 4, allowed }];
    assert!(rt; statics_ok(Bank::Sha1, 1 << 4, &[]) && !statics_ok(Bank::Sha1, 1 << 4, &nothing));
}

#[test]
fn threads_may_share_static_pcrs(rt: HostRuntime) {
    shared(&Digests::new(Vec::new(rt.alloc())));
    shared(&Statics::new(Vec::new(rt.alloc())));
}
