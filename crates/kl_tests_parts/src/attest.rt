use kl_attest::*;
use std::alloc::Global;
use std::test::*;

/// A quote of PCRs 10 and 16 in the bank of SHA-256 in digits, packed by Python's `struct` from the tables of the standard: what
/// stands before its selections, these, and what stands behind them.
const FRONT: &str =
    "ff54434780180022000b606162636465666768696a6b6c6d6e6f707172737475767778797a7b7c7d7e7f00206162636465666768696a6b6c6d6e6f707172737475767778797a41424344454601020304050607081112131421222324013132333435363738";

const SELECTIONS: &str = "00000001000b03000401";

const BEHIND: &str = "0020c0c1c2c3c4c5c6c7c8c9cacbcccdcecfd0d1d2d3d4d5d6d7d8d9dadbdcdddedf";

/// The quote with these selections, None where these are no digits or memory ran out.
fn selecting(alloc: Global, selections: &str) -> Option<Vec<u8>> {
    match format!(in alloc; "{FRONT}{selections}{BEHIND}") {
        Ok(digits) => hex::decode(alloc, digits.as_str()).ok(),
        Err(_) => None,
    }
}

/// Whether reading the front of the quote and a byte 0 behind it, with another byte at a place, meets this fault.
fn meets(alloc: Global, len: usize, place: usize, byte: u8, want: Option<AttestFault>) -> bool {
    let Some(mut bytes) = selecting(alloc, SELECTIONS) else {
        return false;
    };
    let has_room = bytes.push(0).is_ok();
    bytes.truncate(len);
    if let Some(old) = bytes.get_mut(place) {
        *old = byte;
    }
    has_room && read_attest(&bytes).err() == want
}

/// How long the front is, the place and the byte, and the fault.
const FRONTS: [(usize, usize, u8, Option<AttestFault>); 26] = [
    (0, 0, 0, Some(AttestFault::Short(0))),
    (3, 0, 0, Some(AttestFault::Short(0))),
    // Magic is tested before the type is looked for.
    (4, 0, 0xFE, Some(AttestFault::Magic)),
    (4, 3, 0x47, Some(AttestFault::Short(4))),
    (5, 4, 0x80, Some(AttestFault::Short(4))),
    (6, 5, 0x17, Some(AttestFault::AttestType)),
    (6, 5, 0x18, Some(AttestFault::Short(6))),
    (8, 7, 0x22, Some(AttestFault::Short(8))),
    (41, 8, 0, Some(AttestFault::Short(8))),
    (42, 8, 0, Some(AttestFault::Short(42))),
    (44, 8, 0, Some(AttestFault::Short(44))),
    (75, 8, 0, Some(AttestFault::Short(44))),
    (83, 8, 0, Some(AttestFault::Short(76))),
    (87, 8, 0, Some(AttestFault::Short(84))),
    (91, 8, 0, Some(AttestFault::Short(88))),
    (92, 8, 0, Some(AttestFault::Short(92))),
    (93, 92, 2, Some(AttestFault::Safe)),
    (93, 92, 0, Some(AttestFault::Short(93))),
    (104, 8, 0, Some(AttestFault::Short(101))),
    (106, 8, 0, Some(AttestFault::Short(105))),
    (107, 8, 0, Some(AttestFault::Short(107))),
    (110, 8, 0, Some(AttestFault::Short(108))),
    (111, 8, 0, Some(AttestFault::Short(111))),
    (144, 8, 0, Some(AttestFault::Short(113))),
    (145, 8, 0, None),
    (146, 8, 0, Some(AttestFault::Tail(145))),
];

fn first_front_without_its_fault(alloc: Global) -> Option<usize> {
    FRONTS.iter().position(|(len, place, byte, want)| !meets(alloc, *len, *place, *byte, *want))
}

#[test]
fn faults_name_the_first_field_that_does_not_fit(rt: HostRuntime) {
    assert_eq!(rt; first_front_without_its_fault(rt.alloc()), None);
}

/// Selections in digits, and the one set of PCRs below 24 that they select.
const SETS: [(&str, Option<(u16, u32)>); 7] = [
    ("00000001000b03000401", Some((11, 0x10400))),
    ("00000001000b0400040100", Some((11, 0x10400))),
    // PCR 24, and PCRs 24 to 31
    ("00000001000b0400040001", None),
    ("00000001000b04000401ff", None),
    // two banks
    ("00000002000b0300040100040101", None),
    // an empty selection of another bank
    ("00000002000403000000000b03000401", Some((11, 0x10400))),
    ("00000000", None),
];

/// Whether the quote with these selections is read, and has this one set.
fn has_set(alloc: Global, selections: &str, want: Option<(u16, u32)>) -> bool {
    let Some(bytes) = selecting(alloc, selections) else {
        return false;
    };
    match read_attest(&bytes) {
        Ok(attest) => attest.selections.one_set() == want,
        Err(_) => false,
    }
}

fn first_selections_without_their_set(alloc: Global) -> Option<usize> {
    SETS.iter()
        .position(|(selections, want)| !has_set(alloc, selections, *want))
}

#[test]
fn one_set_wants_one_selection_below_24(rt: HostRuntime) {
    assert_eq!(rt; first_selections_without_their_set(rt.alloc()), None);
}

fn reads_as(bytes: &[u8], parts: &AttestParts<'_>) -> bool {
    let set = (parts.mask != 0).then_some((parts.alg, parts.mask));
    match read_attest(bytes) {
        Ok(attest) => {
            attest.signer == parts.signer
                && attest.extra == parts.extra
                && attest.clock == parts.clock
                && attest.reset == parts.reset
                && attest.restart == parts.restart
                && attest.safe == parts.safe
                && attest.firmware == parts.firmware
                && attest.selections.len() == 1
                && attest.selections.one_set() == set
                && attest.pcr_digest == parts.pcr_digest
        }
        Err(_) => false,
    }
}

fn write(alloc: Global, parts: &AttestParts<'_>) -> Option<Vec<u8>> {
    let largest = parts
        .signer
        .len()
        .max(parts.extra.len())
        .max(parts.pcr_digest.len());
    if largest > 65_535 || parts.mask >= 1 << 24 {
        return None;
    }
    write_attest(alloc, parts).ok()
}

/// These parts, with a clock, counts and a firmware of their own.
fn parts_of<'a>(
    signer: &'a [u8],
    extra: &'a [u8],
    pcr_digest: &'a [u8],
    mask: u32,
) -> AttestParts<'a> {
    AttestParts {
        signer,
        extra,
        clock: 0x0102_0304_0506_0708,
        reset: 0x1112_1314,
        restart: 0x2122_2324,
        safe: true,
        firmware: 0x3132_3334_3536_3738,
        alg: 0x000B,
        mask,
        pcr_digest,
    }
}

/// Whether the parts are written in so many bytes, of which these are the first, and read again.
fn is_written(alloc: Global, parts: &AttestParts<'_>, len: usize, front: &[u8]) -> bool {
    match write(alloc, parts) {
        Some(written) => {
            written.len() == len && written.starts_with(front) && reads_as(&written, parts)
        }
        None => false,
    }
}

/// Whether the parts of a quote, none, and the longest are written and read again.
fn are_written(alloc: Global, quote: &[u8], long: &[u8]) -> [bool; 3] {
    let (Some(signer), Some(extra), Some(digest), Some(front)) = (
        quote.get(8..42),
        quote.get(44..76),
        quote.get(113..),
        quote.get(..6),
    ) else {
        return [false; 3];
    };
    let own = parts_of(signer, extra, digest, 0x10400);
    let least = parts_of(&[], &[], &[], 0);
    let most = parts_of(long, long, long, 0xFF_FFFF);
    [
        is_written(alloc, &own, 145, quote),
        is_written(alloc, &least, 47, front),
        is_written(alloc, &most, 196_652, front),
    ]
}

#[test]
fn quotes_are_written_and_read(rt: HostRuntime) -> Result<(), Fail> {
    let quote = selecting(rt.alloc(), SELECTIONS).ok_or("memory is left")?;
    let long = vec![in rt.alloc(); 7; 65_535]?;
    assert_eq!(rt; are_written(rt.alloc(), &quote, &long), [true; 3]);
    Ok(())
}
