//! Template hashes are Python's hashlib.sha1 of template data that is laid out by hand.

use kl_entry::*;
use std::alloc::Global;
use std::test::Fail;

// The template data of the digest ab by the algorithm `a`, at the path `p`, and its hash.
const DATA: [u8; 14] = *b"\x04\0\0\0a:\0\xab\x02\0\0\0p\0";

const HASH: [u8; 20] = [
    0x6f, 0xca, 0x7f, 0x82, 0x84, 0xc3, 0x4a, 0xdb, 0x27, 0xb1, 0xd8, 0x86, 0x1f, 0xfd, 0x0f, 0x38,
    0x87, 0x2e, 0x42, 0x6a,
];

#[test]
fn an_entry_is_a_violation_or_has_the_hash_of_its_data(rt: HostRuntime) -> Result<(), Fail> {
    let digest = FileDigest::from_bytes(&[0xab]).ok_or("one byte fits")?;
    for (hash, violated, right) in [
        (HASH, false, true),
        ([7; 20], false, false),
        ([0; 20], true, true),
    ] {
        let entry = Entry::new(hash, "a", digest, "p");
        let data = EntryData::of(&entry);
        let told = (
            violation(&entry),
            consistent(&entry),
            consistent_with(&entry, &data),
        );
        assert!(rt; told == (violated, right, right) && data.as_slice() == DATA.as_slice());
    }
    Ok(())
}

#[test]
fn lines_end_by_newlines_alone(rt: HostRuntime) -> Result<(), Fail> {
    for (text, want) in [
        ("", ""),
        ("a", "a|"),
        ("a\n", "a|"),
        ("\n", "|"),
        ("a\r\nb c", "a\r|b c|"),
        ("a\n\nb\n", "a||b|"),
    ] {
        let mut got = String::new(rt.alloc());
        for line in lines(text) {
            got.push_str(line)?;
            got.push('|')?;
        }
        assert_eq!(rt; got.as_str(), want);
    }
    Ok(())
}

// A line, filled up with `x` to so many bytes.
fn filled(alloc: Global, line: &str, len: usize) -> Result<String, Fail> {
    let mut filled = String::from_str(alloc, line)?;
    for _ in line.len()..len {
        filled.push('x')?;
    }
    Ok(filled)
}

// The shortest line, one of the kernel's first, one with a space and a letter of two bytes in its path, and the front of a
// line with a digest of 64 bytes and a name of 32.
const SHORT: &str = "10 60bbb562db5a51239f1cd8b8c47d4944c5cd07c8 ima-ng a: p";

const BOOT: &str =
    "10 1d8d532d463c9f8c205d0df7787669a85f93e260 ima-ng sha1:0000000000000000000000000000000000000000 boot_aggregate";

const SPACED: &str =
    "10 8317e713f9426affb7ad56e105850b14197654c0 ima-ng sha1:000102030405060708090a0b0c0d0e0f10111213 /usr/lib/my file \u{e9}";

const FRONT: &str =
    "10 a374fe88dd1cb620e856568289a0a28e5defcfe1 ima-ng abcdefghijklmnopqrstuvwxyz0189_-:abababababababababababababababababababababababababababababababababababababababababababababababababababababababababababababababab ";

#[test]
fn consistent_lines_are_read_and_written_again(rt: HostRuntime) -> Result<(), Fail> {
    let longest = filled(rt.alloc(), FRONT, 8192)?;
    for line in [SHORT, BOOT, SPACED, longest.as_str()] {
        let entry = read_entry(line)?;
        let written = write_entry(rt.alloc(), &entry)?;
        assert!(rt; consistent(&entry) && written.as_str() == line);
    }
    Ok(())
}

/// Lines, and their first faults.
const FAULTY: [(&str, LineFault); 21] = [
    ("", LineFault::Pcr),
    ("10", LineFault::Pcr),
    ("11 ff", LineFault::Pcr),
    ("10  ", LineFault::HashText),
    (
        "10 00000000000000000000000000000000000000ff",
        LineFault::HashText,
    ),
    (
        "10 000000000000000000000000000000000000000ff ",
        LineFault::HashText,
    ),
    (
        "10 00000000000000000000000000000000000000fF ima-sig ",
        LineFault::HashText,
    ),
    (
        "10 00000000000000000000000000000000000000ff ",
        LineFault::Template,
    ),
    (
        "10 00000000000000000000000000000000000000ff ima-ng",
        LineFault::Template,
    ),
    (
        "10 00000000000000000000000000000000000000ff ima-sig :00 ",
        LineFault::Template,
    ),
    (
        "10 00000000000000000000000000000000000000ff ima-ng ",
        LineFault::Digest,
    ),
    (
        "10 00000000000000000000000000000000000000ff ima-ng sha1 /p",
        LineFault::Digest,
    ),
    (
        "10 00000000000000000000000000000000000000ff ima-ng :00 ",
        LineFault::Digest,
    ),
    (
        "10 00000000000000000000000000000000000000ff ima-ng Sha1:00 /p",
        LineFault::Digest,
    ),
    (
        "10 00000000000000000000000000000000000000ff ima-ng sha1:000 /p",
        LineFault::Digest,
    ),
    (
        "10 00000000000000000000000000000000000000ff ima-ng sha1:0g /p",
        LineFault::Digest,
    ),
    (
        "10 00000000000000000000000000000000000000ff ima-ng sha1:00",
        LineFault::Digest,
    ),
    (
        "10 00000000000000000000000000000000000000ff ima-ng aaaaaaaaaaaaaaaaaaaaaaaaaaaaaaaaa:00 /p",
        LineFault::Digest,
    ),
    (
        "10 00000000000000000000000000000000000000ff ima-ng sha1:ababababababababababababababababababababababababababababababababababababababababababababababababababababababababababababababababab /p",
        LineFault::Digest,
    ),
    (
        "10 00000000000000000000000000000000000000ff ima-ng sha1:00 ",
        LineFault::Path,
    ),
    (
        "10 00000000000000000000000000000000000000ff ima-ng sha1: \n",
        LineFault::Path,
    ),
];

fn first_without_its_fault() -> Option<usize> {
    FAULTY
        .iter()
        .position(|(line, want)| read_entry(line).err() != Some(*want))
}

#[test]
fn the_first_fault_is_told(rt: HostRuntime) -> Result<(), Fail> {
    assert_eq!(rt; first_without_its_fault(), None);
    let too_long = filled(rt.alloc(), FRONT, 8193)?;
    let and_no_pcr = filled(rt.alloc(), "", 8193)?;
    let faults = (read_entry(&too_long).err(), read_entry(&and_no_pcr).err());
    assert!(rt; faults == (Some(LineFault::TooLong), Some(LineFault::TooLong)));
    Ok(())
}

#[test]
fn each_fault_is_shown_in_words(rt: HostRuntime) -> Result<(), Fail> {
    for (fault, words) in [
        (LineFault::TooLong, "the line has more than 8192 bytes"),
        (LineFault::Pcr, "the line is not of PCR 10"),
        (
            LineFault::HashText,
            "the template hash is not 40 hexadecimal digits",
        ),
        (LineFault::Template, "the template is not ima-ng"),
        (
            LineFault::Digest,
            "the file digest has not the form name:digits",
        ),
        (LineFault::Path, "the path is empty or has a newline"),
    ] {
        assert_eq!(rt; fault.to_string(rt.alloc())?.as_str(), words);
    }
    Ok(())
}
