use crate::common::shared;
use kl_quote::*;
use std::alloc::{AllocError, Global};
use std::test::*;

fn is_read(alloc: Global, text: &str, attest: &[u8], signature: &[u8], pcrs: &[u8]) -> bool {
    match read_quote(alloc, text) {
        Ok(quote) => {
            quote.attest.as_slice() == attest
                && quote.signature.as_slice() == signature
                && quote.pcrs.as_slice() == pcrs
        }
        Err(_) => false,
    }
}

fn is_written(alloc: Global, text: &str, attest: &[u8], signature: &[u8], pcrs: &[u8]) -> bool {
    match write_quote(alloc, attest, signature, pcrs) {
        Ok(written) => written.as_str() == text,
        Err(_) => false,
    }
}

// A quote over 99,999 bytes 7: three of them are `BwcH`.
fn long_text(alloc: Global) -> Result<String, AllocError> {
    let mut text = String::from_str(alloc, "r")?;
    for _ in 0..33_333 {
        text.push_str("BwcH")?;
    }
    text.push_str("::Zg==")?;
    Ok(text)
}

#[test]
fn quotes_read_and_write_as_rfc_4648_encodes_them(rt: HostRuntime) -> Result<(), Fail> {
    let many = vec![in rt.alloc(); 7; 99_999]?;
    let long = long_text(rt.alloc())?;
    let quotes: [(&str, &[u8], &[u8], &[u8]); 5] = [
        ("rZm9v:Zm8=:Zg==", b"foo", b"fo", b"f"),
        (
            "rZm9vYmFy:+/+/:AAECAw==",
            b"foobar",
            &[251, 255, 191],
            &[0, 1, 2, 3],
        ),
        (
            "r/1RDR4AYACIACw==::",
            &[255, 84, 67, 71, 128, 24, 0, 34, 0, 11],
            b"",
            b"",
        ),
        ("r::", b"", b"", b""),
        (&long, &many, b"", b"f"),
    ];
    for (text, attest, signature, pcrs) in quotes {
        let alloc = rt.alloc();
        let read = is_read(alloc, text, attest, signature, pcrs);
        let written = is_written(alloc, text, attest, signature, pcrs);
        assert!(rt; read && written, "{} bytes", attest.len());
    }
    Ok(())
}

#[test]
fn faults_name_the_first_part_that_is_not_canonical_base64(rt: HostRuntime) {
    let faults = [
        ("", 0),
        ("dZg==:Zg==:", 0),
        (" r::", 0),
        ("rZg==:Zg==", 0),
        ("r:::", 0),
        ("rZg:Zg==:Zg==", 1),
        ("rZh==::", 1),
        ("r-_-_::", 1),
        ("r?:?:?", 1),
        ("rZg==:Zm9=:?", 2),
        ("r:Zg=:", 2),
        ("r:Zg==:Zg==\n", 3),
        ("r::=", 3),
    ];
    for (text, part) in faults {
        let fault = read_quote(rt.alloc(), text).err();
        assert_eq!(rt; fault, Some(QuoteFault::Form(part)), "at {text}");
    }
}

// Evidence whose list has so many letters, and twelve bytes more.
fn evidence(alloc: Global, letters: usize) -> Result<Option<Evidence>, AllocError> {
    let of = |text: &str| String::from_str(alloc, text);
    let mut list = String::with_capacity(alloc, letters)?;
    for _ in 0..letters {
        list.push('a')?;
    }
    Ok(Evidence::new(of("sha256")?, 7, of("key")?, of("r::")?, list))
}

fn has_the_fields(evidence: &Option<Evidence>, letters: usize) -> bool {
    match evidence {
        Some(e) => {
            e.bank.as_str() == "sha256"
                && e.start == 7
                && e.public.as_str() == "key"
                && e.quote.as_str() == "r::"
                && e.list.len() == letters
        }
        None => false,
    }
}

#[test]
fn evidence_has_at_most_16_mib(rt: HostRuntime) -> Result<(), Fail> {
    for (letters, taken) in [(0, true), (16_777_204, true), (16_777_205, false)] {
        let made = evidence(rt.alloc(), letters)?;
        let same = if taken {
            has_the_fields(&made, letters)
        } else {
            made.is_none()
        };
        assert!(rt; same, "{letters}");
    }
    Ok(())
}

#[test]
fn threads_may_share_quotes_their_faults_and_evidence(rt: HostRuntime) -> Result<(), Fail> {
    shared(&read_quote(rt.alloc(), "r::"));
    shared(&evidence(rt.alloc(), 0)?);
    Ok(())
}
