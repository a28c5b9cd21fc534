use crate::common::shared;
use kl_states::*;
use std::alloc::Global;
use std::test::*;

const ALL_CAUSES: [(Verdict, &str); 29] = [
    (Verdict::Pass(u64::MAX), "pass 18446744073709551615"),
    (Verdict::Failed(FailedCause::Pcr(23)), "failed pcr 23"),
    (Verdict::Failed(FailedCause::ListFull), "failed listfull"),
    (Verdict::Failed(FailedCause::Unmatched), "failed unmatched"),
    (
        Verdict::Failed(FailedCause::Line(7, LineCause::TooLong)),
        "failed line 7 toolong",
    ),
    (
        Verdict::Failed(FailedCause::Line(7, LineCause::Pcr)),
        "failed line 7 pcr",
    ),
    (
        Verdict::Failed(FailedCause::Line(7, LineCause::HashText)),
        "failed line 7 hash",
    ),
    (
        Verdict::Failed(FailedCause::Line(7, LineCause::Template)),
        "failed line 7 template",
    ),
    (
        Verdict::Failed(FailedCause::Line(7, LineCause::Digest)),
        "failed line 7 digest",
    ),
    (
        Verdict::Failed(FailedCause::Line(7, LineCause::Path)),
        "failed line 7 path",
    ),
    (
        Verdict::Failed(FailedCause::Entry(131071, EntryCause::Violation)),
        "failed entry 131071 violation",
    ),
    (
        Verdict::Failed(FailedCause::Entry(131071, EntryCause::Inconsistent)),
        "failed entry 131071 inconsistent",
    ),
    (
        Verdict::Failed(FailedCause::Entry(131071, EntryCause::Unknown)),
        "failed entry 131071 unknown",
    ),
    (
        Verdict::Failed(FailedCause::Entry(131071, EntryCause::Digest)),
        "failed entry 131071 digest",
    ),
    (Verdict::Invalid(InvalidCause::Form(3)), "invalid form 3"),
    (Verdict::Invalid(InvalidCause::Bank), "invalid bank"),
    (
        Verdict::Invalid(InvalidCause::Attest(AttestCause::Short(96))),
        "invalid attest short 96",
    ),
    (
        Verdict::Invalid(InvalidCause::Attest(AttestCause::Magic)),
        "invalid attest magic",
    ),
    (
        Verdict::Invalid(InvalidCause::Attest(AttestCause::AttestType)),
        "invalid attest type",
    ),
    (
        Verdict::Invalid(InvalidCause::Attest(AttestCause::Safe)),
        "invalid attest safe",
    ),
    (
        Verdict::Invalid(InvalidCause::Attest(AttestCause::Tail(145))),
        "invalid attest tail 145",
    ),
    (
        Verdict::Invalid(InvalidCause::Signature),
        "invalid signature",
    ),
    (Verdict::Invalid(InvalidCause::Nonce), "invalid nonce"),
    (
        Verdict::Invalid(InvalidCause::Selection),
        "invalid selection",
    ),
    (
        Verdict::Invalid(InvalidCause::PcrLength),
        "invalid pcrlength",
    ),
    (
        Verdict::Invalid(InvalidCause::PcrDigest),
        "invalid pcrdigest",
    ),
    (Verdict::Invalid(InvalidCause::Binding), "invalid binding"),
    (Verdict::Invalid(InvalidCause::Start), "invalid start"),
    (Verdict::Pass(0), "pass 0"),
];

#[test]
fn verdicts_print_their_causes(rt: HostRuntime) -> Result<(), Fail> {
    for (verdict, text) in &ALL_CAUSES {
        let shown = verdict.to_string(rt.alloc())?;
        assert!(rt; shown.as_str() == *text, "{text}");
    }
    Ok(())
}

/// Each operational state with its number and its name, as Keylime has them.
const STATES: [(Op, &str, &str); 11] = [
    (Op::Registered, "0", "REGISTERED"),
    (Op::Start, "1", "START"),
    (Op::Saved, "2", "SAVED"),
    (Op::GetQuote, "3", "GET_QUOTE"),
    (Op::GetQuoteRetry, "4", "GET_QUOTE_RETRY"),
    (Op::ProvideV, "5", "PROVIDE_V"),
    (Op::ProvideVRetry, "6", "PROVIDE_V_RETRY"),
    (Op::Failed, "7", "FAILED"),
    (Op::Terminated, "8", "TERMINATED"),
    (Op::InvalidQuote, "9", "INVALID_QUOTE"),
    (Op::TenantFailed, "10", "TENANT_FAILED"),
];

#[test]
fn states_have_the_numbers_and_names_of_keylime(rt: HostRuntime) -> Result<(), Fail> {
    for (op, number, name) in &STATES {
        let shown = op.to_string(rt.alloc())?;
        assert!(rt; shown.as_str() == *number && op.name() == *name, "{name}");
    }
    Ok(())
}

/// How a poll is lost, and how a delivery ends.
const LOSSES: [(LostWhy, &str); 9] = [
    (LostWhy::Link, "link"),
    (LostWhy::Named, "named"),
    (LostWhy::Ended, "ended"),
    (LostWhy::Head, "head"),
    (LostWhy::Length, "length"),
    (LostWhy::Chunked, "chunked"),
    (LostWhy::Status(404), "status 404"),
    (LostWhy::Body, "body"),
    (LostWhy::TooLong, "toolong"),
];

const DELIVERIES: [(Outcome, &str); 5] = [
    (Outcome::Arrived, "arrived"),
    (Outcome::Missed, "missed"),
    (Outcome::Withdrawn(DropWhy::Keys), "withdrawn-keys"),
    (Outcome::Withdrawn(DropWhy::Memory), "withdrawn-memory"),
    (Outcome::Withdrawn(DropWhy::End), "withdrawn-end"),
];

#[test]
fn lost_polls_and_deliveries_print_their_ends(rt: HostRuntime) -> Result<(), Fail> {
    for (why, text) in &LOSSES {
        let shown = why.to_string(rt.alloc())?;
        assert!(rt; shown.as_str() == *text, "{text}");
    }
    for (outcome, text) in &DELIVERIES {
        let shown = outcome.to_string(rt.alloc())?;
        assert!(rt; shown.as_str() == *text, "{text}");
    }
    Ok(())
}

const LONGEST: &str = "0123456789abcdefghijklmnopqrstuvwxyzABCDEFGHIJKLMNOPQRSTUVWXYZ01";

/// Bytes, and what they print as an agent's name and as a nonce; `-` where they are none.
const WORDS: [(&str, &str, &str); 10] = [
    ("n", "n", "n"),
    (LONGEST, LONGEST, LONGEST),
    (
        "d432fbb3-d2f1-4a97-9ef7-75bd81c00000",
        "d432fbb3-d2f1-4a97-9ef7-75bd81c00000",
        "-",
    ),
    ("Host_7.example", "Host_7.example", "-"),
    ("", "-", "-"),
    ("a b", "-", "-"),
    ("a/b", "-", "-"),
    ("a:b", "-", "-"),
    ("\u{e9}", "-", "-"),
    (
        "0123456789abcdefghijklmnopqrstuvwxyzABCDEFGHIJKLMNOPQRSTUVWXYZ012",
        "-",
        "-",
    ),
];

/// What the bytes print as an agent's name, and as a nonce; `-` where they are none.
fn shown(alloc: Global, bytes: &[u8]) -> Result<(String, String), Fail> {
    let id = match AgentId::from_bytes(bytes) {
        Some(id) => id.to_string(alloc)?,
        None => String::from_str(alloc, "-")?,
    };
    let nonce = match Nonce::from_bytes(bytes) {
        Some(nonce) => nonce.to_string(alloc)?,
        None => String::from_str(alloc, "-")?,
    };
    Ok((id, nonce))
}

#[test]
fn which_bytes_are_agent_ids_and_nonces(rt: HostRuntime) -> Result<(), Fail> {
    for (text, id, nonce) in WORDS {
        let (as_id, as_nonce) = shown(rt.alloc(), text.as_bytes())?;
        assert!(rt;
            as_id.as_str() == id && as_nonce.as_str() == nonce,
            "{text}"
        );
    }
    Ok(())
}

#[test]
fn agent_ids_stand_in_byte_order(rt: HostRuntime) {
    let ordered: [&[u8]; 6] = [b"-", b"A", b"_", b"a", b"aa", b"b"];
    for pair in ordered.windows(2) {
        let low = AgentId::from_bytes(pair[0]);
        let high = AgentId::from_bytes(pair[1]);
        assert!(rt; low < high && low != high && low == low);
    }
}

#[test]
fn texts_and_blobs_give_back_what_they_hold(rt: HostRuntime) -> Result<(), Fail> {
    let text = Text::new(String::from_str(rt.alloc(), "a contact")?);
    assert!(rt; text.as_str() == "a contact" && text.len() == 9);
    assert!(rt; text.into_string().as_str() == "a contact");
    let blob = Blob::new(Vec::from_slice(rt.alloc(), &[1, 0, 255])?);
    assert!(rt; blob.as_slice() == [1, 0, 255].as_slice());
    assert!(rt; blob.into_vec().as_slice() == [1, 0, 255].as_slice());
    Ok(())
}

#[test]
fn threads_may_share_names_texts_and_verdicts(rt: HostRuntime) {
    shared(&AgentId::from_bytes(b"a"));
    shared(&Nonce::from_bytes(b"n"));
    shared(&Text::new(String::new(rt.alloc())));
    shared(&Blob::new(Vec::new(rt.alloc())));
    shared(&Verdict::Pass(1));
}
