//! Template hashes are Python's, as `hashlib.sha1` of `bytes.fromhex("0a000000" + b"sha256:\0".hex() + "00ff" + "07000000" +
//! b"/bin/a\0".hex())` is that of the digest 00ff at `/bin/a`. Each test looks for the first row of its table that is not so.

use kl_entry::read_entry;
use kl_exclude::{ExcludeFault, MemMaker, StdMaker};
use kl_policy::*;
use std::alloc::Global;

/// Whether a policy of this text does not allow the entry of this line for the reason that prints so, or allows it, where
/// nothing is to be printed.
fn is_judged(alloc: Global, kind: PolicyKind, text: &str, line: &str, want: &str) -> bool {
    match reason(alloc, kind, text, line) {
        Some(Some(why)) => why.to_string(alloc).is_ok_and(|text| text.as_str() == want),
        Some(None) => want.is_empty(),
        None => false,
    }
}

fn reason(alloc: Global, kind: PolicyKind, text: &str, line: &str) -> Option<Option<Why>> {
    let policy = shared(alloc, kind, text)?;
    let entries = [read_entry(line).ok()?];
    let found = policy.first_bad(alloc, &entries).ok()?;
    Some(found.map(|(_place, why)| why))
}

/// A policy of this text that was shared, where that one equals it and has its form and text.
fn shared(alloc: Global, kind: PolicyKind, text: &str) -> Option<Policy> {
    let copy = String::from_str(alloc, text).ok()?;
    let policy = read_policy(alloc, kind, copy, &mut StdMaker::new()).ok()?;
    let other = policy.share().ok()?;
    (other.equals(&policy) && other.kind() == kind && other.source() == text).then_some(other)
}

// Upper-case digits, an empty line, a path that begins with a space, and a path with three digests of which one stands twice.
const FLAT: &str = "00FF  /bin/a\n\nab   c d\n00ff11  /bin/a\n17  /bin/a\n00ff  /bin/a";

/// Lines of entries, and why the policy above does not allow them.
const FLAT_JUDGED: [(&str, &str); 8] = [
    (
        "10 801e095fe4d9789e9fd9f7545da38b5304160289 ima-ng sha256:00ff /bin/a",
        "",
    ),
    (
        "10 bc9aa6ed21cecfabdc5e36b71ba1a27174bc098b ima-ng sha256:00ff11 /bin/a",
        "",
    ),
    (
        "10 ef5991ca2317a00055a4670f66d887cb3c7e63e7 ima-ng sha256:17 /bin/a",
        "",
    ),
    (
        "10 9d948a084475215790e61e278ab63954b12d0df9 ima-ng sha256:ab  c d",
        "",
    ),
    (
        "10 caa77f9931d07971a6e7c67dda17c4f1335a3de8 ima-ng sha256:01 /bin/a",
        "the digest is none of those known for the path",
    ),
    (
        "10 b57ad9c8d977f43c868fab916b50f192d51cf545 ima-ng sha256:00ff /bin/b",
        "no digest is known for the path",
    ),
    (
        "10 801e095fe4d9789e9fd9f7545da38b5304160289 ima-ng sha256:00ff /bin/b",
        "the template hash is not that of the entry's data",
    ),
    (
        "10 0000000000000000000000000000000000000000 ima-ng sha256:00ff /bin/a",
        "a violation",
    ),
];

fn first_misjudged_by_flat(alloc: Global) -> Option<usize> {
    FLAT_JUDGED.iter().position(|(line, want)| !is_judged(
        alloc,
        PolicyKind::Flat,
        FLAT,
        line,
        want,
    ))
}

#[test]
fn what_a_flat_policy_allows(rt: HostRuntime) {
    assert_eq!(rt; first_misjudged_by_flat(rt.alloc()), None);
}

/// Digests in either case of letters, a path with none, and what stands in `/tmp`.
const JSON: &str = r#"{"digests":{"/bin/a":["00FF","ab"],"/n":[]},"excludes":["/tmp/"]}"#;

/// The same, where violations pass.
const LENIENT: &str =
    r#"{"digests":{"/bin/a":["00FF","ab"],"/n":[]},"excludes":["/tmp/"],"kl-violations":"pass"}"#;

/// Policies, lines of entries, and why the policy does not allow them.
const JSON_JUDGED: [(&str, &str, &str); 9] = [
    (
        JSON,
        "10 801e095fe4d9789e9fd9f7545da38b5304160289 ima-ng sha256:00ff /bin/a",
        "",
    ),
    (
        JSON,
        "10 615cc0e573dc4146ce15011bf4c3511df92151e9 ima-ng sha256:ab /bin/a",
        "",
    ),
    (
        JSON,
        "10 caa77f9931d07971a6e7c67dda17c4f1335a3de8 ima-ng sha256:01 /bin/a",
        "the digest is none of those known for the path",
    ),
    (
        JSON,
        "10 d3d671a2c72859c8d023db359bcb836554af33f6 ima-ng sha256:ab /n",
        "the digest is none of those known for the path",
    ),
    (
        JSON,
        "10 e9a837aa83603aab1b914a42f92f495a050d3d07 ima-ng sha256:ab /tmp/x",
        "",
    ),
    (
        JSON,
        "10 801e095fe4d9789e9fd9f7545da38b5304160289 ima-ng sha256:00ff /tmp/x",
        "the template hash is not that of the entry's data",
    ),
    (
        JSON,
        "10 a938ea2084a3dc6028ea901da395198c7886e429 ima-ng sha256:ab /var/tmp/x",
        "no digest is known for the path",
    ),
    (
        JSON,
        "10 0000000000000000000000000000000000000000 ima-ng sha256:00ff /tmp/x",
        "a violation",
    ),
    (
        LENIENT,
        "10 0000000000000000000000000000000000000000 ima-ng sha256:00ff /bin/b",
        "",
    ),
];

fn first_misjudged_by_json(alloc: Global) -> Option<usize> {
    JSON_JUDGED.iter().position(|(text, line, want)| !is_judged(
        alloc,
        PolicyKind::Json,
        text,
        line,
        want,
    ))
}

#[test]
fn what_a_json_policy_allows(rt: HostRuntime) {
    assert_eq!(rt; first_misjudged_by_json(rt.alloc()), None);
}

/// Texts, and the first line of each that a flat policy may not have.
const LINES: [(&str, Option<usize>); 18] = [
    ("", None),
    ("\n\n", None),
    ("00  a\n", None),
    ("00  a\r\n", None),
    ("00   ", None),
    (
        "aBaBaBaBaBaBaBaBaBaBaBaBaBaBaBaBaBaBaBaBaBaBaBaBaBaBaBaBaBaBaBaBaBaBaBaBaBaBaBaBaBaBaBaBaBaBaBaBaBaBaBaBaBaBaBaBaBaBaBaBaBaBaBaB  a",
        None,
    ),
    (
        "aBaBaBaBaBaBaBaBaBaBaBaBaBaBaBaBaBaBaBaBaBaBaBaBaBaBaBaBaBaBaBaBaBaBaBaBaBaBaBaBaBaBaBaBaBaBaBaBaBaBaBaBaBaBaBaBaBaBaBaBaBaBaBaB00  a",
        Some(0),
    ),
    ("\n00  a\n\n0g  b\n0  c", Some(3)),
    ("000  a", Some(0)),
    ("00 a", Some(0)),
    ("00 *a", Some(0)),
    ("\\00  a\\\\b", Some(0)),
    ("00\t a", Some(0)),
    ("00  ", Some(0)),
    ("00", Some(0)),
    ("  a", Some(0)),
    ("00  a\n ", Some(1)),
    ("00  a\n# b", Some(1)),
];

fn first_misread_line(alloc: Global) -> Option<usize> {
    LINES.iter().position(|(text, want)| read_flat(alloc, text).err()
        != want.map(PolicyFault::Line))
}

#[test]
fn the_first_bad_line_counts_empty_ones(rt: HostRuntime) {
    assert_eq!(rt; first_misread_line(rt.alloc()), None);
}

/// A flat policy of so many digests of `/bin/a`, or of so many paths with the digest 00.
fn flat_of(alloc: Global, digests: u32, paths: u32) -> Option<String> {
    let mut text = String::new(alloc);
    for i in 0..digests {
        text.push_str(format!(in alloc; "{i:06x}  /bin/a\n").ok()?.as_str())
            .ok()?;
    }
    for i in 0..paths {
        text.push_str(format!(in alloc; "00  {i}\n").ok()?.as_str())
            .ok()?;
    }
    Some(text)
}

/// What a policy of 70,000 digests of `/bin/a`, all of three bytes, says of one of them and of one of two bytes.
fn first_bad_of_many(alloc: Global) -> Option<(usize, Why)> {
    let text = flat_of(alloc, 70_000, 0)?;
    let policy = read_flat(alloc, text.as_str()).ok()?;
    let listed = "10 bc9aa6ed21cecfabdc5e36b71ba1a27174bc098b ima-ng sha256:00ff11 /bin/a";
    let other = "10 801e095fe4d9789e9fd9f7545da38b5304160289 ima-ng sha256:00ff /bin/a";
    let entries = [read_entry(listed).ok()?, read_entry(other).ok()?];
    policy.first_bad(alloc, &entries).ok()?
}

#[test]
fn a_path_may_have_many_digests(rt: HostRuntime) {
    assert!(rt; first_bad_of_many(rt.alloc()) == Some((1, Why::Digest)));
}

/// The fault of a policy of 262,144 paths and these lines.
fn fault_of_most_paths(alloc: Global, more: &str) -> Option<PolicyFault> {
    let mut text = flat_of(alloc, 0, 262_144)?;
    text.push_str(more).ok()?;
    read_flat(alloc, text.as_str()).err()
}

#[test]
fn at_most_262144_distinct_paths(rt: HostRuntime) {
    let too_many = Some(PolicyFault::Limit(Limit::Paths));
    let same = fault_of_most_paths(rt.alloc(), "00  7\n");
    let more = fault_of_most_paths(rt.alloc(), "00  7\n00  x\n");
    let bad = fault_of_most_paths(rt.alloc(), "00  7\n00  x\nx\n");
    assert!(rt; same == None && more == too_many && bad == Some(PolicyFault::Line(262_146)));
}

/// Texts of JSON policies, and what is wrong with each, as it is printed; nothing where it is a policy.
const JSON_FAULTS: [(&str, &str); 43] = [
    ("", "the policy: the text is no JSON"),
    (r#"{"digests":{},}"#, "the policy: the text is no JSON"),
    ("[]", "the policy: the member policy is of another kind"),
    ("null", "the policy: the member policy is of another kind"),
    ("{}", "the policy: there is no member digests"),
    (
        r#"{"digests":[]}"#,
        "the policy: the member digests is of another kind",
    ),
    (
        r#"{"digests":null}"#,
        "the policy: the member digests is of another kind",
    ),
    (
        r#"{"digests":{"/a":"00"}}"#,
        "the policy: the member digests is of another kind",
    ),
    (
        r#"{"digests":{"/a":[17]}}"#,
        "the policy: the member digests is of another kind",
    ),
    (
        r#"{"digests":{"/a":["x"],"/b":[17]}}"#,
        "the policy: the member digests is of another kind",
    ),
    (
        r#"{"digests":{"/a":["aa"],"/b":["bb","c"]}}"#,
        "digest 1 of path 1 is no digest",
    ),
    (
        r#"{"digests":{"/b":["bb","c"],"/a":["aa"]}}"#,
        "digest 1 of path 1 is no digest",
    ),
    (
        r#"{"digests":{"/a":[""]}}"#,
        "digest 0 of path 0 is no digest",
    ),
    (r#"{"digests":7,"digests":{}}"#, ""),
    (
        r#"{"digests":{},"digests":7}"#,
        "the policy: the member digests is of another kind",
    ),
    (r#"{"digests":{"/a":["x"],"/a":["00"]}}"#, ""),
    (
        r#"{"digests":{"/a":["00"],"/a":["x"]}}"#,
        "digest 0 of path 0 is no digest",
    ),
    (
        r#"{"digests":{},"kl-violations":"maybe","kl-violations":"fail"}"#,
        "",
    ),
    (
        r#"{"digests":{},"excludes":"/tmp/"}"#,
        "the policy: the member excludes is of another kind",
    ),
    (
        r#"{"digests":{},"excludes":["/tmp/",1]}"#,
        "the policy: the member excludes is of another kind",
    ),
    (
        r#"{"digests":{},"excludes":null}"#,
        "the policy: the member excludes is of another kind",
    ),
    (
        r#"{"digests":{},"kl-violations":"maybe"}"#,
        "the policy: the member kl-violations is of another kind",
    ),
    (
        r#"{"digests":{},"kl-violations":true}"#,
        "the policy: the member kl-violations is of another kind",
    ),
    (r#"{"digests":{},"kl-violations":"pass"}"#, ""),
    (
        r#"{"digests":{},"keyrings":{"k":[]}}"#,
        "keyrings is not supported",
    ),
    (
        r#"{"digests":{},"ima-buf":{"b":[]}}"#,
        "ima-buf is not supported",
    ),
    (
        r#"{"digests":{},"verification-keys":"k"}"#,
        "verification-keys is not supported",
    ),
    (
        r#"{"digests":{},"verification-keys":false}"#,
        "verification-keys is not supported",
    ),
    (
        r#"{"digests":{},"keyrings":{},"ima-buf":null,"verification-keys":""}"#,
        "",
    ),
    (
        r#"{"meta":{"version":1},"digests":{},"ima":{"a":1},"keyrings":[]}"#,
        "",
    ),
    (
        r#"{"digests":{},"excludes":["("]}"#,
        "the policy: exclude 0 is no pattern",
    ),
    (
        r#"{"digests":{},"excludes":["a","*","("]}"#,
        "the policy: exclude 1 is no pattern",
    ),
    (r#"{"digests":{},"excludes":["a",""]}"#, ""),
    (
        r#"{"keyrings":5,"kl-violations":5,"excludes":5,"digests":{"/a":["x"]}}"#,
        "digest 0 of path 0 is no digest",
    ),
    (
        r#"{"keyrings":5,"kl-violations":5,"excludes":["("],"digests":5}"#,
        "the policy: the member digests is of another kind",
    ),
    (
        r#"{"keyrings":5,"kl-violations":5,"excludes":["("]}"#,
        "the policy: there is no member digests",
    ),
    (
        r#"{"keyrings":5,"kl-violations":5,"excludes":5,"digests":{}}"#,
        "the policy: the member excludes is of another kind",
    ),
    (
        r#"{"keyrings":5,"kl-violations":5,"excludes":["("],"digests":{}}"#,
        "the policy: the member kl-violations is of another kind",
    ),
    (
        r#"{"verification-keys":5,"ima-buf":5,"keyrings":5,"excludes":["("],"digests":{}}"#,
        "keyrings is not supported",
    ),
    (
        r#"{"verification-keys":5,"ima-buf":5,"excludes":["("],"digests":{}}"#,
        "ima-buf is not supported",
    ),
    (
        r#"{"verification-keys":5,"excludes":["("],"digests":{}}"#,
        "verification-keys is not supported",
    ),
    (r#"{"digests":{}}"#, ""),
    (
        r#"{"digests":{"/a":[],"/b":["00","00FF"]},"excludes":[]}"#,
        "",
    ),
];

/// Whether the text has the fault that prints so, or is a policy, where nothing is to be printed.
fn has_fault(alloc: Global, text: &str, want: &str) -> bool {
    match read_json(alloc, text, &mut StdMaker::new()) {
        Ok(_) => want.is_empty(),
        Err(fault) => prints(alloc, &fault, want),
    }
}

fn prints(alloc: Global, fault: &PolicyFault, want: &str) -> bool {
    fault
        .to_string(alloc)
        .is_ok_and(|text| text.as_str() == want)
}

fn first_misread_json(alloc: Global) -> Option<usize> {
    JSON_FAULTS
        .iter()
        .position(|(text, want)| !has_fault(alloc, text, want))
}

#[test]
fn what_is_wrong_with_a_json_policy(rt: HostRuntime) {
    assert_eq!(rt; first_misread_json(rt.alloc()), None);
}

/// The fault of a JSON policy over a maker that refuses the text of this call, from 1, as too large.
fn fault_where_refused(alloc: Global, text: &str, call: u64) -> Option<PolicyFault> {
    let mut maker = MemMaker::new(alloc, &[call]).ok()?;
    read_json(alloc, text, &mut maker).err()
}

#[test]
fn a_pattern_may_be_too_large(rt: HostRuntime) {
    let first = fault_where_refused(rt.alloc(), r#"{"digests":{},"excludes":["a","("]}"#, 1);
    let second = fault_where_refused(rt.alloc(), r#"{"digests":{},"excludes":["a","b"]}"#, 2);
    assert!(rt; first == Some(PolicyFault::Exclude(ExcludeFault::TooLarge(0))));
    assert!(rt; second == Some(PolicyFault::Exclude(ExcludeFault::TooLarge(1))));
}

/// Faults that the table of JSON policies lacks, and what each prints.
const OTHER_FAULTS: [(PolicyFault, &str); 6] = [
    (
        PolicyFault::Line(262_146),
        "line 262146 is no digest, two spaces and a path",
    ),
    (
        PolicyFault::Limit(Limit::Paths),
        "the policy has more than 262144 paths",
    ),
    (
        PolicyFault::Limit(Limit::Patterns),
        "the policy has more than 32 patterns",
    ),
    (
        PolicyFault::Limit(Limit::PatternBytes),
        "the policy has a pattern of more than 512 bytes",
    ),
    (
        PolicyFault::Exclude(ExcludeFault::TooLarge(7)),
        "the policy: exclude 7 is too large",
    ),
    (PolicyFault::Memory, "out of memory"),
];

fn first_misprinted(alloc: Global) -> Option<usize> {
    OTHER_FAULTS
        .iter()
        .position(|(fault, want)| !prints(alloc, fault, want))
}

#[test]
fn faults_print_what_is_wrong(rt: HostRuntime) {
    assert_eq!(rt; first_misprinted(rt.alloc()), None);
}
