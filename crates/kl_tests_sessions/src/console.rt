use kl_console::run_counted;
use kl_exclude::StdMaker;
use kl_io::{MemSink, MemSource, MemWords};
use kl_keys::MacKeys;
use std::alloc::{AllocError, Global};
use std::marker::Brand;
use std::sync::ledger::Blank;
use std::test::*;

// The three lines of a session that ends in a pass. Their bytes were made by a program apart from this one.
const ADD: &str =
    "add a1 h:9002 sha256 0x10400 - 6b31 2222222222222222222222222222222222222222222222222222222222222222 flat aaaaaaaaaaaaaaaaaaaaaaaaaaaaaaaaaaaaaaaaaaaaaaaaaaaaaaaaaaaaaaaa  boot_aggregate\\nbbbbbbbbbbbbbbbbbbbbbbbbbbbbbbbbbbbbbbbbbbbbbbbbbbbbbbbbbbbbbbbb  /bin/sh\\ncccccccccccccccccccccccccccccccccccccccccccccccccccccccccccccccc  /usr/bin/env\\n\n";

const BEGIN: &str = "begin a1 n1\n";

const REPLY: &str =
    "reply 1 sha256 0 PUB r/1RDR4AYACIRERERERERERERERERERERERERERERERERERERERERERERAAJuMQAAAAAAAAPoAAAAAQAAAAABAAAAAAAAAAEAAAABAAsDAAQBACDBUtqZPru2ussVkwWANcPTBbNK+cQxHmIMh3JZgMqmgg==:UJztnWtaE4d9JpXpE65MoPbVOr1yIGqywDAePEvxv6c=:eBAxGP0BxSvzZIn+I8Fj88QCCVFBjWmg/oM4hy46cba2B5Pf5em8yIpeUV4DBa6exXrb5KqUSA78U8ydoi3x2w== 10 0ce80743e3295d47fb02766d4972b545be179795 ima-ng sha256:aaaaaaaaaaaaaaaaaaaaaaaaaaaaaaaaaaaaaaaaaaaaaaaaaaaaaaaaaaaaaaaa boot_aggregate\\n10 bb3063d25fca3cae71d7566d0c76699a1cf95c1c ima-ng sha256:bbbbbbbbbbbbbbbbbbbbbbbbbbbbbbbbbbbbbbbbbbbbbbbbbbbbbbbbbbbbbbbb /bin/sh\\n\n";

const INSTALLED: &str = "installed a1 generation 1\n";

const POLLED: &str = "poll 1 a1 generation 1 nonce n1 from 0\n";

const PASSED: &str = "verdict 1 pass 2 current state 5\n";

/// A run, and what is expected of it.
#[derive(Clone, Copy)]
struct Case<'a> {
    word: &'a str,
    /// The pieces of the script, one behind the other.
    script: &'a [&'a str],
    /// The bytes that can be drawn.
    bytes: &'a [u8],
    /// The numbers of the reads, the puts and the draws that fail.
    fails: [&'a [u64]; 3],
    /// What is printed, in pieces.
    printed: &'a [&'a str],
    status: u8,
}

/// A run of the word `run` over an empty script, in which no call fails, and no byte can be drawn.
const PLAIN: Case<'static> = Case {
    word: "run",
    script: &[],
    bytes: &[],
    fails: [&[], &[], &[]],
    printed: &[],
    status: 0,
};

/// The pieces, one behind the other.
fn joined(alloc: Global, pieces: &[&str]) -> Result<Vec<u8>, AllocError> {
    let mut all = String::new(alloc);
    for piece in pieces {
        all.push_str(piece)?;
    }
    Ok(all.into_bytes())
}

/// Whether a run goes as its case says.
fn goes_so(alloc: Global, case: Case<'_>) -> Result<bool, Fail> {
    reads_so(alloc, joined(alloc, case.script)?, case)
}

/// Whether a run over these bytes goes as the case says of its own.
fn reads_so(alloc: Global, script: Vec<u8>, case: Case<'_>) -> Result<bool, Fail> {
    let words = vec![in alloc; String::from_str(alloc, case.word)?]?;
    let [reads, puts, draws] = case.fails;
    let mut bytes = Vec::new(alloc);
    bytes.extend_from_slice(case.bytes)?;
    let mut script = MemSource::new(alloc, script, reads)?;
    let mut out = MemSink::new(alloc, 4096, puts)?;
    let mut keys = MacKeys::new(alloc, &[])?;
    let mut nonces = MemWords::new(alloc, bytes, draws)?;
    let status = run_counted::<_, _, _, _, _, Brand>(
        alloc,
        &words,
        &mut script,
        &mut out,
        &mut keys,
        &mut StdMaker::new(),
        &mut nonces,
        Blank::new(1),
    );
    Ok(out.held() == joined(alloc, case.printed)?.as_slice() && status == case.status)
}

const SESSION: &[&str] = &[ADD, BEGIN, REPLY];

/// What `kl_cases` can't have: reads, puts and draws that fail, and another word.
const CASES: &[Case<'static>] = &[
    Case {
        script: SESSION,
        fails: [&[1], &[], &[]],
        status: 4,
        ..PLAIN
    },
    Case {
        script: SESSION,
        fails: [&[2], &[], &[]],
        printed: &[INSTALLED, POLLED, PASSED],
        status: 4,
        ..PLAIN
    },
    // One read gives all of the script, the next its end, and no other follows.
    Case {
        script: SESSION,
        fails: [&[3], &[], &[]],
        printed: &[INSTALLED, POLLED, PASSED],
        ..PLAIN
    },
    // What was read of a line before a fault is not executed.
    Case {
        script: &["now 7\nnow 8"],
        fails: [&[2], &[], &[]],
        printed: &["now 7\n"],
        status: 4,
        ..PLAIN
    },
    Case {
        script: SESSION,
        fails: [&[], &[3], &[]],
        printed: &[INSTALLED, POLLED],
        status: 5,
        ..PLAIN
    },
    Case {
        script: &["none\n"],
        fails: [&[], &[1], &[]],
        status: 5,
        ..PLAIN
    },
    Case {
        script: &["begin a2\n"],
        bytes: &[0; 16],
        fails: [&[], &[], &[1]],
        status: 6,
        ..PLAIN
    },
    Case {
        word: "ran",
        script: SESSION,
        status: 2,
        ..PLAIN
    },
];

#[test]
fn faults_end_a_run_with_their_status(rt: HostRuntime) -> Result<(), Fail> {
    let alloc = rt.alloc();
    for case in CASES {
        assert!(rt; goes_so(alloc, *case)?);
    }
    Ok(())
}

#[test]
fn a_line_has_16_mib_at_most(rt: HostRuntime) -> Result<(), Fail> {
    let alloc = rt.alloc();
    let most = vec![in alloc; b'#'; 16_777_216]?;
    assert!(rt; reads_so(alloc, most, PLAIN)?);
    let more = vec![in alloc; b'#'; 16_777_217]?;
    let too_long = Case {
        printed: &["fault line 1\n"],
        status: 8,
        ..PLAIN
    };
    assert!(rt; reads_so(alloc, more, too_long)?);
    Ok(())
}
