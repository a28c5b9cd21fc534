//! What no clause says, and `kl_cases` can't have: a pattern that is refused as too large once, and what is open at the end.

ghost use Rattle.std.specs.Prelude.{◌≡◌, ◌≤◌};

use kl_core::Record;
use kl_exclude::{MemMaker, PatternMaker};
use kl_io::MemWords;
use kl_keys::MacKeys;
use kl_pcr::Steps;
use kl_script::read_command;
use kl_session::Session;
use kl_states::{DropWhy, Outcome};
use std::alloc::Global;
use std::marker::Brand;
use std::sync::ledger::{Blank, Ledger};
use std::test::*;

/// An add under a JSON policy with one pattern, and a replacement by the same.
const ADD: &str =
    "add a1 h sha1 0x10400 - 6b31 2222222222222222222222222222222222222222222222222222222222222222 json {\"digests\":{\"/bin/sh\":[\"aaaaaaaaaaaaaaaaaaaaaaaaaaaaaaaaaaaaaaaa\"]},\"excludes\":[\"/opt/\"]}";

const SAME: &str =
    "replace a1 json {\"digests\":{\"/bin/sh\":[\"aaaaaaaaaaaaaaaaaaaaaaaaaaaaaaaaaaaaaaaa\"]},\"excludes\":[\"/opt/\"]}";

/// A replacement by another policy, and an add of another agent under the same.
const REPLACE: &str =
    "replace a1 json {\"digests\":{\"/bin/sh\":[\"aaaaaaaaaaaaaaaaaaaaaaaaaaaaaaaaaaaaaaaa\"]},\"excludes\":[\"/srv/\"]}";

const ADD_OTHER: &str =
    "add b1 h sha1 0x10400 - 6b31 2222222222222222222222222222222222222222222222222222222222222222 json {\"digests\":{\"/bin/sh\":[\"aaaaaaaaaaaaaaaaaaaaaaaaaaaaaaaaaaaaaaaa\"]},\"excludes\":[\"/srv/\"]}";

/// A reply to each of the first polls. The quotes are by Python's `hmac`.
const REPLY: &str =
    "reply 1 sha1 0 PUB r/1RDR4AYACIRERERERERERERERERERERERERERERERERERERERERERERAAJuMQAAAAAAAAPoAAAAAQAAAAABAAAAAAAAAAEAAAABAAQDAAQBACBhujJXFLiOEdEpmIt6Y4nlz7+Es9kcy2b98hMvBSmWJQ==:wTFNCKCsxUDpZhmQ2wqhiFceM5KHmFvjR+J4HCyb7cc=:TF4ZH8qHtO/ay5lEl9bSNIV5woeHWYmHKjDpLfu0CkCC/HdzCra3Gw== 10 0ab7cae3c9577dc6190249b1a2e8fe52da753afd ima-ng sha1:aaaaaaaaaaaaaaaaaaaaaaaaaaaaaaaaaaaaaaaa /bin/sh\\n";

const OTHER_REPLY: &str =
    "reply 2 sha1 0 PUB r/1RDR4AYACIRERERERERERERERERERERERERERERERERERERERERERERAAJuMgAAAAAAAAPoAAAAAQAAAAABAAAAAAAAAAEAAAABAAQDAAQBACBhujJXFLiOEdEpmIt6Y4nlz7+Es9kcy2b98hMvBSmWJQ==:LQPvk3Ugp+yeXnQKClSElXKX6w1dhTMmLzFyyJOOBnE=:TF4ZH8qHtO/ay5lEl9bSNIV5woeHWYmHKjDpLfu0CkCC/HdzCra3Gw== 10 0ab7cae3c9577dc6190249b1a2e8fe52da753afd ima-ng sha1:aaaaaaaaaaaaaaaaaaaaaaaaaaaaaaaaaaaaaaaa /bin/sh\\n";

/// The commands of a session, and what each prints. A pattern is refused as too large when it is asked for first, and not when
/// it is asked for again; where the text comes next once more it is not asked for, which would be refused.
const LINES: [(&str, &str); 15] = [
    (ADD, "refused policy toolarge 0\n"),
    (ADD, "installed a1 generation 1\n"),
    (SAME, "installed a1 generation 2\n"),
    (REPLACE, "refused policy toolarge 0\n"),
    (REPLACE, "installed a1 generation 3\n"),
    (ADD_OTHER, "installed b1 generation 4\n"),
    ("begin a1 n1", "poll 1 a1 generation 3 nonce n1 from 0\n"),
    (REPLY, "verdict 1 pass 1 current state 5\n"),
    ("release a1", "release 1 a1 poll 1\n"),
    ("begin b1 n2", "poll 2 b1 generation 4 nonce n2 from 0\n"),
    (OTHER_REPLY, "verdict 2 pass 1 current state 5\n"),
    ("release b1", "release 2 b1 poll 2\n"),
    ("begin b1 n3", "poll 3 b1 generation 4 nonce n3 from 0\n"),
    ("begin a1 n4", "poll 4 a1 generation 3 nonce n4 from 0\n"),
    ("stop a1", "stopped a1\n"),
];

/// The records that are made at the end, by their places: poll 3 and poll 4 are dropped, and release 1, of an agent that was
/// stopped since, and release 2 are withdrawn.
const ENDS: [(u64, End); 4] = [
    (13, End::Dropped(3)),
    (14, End::Dropped(4)),
    (15, End::Withdrawn(1, false)),
    (16, End::Withdrawn(2, true)),
];

/// A record that is made since a session ends.
#[derive(Clone, Copy, PartialEq, Eq)]
enum End {
    Dropped(u64),
    /// Current or not.
    Withdrawn(u64, bool),
    Other,
}

/// What a record says of the end of a session.
fn end_of(record: Option<&Record>) -> End {
    match record {
        Some(
            Record::Dropped {
                poll,
                why: DropWhy::End,
            },
        ) => End::Dropped(*poll),
        Some(
            Record::Settled {
                number,
                outcome: Outcome::Withdrawn(DropWhy::End),
                current,
            },
        ) => End::Withdrawn(*number, *current),
        _ => End::Other,
    }
}

/// Whether a command prints this.
fn prints<L: Ledger>(
    session: &mut Session,
    alloc: Global,
    line: &str,
    wanted: &str,
    keys: &mut MacKeys,
    patterns: &mut MemMaker,
    words: &mut MemWords,
    steps: &mut Steps<L>,
) -> bool {
    if line.len() > 1000 {
        return false;
    }
    let Ok(command) = read_command(alloc, line.as_bytes()) else {
        return false;
    };
    match session.obey(alloc, command, keys, patterns, words, steps) {
        Ok(printed) => printed.as_str() == wanted,
        Err(_) => false,
    }
}

/// The first command that prints something else.
fn first_other<L: Ledger>(
    session: &mut Session,
    alloc: Global,
    patterns: &mut MemMaker,
    blank: Blank,
) -> Result<Option<&'static str>, Fail>
    requires name { blank.name ≡ L.name }
    requires parts { blank.parts ≡ L.parts }
    requires some { 1 ≤ blank.parts }
{
    let mut keys = MacKeys::new(alloc, &[])?;
    let mut words = MemWords::new(alloc, Vec::new(alloc), &[])?;
    let mut steps = Steps::<L>::of(blank);
    for (line, wanted) in &LINES {
        if !prints(
            session, alloc, *line, *wanted, &mut keys, patterns, &mut words, &mut steps,
        ) {
            return Ok(Some(*line));
        }
    }
    Ok(None)
}

#[test]
fn a_pattern_is_asked_for_once_and_what_is_open_is_closed_at_the_end(
    rt: HostRuntime,
) -> Result<(), Fail> {
    let alloc = rt.alloc();
    let mut patterns = MemMaker::new(alloc, &[1, 3, 5])?;
    let mut session = Session::new(alloc)?;
    let other = first_other::<Brand>(&mut session, alloc, &mut patterns, Blank::new(1));
    let book = session.close();
    assert_eq!(rt; (other?, book.len(), patterns.sizes()), (None, 17, 2));
    for (place, end) in &ENDS {
        assert!(rt; end_of(book.record(*place)) == *end);
    }
    Ok(())
}
