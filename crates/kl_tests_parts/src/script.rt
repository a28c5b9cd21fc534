use kl_script::*;
use kl_states::{Outcome, PolicyKind};
use std::alloc::Global;
use std::test::*;

/// Lines by the command that they spell and the form of its policy: each command, and its parts at
/// their edges.
const LINES: [(&str, &str); 25] = [
    (
        "nothing",
        "\n#\n# a comment\n#stop a1\n# \u{e9} \u{1f511} \r\t\\x",
    ),
    (
        "add flat",
        "add node-1.b host\\sone:9002 sha384 0x0a0400 0=00112233445566778899AABBCCDDEEFF00112233,\
aa00000000000000000000000000000000000000000000000000000000000001;\
23=bb0000000000000000000000000000000000000000000000000000000000000000000000000000000000000000000002 \
00Ff aa00000000000000000000000000000000000000000000000000000000000001 flat two  words\\nand \\\\\\s
add a1 h sha1 0x0 - 00 - flat json\nadd a1 h sha1 0x0 - 00 - flat \n\
add a1 h sha256 0xFFffFF 9=00112233445566778899aabbccddeeff00112233 00 - flat x",
    ),
    (
        "add json",
        "add a1 h sha1 0x0 - 00 - json {}\nadd a1 h sha1 0x0 - 00 - json \nadd a1 h sha1 0x0 - 00 - json json flat",
    ),
    (
        "replace json",
        "replace a1 json x\nreplace a1 json \nreplace a1 json { \\s}\\n\nreplace json json json\nreplace flat json flat",
    ),
    (
        "replace flat",
        "replace a1 flat \nreplace a1 flat  \nreplace a1 flat json x\nreplace json flat json\nreplace node-1.b flat two  words\\nand \\\\\\s flat",
    ),
    ("reactivate", "reactivate a1"),
    (
        "stop",
        "stop a1\nstop _\nstop aaaaaaaaaaaaaaaaaaaaaaaaaaaaaaaaaaaaaaaaaaaaaaaaaaaaaaaaaaaaaaaa",
    ),
    ("remove", "remove a1"),
    ("now", "now 0\nnow 10\nnow 18446744073709551615"),
    ("begin", "begin a1 n1\nbegin a1\nbegin A.b_- 0z"),
    (
        "reply",
        "reply 1 sha256 0 p q \nreply 0 sha256 0 p q \nreply 18446744073709551615 sha256 0 p q x
reply 10 \\0 18446744073709551615 \\\\ \\s\\n 10 a\\n  b",
    ),
    ("state", "state a1"),
    ("lose", "lose 0\nlose 10\nlose 18446744073709551615"),
    ("pick", "pick"),
    ("release", "release a1\nrelease A.b_-"),
    (
        "settle arrived",
        "settle 0 arrived\nsettle 10 arrived\nsettle 18446744073709551615 arrived",
    ),
    (
        "settle missed",
        "settle 1 missed\nsettle 18446744073709551615 missed",
    ),
    ("notice", "notice"),
    (
        "noticed",
        "noticed 0\nnoticed 10\nnoticed 18446744073709551615",
    ),
    (
        "register",
        "register a1 aa bb h:9002\nregister A.b_- 00Ff aB h\\sone\nregister a1 00 00 \\0\nregister a1 11 22 \\\\\\n",
    ),
    (
        "activate",
        "activate a1 00\nactivate a1 \\0\nactivate a1 not\\sa\\stag",
    ),
    ("record", "record a1"),
    ("records", "records"),
    ("forget", "forget a1"),
    ("none", OTHERS),
];

/// Lines that spell none: each part of a command out of its form.
const OTHERS: &str =
    " \n #\n\r\nadd\nnow\nreply\nstop\nstop \nstops a1\nStop a1\nsto a1\n stop a1\nstop  a1\nstop a1 \nstop a b\nstop a/1\nstop\ta1
stop aaaaaaaaaaaaaaaaaaaaaaaaaaaaaaaaaaaaaaaaaaaaaaaaaaaaaaaaaaaaaaaaa
reactivate\nreactivate a1 flat\nreactivate a1 \nremove \nremove a1 n1\nstate\nstate a1 1\nstate a1\r
now \nnow 01\nnow 00\nnow -1\nnow +1\nnow 1 \nnow  1\nnow 1 2\nnow 1.5\nnow 0x1\nnow 18446744073709551616
replace a1 flat\nreplace a1 Flat x\nreplace a1 flatx x\nreplace a1 fla x\nreplace a1 json\nreplace a1 Json x\n\
replace a1 JSON x\nreplace a1 jsonx x\nreplace a1 jso x\nreplace a1  json x\nreplace  json x\nreplace a1 - x\nreplace json x\n\
replace a1 json x\\\nreplace a1 flat,json x\nreplace a1 json{} x\nreplace a1  flat x\nreplace  flat x\nreplace a/1 flat x\n\
replace flat x\nreplace a1 flat x\\
begin\nbegin \nbegin a1 \nbegin a1  n\nbegin a1 n1 \nbegin a1 n1 n2\nbegin  a1 n1\nbegin  n1\n begin a1 n1\nBegin a1 n1\nbegin a/1 n1\n\
begin a1 n-1\nbegin a/1
reply 1 sha256 0 p q\nreply x sha256 0 p q \nreply 01 sha256 0 p q \nreply +1 sha256 0 p q \nreply 18446744073709551616 sha256 0 p q \n\
reply  sha256 0 p q \nreply 1 sha256 00 p q \nreply 1 sha256 +1 p q \nreply 1 sha256 18446744073709551616 p q \nreply 1 sha256 0 p\\0 q \n\
reply 1 sha256 0 p q \\0
register a1 aa bb\nregister a1 aa bb \nregister a1 aa bb h x\nregister a1 aa  h\nregister a1 a bb h\nregister a1 aa bbb h\n\
register a1 aa bg h\nregister a/1 aa bb h\nregister a1 aa bb h\\t\nregister a1  bb h\nregister\nactivate a1\nactivate a1 \nactivate a1 00 \n\
activate a1 0\\1\nactivate a/1 00\nactivate\nrecord\nrecord \nrecord a1 a2\nrecords \nrecords a1\n records\nRecords\nrecord s\\\nforget\n\
forget a1 \nforgets a1
lose\nlose \nlose 01\nlose 1 \nlose 1 2\nlose x\nlose 18446744073709551616\nlost 1\npick \npick 1\n pick\nPick\npicks\nnotice \nnotice 1\n\
notices\nnoticed\nnoticed \nnoticed 00\nnoticed 1 2\nnoticed -1\nnoticed 18446744073709551616
release\nrelease \nrelease a1 \nrelease a1 1\nrelease a/1\nrelease  a1\nRelease a1\nreleases a1\nreleased a1
settle\nsettle \nsettle 1\nsettle 1 \nsettle arrived\nsettle 1  arrived\nsettle  1 arrived\nsettle 1 arrived \nsettle 1 arrived 2\n\
settle 01 missed\nsettle -1 missed\nsettle x missed\nsettle 18446744073709551616 missed\nsettle 1 Arrived\nsettle 1 arrive\n\
settle 1 miss\nsettle 1 withdrawn-end\nsettle 1 missed\r\nsettle missed 1\nsettled 1 missed\nsettle a1 missed
add a1 h sha1 0x0 - 00 - flat
add a1 h sha1 0x0 - 00 - json\nadd a1 h sha1 0x0 - 00 - Json {}\nadd a1 h sha1 0x0 - 00 - jsonx {}\nadd a1 h sha1 0x0 - 00 - json{}\n\
add a1 h sha1 0x0 - 00 - flatjson {}\nadd a1 h sha1 0x0 - 00 -  json {}\nadd a1 h sha1 0x0 - 00 json {}\nadd a1 h sha1 0x0 - 00 - json \\0
add a1 h sha512 0x0 - 00 - flat \nadd a1 h\\t sha1 0x0 - 00 - flat \nadd a1 h sha1 0x0 - 00 - flat \\0
add a1 h sha1 0x0 - 00 - flat x\\
add a1  sha1 0x0 - 00 - flat \nadd a1 h sha1 10400 - 00 - flat \nadd a1 h sha1 0x - 00 - flat \nadd a1 h sha1 0X1 - 00 - flat \n\
add a1 h sha1 0x+1 - 00 - flat \nadd a1 h sha1 0x1234567 - 00 - flat \n\
add a1 h sha1 0x0 24=00112233445566778899aabbccddeeff00112233 00 - flat \n\
add a1 h sha1 0x0 09=00112233445566778899aabbccddeeff00112233 00 - flat \n\
add a1 h sha1 0x0 9=00112233445566778899aabbccddeeff001122 00 - flat \n\
add a1 h sha1 0x0 9=00112233445566778899aabbccddeeff00112233, 00 - flat \n\
add a1 h sha1 0x0 9=00112233445566778899aabbccddeeff00112233; 00 - flat \nadd a1 h sha1 0x0 9= 00 - flat \nadd a1 h sha1 0x0 - 0 - flat \n\
add a1 h sha1 0x0 - 000 - flat \nadd a1 h sha1 0x0 - 0g - flat \nadd a1 h sha1 0x0 - - - flat \n\
add a1 h sha1 0x0 - 00 aa0000000000000000000000000000000000000000000000000000000000001 flat \n\
add a1 h sha1 0x0 - 00 aa000000000000000000000000000000000000000000000000000000000001 flat \nadd a1 h sha1 0x0 - 00 -- flat ";

/// Lines that are no text.
const NO_TEXTS: [&[u8]; 3] = [b"# \xff", b"#\xc3", b"stop \xe9"];

/// The one of two names that belongs to the form of a policy.
fn name_by(kind: PolicyKind, flat: &'static str, json: &'static str) -> &'static str {
    match kind {
        PolicyKind::Flat => flat,
        PolicyKind::Json => json,
    }
}

/// The name of a settle, and of how the delivery ended.
fn name_of_settle(settle: &Settle) -> &'static str {
    match settle.delivery.outcome() {
        Outcome::Arrived => "settle arrived",
        Outcome::Missed => "settle missed",
        Outcome::Withdrawn(_) => "none",
    }
}

/// The name of a command to the verifier, and of its policy's form.
fn name_of_verifier(command: &VerifierCommand) -> &'static str {
    match command {
        VerifierCommand::Add(add) => name_by(add.kind, "add flat", "add json"),
        VerifierCommand::Replace(replace) => {
            name_by(replace.kind, "replace flat", "replace json")
        },
        VerifierCommand::Reactivate(_) => "reactivate",
        VerifierCommand::Stop(_) => "stop",
        VerifierCommand::Remove(_) => "remove",
        VerifierCommand::Now(_) => "now",
        VerifierCommand::Begin(_) => "begin",
        VerifierCommand::Reply(_) => "reply",
        VerifierCommand::State(_) => "state",
        VerifierCommand::Lose(_) => "lose",
        VerifierCommand::Pick => "pick",
        VerifierCommand::Release(_) => "release",
        VerifierCommand::Settle(settle) => name_of_settle(settle),
        VerifierCommand::Notice => "notice",
        VerifierCommand::Noticed(_) => "noticed",
    }
}

/// The name of a command to the registrar.
fn name_of_registrar(command: &RegistrarCommand) -> &'static str {
    match command {
        RegistrarCommand::Register(_) => "register",
        RegistrarCommand::Activate(_) => "activate",
        RegistrarCommand::Record(_) => "record",
        RegistrarCommand::Records => "records",
        RegistrarCommand::Forget(_) => "forget",
    }
}

/// The name of a command, and of its policy's form.
fn name_of(command: &Command) -> &'static str {
    match command {
        Command::Nothing => "nothing",
        Command::Verifier(command) => name_of_verifier(command),
        Command::Registrar(command) => name_of_registrar(command),
    }
}

/// The name of the command that a line spells, and `none` where it spells none; None where memory ran
/// out, or the line is longer than a line may be.
fn name_in(alloc: Global, line: &[u8]) -> Option<&'static str> {
    if line.len() > 16_777_216 {
        return None;
    }
    match read_command(alloc, line) {
        Ok(command) => Some(name_of(&command)),
        Err(CommandFault::NoCommand) => Some("none"),
        Err(CommandFault::Memory) => None,
    }
}

#[test]
fn which_lines_are_commands(rt: HostRuntime) {
    for (name, lines) in LINES {
        for line in lines.split('\n') {
            assert!(rt;
                name_in(rt.alloc(), line.as_bytes()) == Some(name),
                "{line}"
            );
        }
    }
}

#[test]
fn a_line_that_is_no_text_is_no_command(rt: HostRuntime) {
    for line in NO_TEXTS {
        assert!(rt; name_in(rt.alloc(), line) == Some("none"));
    }
}

/// A reply with a list of this many bytes.
fn reply_with(alloc: Global, bytes: usize) -> Result<Vec<u8>, Fail> {
    let mut line = Vec::from_slice(alloc, b"reply 1 sha256 0 p q ")?;
    let list = [b'a'].repeat(alloc, bytes)?;
    line.extend_from_slice(&list)?;
    Ok(line)
}

#[test]
fn a_line_of_the_greatest_length_is_read(rt: HostRuntime) -> Result<(), Fail> {
    let line = reply_with(rt.alloc(), 16_777_195)?;
    assert!(rt; line.len() == 16_777_216);
    assert!(rt; name_in(rt.alloc(), line.as_slice()) == Some("reply"));
    Ok(())
}

/// Texts, and the fields as which they are written.
const FIELDS: [(&str, &str); 6] = [
    ("", "\\0"),
    ("h:9002", "h:9002"),
    ("a b", "a\\sb"),
    (" \n\\", "\\s\\n\\\\"),
    ("\\0", "\\\\0"),
    ("\u{e9} \u{1f511}\r\t", "\u{e9}\\s\u{1f511}\r\t"),
];

#[test]
fn texts_are_written_as_fields(rt: HostRuntime) -> Result<(), Fail> {
    for (text, field) in FIELDS {
        let written = write_field(rt.alloc(), text)?;
        assert!(rt; written.as_str() == field, "{field}");
    }
    Ok(())
}

#[test]
fn words_are_read_with_ample_memory(rt: HostRuntime) {
    one_command();
    let alloc = rt.alloc();
    let read = read_number("1048576") == Some(1_048_576)
        && matches!(read_field(alloc, "a\\sb"), Ok(field) if field.as_str() == "a b")
        && matches!(read_field(alloc, "\\0"), Ok(field) if field.as_str().is_empty())
        && matches!(unescape_rest(alloc, "a \\\\s\\n"), Ok(rest) if rest.as_str() == "a \\s\n");
    assert!(rt; read);
}
