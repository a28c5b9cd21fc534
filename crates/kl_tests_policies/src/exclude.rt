ghost use Rattle.std.specs.Prelude.{◌≤◌, All, length, string_bytes, IfOk};

use kl_exclude::*;
use std::alloc::Global;
use std::test::*;

/// Texts and paths, and which of these one of the texts matches by Python's `re.match`.
const MATCHED: [(&[&str], &[&str], &[bool]); 13] = [
    (
        &["b|ab"],
        &["ab", "b", "xb", ""],
        &[true, true, false, false],
    ),
    (
        &["tmp/"],
        &["/tmp/x", "tmp/x", "tmp"],
        &[false, true, false],
    ),
    (
        &["/tmp/.*"],
        &["/tmp/x", "/tmp", "/var/tmp/x"],
        &[true, false, false],
    ),
    (
        &["^/var/log/(a|b)$"],
        &["/var/log/a", "/var/log/ab", "/x/var/log/a"],
        &[true, false, false],
    ),
    (&["(?i)/TMP/x"], &["/tmp/X", "/tmp/y"], &[true, false]),
    (
        &[".*\\.pyc$", "/opt/"],
        &["/srv/a.pyc", "/srv/a.pyc.d", "/opt/x", "/srv/opt/x"],
        &[true, false, true, false],
    ),
    (&[""], &["", "/a"], &[true, true]),
    (&[], &["", "/a"], &[false, false]),
    (
        &["b*?(?P<n>x)", "(?P<n>y)$"],
        &["bbx", "y", "yz", "ax"],
        &[true, true, false, false],
    ),
    (&["\\bab"], &["ab", "-ab"], &[true, false]),
    (
        &["(?x) /opt # a|/srv", "/usr"],
        &["/opt/y", "/srv/y", "/usr"],
        &[true, false, true],
    ),
    (&["a$", "b^"], &["a", "b", "ab"], &[true, false, false]),
    (&["é|/ö"], &["é", "/ö", "/é"], &[true, true, false]),
];

/// The texts, none of which is too long to be compiled.
fn strings(alloc: Global, texts: &[&str]) -> Result<Vec<String>, Memory>
    ensures { IfOk result (λ all. All (λ text. length (string_bytes text) ≤ 512) all.items) }
{
    let mut all = Vec::new(alloc);
    for text in texts {
        let text = String::from_str(alloc, text)?;
        if text.len() > 512 {
            return Err(Memory);
        }
        all.push(text)?;
    }
    Ok(all)
}

/// The texts, compiled by `regex`.
fn compiled(alloc: Global, texts: &[&str]) -> Result<Vec<Pattern>, ExcludeFault> {
    let texts = strings(alloc, texts)?;
    compile(alloc, &mut StdMaker::new(), texts.as_slice())
}

/// Whether both ways of search answer so, and patterns that are no more than a program holds are searched for at once.
fn answer_so(
    alloc: Global,
    list: Vec<Pattern>,
    paths: &[&str],
    wanted: &[bool],
    at_once: bool,
) -> Result<bool, Memory> {
    let apart = excluded(alloc, list.as_slice(), paths)?;
    let patterns = Patterns::new(alloc, list)?;
    let together = patterns.excluded(alloc, paths)?;
    let same = apart.as_slice() == wanted && together.as_slice() == wanted;
    Ok(same && patterns.are_joined() == at_once)
}

/// Whether patterns of these texts answer so.
fn are_matched(
    alloc: Global,
    texts: &[&str],
    paths: &[&str],
    wanted: &[bool],
    at_once: bool,
) -> bool {
    match compiled(alloc, texts) {
        Ok(list) => answer_so(alloc, list, paths, wanted, at_once) == Ok(true),
        Err(_) => false,
    }
}

fn first_mismatched(alloc: Global) -> Option<usize> {
    MATCHED.iter().position(|(texts, paths, wanted)| !are_matched(
        alloc,
        texts,
        paths,
        wanted,
        !texts.is_empty(),
    ))
}

#[test]
fn paths_are_excluded_as_python_matches_them(rt: HostRuntime) {
    assert_eq!(rt; first_mismatched(rt.alloc()), None);
}

/// One text several times, and another.
fn repeated<'a>(
    alloc: Global,
    count: usize,
    text: &'a str,
    last: &'a str,
) -> Result<Vec<&'a str>, Memory> {
    let mut texts = Vec::new(alloc);
    for _ in 0..count {
        texts.push(text)?;
    }
    texts.push(last)?;
    Ok(texts)
}

#[test]
fn many_patterns_are_searched_for_at_once_where_they_fit(rt: HostRuntime) -> Result<(), Fail> {
    let alloc = rt.alloc();
    for (count, text, last, paths, wanted, at_once) in MANY {
        let texts = repeated(alloc, count, text, last)?;
        let same = are_matched(alloc, texts.as_slice(), paths, wanted, at_once);
        assert!(rt; same, "{text}");
    }
    Ok(())
}

/// How often a text stands, that text and one behind it, paths, which of them `re.match` matches, and whether all patterns
/// fit one program.
const MANY: [(usize, &str, &str, &[&str], &[bool], bool); 2] = [
    (
        31,
        "/dir/.*\\.py$",
        "/opt/[0-9]+",
        &["/dir/a.py", "/opt/7", "/opt/x", "/dir/a.pyc", "x/opt/7"],
        &[true, true, false, false, false],
        true,
    ),
    (
        2,
        "\\w{600}y",
        "/opt/[0-9]+",
        &["/opt/7", "/dir/a.py", "x/opt/7"],
        &[true, false, false],
        false,
    ),
];

/// Numbers of calls that are refused, texts, how many patterns these make or why they make none, and how many were
/// refused as too large.
const FAULTS: [(&[u64], &[&str], Result<usize, ExcludeFault>, u64); 11] = [
    (&[], &["/a", "(", "["], Err(ExcludeFault::Syntax(1)), 0),
    (&[], &["*"], Err(ExcludeFault::Syntax(0)), 0),
    (&[], &["a", "(?=b)c"], Err(ExcludeFault::Syntax(1)), 0),
    (&[], &["(a)\\1"], Err(ExcludeFault::Syntax(0)), 0),
    (
        &[],
        &["a", "b", "\\w{1000}", "("],
        Err(ExcludeFault::TooLarge(2)),
        1,
    ),
    (&[2], &["/a", "/b", "/c"], Err(ExcludeFault::TooLarge(1)), 1),
    (&[2], &["(", "/b"], Err(ExcludeFault::Syntax(0)), 0),
    (&[1, 2], &["(", "/b"], Err(ExcludeFault::TooLarge(0)), 1),
    (&[3], &["/a", "/b"], Ok(2), 0),
    (
        &[],
        &[
            "(((((((((((((((((((((((((((((((((((((((((((((((((((((((((((((((((((((((((((((((((((((((((((((((((((((((((((((((((((((((((((((((((((((((((((((((((((((((((((((((((((((((((((((((((((((((((((((((((((((((((((((((((((((((((((((((((((((((((((((((((((((((((())))))))))))))))))))))))))))))))))))))))))))))))))))))))))))))))))))))))))))))))))))))))))))))))))))))))))))))))))))))))))))))))))))))))))))))))))))))))))))))))))))))))))))))))))))))))))))))))))))))))))))))))))))))))))))))))))))))))))))))))))))))))))",
        ],
        Ok(1),
        0,
    ),
    (
        &[],
        &[
            "((((((((((((((((((((((((((((((((((((((((((((((((((((((((((((((((((((((((((((((((((((((((((((((((((((((((((((((((((((((((((((((((((((((((((((((((((((((((((((((((((((((((((((((((((((((((((((((((((((((((((((((((((((((((((((((((((((((((((((((((((((((((((()))))))))))))))))))))))))))))))))))))))))))))))))))))))))))))))))))))))))))))))))))))))))))))))))))))))))))))))))))))))))))))))))))))))))))))))))))))))))))))))))))))))))))))))))))))))))))))))))))))))))))))))))))))))))))))))))))))))))))))))))))))))))))",
        ],
        Err(ExcludeFault::Syntax(0)),
        0,
    ),
];

/// How many patterns the texts make, and how many were refused as too large.
fn made_of(
    alloc: Global,
    sizes: &[u64],
    texts: &[&str],
) -> Result<(Result<usize, ExcludeFault>, u64), Memory> {
    let mut maker = MemMaker::new(alloc, sizes)?;
    let texts = strings(alloc, texts)?;
    let made = compile(alloc, &mut maker, texts.as_slice());
    Ok((made.map(|patterns| patterns.len()), maker.sizes()))
}

#[test]
fn the_first_text_that_makes_no_pattern_is_named(rt: HostRuntime) -> Result<(), Fail> {
    for (sizes, texts, wanted, refused) in FAULTS {
        let made = made_of(rt.alloc(), sizes, texts)?;
        assert!(rt; made == (wanted, refused), "{texts:?}: {made:?}");
    }
    Ok(())
}

#[test]
fn what_is_printed(rt: HostRuntime) -> Result<(), Fail> {
    let (syntax, size) = (ExcludeFault::Syntax(0), ExcludeFault::TooLarge(31));
    let shown = format!(in rt.alloc(); "{syntax}, {size}, {}", ExcludeFault::Memory)?;
    assert_eq!(rt;
        shown.as_str(),
        "exclude 0 is no pattern, exclude 31 is too large, out of memory"
    );
    Ok(())
}

#[test]
fn no_pattern_excludes_nothing(rt: HostRuntime) -> Result<(), Fail> {
    let none = Patterns::none(rt.alloc());
    let marks = none.excluded(rt.alloc(), &["", "/a"])?;
    assert!(rt; none.is_empty() && marks.as_slice() == [false, false].as_slice());
    Ok(())
}
