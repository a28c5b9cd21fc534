use kl_json::*;
use serde_json::json;
use std::alloc::Global;
use std::test::*;

/// Lists within one another, as deep as that, and their closing brackets.
fn nested(alloc: Global, depth: usize) -> Result<String, Fail> {
    let mut text = String::new(alloc);
    for _ in 0..depth {
        text.push('[')?;
    }
    for _ in 0..depth {
        text.push(']')?;
    }
    Ok(text)
}

#[test]
fn which_texts_are_json(rt: HostRuntime) -> Result<(), Fail> {
    let deepest = nested(rt.alloc(), 127)?;
    let deeper = nested(rt.alloc(), 128)?;
    let cases: [(&[u8], bool); 9] = [
        (b"{\"a\": [1, 2.5, null, true]} ", true),
        (b"\"\xC3\xA9\"", true),
        (b"\"\xC3\"", false),
        (b"", false),
        (b"{\"a\": 1", false),
        (b"[1,]", false),
        (b"{} {}", false),
        (deepest.as_bytes(), true),
        (deeper.as_bytes(), false),
    ];
    for (text, known) in cases {
        let fault = parse(rt.alloc(), text).err();
        let expected = if known {
            None
        } else {
            Some(JsonFault::NotJson)
        };
        assert!(rt; fault == expected, "of {} bytes", text.len());
    }
    Ok(())
}

/// Texts, and whether each is a value that can be told.
const TREES: [(&str, bool); 8] = [
    (
        "{\"b\": [1, -2, -0, 2.5e3, 18446744073709551616], \"a\": {\"y\": true, \"x\": null}, \"b\": \"\\u00e9\"}",
        true,
    ),
    ("[{\"twice\": 1, \"twice\": [], \"\": {}}]", true),
    ("\"x\"", true),
    ("1e999", false),
    ("[1, -1e999]", false),
    ("{\"a\": 1e999}", false),
    ("[1", false),
    ("1 2", false),
];

/// The value of the text's tree, where there is a tree and its value can be told; None where memory ran out.
fn value_of_tree(alloc: Global, text: &str) -> Option<Option<Value>> {
    let mut scratch = Scratch::new(alloc);
    match tree_of(alloc, text, &mut scratch).ok()? {
        Some(tree) => owned(alloc, &tree).ok(),
        None => Some(None),
    }
}

/// Whether the text's tree has the value that is parsed, and there is one exactly where it is known.
fn has_its_value(alloc: Global, text: &str, known: bool) -> bool {
    let parsed = parse(alloc, text.as_bytes()).ok();
    match value_of_tree(alloc, text) {
        Some(value) => value == parsed && value.is_some() == known,
        None => false,
    }
}

fn first_of_another_value(alloc: Global) -> Option<usize> {
    TREES
        .iter()
        .position(|(text, known)| !has_its_value(alloc, text, *known))
}

#[test]
fn a_tree_has_the_value_of_its_text(rt: HostRuntime) {
    assert_eq!(rt; first_of_another_value(rt.alloc()), None);
}

/// Whether there is a tree of the text.
fn has_tree(alloc: Global, text: &str) -> Result<bool, Fail> {
    let mut scratch = Scratch::new(alloc);
    let tree = tree_of(alloc, text, &mut scratch)?;
    Ok(tree.is_some())
}

#[test]
fn a_tree_is_nested_127_deep_at_most(rt: HostRuntime) -> Result<(), Fail> {
    let deepest = nested(rt.alloc(), 127)?;
    let deeper = nested(rt.alloc(), 128)?;
    assert!(rt; has_tree(rt.alloc(), deepest.as_str())?);
    assert!(rt; !has_tree(rt.alloc(), deeper.as_str())?);
    Ok(())
}

const OBJECT: &[u8] =
    b"{\"text\": \"x\", \"count\": 7, \"large\": 18446744073709551616, \"sign\": -1, \"part\": 1.5, \
    \"null\": null, \"map\": {}, \"list\": [1], \"twice\": 1, \"twice\": 9}";

/// The faults of the four kinds, of a member of this name.
fn faults(value: &Value, name: &'static str) -> [Option<JsonFault>; 4] {
    [
        text_member(value, name).err(),
        number_member(value, name, 8).err(),
        object_member(value, name).err(),
        list_member(value, name).err(),
    ]
}

#[test]
fn members_have_a_name_and_a_kind(rt: HostRuntime) -> Result<(), Fail> {
    let value = parse(rt.alloc(), OBJECT)?;
    // At which of the four kinds a member is read.
    let cases: [(&'static str, usize); 8] = [
        ("text", 0),
        ("count", 1),
        ("map", 2),
        ("list", 3),
        ("large", 4),
        ("sign", 4),
        ("part", 4),
        ("null", 4),
    ];
    for (name, read) in cases {
        for (kind, fault) in faults(&value, name).into_iter().enumerate() {
            let expected = if kind == read {
                None
            } else {
                Some(JsonFault::Kind(name))
            };
            assert!(rt; fault == expected, "{name} as kind {kind}");
        }
    }
    Ok(())
}

/// Numbers that are members of a value at the edge of their range and beyond it, and of a list.
fn numbers(value: &Value, list: &Value) -> [Result<u64, JsonFault>; 5] {
    [
        number_member(value, "count", 7),
        number_member(value, "count", 6),
        number_member(value, "twice", 9),
        number_member(value, "Count", 7),
        number_member(list, "count", 7),
    ]
}

/// Whether a value has a text, a list and an object as members.
fn has_others(value: &Value) -> bool {
    let text = text_member(value, "text").is_ok_and(|text| text == "x");
    let items = list_member(value, "list").is_ok_and(|items| items.len() == 1);
    text && items && object_member(value, "map").is_ok_and(|members| members.is_empty())
}

#[test]
fn a_member_is_missing_or_too_large(rt: HostRuntime) -> Result<(), Fail> {
    let value = parse(rt.alloc(), OBJECT)?;
    let list = parse(rt.alloc(), b"[{\"count\": 7}]")?;
    let wanted = [
        Ok(7),
        Err(JsonFault::Range("count")),
        Ok(9),
        Err(JsonFault::Missing("Count")),
        Err(JsonFault::Missing("count")),
    ];
    assert!(rt; numbers(&value, &list) == wanted && has_others(&value));
    Ok(())
}

/// A reply's text, None where memory ran out.
fn written(alloc: Global) -> Option<String> {
    let results = json!(in alloc; {"b": {}, "a": ["x", null, 70u64]}).ok()?;
    reply_text(alloc, 200, "a \"b\"\n", results).ok()
}

/// Each fault, and what it prints.
const PRINTED: [(JsonFault, &str); 5] = [
    (JsonFault::NotJson, "the text is no JSON"),
    (JsonFault::Missing("a"), "there is no member a"),
    (JsonFault::Kind("b"), "the member b is of another kind"),
    (JsonFault::Range("c"), "the number c is too large"),
    (JsonFault::Memory, "out of memory"),
];

fn prints(alloc: Global, fault: &JsonFault, want: &str) -> bool {
    match fault.to_string(alloc) {
        Ok(shown) => shown.as_str() == want,
        Err(_) => false,
    }
}

fn first_misprinted(alloc: Global) -> Option<usize> {
    PRINTED
        .iter()
        .position(|(fault, want)| !prints(alloc, fault, want))
}

#[test]
fn what_is_written(rt: HostRuntime) -> Result<(), Fail> {
    let text = written(rt.alloc()).ok_or("memory is left")?;
    assert_eq!(rt;
        text.as_str(),
        "{\"code\":200,\"results\":{\"a\":[\"x\",null,70],\"b\":{}},\"status\":\"a \\\"b\\\"\\n\"}"
    );
    assert_eq!(rt; first_misprinted(rt.alloc()), None);
    Ok(())
}
