use kl_base::*;
use std::test::*;

#[test]
fn short_bytes_fill_their_room_or_none_of_it(rt: HostRuntime) {
    for (bytes, equal) in [("", false), ("a", false), ("quote", true)] {
        let short: Short<5> = Short::new(bytes.as_bytes());
        let same = short.as_slice() == bytes.as_bytes();
        assert!(rt; same && (short == Short::new(b"quote")) == equal, "{bytes}");
    }
}

#[test]
fn short_bytes_and_want_of_memory_are_printed(rt: HostRuntime) -> Result<(), Fail> {
    let short: Short<3> = Short::new(&[0, 0xAB]);
    let shown = format!(in rt.alloc(); "{Memory} {short:?}")?;
    assert_eq!(rt; shown.as_str(), "out of memory 00ab");
    Ok(())
}
