//! The forms in memory, over rows of calls.

use super::*;
use std::alloc::AllocGlobal;
use std::test::Fail;

// Two names with their texts, in sources that fail at these calls.
fn two_names<R: AllocGlobal>(rt: &R, fails: &[u64]) -> Result<MemorySources, Fail> {
    let fails = Vec::from_slice(rt.alloc(), fails)?;
    let mut sources = MemorySources::new(rt.alloc(), fails);
    sources.add("a.core", b"first")?;
    sources.add("b.core", b"second")?;
    Ok(sources)
}

#[test]
fn each_name_has_its_text(rt: HostRuntime) -> Result<(), Fail> {
    let mut sources = two_names(&rt, &[])?;
    let second = sources.read(rt.alloc(), "b.core")?;
    assert_eq!(rt; second.as_slice(), b"second".as_slice());
    let first = sources.read(rt.alloc(), "a.core")?;
    assert_eq!(rt; first.as_slice(), b"first".as_slice());
    sources.add("a.core", b"other")?;
    let other = sources.read(rt.alloc(), "a.core")?;
    assert_eq!(rt; other.as_slice(), b"other".as_slice());
    Ok(())
}

#[test]
fn sources_fail_at_listed_calls_and_unknown_names(rt: HostRuntime) -> Result<(), Fail> {
    let mut sources = two_names(&rt, &[2])?;
    let rows: [(&str, bool); 5] = [
        ("a.core", true),
        ("a.core", false),
        ("a.core", true),
        ("c.core", false),
        ("b.core", true),
    ];
    for (name, reads) in rows.as_slice() {
        match sources.read(rt.alloc(), name) {
            Ok(_) => assert!(rt; *reads),
            Err(fault) => {
                assert!(rt; !*reads);
                assert_eq!(rt; fault, SourceFault::Failed);
            }
        }
    }
    Ok(())
}

#[test]
fn sure_sources_have_the_empty_text_for_each_other_name(rt: HostRuntime) -> Result<(), Fail> {
    let mut sources = MemorySources::sure(rt.alloc());
    sources.add("a.core", b"first")?;
    let first = sources.read(rt.alloc(), "a.core")?;
    assert_eq!(rt; first.as_slice(), b"first".as_slice());
    let other = sources.read(rt.alloc(), "c.core")?;
    assert_eq!(rt; other.as_slice(), b"".as_slice());
    Ok(())
}

#[test]
fn a_sink_fails_at_listed_calls_and_where_a_piece_does_not_fit(
    rt: HostRuntime,
) -> Result<(), Fail> {
    let mut sink = MemorySink::new(rt.alloc(), 6, Vec::from_slice(rt.alloc(), &[2])?)?;
    let rows: [(&[u8], bool, &[u8]); 6] = [
        (b"abc", true, b"abc"),
        (b"d", false, b"abc"),
        (b"efgh", false, b"abc"),
        (b"efg", true, b"abcefg"),
        (b"h", false, b"abcefg"),
        (b"", true, b"abcefg"),
    ];
    for (piece, writes, bytes) in rows.as_slice() {
        match sink.write(piece) {
            Ok(()) => assert!(rt; *writes),
            Err(Failed) => assert!(rt; !*writes),
        }
        assert_eq!(rt; sink.bytes(), *bytes);
    }
    Ok(())
}
