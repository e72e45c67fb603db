//! Texts as long as a source may be, made to nest or to go on without end, and what is answered to each.

use crate::tests::{fault, repeated};
use cr_lex::tokens;
use cr_readers::ParseFault;
use cr_syntax::{LexFault, MAX_SOURCE_BYTES};
use std::test::Fail;

#[test]
fn the_longest_texts_are_answered(rt: HostRuntime) -> Result<(), Fail> {
    for (text, want) in [
        ("(", ParseFault::NoMemory),
        ("[", ParseFault::TooDeep(200)),
        ("!", ParseFault::TooDeep(200)),
        ("1;", ParseFault::TooManyNodes(400_000)),
        ("a.b.b.b", ParseFault::TooDeep(466)),
        ("if a;", ParseFault::TooDeep(998)),
        ("1+", ParseFault::TooDeep(399)),
    ] {
        let count = MAX_SOURCE_BYTES / text.len();
        let source = repeated(rt.alloc(), "", count, text, "")?;
        let got = fault(&rt, rt.alloc(), source.as_str())?;
        assert_eq!(rt; got, Some(want), "at {count} times {text}");
    }
    Ok(())
}

#[test]
fn open_insertions_are_no_tokens(rt: HostRuntime) -> Result<(), Fail> {
    let source = repeated(rt.alloc(), "", MAX_SOURCE_BYTES / 3, "\"#{", "")?;
    assert!(rt; source.len() <= MAX_SOURCE_BYTES);
    let got = tokens(rt.alloc(), source.as_bytes()).err();
    assert_eq!(rt; got, Some(LexFault::OpenString(0)));
    Ok(())
}

#[test]
fn parentheses_past_the_depth_want_memory(rt: HostRuntime) -> Result<(), Fail> {
    for (count, want) in [(400, None), (100_000, Some(ParseFault::NoMemory))] {
        let opened = repeated(rt.alloc(), "", count, "(", "1")?;
        let source = repeated(rt.alloc(), opened.as_str(), count, ")", "")?;
        let got = fault(&rt, rt.alloc(), source.as_str())?;
        assert_eq!(rt; got, want, "at {count} pairs");
    }
    Ok(())
}
