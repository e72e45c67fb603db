//! Each refusal once, and a program.

use crate::{Code, Refusal, SourceFault, program_of};
use cr_grammar::Tree;
use cr_syntax::MAX_SOURCE_BYTES;
use std::alloc::Global;
use std::process::Abort;
use std::test::Fail;

fn answer(rt: &impl Abort, alloc: Global, bytes: &[u8]) -> Result<Tree, SourceFault> {
    assert!(rt; bytes.len() <= MAX_SOURCE_BYTES);
    program_of(alloc, bytes)
}

#[test]
fn each_refusal_has_its_place(rt: HostRuntime) -> Result<(), Fail> {
    let rows: [(&[u8], Code, u32); 7] = [
        (b"puts 1\nx = \xff", Code::NotUtf8, 11),
        (b"puts 1 $ 2", Code::BadByte, 7),
        (b"x = \"a#{b", Code::OpenString, 4),
        (b"x = \"\\q\"", Code::BadEscape, 5),
        (b"x = 012", Code::BadNumber, 4),
        (b"puts 1\nend", Code::Unexpected, 7),
        // Tokens are refused before the grammar, wherever they stand.
        (b"end\n012", Code::BadNumber, 4),
    ];
    for (bytes, code, at) in rows {
        let got = answer(&rt, rt.alloc(), bytes).err();
        assert_eq!(rt; got, Some(SourceFault::Refused(Refusal { code, at })));
    }
    Ok(())
}

#[test]
fn limits_are_refused(rt: HostRuntime) -> Result<(), Fail> {
    let open = vec![in rt.alloc(); b'['; 201]?;
    let got = answer(&rt, rt.alloc(), open.as_slice()).err();
    let code = Code::TooDeep;
    assert_eq!(rt; got, Some(SourceFault::Refused(Refusal { code, at: 200 })));
    let mut nodes = Vec::new(rt.alloc());
    for _ in 0..200_001 {
        nodes.push(b'1')?;
        nodes.push(b';')?;
    }
    let got = answer(&rt, rt.alloc(), nodes.as_slice()).err();
    let code = Code::TooManyNodes;
    assert_eq!(rt;
        got,
        Some(SourceFault::Refused(Refusal { code, at: 400_000 }))
    );
    Ok(())
}

#[test]
fn program_has_its_tree(rt: HostRuntime) -> Result<(), Fail> {
    let got = answer(&rt, rt.alloc(), b"# a comment\nputs 1 + 2\n");
    assert!(rt; got.is_ok());
    Ok(())
}
