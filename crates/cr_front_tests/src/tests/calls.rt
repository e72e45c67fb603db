//! The calls that read a part of a text: an expression, statements or a type at a cursor, and the body of a method.

ghost use Rattle.cr_descent.specs.LimitLaws.{IsLimited};
ghost use Rattle.cr_grammar.specs.declared.wanted.Wanted.{Wanted};
ghost use Rattle.cr_readers.specs.Cursor.{state_of};

use crate::tests::shown;
use cr_decl::body;
use cr_descent::{new_cursor_is_limited, tokens_end_once};
use cr_grammar::{Tree, Within};
use cr_lex::tokens;
use cr_parse::{expression, statements, written_type};
use cr_readers::{Cursor, ParseFault};
use cr_syntax::MAX_SOURCE_BYTES;
use std::alloc::Global;
use std::process::Abort;
use std::test::Fail;

/// What is called at a cursor.
#[derive(Clone, Copy)]
enum Call {
    Expression,
    Statements,
    WrittenType,
}

/// What surrounds a line that stands in nothing.
const TOP: Within = Within {
    class: false,
    method: false,
    initialize: false,
    block: false,
    in_loop: false,
};

/// What surrounds a line of a method of a class.
const METHOD: Within = Within {
    class: true,
    method: true,
    initialize: false,
    block: false,
    in_loop: false,
};

fn read(call: Call, alloc: Global, cursor: &mut Cursor<'_>) -> Result<Tree, ParseFault>
    requires limited { (wanted : Wanted) → IsLimited wanted (state_of cursor.old) }
{
    match call {
        Call::Expression => expression(alloc, cursor),
        Call::Statements => statements(alloc, cursor),
        Call::WrittenType => written_type(alloc, cursor),
    }
}

/// What a call answers at the start of a text, how many tokens the cursor then stands behind, and how many nodes it has counted.
fn front(
    rt: &impl Abort,
    alloc: Global,
    call: Call,
    within: Within,
    text: &str,
) -> Result<(String, usize, u32), Fail> {
    let bytes = text.as_bytes();
    assert!(rt; bytes.len() <= MAX_SOURCE_BYTES);
    let list = tokens(alloc, bytes)?;
    new_cursor_is_limited();
    let mut cursor = Cursor::new(list.as_slice(), within);
    let answer = shown(alloc, read(call, alloc, &mut cursor))?;
    Ok((answer, cursor.at, cursor.nodes))
}

#[test]
fn calls_read_the_longest_front(rt: HostRuntime) -> Result<(), Fail> {
    for (call, within, text, want, at, nodes) in [
        (Call::Expression, TOP, "1 + 2 * x; y", "(+ 1 (* 2 x))", 5, 5),
        (
            Call::Expression,
            TOP,
            "f(x) do end.g + 1, y",
            "(+ (.g (f x {})) 1)",
            10,
            5,
        ),
        // No command is an expression.
        (Call::Expression, TOP, "puts 1", "puts", 1, 1),
        (Call::Expression, METHOD, "@x", "@x", 1, 1),
        (Call::Statements, TOP, "a; b 1\nend", "{a (b 1)}", 5, 3),
        (Call::Statements, TOP, "a; break", "{a}", 2, 1),
        (Call::Statements, TOP, "", "{}", 0, 0),
        (Call::WrittenType, TOP, "A(B) | C? x", ":A(:B)|C|Nil", 7, 4),
        // After a fault the cursor is as before.
        (Call::Expression, TOP, "1 + )", "Unexpected(4)", 0, 0),
        (Call::Expression, TOP, "@x", "Unexpected(0)", 0, 0),
        (Call::Statements, TOP, "a; 1 + )", "Unexpected(7)", 0, 0),
        (Call::Statements, TOP, "x @y", "Unexpected(2)", 0, 0),
        (Call::WrittenType, TOP, "A::b", "Unexpected(3)", 0, 0),
        (Call::WrittenType, TOP, "A(", "Unexpected(2)", 0, 0),
    ] {
        let got = front(&rt, rt.alloc(), call, within, text)?;
        assert_eq!(rt; got.0.as_str(), want, "at {text}");
        assert_eq!(rt; (got.1, got.2), (at, nodes), "at {text}");
    }
    Ok(())
}

#[test]
fn bodies_are_read_to_their_end(rt: HostRuntime) -> Result<(), Fail> {
    for (within, text, want) in [
        (
            METHOD,
            "@x = 1\nyield x; return self",
            "{(= @x 1) (yield x) (return self)}",
        ),
        (METHOD, "", "{}"),
        (TOP, "a; b", "{a b}"),
        (METHOD, "x; break", "Unexpected(3)"),
        (METHOD, "x end", "Unexpected(2)"),
        (METHOD, "def f; end", "Unexpected(0)"),
        (TOP, "yield", "Unexpected(0)"),
    ] {
        let bytes = text.as_bytes();
        assert!(rt; bytes.len() <= MAX_SOURCE_BYTES);
        let list = tokens(rt.alloc(), bytes)?;
        tokens_end_once();
        let got = shown(rt.alloc(), body(rt.alloc(), within, list.as_slice()))?;
        assert_eq!(rt; got.as_str(), want, "at {text}");
    }
    Ok(())
}
