ghost use Rattle.cr_readers.specs.Reads.{Restores};

use crate::{Cursor, MAX_NESTING, MAX_NODES, ParseFault};
use cr_grammar::Within;
use cr_syntax::{Span, Token, TokenKind, TokenLook};
use std::test::Fail;

/// What surrounds no line in a class.
const TOP: Within = Within {
    class: false,
    method: false,
    initialize: false,
    block: false,
    in_loop: false,
};

fn token(kind: TokenKind, first: u32, past: u32, spaced: bool) -> Token {
    Token {
        kind,
        span: Span { first, past },
        spaced,
    }
}

/// `nil +(`
fn begun() -> [Token; 4] {
    [
        token(TokenKind::Plain(TokenLook::Nil), 0, 3, true),
        token(TokenKind::Plain(TokenLook::Plus), 4, 5, true),
        token(TokenKind::Plain(TokenLook::OpenParenthesis), 5, 6, false),
        token(TokenKind::Plain(TokenLook::End), 6, 6, false),
    ]
}

#[test]
fn steps_go_from_token_to_token(rt: HostRuntime) -> Result<(), Fail> {
    let list = begun();
    let mut cursor = Cursor::new(&list, TOP);
    for (before, look, place, tight) in [
        (TokenLook::Newline, TokenLook::Nil, 0, false),
        (TokenLook::Nil, TokenLook::Plus, 4, false),
        (TokenLook::Plus, TokenLook::OpenParenthesis, 5, true),
        (TokenLook::OpenParenthesis, TokenLook::End, 6, true),
        (TokenLook::End, TokenLook::End, 0, false),
        (TokenLook::End, TokenLook::End, 0, false),
    ] {
        assert_eq!(rt; cursor.before(), before, "before {place}");
        assert_eq!(rt; cursor.look(), look, "at {place}");
        assert_eq!(rt; cursor.place(), place);
        assert_eq!(rt; cursor.is_tight(), tight, "at {place}");
        cursor.take();
    }
    Ok(())
}

#[test]
fn only_the_wanted_token_is_taken(rt: HostRuntime) -> Result<(), Fail> {
    let list = begun();
    let mut cursor = Cursor::new(&list, TOP);
    assert!(rt; !cursor.eat(TokenLook::Plus));
    assert!(rt; cursor.eat(TokenLook::Nil));
    assert!(rt; !cursor.sees_tight(TokenLook::Plus));
    assert_eq!(rt; cursor.expect(TokenLook::Plus), Ok(4));
    assert_eq!(rt;
        cursor.expect(TokenLook::Plus),
        Err(ParseFault::Unexpected(5))
    );
    assert!(rt; cursor.sees_tight(TokenLook::OpenParenthesis));
    assert!(rt; !cursor.sees(TokenLook::End));
    assert_eq!(rt; cursor.refuse(), ParseFault::Unexpected(5));
    assert_eq!(rt; cursor.before(), TokenLook::Plus);
    Ok(())
}

fn nil_and_plus(cursor: &mut Cursor) -> Result<u32, ParseFault> {
    cursor.expect(TokenLook::Nil)?;
    cursor.expect(TokenLook::Plus)
}

fn nil_and_plus_or_nothing(cursor: &mut Cursor) -> Result<u32, ParseFault>
    ensures { Restores result cursor.old cursor.new }
{
    let before = cursor.mark();
    let found = nil_and_plus(cursor);
    if found.is_err() {
        cursor.go_back(before);
    }
    found
}

#[test]
fn after_an_error_the_cursor_is_where_it_was(rt: HostRuntime) -> Result<(), Fail> {
    let list = begun();
    let mut cursor = Cursor::new(&list[..1], TOP);
    assert_eq!(rt;
        nil_and_plus_or_nothing(&mut cursor),
        Err(ParseFault::Unexpected(0))
    );
    assert_eq!(rt; (cursor.at, cursor.look()), (0, TokenLook::Nil));
    let mut whole = Cursor::new(&list, TOP);
    assert_eq!(rt; nil_and_plus_or_nothing(&mut whole), Ok(4));
    assert_eq!(rt; whole.at, 2);
    Ok(())
}

#[test]
fn arguments_begin_with_spaced_tokens(rt: HostRuntime) -> Result<(), Fail> {
    for (look, spaced, next_spaced, begins) in [
        (TokenLook::Nil, true, true, true),
        (TokenLook::Nil, false, true, false),
        (TokenLook::OpenBrace, true, true, false),
        (TokenLook::Minus, true, false, true),
        (TokenLook::Minus, true, true, false),
        (TokenLook::Minus, false, false, false),
    ] {
        let list = [
            token(TokenKind::Plain(look), 0, 1, spaced),
            token(TokenKind::Plain(TokenLook::Nil), 2, 5, next_spaced),
        ];
        assert_eq!(rt;
            Cursor::new(&list, TOP).begins_argument(),
            begins,
            "{look:?}"
        );
    }
    let last = [token(TokenKind::Plain(TokenLook::Minus), 0, 1, true)];
    assert!(rt; !Cursor::new(&last, TOP).begins_argument());
    Ok(())
}

#[test]
fn nodes_stand_on_one_another(rt: HostRuntime) -> Result<(), Fail> {
    let list = begun();
    let mut cursor = Cursor::new(&list, TOP);
    assert_eq!(rt; (cursor.height, cursor.nodes), (1, 0));
    assert_eq!(rt; cursor.grow(0), Ok(()));
    let height = cursor.enter();
    assert_eq!(rt; (height, cursor.depth), (1, 1));
    assert_eq!(rt; cursor.grow(4), Ok(()));
    assert_eq!(rt; cursor.wrap(5), Ok(()));
    assert_eq!(rt; cursor.height, 2);
    cursor.leave(height);
    assert_eq!(rt; (cursor.height, cursor.depth, cursor.nodes), (3, 0, 3));
    assert_eq!(rt; cursor.grow(6), Ok(()));
    cursor.leave_beside(3);
    assert_eq!(rt; (cursor.height, cursor.nodes), (3, 4));
    Ok(())
}

#[test]
fn one_level_or_node_too_many_is_refused(rt: HostRuntime) -> Result<(), Fail> {
    let list = begun();
    for (depth, height, nodes, grown, wrapped) in [
        (MAX_NESTING - 1, 0, MAX_NODES - 1, Ok(()), Ok(())),
        (
            MAX_NESTING,
            0,
            0,
            Err(ParseFault::TooDeep(7)),
            Err(ParseFault::TooDeep(7)),
        ),
        (MAX_NESTING - 2, 1, 0, Ok(()), Ok(())),
        (MAX_NESTING - 2, 2, 0, Ok(()), Err(ParseFault::TooDeep(7))),
        (
            0,
            0,
            MAX_NODES,
            Err(ParseFault::TooManyNodes(7)),
            Err(ParseFault::TooManyNodes(7)),
        ),
        (
            MAX_NESTING,
            0,
            MAX_NODES,
            Err(ParseFault::TooDeep(7)),
            Err(ParseFault::TooDeep(7)),
        ),
    ] {
        let mut cursor = Cursor::new(&list, TOP);
        cursor.depth = depth;
        cursor.height = height;
        cursor.nodes = nodes;
        assert_eq!(rt; cursor.grow(7), grown, "grow at {depth}, {nodes}");
        cursor.height = height;
        cursor.nodes = nodes;
        assert_eq!(rt;
            cursor.wrap(7),
            wrapped,
            "wrap at {depth}, {height}, {nodes}"
        );
    }
    Ok(())
}
