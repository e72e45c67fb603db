//! Sources with their tokens or faults.
//!
//! A token is written as its look, its name, number or text in parentheses, its first and past place, and an `s` where
//! it is spaced. A fault is written with its place.

use crate::tokens;
use cr_syntax::{LexFault, MAX_SOURCE_BYTES, Token, TokenKind};
use std::alloc::{AllocError, Global};
use std::fmt::Write;
use std::process::Abort;
use std::test::Fail;

fn push_payload(out: &mut String, kind: &TokenKind) -> Result<(), AllocError> {
    match kind {
        TokenKind::Ident(text)
        | TokenKind::Constant(text)
        | TokenKind::InstanceVariable(text)
        | TokenKind::Text(text)
        | TokenKind::TextFirst(text)
        | TokenKind::TextMiddle(text)
        | TokenKind::TextLast(text) => {
            out.push_str("(")?;
            out.push_str(text.as_str())?;
            out.push_str(")")
        }
        TokenKind::Int32(value) => write!(out, "({value})"),
        TokenKind::Int64(value) => write!(out, "({value})"),
        _ => Ok(()),
    }
}

fn push_token(out: &mut String, token: &Token) -> Result<(), AllocError> {
    let look = token.kind.look();
    let first = token.span.first;
    let past = token.span.past;
    write!(out, "{look:?}")?;
    push_payload(out, &token.kind)?;
    write!(out, "{first}-{past}")?;
    out.push_str(if token.spaced { "s" } else { "" })
}

fn fault_shown(alloc: Global, fault: LexFault) -> Result<String, AllocError> {
    match fault {
        LexFault::NotUtf8(at) => format!(in alloc; "NotUtf8 {at}"),
        LexFault::BadByte(at) => format!(in alloc; "BadByte {at}"),
        LexFault::OpenString(at) => format!(in alloc; "OpenString {at}"),
        LexFault::BadEscape(at) => format!(in alloc; "BadEscape {at}"),
        LexFault::BadNumber(at) => format!(in alloc; "BadNumber {at}"),
        LexFault::NoMemory => format!(in alloc; "NoMemory"),
    }
}

fn shown(alloc: Global, answer: Result<Vec<Token>, LexFault>) -> Result<String, AllocError> {
    let tokens = match answer {
        Ok(tokens) => tokens,
        Err(fault) => return fault_shown(alloc, fault),
    };
    let mut out = String::new(alloc);
    for token in &tokens {
        if !out.is_empty() {
            out.push_str(" ")?;
        }
        push_token(&mut out, token)?;
    }
    Ok(out)
}

fn answer_as_wanted(rt: &impl Abort, alloc: Global, rows: &[(&[u8], &str)]) -> Result<(), Fail> {
    for (source, want) in rows {
        assert!(rt; source.len() <= MAX_SOURCE_BYTES);
        let got = shown(alloc, tokens(alloc, source))?;
        assert_eq!(rt; got.as_str(), *want);
    }
    Ok(())
}

#[test]
fn keywords_and_reserved_words(rt: HostRuntime) -> Result<(), Fail> {
    answer_as_wanted(
        &rt,
        rt.alloc(),
        &[
            (
                b"break case class def do else elsif end false getter if in include is_a? module next nil nil? of property return select self spawn super then true unless until when while yield".as_slice(),
                "Break0-5s Case6-10s Class11-16s Def17-20s Do21-23s Else24-28s Elsif29-34s KeywordEnd35-38s False39-44s Getter45-51s If52-54s In55-57s Include58-65s IsA66-71s Module72-78s Next79-83s Nil84-87s IsNil88-92s Of93-95s Property96-104s Return105-111s Select112-118s KeywordSelf119-123s Spawn124-129s Super130-135s Then136-140s True141-145s Unless146-152s Until153-158s When159-163s While164-169s Yield170-175s End175-175",
            ),
            (
                b"abstract alias annotation as asm begin ensure enum extend fun lib loop macro out private protected require rescue struct typeof union with".as_slice(),
                "Abstract0-8s Alias9-14s Annotation15-25s As26-28s Asm29-32s Begin33-38s Ensure39-45s Enum46-50s Extend51-57s Fun58-61s Lib62-65s Loop66-70s Macro71-76s Out77-80s Private81-88s Protected89-98s Require99-106s Rescue107-113s Struct114-120s Typeof121-127s Union128-133s With134-138s End138-138",
            ),
        ],
    )
}

#[test]
fn operators_one_by_one(rt: HostRuntime) -> Result<(), Fail> {
    answer_as_wanted(
        &rt,
        rt.alloc(),
        &[(
            b"+ - * // % &+ &- &* == != < <= > >= << && || ! = += -= *= //= %= ||= ( ) [ ] { } , . : :: => | ?".as_slice(),
            "Plus0-1s Minus2-3s Star4-5s SlashSlash6-8s Percent9-10s WrappingPlus11-13s WrappingMinus14-16s WrappingStar17-19s EqualEqual20-22s NotEqual23-25s Less26-27s LessEqual28-30s Greater31-32s GreaterEqual33-35s ShiftLeft36-38s AndAnd39-41s OrOr42-44s Bang45-46s Equal47-48s PlusEqual49-51s MinusEqual52-54s StarEqual55-57s SlashSlashEqual58-61s PercentEqual62-64s OrOrEqual65-68s OpenParenthesis69-70s CloseParenthesis71-72s OpenBracket73-74s CloseBracket75-76s OpenBrace77-78s CloseBrace79-80s Comma81-82s Dot83-84s Colon85-86s ColonColon87-89s Arrow90-92s Pipe93-94s Question95-96s End96-96",
        )],
    )
}

#[test]
fn names_and_their_marks_first(rt: HostRuntime) -> Result<(), Fail> {
    answer_as_wanted(
        &rt,
        rt.alloc(),
        &[
            (b"".as_slice(), "End0-0s"),
            (b"x".as_slice(), "Ident(x)0-1s End1-1"),
            (b" x".as_slice(), "Ident(x)1-2s End2-2"),
            (b"x ".as_slice(), "Ident(x)0-1s End2-2s"),
            (
                b"x?=1".as_slice(),
                "Ident(x)0-1s Question1-2 Equal2-3 Int32(1)3-4 End4-4",
            ),
            (
                b"x? =1".as_slice(),
                "Ident(x?)0-2s Equal3-4s Int32(1)4-5 End5-5",
            ),
            (
                b"x!=y".as_slice(),
                "Ident(x)0-1s NotEqual1-3 Ident(y)3-4 End4-4",
            ),
            (b"x! y".as_slice(), "Ident(x!)0-2s Ident(y)3-4s End4-4"),
            (b"x??".as_slice(), "Ident(x?)0-2s Question2-3 End3-3"),
            (
                b"nil! if? self?".as_slice(),
                "Ident(nil!)0-4s Ident(if?)5-8s Ident(self?)9-14s End14-14",
            ),
        ],
    )
}

#[test]
fn names_and_their_marks_second(rt: HostRuntime) -> Result<(), Fail> {
    answer_as_wanted(
        &rt,
        rt.alloc(),
        &[
            (
                b"nil?=1".as_slice(),
                "Nil0-3s Question3-4 Equal4-5 Int32(1)5-6 End6-6",
            ),
            (
                b"new puts raise send".as_slice(),
                "Ident(new)0-3s Ident(puts)4-8s Ident(raise)9-14s Ident(send)15-19s End19-19",
            ),
            (
                b"_a1B_ _".as_slice(),
                "Ident(_a1B_)0-5s Ident(_)6-7s End7-7",
            ),
            (
                b"ends doe If".as_slice(),
                "Ident(ends)0-4s Ident(doe)5-8s Constant(If)9-11s End11-11",
            ),
            (b"Ab_1?".as_slice(), "Constant(Ab_1)0-4s Question4-5 End5-5"),
            (
                b"A::B".as_slice(),
                "Constant(A)0-1s ColonColon1-3 Constant(B)3-4 End4-4",
            ),
            (
                b"@a @if @b?".as_slice(),
                "InstanceVariable(a)0-2s InstanceVariable(if)3-6s InstanceVariable(b)7-9s Question9-10 End10-10",
            ),
            (b"@".as_slice(), "BadByte 0"),
            (b"@A".as_slice(), "BadByte 0"),
            (b"@1".as_slice(), "BadByte 0"),
        ],
    )
}

#[test]
fn numbers_with_their_types_first(rt: HostRuntime) -> Result<(), Fail> {
    answer_as_wanted(
        &rt,
        rt.alloc(),
        &[
            (b"0".as_slice(), "Int32(0)0-1s End1-1"),
            (b"1_000".as_slice(), "Int32(1000)0-5s End5-5"),
            (
                b"1i32 1_i64 0_i32 0i64".as_slice(),
                "Int32(1)0-4s Int64(1)5-10s Int32(0)11-16s Int64(0)17-21s End21-21",
            ),
            (b"2147483647".as_slice(), "Int32(2147483647)0-10s End10-10"),
            (b"2147483648".as_slice(), "BadNumber 0"),
            (
                b"-2147483648".as_slice(),
                "Int32(-2147483648)0-11s End11-11",
            ),
            (b"-2147483649".as_slice(), "BadNumber 0"),
            (
                b"9223372036854775807_i64".as_slice(),
                "Int64(9223372036854775807)0-23s End23-23",
            ),
            (b"9223372036854775808_i64".as_slice(), "BadNumber 0"),
            (
                b"-9223372036854775808i64".as_slice(),
                "Int64(-9223372036854775808)0-23s End23-23",
            ),
            (b"-9223372036854775809i64".as_slice(), "BadNumber 0"),
            (b"99999999999999999999999999".as_slice(), "BadNumber 0"),
        ],
    )
}

#[test]
fn numbers_with_their_types_second(rt: HostRuntime) -> Result<(), Fail> {
    answer_as_wanted(
        &rt,
        rt.alloc(),
        &[
            (b"01".as_slice(), "BadNumber 0"),
            (b"0_1".as_slice(), "BadNumber 0"),
            (b"1__0".as_slice(), "BadNumber 0"),
            (b"1_".as_slice(), "BadNumber 0"),
            (b"1x".as_slice(), "BadNumber 0"),
            (b"1.5".as_slice(), "BadNumber 0"),
            (b"1i3".as_slice(), "BadNumber 0"),
            (b"1i322".as_slice(), "BadNumber 0"),
            (b"1..".as_slice(), "Int32(1)0-1s Dot1-2 Dot2-3 End3-3"),
            (
                b"1.foo".as_slice(),
                "Int32(1)0-1s Dot1-2 Ident(foo)2-5 End5-5",
            ),
            (b"puts 1__0".as_slice(), "BadNumber 5"),
        ],
    )
}

#[test]
fn a_minus_belongs_to_a_number_or_is_an_operator_first(rt: HostRuntime) -> Result<(), Fail> {
    answer_as_wanted(
        &rt,
        rt.alloc(),
        &[
            (b"-1".as_slice(), "Int32(-1)0-2s End2-2"),
            (b"x -1".as_slice(), "Ident(x)0-1s Int32(-1)2-4s End4-4"),
            (
                b"x-1".as_slice(),
                "Ident(x)0-1s Minus1-2 Int32(1)2-3 End3-3",
            ),
            (
                b"x - 1".as_slice(),
                "Ident(x)0-1s Minus2-3s Int32(1)4-5s End5-5",
            ),
            (
                b") -1".as_slice(),
                "CloseParenthesis0-1s Minus2-3s Int32(1)3-4 End4-4",
            ),
            (
                b"1 -1".as_slice(),
                "Int32(1)0-1s Minus2-3s Int32(1)3-4 End4-4",
            ),
            (
                b"1i64 -1".as_slice(),
                "Int64(1)0-4s Minus5-6s Int32(1)6-7 End7-7",
            ),
            (
                b"A -1".as_slice(),
                "Constant(A)0-1s Minus2-3s Int32(1)3-4 End4-4",
            ),
            (
                b"@a -1".as_slice(),
                "InstanceVariable(a)0-2s Minus3-4s Int32(1)4-5 End5-5",
            ),
            (b"nil -1".as_slice(), "Nil0-3s Minus4-5s Int32(1)5-6 End6-6"),
        ],
    )
}

#[test]
fn a_minus_belongs_to_a_number_or_is_an_operator_second(rt: HostRuntime) -> Result<(), Fail> {
    answer_as_wanted(
        &rt,
        rt.alloc(),
        &[
            (
                b"nil? -1".as_slice(),
                "IsNil0-4s Minus5-6s Int32(1)6-7 End7-7",
            ),
            (
                b"end -1;true -1;false -1;self -1".as_slice(),
                "KeywordEnd0-3s Minus4-5s Int32(1)5-6 Newline6-7 True7-11 Minus12-13s Int32(1)13-14 Newline14-15 False15-20 Minus21-22s Int32(1)22-23 Newline23-24 KeywordSelf24-28 Minus29-30s Int32(1)30-31 End31-31",
            ),
            (
                b"] -1} -1".as_slice(),
                "CloseBracket0-1s Minus2-3s Int32(1)3-4 CloseBrace4-5 Minus6-7s Int32(1)7-8 End8-8",
            ),
            (
                b"\"a\" -1".as_slice(),
                "Text(a)0-3s Minus4-5s Int32(1)5-6 End6-6",
            ),
            (b"? -1".as_slice(), "Question0-1s Int32(-1)2-4s End4-4"),
            (
                b"a[0]? -1".as_slice(),
                "Ident(a)0-1s OpenBracket1-2 Int32(0)2-3 CloseBracket3-4 Question4-5 Int32(-1)6-8s End8-8",
            ),
            (b"yield-1".as_slice(), "Yield0-5s Int32(-1)5-7 End7-7"),
            (
                b"1+-1".as_slice(),
                "Int32(1)0-1s Plus1-2 Int32(-1)2-4 End4-4",
            ),
            (b"--1".as_slice(), "Minus0-1s Int32(-1)1-3 End3-3"),
        ],
    )
}

#[test]
fn the_longest_operator_is_taken_first(rt: HostRuntime) -> Result<(), Fail> {
    answer_as_wanted(
        &rt,
        rt.alloc(),
        &[
            (b"x -01".as_slice(), "BadNumber 2"),
            (
                b"x -=1".as_slice(),
                "Ident(x)0-1s MinusEqual2-4s Int32(1)4-5 End5-5",
            ),
            (
                b"a//=b".as_slice(),
                "Ident(a)0-1s SlashSlashEqual1-4 Ident(b)4-5 End5-5",
            ),
            (
                b"a||=b||c|d".as_slice(),
                "Ident(a)0-1s OrOrEqual1-4 Ident(b)4-5 OrOr5-7 Ident(c)7-8 Pipe8-9 Ident(d)9-10 End10-10",
            ),
            (
                b"a===b".as_slice(),
                "Ident(a)0-1s EqualEqual1-3 Equal3-4 Ident(b)4-5 End5-5",
            ),
            (b">>".as_slice(), "Greater0-1s Greater1-2 End2-2"),
            (b"&+1".as_slice(), "WrappingPlus0-2s Int32(1)2-3 End3-3"),
        ],
    )
}

#[test]
fn the_longest_operator_is_taken_second(rt: HostRuntime) -> Result<(), Fail> {
    answer_as_wanted(
        &rt,
        rt.alloc(),
        &[
            (
                b"a=>b:c".as_slice(),
                "Ident(a)0-1s Arrow1-3 Ident(b)3-4 Colon4-5 Ident(c)5-6 End6-6",
            ),
            (b"/".as_slice(), "BadByte 0"),
            (b"&".as_slice(), "BadByte 0"),
            (b"a ^".as_slice(), "BadByte 2"),
            (b"'".as_slice(), "BadByte 0"),
            (b"\0".as_slice(), "BadByte 0"),
            (b"\x0b".as_slice(), "BadByte 0"),
        ],
    )
}

#[test]
fn lines_and_comments(rt: HostRuntime) -> Result<(), Fail> {
    answer_as_wanted(
        &rt,
        rt.alloc(),
        &[
            (
                b"a\nb;c".as_slice(),
                "Ident(a)0-1s Newline1-2 Ident(b)2-3s Newline3-4 Ident(c)4-5 End5-5",
            ),
            (b"a\n".as_slice(), "Ident(a)0-1s Newline1-2 End2-2s"),
            (
                b"a\r\nb".as_slice(),
                "Ident(a)0-1s Newline2-3s Ident(b)3-4s End4-4",
            ),
            (b"\ta\t".as_slice(), "Ident(a)1-2s End3-3s"),
            (
                b"a # b\nc".as_slice(),
                "Ident(a)0-1s Newline5-6s Ident(c)6-7s End7-7",
            ),
            (b"#".as_slice(), "End1-1s"),
            (b"a#\xc3\xa9".as_slice(), "Ident(a)0-1s End4-4s"),
        ],
    )
}

#[test]
fn texts_and_their_escapes(rt: HostRuntime) -> Result<(), Fail> {
    answer_as_wanted(
        &rt,
        rt.alloc(),
        &[
            (b"\"\"".as_slice(), "Text()0-2s End2-2"),
            (
                b"\"a\\n\\t\\r\\\\\\\"\\#b\"".as_slice(),
                "Text(a\n\t\r\\\"#b)0-16s End16-16",
            ),
            (b"\"\\e\"".as_slice(), "BadEscape 1"),
            (b"puts \"abc".as_slice(), "OpenString 5"),
            (b"\"a\\".as_slice(), "BadEscape 2"),
            (b"\"a\nb\"".as_slice(), "Text(a\nb)0-5s End5-5"),
            (b"\"\xc3\xa9#x\"".as_slice(), "Text(é#x)0-6s End6-6"),
            (
                b"\"\xe2\x82\xac\xf0\x9f\x98\x80\"".as_slice(),
                "Text(€😀)0-9s End9-9",
            ),
        ],
    )
}

#[test]
fn insertions_nest_first(rt: HostRuntime) -> Result<(), Fail> {
    answer_as_wanted(
        &rt,
        rt.alloc(),
        &[
            (
                b"\"a#{b}c\"".as_slice(),
                "TextFirst(a)0-4s Ident(b)4-5 TextLast(c)5-8 End8-8",
            ),
            (
                b"\"#{a}#{b}\"".as_slice(),
                "TextFirst()0-3s Ident(a)3-4 TextMiddle()4-7 Ident(b)7-8 TextLast()8-10 End10-10",
            ),
            (
                b"\"#{ {1 => 2} }\"".as_slice(),
                "TextFirst()0-3s OpenBrace4-5s Int32(1)5-6 Arrow7-9s Int32(2)10-11s CloseBrace11-12 TextLast()13-15s End15-15",
            ),
            (
                b"\"a#{\"b#{c}d\"}e\"".as_slice(),
                "TextFirst(a)0-4s TextFirst(b)4-8 Ident(c)8-9 TextLast(d)9-12 TextLast(e)12-15 End15-15",
            ),
            (
                b"\"#{a # }\n}\"".as_slice(),
                "TextFirst()0-3s Ident(a)3-4 Newline8-9s TextLast()9-11s End11-11",
            ),
            (b"\"#{a".as_slice(), "OpenString 0"),
            (b"\"#{\"b".as_slice(), "OpenString 0"),
        ],
    )
}

#[test]
fn insertions_nest_second(rt: HostRuntime) -> Result<(), Fail> {
    answer_as_wanted(
        &rt,
        rt.alloc(),
        &[
            (b"x \"#{\"\\e\"}\"".as_slice(), "BadEscape 6"),
            (b"\"#{@}\"".as_slice(), "BadByte 3"),
            (b"\"#{a}".as_slice(), "OpenString 0"),
            (b"}\"".as_slice(), "OpenString 1"),
            (
                b"\"#{-1}\"".as_slice(),
                "TextFirst()0-3s Int32(-1)3-5 TextLast()5-7 End7-7",
            ),
            (
                b"\"#{a}\" -1".as_slice(),
                "TextFirst()0-3s Ident(a)3-4 TextLast()4-6 Minus7-8s Int32(1)8-9 End9-9",
            ),
            (b"\"\\#{a}\"".as_slice(), "Text(#{a})0-7s End7-7"),
        ],
    )
}

#[test]
fn bytes_that_are_no_text_first(rt: HostRuntime) -> Result<(), Fail> {
    answer_as_wanted(
        &rt,
        rt.alloc(),
        &[
            (b"a\x80".as_slice(), "NotUtf8 1"),
            (b"\xc0\xaf".as_slice(), "NotUtf8 0"),
            (b"\xc3".as_slice(), "NotUtf8 0"),
            (b"\xe0\x80\x80".as_slice(), "NotUtf8 0"),
            (b"\xed\xa0\x80".as_slice(), "NotUtf8 0"),
            (b"\xf0\x80\x80\x80".as_slice(), "NotUtf8 0"),
            (b"\xf4\x90\x80\x80".as_slice(), "NotUtf8 0"),
            (b"\xf5\x80\x80\x80".as_slice(), "NotUtf8 0"),
        ],
    )
}

#[test]
fn bytes_that_are_no_text_second(rt: HostRuntime) -> Result<(), Fail> {
    answer_as_wanted(
        &rt,
        rt.alloc(),
        &[
            (b"\xe2\x82".as_slice(), "NotUtf8 0"),
            (b"\xc3\xa9".as_slice(), "BadByte 0"),
            (b"x\xc3\xa9".as_slice(), "BadByte 1"),
            (b"@ \xff".as_slice(), "BadByte 0"),
            (b"\"a\xff".as_slice(), "NotUtf8 2"),
            (b"\"\\\xff".as_slice(), "BadEscape 1"),
            (b"#{\xff".as_slice(), "NotUtf8 2"),
        ],
    )
}

#[test]
fn long_sources_are_read_without_recursion(rt: HostRuntime) -> Result<(), Fail> {
    let spaces = vec![in rt.alloc(); b' '; MAX_SOURCE_BYTES]?;
    let got = shown(rt.alloc(), tokens(rt.alloc(), spaces.as_slice()))?;
    assert_eq!(rt; got.as_str(), "End1048576-1048576s");
    let mut nested = Vec::new(rt.alloc());
    for _ in 0..100_000 {
        nested.extend_from_slice(b"\"#{")?;
    }
    assert!(rt; nested.len() <= MAX_SOURCE_BYTES);
    let got = shown(rt.alloc(), tokens(rt.alloc(), nested.as_slice()))?;
    assert_eq!(rt; got.as_str(), "OpenString 0");
    Ok(())
}
