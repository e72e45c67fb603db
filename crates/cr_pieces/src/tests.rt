use crate::{
    put_blank, put_constant, put_int32, put_int64, put_look, put_name, put_text, put_text_first,
    put_text_last, put_text_middle, put_variable, spelling_of,
};
use cr_syntax::{TokenLook, TokenText};
use std::test::Fail;

#[test]
fn words_have_their_spelling(rt: HostRuntime) -> Result<(), Fail> {
    for (look, want) in [
        (TokenLook::Elsif, "elsif"),
        (TokenLook::IsNil, "nil?"),
        (TokenLook::Begin, "begin"),
        (TokenLook::OrOrEqual, "||="),
        (TokenLook::Arrow, "=>"),
        (TokenLook::Newline, "\n"),
        (TokenLook::End, ""),
        (TokenLook::Ident, ""),
    ] {
        assert!(rt; spelling_of(look) == want.as_bytes(), "of {want}");
    }
    Ok(())
}

#[test]
fn pieces_stand_behind_one_another(rt: HostRuntime) -> Result<(), Fail> {
    let alloc = rt.alloc();
    let mut out = Vec::new(alloc);
    put_variable(&mut out, &TokenText::of(alloc, "x")?)?;
    put_blank(&mut out, 1)?;
    put_look(&mut out, TokenLook::PlusEqual)?;
    put_blank(&mut out, 2)?;
    put_constant(&mut out, &TokenText::of(alloc, "A")?)?;
    put_look(&mut out, TokenLook::Dot)?;
    put_name(&mut out, &TokenText::of(alloc, "f?")?)?;
    for number in [0, 10, -12, 2_147_483_647, -2_147_483_648] {
        put_look(&mut out, TokenLook::Comma)?;
        put_int32(&mut out, number)?;
    }
    for number in [0, -9_223_372_036_854_775_808] {
        put_look(&mut out, TokenLook::Comma)?;
        put_int64(&mut out, number)?;
    }
    put_look(&mut out, TokenLook::Newline)?;
    let want = "@x +=  A.f?,0,10,-12,2147483647,-2147483648,0_i64,-9223372036854775808_i64\n";
    assert!(rt; out.as_slice() == want.as_bytes());
    Ok(())
}

#[test]
fn texts_are_escaped(rt: HostRuntime) -> Result<(), Fail> {
    let alloc = rt.alloc();
    let mut out = Vec::new(alloc);
    put_text(&mut out, &TokenText::of(alloc, "a\\\"\n\t\ré #{#")?)?;
    put_text_first(&mut out, &TokenText::of(alloc, "#")?)?;
    put_int32(&mut out, 1)?;
    put_text_middle(&mut out, &TokenText::of(alloc, "}")?)?;
    put_int32(&mut out, 2)?;
    put_text_last(&mut out, &TokenText::of(alloc, "")?)?;
    let want = "\"a\\\\\\\"\\n\\t\\ré \\#{#\"\"##{1}}#{2}\"";
    assert!(rt; out.as_slice() == want.as_bytes());
    Ok(())
}
