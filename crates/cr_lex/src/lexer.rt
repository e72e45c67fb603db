//! One token after the other.
ghost use Rattle.std.specs.Prelude.{◌≡◌, ◌≢◌, ◌<◌, ◌≤◌, ◌+◌, ◌^◌, ◌==◌, ◌&&◌, length, vec_len, vec_capacity, Some, drop, slice_index, unwrap_or, false, true, OnOk, IfOk, IfErr};
ghost use Rattle.std.specs.Str.{IsUtf8};
ghost use Rattle.cr_syntax.specs.declared.fault.LexFault.{LexFault};
ghost use Rattle.cr_syntax.specs.declared.token.TheConstants.{MAX_SOURCE_BYTES};
ghost use Rattle.cr_syntax.specs.declared.fault.LexFault.TheVariants as fault;
ghost use Rattle.cr_syntax.specs.Lexes as spec;
ghost use Rattle.cr_syntax.specs.Words as class;
ghost use Rattle.cr_syntax.specs.Faults.{text_fault, fault_at, TextFails};
ghost use Rattle.cr_lex.specs.Words.{word_form, constant_form, variable_form, operator_form};
ghost use Rattle.cr_lex.specs.Numbers.{number_form};
ghost use Rattle.cr_lex.specs.Texts.{part_form};
ghost use Rattle.cr_lex.specs.Step.{before_of, begins_operator as is_operator, digit_form, form_with_kind, token_at, token_by, Adds, ReadsForm, Stands, Turns};

use crate::bytes::{begins_constant, begins_content, begins_digit, begins_name, gap_len, is_digit};
use crate::numbers::number;
use crate::operators::operator;
use crate::texts::{PartFault, part};
use crate::words::{constant, variable, word};
use cr_base::NoMemory;
use cr_syntax::{LexFault, Open, Span, Token, TokenKind, TokenLook};
use std::alloc::Global;

/// What the tokens so far leave: what is open, the innermost last, and the last token.
#[derive(Drop)]
pub struct Seen {
    nesting: Vec<Open>,
    last: TokenLook,
}

/// A token's kind, and how many of its bytes stand behind the first.
type Form = Result<(TokenKind, usize), LexFault>;

/// The same of an operator or the end of a line, by its look.
type PlainForm = Result<(TokenLook, usize), LexFault>;

/// The opening quote of the outermost text in whose insertion this is.
fn outermost(nesting: &[Open]) -> Option<u32>
    ensures { result ≡ spec.outermost nesting.now }
{
    for open in nesting {
        if let Open::Insertion(quote) = open {
            return Some(*quote);
        }
    }
    None
}

fn in_insertion(nesting: &[Open]) -> bool
    ensures { result ≡ spec.is_insertion (spec.innermost nesting.now) }
{
    match nesting.last() {
        Some(Open::Insertion(_)) => true,
        _ => false,
    }
}

fn ends_operand(look: TokenLook) -> bool
    ensures { result ≡ spec.ends_operand look }
{
    match look {
        TokenLook::Ident
        | TokenLook::Constant
        | TokenLook::InstanceVariable
        | TokenLook::Int32
        | TokenLook::Int64
        | TokenLook::Text
        | TokenLook::TextLast
        | TokenLook::CloseParenthesis
        | TokenLook::CloseBracket
        | TokenLook::CloseBrace
        | TokenLook::KeywordEnd
        | TokenLook::Nil
        | TokenLook::IsNil
        | TokenLook::True
        | TokenLook::False
        | TokenLook::KeywordSelf => true,
        _ => false,
    }
}

fn is_ident(look: TokenLook) -> bool
    ensures { result ≡ spec.is_ident look }
{
    match look {
        TokenLook::Ident => true,
        _ => false,
    }
}

fn digit_token(place: u32, rest: &[u8]) -> Form
    requires { class.begins class.is_digit rest.now ≡ true }
    ensures { ReadsForm (digit_form (slice_index rest.now 0)) (drop 1 rest.now) (fault.BadNumber place) result }
{
    match number(false, rest) {
        Some((kind, len)) => Ok((kind, len - 1)),
        None => Err(LexFault::BadNumber(place)),
    }
}

fn minus_token(place: u32, more: &[u8]) -> Form
    requires { class.begins class.is_digit more.now ≡ true }
    ensures { ReadsForm (number_form true) more.now (fault.BadNumber place) result }
{
    number(true, more).ok_or(LexFault::BadNumber(place))
}

fn word_token(alloc: Global, rest: &[u8]) -> Form
    requires some { 0 < length rest.now }
    requires begins { class.begins_name (slice_index rest.now 0) ≡ true }
    ensures { (f : LexFault) → ReadsForm (word_form (slice_index rest.now 0)) (drop 1 rest.now) f result }
{
    Ok(word(alloc, rest)?)
}

fn constant_token(alloc: Global, rest: &[u8]) -> Form
    requires some { 0 < length rest.now }
    requires begins { class.begins_constant (slice_index rest.now 0) ≡ true }
    ensures { (f : LexFault) → ReadsForm (constant_form (slice_index rest.now 0)) (drop 1 rest.now) f result }
{
    Ok(constant(alloc, rest)?)
}

fn variable_token(alloc: Global, place: u32, more: &[u8]) -> Form
    ensures { ReadsForm variable_form more.now (fault.BadByte place) result }
{
    variable(alloc, more)?.ok_or(LexFault::BadByte(place))
}

/// The part of a text that begins at `place`, by its quote or the `}` of an insertion.
fn part_token(alloc: Global, quoted: bool, seen: &Seen, place: u32, more: &[u8]) -> Form
    requires fits { place + length more.now < 2 ^ 32 }
    requires utf8 { IsUtf8 more.now }
    ensures { ReadsForm (part_form quoted) more.now (text_fault (unwrap_or (spec.outermost (before_of seen.now).nesting) place) false (place + 1) more.now) result }
{
    match part(alloc, quoted, more) {
        Ok(found) => Ok(found),
        Err(PartFault::Escape(len)) => Err(LexFault::BadEscape(place + len as u32)),
        Err(PartFault::Unended) => Err(LexFault::OpenString(outer_quote(seen, place))),
        Err(PartFault::NoMemory) => Err(LexFault::NoMemory),
    }
}

fn operator_token(place: u32, first: u8, more: &[u8]) -> PlainForm
    ensures { ReadsForm (operator_form first) more.now (fault.BadByte place) (form_with_kind result) }
{
    operator(first, more).ok_or(LexFault::BadByte(place))
}

/// Whether the byte is a `}` that ends an insertion.
fn ends_insertion(first: u8, seen: &Seen) -> bool
    ensures { result ≡ (first == 125 && spec.in_insertion (before_of seen.now)) }
{
    first == b'}' && in_insertion(&seen.nesting)
}

fn takes_minus(seen: &Seen, spaced: bool) -> bool
    ensures { result ≡ spec.takes_minus (before_of seen.now) spaced }
{
    !ends_operand(seen.last) || (is_ident(seen.last) && spaced)
}

/// Whether the byte is a `-` that belongs to a number.
fn signs_number(first: u8, more: &[u8], seen: &Seen, spaced: bool) -> bool
    ensures { result ≡ (first == 45 && (class.begins class.is_digit more.now && spec.takes_minus (before_of seen.now) spaced)) }
{
    first == b'-' && (begins_digit(more) && takes_minus(seen, spaced))
}

/// Whether what stands here can only be an operator or the end of a line.
fn begins_operator(first: u8, more: &[u8], seen: &Seen, spaced: bool) -> bool
    ensures { result ≡ is_operator (before_of seen.now) spaced first more.now }
{
    !begins_content(first)
        && (!ends_insertion(first, seen) && !signs_number(first, more, seen, spaced))
}

/// The opening quote of the outermost text, where this one begins at `place`.
fn outer_quote(seen: &Seen, place: u32) -> u32
    ensures { result ≡ unwrap_or (spec.outermost (before_of seen.now).nesting) place }
{
    outermost(&seen.nesting).unwrap_or(place)
}

/// The form of an instance variable, a text or a signed number.
fn marked_form(alloc: Global, seen: &Seen, spaced: bool, place: u32, rest: &[u8]) -> Form
    requires some { 0 < length rest.now }
    requires content { is_operator (before_of seen.now) spaced (slice_index rest.now 0) (drop 1 rest.now) ≡ false }
    requires digit { class.is_digit (slice_index rest.now 0) ≡ false }
    requires name { class.begins_name (slice_index rest.now 0) ≡ false }
    requires constant { class.begins_constant (slice_index rest.now 0) ≡ false }
    requires fits { place + length rest.now < 2 ^ 32 }
    requires utf8 { slice_index rest.now 0 < 128 → IsUtf8 (drop 1 rest.now) }
    ensures { ReadsForm (spec.form_by (before_of seen.now) spaced (slice_index rest.now 0)) (drop 1 rest.now) (fault_at (before_of seen.now) place rest.now) result }
{
    let first = rest[0];
    let more = &rest[1..];
    if first == b'@' {
        return variable_token(alloc, place, more);
    }
    if first == b'"' {
        return part_token(alloc, true, seen, place, more);
    }
    if ends_insertion(first, seen) {
        return part_token(alloc, false, seen, place, more);
    }
    minus_token(place, more)
}

/// The form at the front, by its first byte, where no operator begins.
fn form(alloc: Global, seen: &Seen, spaced: bool, place: u32, rest: &[u8]) -> Form
    requires some { 0 < length rest.now }
    requires content { is_operator (before_of seen.now) spaced (slice_index rest.now 0) (drop 1 rest.now) ≡ false }
    requires fits { place + length rest.now < 2 ^ 32 }
    requires utf8 { slice_index rest.now 0 < 128 → IsUtf8 (drop 1 rest.now) }
    ensures { ReadsForm (spec.form_by (before_of seen.now) spaced (slice_index rest.now 0)) (drop 1 rest.now) (fault_at (before_of seen.now) place rest.now) result }
{
    let first = rest[0];
    if is_digit(first) {
        return digit_token(place, rest);
    }
    if begins_name(first) {
        return word_token(alloc, rest);
    }
    if begins_constant(first) {
        return constant_token(alloc, rest);
    }
    marked_form(alloc, seen, spaced, place, rest)
}

/// Where the token begins that follows one that ends at `at`.
fn place_of(source: &[u8], at: usize) -> usize
    requires { at ≤ length source.now }
    ensures value { result ≡ spec.place_of source.now at }
    ensures within { result ≤ length source.now }
{
    at + gap_len(&source[at..])
}

fn is_spaced(source: &[u8], at: usize, place: usize) -> bool
    requires value { place ≡ spec.place_of source.now at }
    requires within { place ≤ length source.now }
    ensures { result ≡ spec.is_spaced source.now at }
{
    at < place || place == 0 || source[place - 1] == b'\n'
}

/// Whether the token at `place` can only be an operator or the end of a line.
fn is_operator_at(source: &[u8], seen: &Seen, place: usize, spaced: bool) -> bool
    requires within { place < length source.now }
    ensures { result ≡ is_operator (before_of seen.now) spaced (slice_index source.now place) (drop (place + 1) source.now) }
{
    begins_operator(source[place], &source[place + 1..], seen, spaced)
}

/// The look of the operator at `place`, and how many of its bytes stand behind the first.
fn operator_at(source: &[u8], seen: &Seen, at: usize, place: usize, spaced: bool) -> PlainForm
    requires size { length source.now ≤ MAX_SOURCE_BYTES }
    requires value { place ≡ spec.place_of source.now at }
    requires within { place < length source.now }
    requires gap { spaced ≡ spec.is_spaced source.now at }
    requires operator { is_operator (before_of seen.now) spaced (slice_index source.now place) (drop (place + 1) source.now) ≡ true }
    ensures { Stands source.now (before_of seen.now) at (token_by place spaced (form_with_kind result)) }
{
    operator_token(place as u32, source[place], &source[place + 1..])
}

/// The kind of the other token at `place`, and how many of its bytes stand behind the first.
fn kind_at(alloc: Global, source: &[u8], seen: &Seen, at: usize, place: usize, spaced: bool) -> Form
    requires size { length source.now ≤ MAX_SOURCE_BYTES }
    requires utf8 { IsUtf8 source.now }
    requires value { place ≡ spec.place_of source.now at }
    requires within { place < length source.now }
    requires gap { spaced ≡ spec.is_spaced source.now at }
    requires content { is_operator (before_of seen.now) spaced (slice_index source.now place) (drop (place + 1) source.now) ≡ false }
    ensures { Stands source.now (before_of seen.now) at (token_by place spaced result) }
{
    form(alloc, seen, spaced, place as u32, &source[place..])
}

/// The last turn: End goes last, where no text is open.
fn end(
    source: &[u8],
    seen: &Seen,
    at: usize,
    spaced: bool,
    tokens: &mut Vec<Token>,
) -> Result<Option<usize>, LexFault>
    requires size { length source.now ≤ MAX_SOURCE_BYTES }
    requires at_end { spec.place_of source.now at ≡ length source.now }
    requires gap { spaced ≡ spec.is_spaced source.now at }
    requires room { vec_len tokens.old < vec_capacity tokens.old }
    ensures { Turns source.now (before_of seen.now) at tokens.old.items result (before_of seen.now) tokens.new.items }
{
    if let Some(quote) = outermost(&seen.nesting) {
        return Err(LexFault::OpenString(quote));
    }
    let past = source.len() as u32;
    let span = Span { first: past, past };
    tokens.push_reserved(Token {
        kind: TokenKind::Plain(TokenLook::End),
        span,
        spaced,
    });
    Ok(None)
}

/// What is open behind a token that begins at `first`.
#[inline(always)]
fn nest(nesting: &mut Vec<Open>, first: u32, look: TokenLook) -> Result<(), NoMemory>
    ensures { OnOk result (nesting.new.items ≡ spec.nesting_behind nesting.old.items first look) }
{
    match look {
        TokenLook::OpenBrace => {
            nesting.push(Open::Brace)?;
            Ok(())
        }
        TokenLook::TextFirst => {
            nesting.push(Open::Insertion(first))?;
            Ok(())
        }
        TokenLook::CloseBrace | TokenLook::TextLast => {
            let _ = nesting.pop();
            Ok(())
        }
        _ => Ok(()),
    }
}

/// The token of this kind at `place`, with so many bytes behind the first.
fn token_of(place: usize, spaced: bool, kind: TokenKind, len: usize) -> Token
    requires { place + 1 + len ≤ MAX_SOURCE_BYTES }
    ensures { result ≡ token_at place spaced kind len }
{
    let span = Span {
        first: place as u32,
        past: (place + 1 + len) as u32,
    };
    Token { kind, span, spaced }
}

/// The token goes last. Where it ends.
#[inline(always)]
fn added(token: Token, seen: &mut Seen, tokens: &mut Vec<Token>) -> Result<Option<usize>, LexFault>
    requires { vec_len tokens.old < vec_capacity tokens.old }
    ensures ok { IfOk result (λ past. (past ≡ Some token.span.past) × Adds (before_of seen.old) tokens.old.items (before_of seen.new) tokens.new.items token) }
    ensures err { IfErr result (λ f. f ≡ fault.NoMemory) }
{
    let past = token.span.past as usize;
    let look = token.kind.look();
    nest(&mut seen.nesting, token.span.first, look)?;
    seen.last = look;
    tokens.push_reserved(token);
    Ok(Some(past))
}

/// A turn at an operator or the end of a line.
///
/// It stands apart, so that such a token is built where it goes and not copied from call to call.
fn operator_turn(
    source: &[u8],
    seen: &mut Seen,
    at: usize,
    place: usize,
    spaced: bool,
    tokens: &mut Vec<Token>,
) -> Result<Option<usize>, LexFault>
    requires size { length source.now ≤ MAX_SOURCE_BYTES }
    requires value { place ≡ spec.place_of source.now at }
    requires within { place < length source.now }
    requires gap { spaced ≡ spec.is_spaced source.now at }
    requires operator { is_operator (before_of seen.old) spaced (slice_index source.now place) (drop (place + 1) source.now) ≡ true }
    requires room { vec_len tokens.old < vec_capacity tokens.old }
    ensures { Turns source.now (before_of seen.old) at tokens.old.items result (before_of seen.new) tokens.new.items }
{
    let (look, len) = operator_at(source, seen, at, place, spaced)?;
    let kind = TokenKind::Plain(look);
    added(token_of(place, spaced, kind, len), seen, tokens)
}

/// A turn at another token.
fn content_turn(
    alloc: Global,
    source: &[u8],
    seen: &mut Seen,
    at: usize,
    place: usize,
    spaced: bool,
    tokens: &mut Vec<Token>,
) -> Result<Option<usize>, LexFault>
    requires size { length source.now ≤ MAX_SOURCE_BYTES }
    requires utf8 { IsUtf8 source.now }
    requires value { place ≡ spec.place_of source.now at }
    requires within { place < length source.now }
    requires gap { spaced ≡ spec.is_spaced source.now at }
    requires content { is_operator (before_of seen.old) spaced (slice_index source.now place) (drop (place + 1) source.now) ≡ false }
    requires room { vec_len tokens.old < vec_capacity tokens.old }
    ensures { Turns source.now (before_of seen.old) at tokens.old.items result (before_of seen.new) tokens.new.items }
{
    let (kind, len) = kind_at(alloc, source, seen, at, place, spaced)?;
    added(token_of(place, spaced, kind, len), seen, tokens)
}

/// One turn: the next token goes last. Some place where it ends, or none where it is End.
fn turn(
    alloc: Global,
    source: &[u8],
    seen: &mut Seen,
    at: usize,
    tokens: &mut Vec<Token>,
) -> Result<Option<usize>, LexFault>
    requires size { length source.now ≤ MAX_SOURCE_BYTES }
    requires utf8 { IsUtf8 source.now }
    requires within { at ≤ length source.now }
    ensures { Turns source.now (before_of seen.old) at tokens.old.items result (before_of seen.new) tokens.new.items }
{
    if tokens.reserve(1).is_err() {
        return Err(LexFault::NoMemory);
    }
    let place = place_of(source, at);
    let spaced = is_spaced(source, at, place);
    if place == source.len() {
        return end(source, seen, at, spaced, tokens);
    }
    if is_operator_at(source, seen, place, spaced) {
        return operator_turn(source, seen, at, place, spaced, tokens);
    }
    content_turn(alloc, source, seen, at, place, spaced, tokens)
}

/// The tokens of a text, or its fault.
pub fn text_tokens(alloc: Global, source: &[u8]) -> Result<Vec<Token>, LexFault>
    requires size { length source.now ≤ MAX_SOURCE_BYTES }
    requires utf8 { IsUtf8 source.now }
    ensures ok { IfOk result (λ tokens. spec.TextLexes source.now tokens.items) }
    ensures err { IfErr result (λ f. f ≢ fault.NoMemory → TextFails source.now f) }
{
    // Ordinary code has fewer tokens than this; a list that grows is moved.
    let Ok(mut tokens) = Vec::with_capacity(alloc, source.len() / 2 + 1) else {
        return Err(LexFault::NoMemory);
    };
    let mut seen = Seen {
        nesting: Vec::new(alloc),
        last: TokenLook::Newline,
    };
    let mut at = 0;
    'source: loop {
        match turn(alloc, source, &mut seen, at, &mut tokens) {
            Ok(Some(past)) => at = past,
            Ok(None) => return Ok(tokens),
            Err(fault) => return Err(fault),
        }
    }
}
