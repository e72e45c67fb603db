//! Numbers.
ghost use Rattle.std.specs.Prelude.{◌≡◌, ◌<◌, ◌≤◌, ◌^◌, length, drop, true, IfSome};
ghost use Rattle.cr_syntax.specs.Numbers as spec;
ghost use Rattle.cr_syntax.specs.Words as class;
ghost use Rattle.cr_lex.specs.Longest.{Finds};
ghost use Rattle.cr_lex.specs.Numbers.{number_form, cap, capped_groups, capped_digits, grown as grown_value};

use crate::bytes::{begins_digit, is_digit, is_word_byte, word_len};
use cr_syntax::TokenKind;

// Above every value that a type has.
const CAP: u64 = 9223372036854775809;

/// The value with one more digit, and no more than `CAP`.
fn grown(value: u64, digit: u8) -> u64
    requires value { value ≤ cap }
    requires digit { digit < 10 }
    ensures value { result ≡ grown_value value digit }
    ensures within { result ≤ cap }
{
    if value >= 922337203685477581 {
        CAP
    } else {
        10 * value + digit as u64
    }
}

/// The value that the digits at the front make of the value before, and how many bytes they take.
fn groups(before: u64, bytes: &[u8]) -> (u64, usize)
    requires { before ≤ cap }
    ensures within { result.1 ≤ length bytes.now }
    ensures value { (result.0, drop result.1 bytes.now) ≡ capped_groups before bytes.now }
    ensures capped { result.0 ≤ cap }
{
    let mut value = before;
    for (i, b) in bytes.iter().enumerate() {
        if is_digit(*b) {
            value = grown(value, *b - b'0');
        } else if *b != b'_' || !begins_digit(&bytes[i + 1..]) {
            return (value, i);
        }
    }
    (value, bytes.len())
}

/// The same from a first digit on.
fn digits(first: u8, more: &[u8]) -> (u64, usize)
    requires { class.is_digit first ≡ true }
    ensures within { result.1 ≤ length more.now }
    ensures value { (result.0, drop result.1 more.now) ≡ capped_digits first more.now }
    ensures capped { result.0 ≤ cap }
{
    if first == b'0' {
        (0, 0)
    } else {
        groups((first - b'0') as u64, more)
    }
}

fn fits(minus: bool, value: u64, limit: u64) -> bool
    requires { value ≤ cap }
    ensures { result ≡ spec.fits minus value limit }
{
    if minus {
        value <= limit
    } else {
        value + 1 <= limit
    }
}

fn signed(minus: bool, value: u64) -> i64
    requires { spec.fits minus value (2 ^ 63) ≡ true }
    ensures { result ≡ spec.signed minus value }
{
    if !minus {
        return value as i64;
    }
    if value == 1 << 63 {
        return i64::MIN;
    }
    -(value as i64)
}

fn small(minus: bool, value: u64) -> Option<TokenKind>
    requires { value ≤ cap }
    ensures { result ≡ spec.small minus value }
{
    if fits(minus, value, 1 << 31) {
        Some(TokenKind::Int32(signed(minus, value) as i32))
    } else {
        None
    }
}

fn big(minus: bool, value: u64) -> Option<TokenKind>
    requires { value ≤ cap }
    ensures { result ≡ spec.big minus value }
{
    if fits(minus, value, 1 << 63) {
        Some(TokenKind::Int64(signed(minus, value)))
    } else {
        None
    }
}

fn typed(minus: bool, value: u64, suffix: &[u8]) -> Option<TokenKind>
    requires { value ≤ cap }
    ensures { result ≡ spec.typed minus value suffix.now }
{
    if suffix == b"".as_slice() || suffix == b"i32".as_slice() || suffix == b"_i32".as_slice() {
        return small(minus, value);
    }
    if suffix == b"i64".as_slice() || suffix == b"_i64".as_slice() {
        return big(minus, value);
    }
    None
}

/// The number that the bytes spell, if any.
fn number_of(minus: bool, text: &[u8]) -> Option<TokenKind>
    requires { class.begins class.is_digit text.now ≡ true }
    ensures { result ≡ spec.number_of minus text.now }
{
    let (value, len) = digits(text[0], &text[1..]);
    typed(minus, value, &text[1 + len..])
}

fn ends_number(bytes: &[u8]) -> bool
    ensures { result ≡ spec.ends_number bytes.now }
{
    match bytes {
        [b, more @ ..] => !is_word_byte(*b) && !(*b == b'.' && begins_digit(more)),
        [] => true,
    }
}

/// The number at the front, where a digit stands there, and how many bytes it takes.
pub fn number(minus: bool, bytes: &[u8]) -> Option<(TokenKind, usize)>
    requires { class.begins class.is_digit bytes.now ≡ true }
    ensures found { Finds (number_form minus) bytes.now result }
    ensures some { IfSome result (λ r. 0 < r.1) }
{
    let len = word_len(bytes);
    if !ends_number(&bytes[len..]) {
        return None;
    }
    match number_of(minus, &bytes[..len]) {
        Some(kind) => Some((kind, len)),
        None => None,
    }
}
