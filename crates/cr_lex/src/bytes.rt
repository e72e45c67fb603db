//! Classes of bytes.
ghost use Rattle.std.specs.Prelude.{◌≡◌, ◌≤◌, ◌&&◌, not, if◌then◌else◌, length};
ghost use Rattle.cr_syntax.specs.Words as spec;
ghost use Rattle.cr_syntax.specs.Lexes.{is_blank, line_length, gap_length};
ghost use Rattle.cr_lex.specs.Words.{begins_content as content_begins, word_length, marked_length, is_equal};
ghost use Rattle.cr_lex.specs.Texts.{is_brace};

pub fn is_digit(b: u8) -> bool
    ensures { result ≡ spec.is_digit b }
{
    b'0' <= b && b <= b'9'
}

pub fn begins_name(b: u8) -> bool
    ensures { result ≡ spec.begins_name b }
{
    (b'a' <= b && b <= b'z') || b == b'_'
}

pub fn begins_constant(b: u8) -> bool
    ensures { result ≡ spec.begins_constant b }
{
    b'A' <= b && b <= b'Z'
}

pub fn is_word_byte(b: u8) -> bool
    ensures { result ≡ spec.is_word_byte b }
{
    begins_name(b) || begins_constant(b) || is_digit(b)
}

/// Whether a number, a word, an instance variable or a text begins with the byte.
pub fn begins_content(b: u8) -> bool
    ensures { result ≡ content_begins b }
{
    match b {
        b'0'..=b'9' | b'a'..=b'z' | b'_' | b'A'..=b'Z' | b'@' | b'"' => true,
        _ => false,
    }
}

fn is_mark(b: u8) -> bool
    ensures { result ≡ spec.is_mark b }
{
    b == b'?' || b == b'!'
}

fn is_space(b: u8) -> bool
    ensures { result ≡ is_blank b }
{
    b == b' ' || b == b'\t' || b == b'\r'
}

pub fn begins_digit(bytes: &[u8]) -> bool
    ensures { result ≡ spec.begins spec.is_digit bytes.now }
{
    match bytes {
        [b, ..] => is_digit(*b),
        [] => false,
    }
}

fn begins_equal(bytes: &[u8]) -> bool
    ensures { result ≡ spec.begins is_equal bytes.now }
{
    match bytes {
        [b, ..] => *b == b'=',
        [] => false,
    }
}

pub fn begins_brace(bytes: &[u8]) -> bool
    ensures { result ≡ spec.begins is_brace bytes.now }
{
    match bytes {
        [b, ..] => *b == b'{',
        [] => false,
    }
}

/// How many letters, digits and `_` stand at the front.
pub fn word_len(bytes: &[u8]) -> usize
    ensures value { result ≡ word_length bytes.now }
    ensures within { result ≤ length bytes.now }
{
    for (i, b) in bytes.iter().enumerate() {
        if !is_word_byte(*b) {
            return i;
        }
    }
    bytes.len()
}

/// 1 where the byte is a `?` or `!` that no `=` follows, else 0.
fn mark_len(b: u8, after: &[u8]) -> usize
    ensures { result ≡ (if spec.is_mark b && not (spec.begins is_equal after.now) then 1 else 0) }
{
    if is_mark(b) && !begins_equal(after) {
        1
    } else {
        0
    }
}

/// How many letters, digits and `_` stand at the front, with a `?` or `!` behind them that no `=` follows.
pub fn marked_len(bytes: &[u8]) -> usize
    ensures value { result ≡ marked_length bytes.now }
    ensures within { result ≤ length bytes.now }
{
    for (i, b) in bytes.iter().enumerate() {
        if !is_word_byte(*b) {
            return i + mark_len(*b, &bytes[i + 1..]);
        }
    }
    bytes.len()
}

/// How many bytes stand before the end of the line.
fn line_len(bytes: &[u8]) -> usize
    ensures value { result ≡ line_length bytes.now }
    ensures within { result ≤ length bytes.now }
{
    for (i, b) in bytes.iter().enumerate() {
        if *b == b'\n' {
            return i;
        }
    }
    bytes.len()
}

/// How many bytes of blanks, with maybe a comment behind them, stand at the front.
pub fn gap_len(bytes: &[u8]) -> usize
    ensures value { result ≡ gap_length bytes.now }
    ensures within { result ≤ length bytes.now }
{
    for (i, b) in bytes.iter().enumerate() {
        if *b == b'#' {
            return i + 1 + line_len(&bytes[i + 1..]);
        }
        if !is_space(*b) {
            return i;
        }
    }
    bytes.len()
}
