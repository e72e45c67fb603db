// Lists of sums, the programs that are taken so far.
ghost use Rattle.std.specs.Prelude.{◌≡◌, ◌≢◌, ◌≤◌, ◌<◌, ◌^◌, ℕ, length, Option, IfSome, MatchOption, IfOk, IsErrOf};
ghost use Rattle.std.specs.Fmt.{decimal};
ghost use Rattle.std.specs.Str.Parse.{AllDigits, digits_value};
ghost use Rattle.cr_tool.specs.Sums.{IsFirst, IsLiteral, plus, IsSum, sum_text, HasForm, spelling, IsNextLine, Spells, IsUnbuilt};

use std::alloc::{AllocFailed, Global};

/// What a `puts` writes: a literal, or the sum of two.
#[derive(Clone, Copy, Debug, PartialEq, Eq)]
pub struct Sum {
    pub first: u32,
    pub second: Option<u32>,
}

/// A line of a list of sums.
#[derive(Clone, Copy, Debug, PartialEq, Eq)]
pub enum Line {
    Blank,
    Puts(Sum),
}

/// Where the byte first stands, or the length where it does not.
fn find(bytes: &[u8], byte: u8) -> usize
    ensures { IsFirst byte bytes.now result }
{
    for (i, b) in bytes.iter().enumerate() {
        if *b == byte {
            return i;
        }
    }
    bytes.len()
}

/// The number that a text of at most nine decimal digits writes.
fn read_digits(text: &[u8]) -> Option<u32>
    requires { length text.now ≤ 9 }
    ensures { MatchOption result (¬ AllDigits 10 text.now) (λ n. AllDigits 10 text.now × (n ≡ digits_value 10 text.now)) }
{
    let mut value = 0u32;
    for byte in text {
        let digit = match *byte {
            b'0'..=b'9' => *byte - b'0',
            _ => return None,
        };
        value = value * 10 + u32::from(digit);
    }
    Some(value)
}

/// The literal that the text is: one to nine digits, without a leading 0 before another digit.
fn read_literal(text: &[u8]) -> Option<u32>
    ensures { MatchOption result ((n : ℕ) → IsLiteral n → text.now ≢ decimal n) (λ n. IsLiteral n × (text.now ≡ decimal n)) }
{
    if text.is_empty() || text.len() > 9 {
        return None;
    }
    if text[0] == b'0' && text.len() > 1 {
        return None;
    }
    read_digits(text)
}

/// What follows the first literal: nothing, or a plus and the second one.
fn read_plus(text: &[u8]) -> Option<Option<u32>>
    ensures { MatchOption result ((n : Option ℕ) → IfSome n IsLiteral → text.now ≢ plus n) (λ n. IfSome n IsLiteral × (text.now ≡ plus n)) }
{
    if text.is_empty() {
        return Some(None);
    }
    let second = read_literal(text.strip_prefix(b" + ")?)?;
    Some(Some(second))
}

/// The sum that the text is.
fn read_sum(text: &[u8]) -> Option<Sum>
    ensures { MatchOption result ((s : Sum) → IsSum s → text.now ≢ sum_text s) (λ s. IsSum s × (text.now ≡ sum_text s)) }
{
    let space = find(text, b' ');
    let (front, back) = text.split_at(space);
    let first = read_literal(front)?;
    let second = read_plus(back)?;
    Some(Sum { first, second })
}

/// The line that the text is, which has no line feed.
pub fn read_line(text: &[u8]) -> Option<Line>
    ensures { MatchOption result ((l : Line) → HasForm l → text.now ≢ spelling l) (λ l. HasForm l × (text.now ≡ spelling l)) }
{
    if text.is_empty() {
        return Some(Line::Blank);
    }
    Some(Line::Puts(read_sum(text.strip_prefix(b"puts ")?)?))
}

/// The most lines that a list of sums has.
const MOST_LINES: usize = 1000;

/// Why bytes are no list of sums that was read.
#[derive(Clone, Copy, Debug, PartialEq, Eq)]
pub enum LinesFault {
    /// The line at this byte place has not the form, or is one too many.
    Unbuilt(u32),
    /// Want of memory.
    NoMemory,
}

impl<T: Drop> From<AllocFailed<T>> for LinesFault {
    ghost use Rattle.std.specs.Prelude.{◌≡◌};
    ghost use Rattle.cr_tool.specs.declared.sums.LinesFault.TheVariants.{NoMemory};

    ghost from_gives = { λ _ e. e ≡ NoMemory };

    fn from(_: AllocFailed<T>) -> Self {
        LinesFault::NoMemory
    }
}

/// The first line, and what is left behind it and its line feed.
fn next_line(source: &[u8]) -> (&[u8], &[u8])
    requires { 0 < length source.now }
    ensures { IsNextLine source.now result.0.now result.1.now }
{
    let end = find(source, b'\n');
    let (text, behind) = source.split_at(end);
    match behind.split_first() {
        None => (text, behind),
        Some((_, rest)) => (text, rest),
    }
}

/// The lines of a list of sums.
pub fn read_lines(alloc: Global, source: &[u8]) -> Result<Vec<Line>, LinesFault>
    requires { length source.now < 2 ^ 32 }
    ensures ok { IfOk result (λ lines. Spells source.now lines.items) }
    ensures unbuilt { (place : ℕ) → IsErrOf result (LinesFault.Unbuilt place) → IsUnbuilt source.now place }
    ensures within { (place : ℕ) → IsErrOf result (LinesFault.Unbuilt place) → place ≤ length source.now }
{
    let mut lines = Vec::new(alloc);
    let mut rest = source;
    while !rest.is_empty() {
        let place = (source.len() - rest.len()) as u32;
        let (text, behind) = next_line(rest);
        if lines.len() == MOST_LINES {
            return Err(LinesFault::Unbuilt(place));
        }
        let Some(line) = read_line(text) else {
            return Err(LinesFault::Unbuilt(place));
        };
        lines.push(line)?;
        rest = behind;
    }
    Ok(lines)
}
