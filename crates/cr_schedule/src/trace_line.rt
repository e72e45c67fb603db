// Reading one line of a trace.
ghost use Rattle.std.specs.Prelude.{◌≡◌, ◌<◌, ◌^◌, ◌*◌, ◌++◌, true, drop, take_while, length, IfSome, IfNone};
ghost use Rattle.std.specs.Char.{is_ascii_digit};
ghost use Rattle.std.specs.List.{prefix_len};
ghost use Rattle.std.specs.Option.{option_map};
ghost use Rattle.std.specs.Str.{all_ascii_digits};
ghost use Rattle.cr_schedule.specs.Entry.{HasLine};
ghost use Rattle.cr_schedule.specs.Trace.{ended_line, BeginsNoLine};
ghost use Rattle.cr_schedule.specs.Reading.{byte_at, is_numeral, value_of, number_at, optional_at, steps_at, entry_at};

use crate::entry::{Entry, LAST_CLAUSE, LAST_FIBER, MOST_STEPS};
use cr_base::FiberId;

pub(crate) const SPACE: u8 = b' ';

pub(crate) const LINE_FEED: u8 = b'\n';

pub(crate) const DASH: u8 = b'-';

pub(crate) const STEPS: u8 = b's';

pub(crate) const WAIT: u8 = b'w';

pub(crate) const RESUME: u8 = b'r';

/// The entry whose line stands at the front, and the bytes after its line feed.
pub(crate) fn first_entry(bytes: &[u8]) -> Option<(Entry, &[u8])>
    ensures found { IfSome result (λ x. HasLine x.0 × (bytes.now ≡ ended_line x.0 ++ x.1.now)) }
    ensures none { IfNone result (BeginsNoLine bytes.now) }
{
    entry_at(bytes)
}

#[tactic(auto, unfolding(crate::specs::Reading::entry_at, crate::specs::Reading::fiber_at))]
fn entry_at(bytes: &[u8]) -> Option<(Entry, &[u8])>
    ensures { option_map (λ x. (x.0, x.1.now)) result ≡ entry_at bytes.now }
{
    match bytes {
        [STEPS, SPACE, rest @ ..] => steps_at(rest),
        [WAIT, SPACE, rest @ ..] => {
            let (fiber, rest) = number_at(rest, LAST_FIBER, LINE_FEED)?;
            Some((Entry::Wait(FiberId(fiber)), rest))
        }
        [RESUME, SPACE, rest @ ..] => {
            let (fiber, rest) = number_at(rest, LAST_FIBER, LINE_FEED)?;
            Some((Entry::Resume(FiberId(fiber)), rest))
        }
        _ => None,
    }
}

#[tactic(auto, unfolding(crate::specs::Reading::steps_at))]
fn steps_at(bytes: &[u8]) -> Option<(Entry, &[u8])>
    ensures { option_map (λ x. (x.0, x.1.now)) result ≡ steps_at bytes.now }
{
    let (fiber, rest) = number_at(bytes, LAST_FIBER, SPACE)?;
    let (count, rest) = number_at(rest, MOST_STEPS, SPACE)?;
    let (clause, rest) = optional_at(rest, LAST_CLAUSE, SPACE)?;
    let (partner, rest) = optional_at(rest, LAST_FIBER, SPACE)?;
    let (partner_clause, rest) = optional_at(rest, LAST_CLAUSE, LINE_FEED)?;
    if count == 0 || partner.is_none() && partner_clause.is_some() {
        return None;
    }
    let entry = Entry::Steps {
        fiber: FiberId(fiber),
        count,
        clause,
        partner: partner.map(FiberId),
        partner_clause,
    };
    Some((entry, rest))
}

#[tactic(auto, unfolding(crate::specs::Reading::optional_at))]
fn optional_at(bytes: &[u8], most: u32, end: u8) -> Option<(Option<u32>, &[u8])>
    requires { most < 10 ^ 8 }
    ensures { option_map (λ x. (x.0, x.1.now)) result ≡ optional_at most end bytes.now }
{
    match byte_at(bytes, DASH) {
        None => {
            let (number, rest) = number_at(bytes, most, end)?;
            Some((Some(number), rest))
        }
        Some(after) => Some((None, byte_at(after, end)?)),
    }
}

#[tactic(auto, unfolding(crate::specs::Reading::number_at))]
fn number_at(bytes: &[u8], most: u32, end: u8) -> Option<(u32, &[u8])>
    requires { most < 10 ^ 8 }
    ensures { option_map (λ x. (x.0, x.1.now)) result ≡ number_at most end bytes.now }
{
    let (digits, rest) = split_digits(bytes);
    let number = value_of(digits, most)?;
    let rest = byte_at(rest, end)?;
    Some((number, rest))
}

fn split_digits(bytes: &[u8]) -> (&[u8], &[u8])
    ensures digits { result.0.now ≡ take_while is_ascii_digit bytes.now }
    ensures rest { result.1.now ≡ drop (prefix_len is_ascii_digit bytes.now) bytes.now }
    ensures all { all_ascii_digits result.0.now ≡ true }
{
    bytes.split_at(count_digits(bytes))
}

fn count_digits(bytes: &[u8]) -> usize
    ensures { result ≡ length (take_while is_ascii_digit bytes.now) }
{
    bytes
        .iter()
        .take_while(|byte| byte.is_ascii_digit())
        .count()
}

fn value_of(digits: &[u8], most: u32) -> Option<u32>
    requires digits { all_ascii_digits digits.now ≡ true }
    requires most { most < 10 ^ 8 }
    ensures { result ≡ value_of most digits.now }
{
    if !is_numeral(digits) {
        return None;
    }
    let mut value = 0;
    for digit in digits {
        value = value * 10 + u32::from(*digit - b'0');
        if value > most {
            return None;
        }
    }
    Some(value)
}

fn is_numeral(digits: &[u8]) -> bool
    ensures { result ≡ is_numeral digits.now }
{
    match digits {
        [] => false,
        [_] => true,
        [first, ..] => *first != b'0',
    }
}

fn byte_at(bytes: &[u8], byte: u8) -> Option<&[u8]>
    ensures { option_map (λ x. x.now) result ≡ byte_at byte bytes.now }
{
    match bytes {
        [first, rest @ ..] if *first == byte => Some(rest),
        _ => None,
    }
}
