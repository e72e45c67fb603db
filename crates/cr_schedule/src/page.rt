// Text is gathered on a page, so that a sink is called once for many lines.
ghost use Rattle.std.specs.Prelude.{◌≡◌, ◌+◌, ◌<◌, ◌≤◌, ◌^◌, [], ◌∷◌, ◌++◌, List, ℕ, length, IfSome, OnOk, OnErr};
ghost use Rattle.std.specs.Fmt.{decimal};
ghost use Rattle.cr_io.specs.Faults.{HasCause};
ghost use Rattle.cr_io.specs.Sink.{AppendsFront};
ghost use Rattle.cr_schedule.specs.Entry.{HasLine};
ghost use Rattle.cr_schedule.specs.Trace.{optional, optional_fiber, ended_line};
ghost use Rattle.cr_schedule.specs.Page.{Passes};

use crate::entry::Entry;
use crate::trace_line::{DASH, LINE_FEED, RESUME, SPACE, STEPS, WAIT};
use cr_base::FiberId;
use cr_io::{Failed, Sink, put_all};
use std::marker::Model;

/// How many bytes a page has.
const PAGE: usize = 4096;

/// No line has more bytes, its line feed among them.
const LONGEST_LINE: usize = 48;

/// The text on a page.
#[derive(Drop)]
pub(crate) struct Page {
    bytes: [u8; PAGE],
    filled: usize,
}

impl Model for Page {
    ghost use Rattle.std.specs.Prelude.{◌≤◌, List, ℕ, take};

    ghost Value = { List ℕ };

    ghost view = { λ page. take page.filled page.bytes };

    ghost invariant = { λ page. page.filled ≤ 4096 };
}

impl Page {
    pub(crate) fn new() -> Self
        ensures { result ≡ [] }
    {
        Page {
            bytes: [0; PAGE],
            filled: 0,
        }
    }

    /// What stands on it.
    pub(crate) fn text(&self) -> &[u8]
        ensures { result.now ≡ self.now }
    {
        &self.bytes[..self.filled]
    }

    fn clear(&mut self)
        ensures { self.new ≡ [] }
    {
        self.filled = 0;
    }

    fn filled(&self) -> usize
        ensures filled { result ≡ length self.now }
        ensures within { result ≤ PAGE }
    {
        self.filled
    }

    fn push(&mut self, byte: u8)
        requires { length self.old < PAGE }
        ensures { self.new ≡ self.old ++ byte ∷ [] }
    {
        self.bytes[self.filled] = byte;
        self.filled += 1;
    }

    fn push_digits(&mut self, number: u32)
        requires { length self.old + length (decimal number) ≤ PAGE }
        ensures { self.new ≡ self.old ++ decimal number }
    {
        if number < 10 {
            self.push(b'0' + number as u8);
            return;
        }
        self.push_digits(number / 10);
        self.push(b'0' + (number % 10) as u8);
    }

    /// Puts a number and the byte that ends it.
    fn push_number(&mut self, number: u32, end: u8)
        requires small { number < 10 ^ 8 }
        requires room { length self.old + 9 ≤ PAGE }
        ensures text { self.new ≡ self.old ++ (decimal number ++ end ∷ []) }
        ensures short { length self.new ≤ length self.old + 9 }
    {
        self.push_digits(number);
        self.push(end);
    }

    /// Puts a number or a dash, and the byte that ends it.
    fn push_optional(&mut self, number: Option<u32>, end: u8)
        requires small { IfSome number (λ n. n < 10 ^ 8) }
        requires room { length self.old + 9 ≤ PAGE }
        ensures text { self.new ≡ self.old ++ (optional number ++ end ∷ []) }
        ensures short { length self.new ≤ length self.old + 9 }
    {
        match number {
            None => {
                self.push(DASH);
                self.push(end);
            }
            Some(number) => self.push_number(number, end),
        }
    }

    fn push_partner(&mut self, partner: Option<FiberId>, end: u8)
        requires small { IfSome partner (λ fiber. fiber.0 < 10 ^ 8) }
        requires room { length self.old + 9 ≤ PAGE }
        ensures text { self.new ≡ self.old ++ (optional_fiber partner ++ end ∷ []) }
        ensures short { length self.new ≤ length self.old + 9 }
    {
        match partner {
            None => self.push_optional(None, end),
            Some(fiber) => self.push_number(fiber.0, end),
        }
    }

    /// Puts the letter of an entry and a space.
    fn push_letter(&mut self, letter: u8)
        requires { length self.old + 2 ≤ PAGE }
        ensures { self.new ≡ self.old ++ letter ∷ SPACE ∷ [] }
    {
        self.push(letter);
        self.push(SPACE);
    }

    /// Puts the line of an entry, with its line feed.
    pub(crate) fn push_entry(&mut self, entry: Entry)
        requires line { HasLine entry }
        requires room { length self.old + LONGEST_LINE ≤ PAGE }
        ensures { self.new ≡ self.old ++ ended_line entry }
    {
        match entry {
            Entry::Steps {
                fiber,
                count,
                clause,
                partner,
                partner_clause,
            } => {
                self.push_letter(STEPS);
                self.push_number(fiber.0, SPACE);
                self.push_number(count, SPACE);
                self.push_optional(clause, SPACE);
                self.push_partner(partner, SPACE);
                self.push_optional(partner_clause, LINE_FEED);
            }
            Entry::Wait(fiber) => {
                self.push_letter(WAIT);
                self.push_number(fiber.0, LINE_FEED);
            }
            Entry::Resume(fiber) => {
                self.push_letter(RESUME);
                self.push_number(fiber.0, LINE_FEED);
            }
        }
    }
}

/// Makes room for a line. What does not stay on the page is written.
pub(crate) fn make_room<R: Sink>(sink: &mut R, page: &mut Page) -> Result<(), Failed>
    requires { R.fits sink.old page.old }
    ensures space { OnOk result (length page.new + LONGEST_LINE ≤ PAGE) }
    ensures passes { OnOk result
        (Passes (R.written sink.old) page.old (R.written sink.new) page.new) }
    ensures err { OnErr result (AppendsFront (R.written sink.old) page.old (R.written sink.new)) }
    ensures room { (more : List ℕ) → R.fits sink.old (page.old ++ more)
        → OnOk result (R.fits sink.new (page.new ++ more)) }
    ensures cause { HasCause (R.faults sink.old) (R.faults sink.new) result }
    ensures steady { OnOk result (R.faults sink.new ≡ R.faults sink.old) }
{
    if page.filled() + LONGEST_LINE <= PAGE {
        return Ok(());
    }
    put_all(sink, page.text())?;
    page.clear();
    Ok(())
}
