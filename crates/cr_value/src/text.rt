// A text is its bytes. They are well-formed UTF-8, which the `String` keeps, and no more than the limit.
ghost use Rattle.std.specs.Prelude.{◌≡◌, ◌+◌, ◌*◌, ◌<◌, ◌≤◌, ◌↔◌, ℕ, List, ◌++◌, length, count_by, IfOk, IsErrOf, IsTrue};
ghost use Rattle.std.specs.List.{repeat};
ghost use Rattle.std.specs.Ordering.{nat_cmp};
ghost use Rattle.std.specs.Str.{IsUtf8, bytes_eq, chars};
ghost use Rattle.std.specs.Hash as fed;
ghost use Rattle.std.specs.Cmp.{partial_equiv_from_equiv};
ghost use Rattle.std.specs.Cmp.Lexicographic.{slice_cmp, nat_list_eq_equiv};
ghost use Rattle.std.specs.Cmp.Rules.{hashing};
ghost use Rattle.std.proofs.Common.{rules};
ghost use Rattle.cr_value.specs.Text.{begins_character};

use cr_base::NoMemory;
use std::alloc::{AllocError, Global};
use std::cmp::Ordering;
use std::hash::{Hash, Hasher};
use std::marker::Model;

/// The most bytes that a text has.
pub const TEXT_LIMIT: usize = 1_048_576;

/// A text of the language. Contracts see the list of its bytes.
#[derive(Debug, Drop)]
pub struct Text {
    string: String,
}

impl Model for Text {
    ghost use Rattle.std.specs.Prelude.{ℕ, ◌≤◌, List, length, string_bytes};
    ghost use Rattle.cr_value.specs.declared.text.TheConstants.{TEXT_LIMIT};

    ghost Value = { List ℕ };

    ghost view = { λ t. string_bytes t.string };

    ghost invariant = { λ t. length (string_bytes t.string) ≤ TEXT_LIMIT };
}

/// Why a text could not be made.
#[derive(Clone, Copy, Debug, PartialEq, Eq)]
pub enum TextFault {
    /// The text would have more than `TEXT_LIMIT` bytes.
    TooLong,
    /// Memory ran out.
    NoMemory,
}

impl From<AllocError> for TextFault {
    ghost use Rattle.std.specs.Prelude.{◌≡◌};
    ghost use Rattle.cr_value.specs.declared.text.TextFault.TheVariants.{NoMemory};

    ghost from_gives = { λ _ fault. fault ≡ NoMemory };

    fn from(_: AllocError) -> TextFault {
        TextFault::NoMemory
    }
}

impl Text {
    /// The text with the bytes of `text`: `TooLong` exactly where these are more than `TEXT_LIMIT`.
    pub fn of(alloc: Global, text: &str) -> Result<Text, TextFault>
        ensures ok { IfOk result (λ made. made ≡ text.now) }
        ensures too_long { IsErrOf result TextFault.TooLong ↔ (TEXT_LIMIT < length text.now) }
    {
        if text.len() > TEXT_LIMIT {
            return Err(TextFault::TooLong);
        }
        Ok(Text::within(alloc, text)?)
    }

    // The text with the bytes of a `&str` that is not too long.
    pub(crate) fn within(alloc: Global, text: &str) -> Result<Text, AllocError>
        requires { length text.now ≤ TEXT_LIMIT }
        ensures { IfOk result (λ made. made ≡ text.now) }
    {
        Ok(Text {
            string: String::from_str(alloc, text)?,
        })
    }

    /// The bytes of `a` and then those of `b`: `TooLong` exactly where these are more than `TEXT_LIMIT`.
    pub fn join(alloc: Global, a: &Text, b: &Text) -> Result<Text, TextFault>
        ensures ok { IfOk result (λ made. made ≡ a.now ++ b.now) }
        ensures too_long { IsErrOf result TextFault.TooLong ↔ (TEXT_LIMIT < length a.now + length b.now) }
    {
        let length = a.as_str().len() + b.as_str().len();
        if length > TEXT_LIMIT {
            return Err(TextFault::TooLong);
        }
        let mut string = String::with_capacity(alloc, length)?;
        string.push_str(a.as_str())?;
        string.push_str(b.as_str())?;
        Ok(Text { string })
    }

    /// The bytes of `a`, `n` times: `TooLong` exactly where these are more than `TEXT_LIMIT`.
    pub fn times(alloc: Global, a: &Text, n: u32) -> Result<Text, TextFault>
        ensures ok { IfOk result (λ made. made ≡ repeat n a.now) }
        ensures too_long { IsErrOf result TextFault.TooLong ↔ (TEXT_LIMIT < n * length a.now) }
    {
        let n = n as usize;
        if n * a.as_str().len() > TEXT_LIMIT {
            return Err(TextFault::TooLong);
        }
        Ok(Text {
            string: a.as_str().repeat(alloc, n)?,
        })
    }

    /// A second text with the same bytes.
    pub fn copy(&self, alloc: Global) -> Result<Text, NoMemory>
        ensures { IfOk result (λ made. made ≡ self.now) }
    {
        Ok(Text::within(alloc, self.as_str())?)
    }

    /// The text as a `&str`.
    pub fn as_str(&self) -> &str
        ensures value { result.now ≡ self.now }
        ensures within { length self.now ≤ TEXT_LIMIT }
        ensures utf8 { IsUtf8 self.now }
    {
        self.string.as_str()
    }

    /// The bytes of the text.
    pub fn as_bytes(&self) -> &[u8]
        ensures value { result.now ≡ self.now }
        ensures within { length self.now ≤ TEXT_LIMIT }
        ensures utf8 { IsUtf8 self.now }
    {
        self.as_str().as_bytes()
    }

    /// The number of characters.
    pub fn size(&self) -> u32
        ensures characters { result ≡ length (chars self.now) }
        ensures beginnings { result ≡ count_by begins_character self.now }
    {
        self.as_str().chars().count() as u32
    }

    /// The number of bytes.
    pub fn byte_size(&self) -> u32
        ensures value { result ≡ length self.now }
        ensures within { result ≤ TEXT_LIMIT }
    {
        self.as_str().len() as u32
    }

    /// The order of the two lists of bytes: that of the first byte in which they differ, a front before the whole.
    pub fn compare(&self, other: &Text) -> Ordering
        ensures { result ≡ slice_cmp nat_cmp self.now other.now }
    {
        self.as_str().cmp(other.as_str())
    }

    /// Whether the bytes of `front` are the first bytes of this text.
    pub fn begins_with(&self, front: &Text) -> bool
        ensures { IsTrue result ↔ ((rest : List ℕ) × (self.now ≡ front.now ++ rest)) }
    {
        self.as_bytes().starts_with(front.as_bytes())
    }
}

impl PartialEq for Text {
    ghost eq = { bytes_eq };

    ghost laws = { partial_equiv_from_equiv nat_list_eq_equiv };

    fn eq(&self, other: &Text) -> bool
        ensures value { result ≡ bytes_eq self.now other.now }
        ensures exact { IsTrue result ↔ (self.now ≡ other.now) }
    {
        self.as_str() == other.as_str()
    }
}

impl Eq for Text {
    ghost laws = { nat_list_eq_equiv };
}

impl Hash for Text {
    ghost hash_input = { fed.str };

    ghost respects_eq = { Prim.search (hashing, rules) };

    fn hash<H: Hasher>(&self, state: &mut H) {
        self.as_str().hash(state);
    }
}
