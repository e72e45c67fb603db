//! Names and unescaped texts. A short one lies in the value itself, so that few names take memory of their own.
ghost use Rattle.std.specs.Prelude.{◌≡◌, ◌≤◌, length, take, IfOk};
ghost use Rattle.std.specs.Str.{IsUtf8};
ghost use Rattle.cr_syntax.specs.Kept.{IsShort};

use cr_base::NoMemory;
use sqlite_items::Boxed;
use std::alloc::Global;
use std::marker::Model;
use std::str;

/// The most bytes that lie in the value itself.
const SHORT_BYTES: usize = 22;

/// A text of few bytes: the first so many of these.
#[derive(Clone, Copy, Debug)]
pub struct Short {
    len: u8,
    bytes: [u8; SHORT_BYTES],
}

impl Short {
    fn of(bytes: &[u8]) -> Self
        requires { length bytes.now ≤ 22 }
        ensures len { result.len ≡ length bytes.now }
        ensures bytes { take result.len result.bytes ≡ bytes.now }
    {
        let mut kept = [0; SHORT_BYTES];
        kept[..bytes.len()].copy_from_slice(bytes);
        Short {
            len: bytes.len() as u8,
            bytes: kept,
        }
    }

    fn as_str(&self) -> &str
        requires { IsShort self.now }
        ensures { result.now ≡ take self.now.len self.now.bytes }
    {
        match str::from_utf8(&self.bytes[..self.len as usize]) {
            Ok(text) => text,
            Err(_) => unreachable!(),
        }
    }
}

/// Where the bytes of a text lie.
#[derive(Debug, Drop)]
pub enum Kept {
    Here(Short),
    Apart(Boxed<String>),
}

/// A name or an unescaped text that a token holds, seen as its bytes, which are UTF-8.
#[derive(Debug, Drop)]
pub struct TokenText {
    kept: Kept,
}

impl Model for TokenText {
    ghost use Rattle.std.specs.Prelude.{List, ℕ};
    ghost use Rattle.cr_syntax.specs.Kept.{bytes_of, IsKept};

    ghost Value = { List ℕ };

    ghost view = { λ t. bytes_of t.kept };

    ghost invariant = { λ t. IsKept t.kept };
}

impl TokenText {
    /// A copy of the bytes. Up to 22 of them take no memory.
    pub fn of_bytes(alloc: Global, bytes: &[u8]) -> Result<Self, NoMemory>
        requires { IsUtf8 bytes.now }
        ensures { IfOk result (λ t. t ≡ bytes.now) }
    {
        if bytes.len() <= SHORT_BYTES {
            let kept = Kept::Here(Short::of(bytes));
            return Ok(TokenText { kept });
        }
        match String::from_utf8(Vec::from_slice(alloc, bytes)?) {
            Ok(text) => {
                let kept = Kept::Apart(Boxed::new(alloc, text)?);
                Ok(TokenText { kept })
            }
            Err(_) => unreachable!(),
        }
    }

    /// A copy of the text. Up to 22 bytes take no memory.
    pub fn of(alloc: Global, text: &str) -> Result<Self, NoMemory>
        ensures { IfOk result (λ t. t ≡ text.now) }
    {
        TokenText::of_bytes(alloc, text.as_bytes())
    }

    /// A copy. Up to 22 bytes take no memory.
    pub fn copied(&self, alloc: Global) -> Result<Self, NoMemory>
        ensures { IfOk result (λ t. t ≡ self.now) }
    {
        match &self.kept {
            Kept::Here(short) => Ok(TokenText {
                kept: Kept::Here(*short),
            }),
            Kept::Apart(text) => TokenText::of(alloc, text.get().as_str()),
        }
    }

    /// The bytes of the text.
    pub fn as_bytes(&self) -> &[u8]
        ensures { result.now ≡ self.now }
    {
        match &self.kept {
            Kept::Here(short) => &short.bytes[..short.len as usize],
            Kept::Apart(text) => text.get().as_bytes(),
        }
    }

    /// The text.
    pub fn as_str(&self) -> &str
        ensures { result.now ≡ self.now }
    {
        match &self.kept {
            Kept::Here(short) => short.as_str(),
            Kept::Apart(text) => text.get().as_str(),
        }
    }
}
