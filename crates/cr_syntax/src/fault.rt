ghost use Rattle.std.specs.Prelude.{◌≡◌};
ghost use Rattle.cr_syntax.specs.declared.fault.LexFault.TheVariants as fault;

use cr_base::NoMemory;

/// Why a source has no tokens. Each fault but the last has its byte place.
#[derive(Clone, Copy, Debug, PartialEq, Eq)]
pub enum LexFault {
    /// The bytes from here on are not UTF-8.
    NotUtf8(u32),
    /// A byte that begins no token.
    BadByte(u32),
    /// A text or an insertion that the end of the source leaves open, at the opening quote of the outermost.
    OpenString(u32),
    /// A backslash that begins no escape.
    BadEscape(u32),
    /// The first byte of what is no number, or of a number outside its type.
    BadNumber(u32),
    /// Want of memory.
    NoMemory,
}

impl From<NoMemory> for LexFault {
    ghost from_gives = { λ _ e. e ≡ fault.NoMemory };

    fn from(_error: NoMemory) -> LexFault {
        LexFault::NoMemory
    }
}
