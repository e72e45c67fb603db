//! Why a source is no program.

/// What a source breaks: first come those of its tokens, then those of its grammar.
#[derive(Clone, Copy, Debug, PartialEq, Eq)]
pub enum Code {
    /// `L1`: the bytes are no UTF-8 from the place on.
    NotUtf8,
    /// `L2`: a byte that begins no token.
    BadByte,
    /// `L3`: a text or an insertion that is never closed.
    OpenString,
    /// `L4`: a backslash that begins no escape.
    BadEscape,
    /// `L5`: what is no number, or one outside its type.
    BadNumber,
    /// `P1`: the first token with which no program begins.
    Unexpected,
    /// `P2`: with this token the program nests too deep.
    TooDeep,
    /// `P3`: with this token the program has too many nodes.
    TooManyNodes,
}

/// A refusal of a source, with its byte place, from 0.
#[derive(Clone, Copy, Debug, PartialEq, Eq)]
pub struct Refusal {
    pub code: Code,
    pub at: u32,
}

/// Why a source has no tree.
#[derive(Clone, Copy, Debug, PartialEq, Eq)]
pub enum SourceFault {
    /// It is no program.
    Refused(Refusal),
    /// Want of memory, or of stack.
    NoMemory,
}
