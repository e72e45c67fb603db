ghost use Rattle.std.specs.Prelude.{◌≡◌};
ghost use Rattle.cr_syntax.specs.Look.{look_of};

use crate::look::TokenLook;
use crate::text::TokenText;

/// The most bytes that a source has: 1 MiB.
pub const MAX_SOURCE_BYTES: usize = 1_048_576;

/// The bytes from `first` up to, and without, `past`: byte places in the source, from 0.
#[derive(Clone, Copy, Debug, PartialEq, Eq)]
pub struct Span {
    pub first: u32,
    pub past: u32,
}

/// A token of the source, and where it stands.
#[derive(Debug, Drop)]
pub struct Token {
    pub kind: TokenKind,
    pub span: Span,
    /// Whether a separator or the start of a line or of the source stands directly before it; else it is tight.
    pub spaced: bool,
}

/// What a token is, with its name, its number or its unescaped text.
#[derive(Debug, Drop)]
pub enum TokenKind {
    /// A name of a local, a method or a field.
    Ident(TokenText),
    /// A name of a class or module.
    Constant(TokenText),
    /// The name without its `@`.
    InstanceVariable(TokenText),
    Int32(i32),
    Int64(i64),
    /// A text without insertion.
    Text(TokenText),
    /// A text from its opening quote to its first `#{`.
    TextFirst(TokenText),
    /// From the `}` of an insertion to the next `#{`.
    TextMiddle(TokenText),
    /// From the `}` of the last insertion to the closing quote.
    TextLast(TokenText),
    /// A keyword, a reserved word, an operator, the end of a line or of the source, by its look.
    Plain(TokenLook),
}

impl TokenKind {
    /// The kind without its name, number or text.
    pub fn look(&self) -> TokenLook
        ensures { result ≡ look_of self.now }
    {
        match self {
            TokenKind::Ident(_) => TokenLook::Ident,
            TokenKind::Constant(_) => TokenLook::Constant,
            TokenKind::InstanceVariable(_) => TokenLook::InstanceVariable,
            TokenKind::Int32(_) => TokenLook::Int32,
            TokenKind::Int64(_) => TokenLook::Int64,
            TokenKind::Text(_) => TokenLook::Text,
            TokenKind::TextFirst(_) => TokenLook::TextFirst,
            TokenKind::TextMiddle(_) => TokenLook::TextMiddle,
            TokenKind::TextLast(_) => TokenLook::TextLast,
            TokenKind::Plain(look) => *look,
        }
    }
}
