use std::alloc::AllocError;

/// Why a list of tokens is no tree. The number is the byte place of the token at which it is noticed.
#[derive(Clone, Copy, Debug, PartialEq, Eq)]
pub enum ParseFault {
    /// Nothing that is accepted begins with the tokens up to this one.
    Unexpected(u32),
    /// With this token the tree nests deeper than `MAX_NESTING`.
    TooDeep(u32),
    /// With this token the tree has more than `MAX_NODES` nodes.
    TooManyNodes(u32),
    /// Want of memory, or of stack.
    NoMemory,
}

impl From<AllocError> for ParseFault {
    ghost use Rattle.std.specs.Prelude.{◌≡◌};
    ghost use Rattle.cr_readers.specs.declared.fault.ParseFault.TheVariants.{NoMemory};

    ghost from_gives = { λ _ e. e ≡ NoMemory };

    fn from(_: AllocError) -> ParseFault {
        ParseFault::NoMemory
    }
}
