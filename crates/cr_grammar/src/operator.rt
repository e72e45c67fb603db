/// An operator between two operands.
#[derive(Clone, Copy, Debug, PartialEq, Eq)]
pub enum Binary {
    /// `||`
    Or,
    /// `&&`
    And,
    /// `==`
    Equal,
    /// `!=`
    NotEqual,
    /// `<`
    Less,
    /// `<=`
    LessEqual,
    /// `>`
    Greater,
    /// `>=`
    GreaterEqual,
    /// `<<`
    ShiftLeft,
    /// `+`
    Plus,
    /// `-`
    Minus,
    /// `&+`
    WrappingPlus,
    /// `&-`
    WrappingMinus,
    /// `*`
    Star,
    /// `//`
    SlashSlash,
    /// `%`
    Percent,
    /// `&*`
    WrappingStar,
}

/// An operator before its operand.
#[derive(Clone, Copy, Debug, PartialEq, Eq)]
pub enum Unary {
    /// `!`
    Not,
    /// `-`
    Negate,
}

/// How a target is assigned.
#[derive(Clone, Copy, Debug, PartialEq, Eq)]
pub enum Assignment {
    /// `=`
    Plain,
    /// `+=`
    Plus,
    /// `-=`
    Minus,
    /// `*=`
    Star,
    /// `//=`
    SlashSlash,
    /// `%=`
    Percent,
    /// `||=`
    Or,
}
