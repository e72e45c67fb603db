/// What is open at a place of the source and closed by a `}`.
#[derive(Clone, Copy, Debug, PartialEq, Eq)]
pub enum Open {
    /// A `{`.
    Brace,
    /// The `#{` of a text, whose opening quote stands at this byte.
    Insertion(u32),
}
