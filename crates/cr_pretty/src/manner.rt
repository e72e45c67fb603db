/// How the constructs of a list are put.
#[derive(Clone, Copy)]
pub(crate) enum Manner {
    /// Arguments or elements, with commas between them.
    Arguments,
    /// As they are, with commas between them.
    Listed,
    /// The atoms of a type, with `|` between them.
    Atoms,
    /// The names of a path, with `::` between them.
    Path,
}
