use crate::tree::Tree;
use cr_syntax::TokenText;
use sqlite_items::Items;

/// What a token holds, and its place.
#[derive(Drop)]
pub struct Word {
    pub at: u32,
    pub text: TokenText,
}

/// The names of a path, and its place.
#[derive(Drop)]
pub struct Path {
    pub at: u32,
    pub names: Items<TokenText>,
}

/// An atom, and the place of the `?` behind it.
#[derive(Drop)]
pub struct Atom {
    pub path: Path,
    pub arguments: Items<Tree>,
    pub question: Option<u32>,
}
