//! Which constructs stand in parentheses.
ghost use Rattle.std.specs.Prelude.{◌≡◌};
ghost use Rattle.cr_pretty.specs.Layout.{laid, shape_of, operand_encloses, argument_encloses, given_encloses};

use cr_grammar::Tree;

/// Whether it does as an operand or a receiver.
pub(crate) fn is_enclosed_operand(tree: &Tree) -> bool
    ensures { result ≡ operand_encloses (shape_of (laid tree.now)) }
{
    match tree {
        Tree::Binary { .. } | Tree::Unary { .. } => true,
        Tree::If { .. } | Tree::While { .. } | Tree::Case { .. } | Tree::Select { .. } => true,
        Tree::Assign { .. } | Tree::Return { .. } | Tree::Next { .. } | Tree::Break { .. } => true,
        _ => false,
    }
}

/// Whether it does as an argument.
pub(crate) fn is_enclosed_argument(tree: &Tree) -> bool
    ensures { result ≡ argument_encloses (shape_of (laid tree.now)) }
{
    match tree {
        Tree::Assign { .. } | Tree::Return { .. } | Tree::Next { .. } | Tree::Break { .. } => true,
        _ => false,
    }
}

/// Whether it does where `return` or `next` gives it.
pub(crate) fn is_enclosed_gift(tree: &Tree) -> bool
    ensures { result ≡ given_encloses (shape_of (laid tree.now)) }
{
    match tree {
        Tree::If { .. } => true,
        Tree::Assign { .. } | Tree::Return { .. } | Tree::Next { .. } | Tree::Break { .. } => true,
        _ => false,
    }
}
