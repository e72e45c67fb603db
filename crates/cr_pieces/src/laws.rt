ghost use Rattle.cr_pieces.specs.Laws.{PiecesAreRead, TokensAreProper};

/// Where pieces fit from the start of a source on, and leave no text open, their bytes have tokens which bear them.
pub fn pieces_are_read()
    ensures { PiecesAreRead }
{}

/// The tokens of a text have names that are names, numbers within their type, and texts that are UTF-8.
pub fn tokens_are_proper()
    ensures { TokensAreProper }
{}
