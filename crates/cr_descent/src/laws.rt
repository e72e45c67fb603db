ghost use Rattle.cr_descent.specs.Laws.{AtMostOneTree, FaultsAreFirst, FoundIsLongest, ReadersAreExact, SpelledIsFound};

/// Each reader is exact for its construct. The other laws follow from this one.
pub fn each_reader_is_exact()
    ensures { ReadersAreExact }
{}

/// One list of tokens spells at most one tree, whatever construct is wanted.
pub fn one_tree()
    ensures { AtMostOneTree }
{}

/// A reader refuses at the first token with which the tokens so far begin no spelled list, and only where those tokens are
/// themselves none. Of statements the latter is not said before a spaced `yield`, `super`, `self` or instance variable, and before
/// a token that lacks the name, number or text that its look tells of.
pub fn first_unexpected()
    ensures { FaultsAreFirst }
{}

/// What a reader finds is spelled by the tokens that it read, no longer front of the tokens that were left spells anything, and with
/// the next token those that it read begin nothing that is spelled.
pub fn longest_front()
    ensures { FoundIsLongest }
{}

/// A spelled list is found whole, with depth and turns enough, where nesting and nodes have no limit.
pub fn spelled_is_found()
    ensures { SpelledIsFound }
{}
