ghost use Rattle.cr_syntax.specs.Spellings.{KeywordsAreSpelled, OperatorsAreSpelled};
ghost use Rattle.cr_syntax.specs.Laws.{AtMostOneList, AtMostOneFault, NeverBoth, AlwaysOne};

/// A source has at most one list of tokens.
pub fn at_most_one_list()
    ensures { AtMostOneList }
{}

/// A source has at most one fault.
pub fn at_most_one_fault()
    ensures { AtMostOneFault }
{}

/// No source has both.
pub fn never_tokens_and_fault()
    ensures { NeverBoth }
{}

/// Each source has a list of tokens or a fault.
pub fn tokens_or_fault()
    ensures { AlwaysOne }
{}

/// Each keyword and each reserved word has its spelling, and there are no others.
pub fn keywords_are_spelled()
    ensures { KeywordsAreSpelled }
{}

/// Each operator and each end of a line has its spelling, and there are no others.
pub fn operators_are_spelled()
    ensures { OperatorsAreSpelled }
{}
