ghost use Rattle.cr_descent.specs.Programs.{AtMostOneUnexpected, DepthIsEnough, ProgramIsAccepted, ProgramIsAnswered, TokensEndOnce};
ghost use Rattle.cr_descent.specs.Bodies.{BodyDepthIsEnough, BodyIsAnswered};
ghost use Rattle.cr_descent.specs.Answers.{ReadersAnswer};
ghost use Rattle.cr_descent.specs.LimitLaws.{BeginsLimited, FoundIsCounted, ReadersCount, TooDeepHasNoWay, TooManyHasNoWay, WithinIsFound, WithinIsFoundWhole};

/// Each reader counts the nodes and the nesting of its construct. The laws below follow from this one.
pub fn each_reader_counts()
    ensures { ReadersCount }
{}

/// A new cursor is within the limits, for each construct. The laws below speak of such states, and of a construct that is a tree of
/// its own nothing need be known of what was read before.
pub fn new_cursor_is_limited()
    ensures { BeginsLimited }
{}

/// What a reader finds within the limits has the nodes that it counts, and nests as deep as it counts.
pub fn found_is_counted()
    ensures { FoundIsCounted }
{}

/// What is refused as too deep has no way to go on within `MAX_NESTING` levels: the tokens up to the place begin a spelled list, and
/// whatever is spelled by them, alone or with any others behind, nests deeper; where the last of them is a `-`, with such others as are
/// as tight as what comes.
pub fn too_deep_has_no_way()
    ensures { TooDeepHasNoWay }
{}

/// What is refused for its nodes has no way to go on within `MAX_NODES` of them, in the same sense.
pub fn too_many_has_no_way()
    ensures { TooManyHasNoWay }
{}

/// What is spelled within the limits, and stands where the next token is none by which the construct goes on, is found, or memory
/// fails; and that it does only where depth or turns are not enough.
pub fn within_is_found()
    ensures { WithinIsFound }
{}

/// All of a list that is spelled within the limits is found, where depth and turns are enough.
pub fn within_is_found_whole()
    ensures { WithinIsFoundWhole }
{}

/// Whatever comes out as the reader of a construct does answers in the words of the grammar: with what the longest front spells,
/// or why there is none.
pub fn readers_answer()
    ensures { ReadersAnswer }
{}

/// Whatever comes out as the reader of a program does, of a list that ends once, answers with the one tree of the whole list, or
/// why there is none.
pub fn program_is_answered()
    ensures { ProgramIsAnswered }
{}

/// What answers so of a program within the limits is its tree, or want of memory: it is refused nowhere.
pub fn program_is_accepted()
    ensures { ProgramIsAccepted }
{}

/// A list has at most one first token with which nothing that is spelled begins.
pub fn one_token_is_unexpected()
    ensures { AtMostOneUnexpected }
{}

/// The last token of a source is End, and no other: so of whatever a lexer gives the laws of programs hold.
pub fn tokens_end_once()
    ensures { TokensEndOnce }
{}

/// A program that is spelled within the limits is found, with so many constructs in one another as spell it, and more turns than it
/// has tokens.
pub fn depth_is_enough()
    ensures { DepthIsEnough }
{}

/// Whatever comes out as the reader of a method's body does, of a list that ends once, answers with the one tree of its statements, or
/// why there is none.
pub fn body_is_answered()
    ensures { BodyIsAnswered }
{}

/// A body that is spelled within the limits is found, with at least so many constructs in one another as spell its statements, and
/// more turns than it has tokens.
pub fn body_depth_is_enough()
    ensures { BodyDepthIsEnough }
{}
