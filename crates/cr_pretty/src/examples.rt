// Trees with their text: one or more for each rule of the layout.
ghost use Rattle.cr_pretty.specs.Examples.{OperandEnclosed, ReceiverEnclosed, ArgumentEnclosed, GivenEnclosed, LoopGiven, DigitEnclosed, SignStands, TwiceNot, EmptyProgram, EmptyElseKept, ElsifAtItsHead, BelowTheStatement, BlockWritten, CaseWritten, SelectWritten, TextsWritten, HashWritten, NewWritten, EmptyArguments, ClassWritten};

/// An operation or an assignment stands in parentheses as an operand, and only the assignment as an argument.
pub fn operands_stand_in_parentheses()
    ensures operand { OperandEnclosed }
    ensures receiver { ReceiverEnclosed }
    ensures argument { ArgumentEnclosed }
    ensures twice { TwiceNot }
{}

/// What `return` or `next` gives stands in parentheses where it is an `if`, and not where it is a loop.
pub fn gifts_stand_in_parentheses()
    ensures conditional { GivenEnclosed }
    ensures looping { LoopGiven }
{}

/// Behind a `-` stand parentheses where a digit would follow, and none where a number has its own sign.
pub fn signs_stand_in_parentheses()
    ensures digit { DigitEnclosed }
    ensures sign { SignStands }
{}

/// Statements stand one level below the statement that holds them, and an empty `else` is kept.
pub fn lines_stand_below_their_statement()
    ensures nothing { EmptyProgram }
    ensures otherwise { EmptyElseKept }
    ensures elsif { ElsifAtItsHead }
    ensures inner { BelowTheStatement }
{}

/// A block is written with `do` and `end`; `in` and `when` stand at the level of their head.
pub fn blocks_and_clauses_are_indented()
    ensures block { BlockWritten }
    ensures case { CaseWritten }
    ensures select { SelectWritten }
{}

/// Texts with their escapes, literals with their types, and calls with and without arguments.
pub fn literals_and_calls_are_laid_out()
    ensures texts { TextsWritten }
    ensures hash { HashWritten }
    ensures new { NewWritten }
    ensures empty { EmptyArguments }
{}

/// A class with its parameters, its superclass and its members.
pub fn classes_are_laid_out()
    ensures { ClassWritten }
{}
