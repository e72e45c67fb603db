//! Laws of the definitions: a source is a program or refused, one of the two, and for the fault of its tokens where it has none.

ghost use Rattle.cr_source.specs.Laws.{AtMostOneSource, EachSourceIsAnswered, FaultOfTokensComes, NeverProgramAndRefusal};

use cr_descent::{one_tree, program_is_accepted, tokens_end_once};
use cr_steady::program_is_decided;
use cr_syntax::{at_most_one_fault, at_most_one_list, never_tokens_and_fault, tokens_or_fault};

/// A program within the limits is refused nowhere.
pub fn never_program_and_refusal()
    ensures { NeverProgramAndRefusal }
{
    at_most_one_list();
    never_tokens_and_fault();
    program_is_accepted();
}

/// A source that has no tokens is refused for the fault of its tokens, and for nothing else.
pub fn fault_of_tokens_comes()
    ensures { FaultOfTokensComes }
{
    at_most_one_fault();
    never_tokens_and_fault();
}

/// A source is a program of one tree at most.
pub fn at_most_one_source()
    ensures { AtMostOneSource }
{
    at_most_one_list();
    one_tree();
}

/// Each source is a program within the limits, or is refused: for a fault of its tokens, at its first unexpected token, or for a limit.
pub fn each_source_is_answered()
    ensures { EachSourceIsAnswered }
{
    program_is_decided();
    tokens_end_once();
    tokens_or_fault();
}
