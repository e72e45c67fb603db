//! No reader runs out of turns or depth that has enough for its tokens: so each list of tokens that ends once has an answer.
#![tactic(auto)]

ghost use Rattle.cr_steady.specs.Laws.{ProgramIsDecided, ReadersDecide};

use cr_descent::program_is_answered;

/// Whatever tokens are left, a reader finds its construct or refuses them for what they are, where it has more turns than there are
/// tokens, and two more levels at least.
pub fn readers_decide()
    ensures { ReadersDecide }
{}

/// Each list of tokens that ends once is a program within the limits, or is refused: at its first unexpected token, or for a limit.
pub fn program_is_decided()
    ensures { ProgramIsDecided }
{
    program_is_answered();
}
