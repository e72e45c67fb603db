// Laws of the definitions: words say one thing, a source is one list of sums or refused at one place, and what is refused is refused
// for its first fault.
ghost use Rattle.std.specs.Prelude.{◌≡◌, ◌⊎◌, ℕ, List};
ghost use Rattle.cr_tool.specs.declared.sums.Line.{Line};
ghost use Rattle.cr_tool.specs.declared.words.Words.{Words as Said};
ghost use Rattle.cr_tool.specs.Refusals.{RefusalsAreExact};
ghost use Rattle.cr_tool.specs.Sums.{Spells, IsUnbuilt};
ghost use Rattle.cr_tool.specs.Words.{Says};

use cr_source::{each_source_is_answered, fault_of_tokens_comes, never_program_and_refusal};
use cr_syntax::never_tokens_and_fault;

/// The words of a command line say one thing at most.
pub fn one_saying()
    ensures { (line : List (List ℕ)) (a b : Said) → Says line a → Says line b → a ≡ b }
{}

/// A source is one list of sums at most.
pub fn one_program()
    ensures { (source : List ℕ) (xs ys : List Line) → Spells source xs → Spells source ys → xs ≡ ys }
{}

/// A source that is no list of sums has one place at which it is refused.
pub fn one_refusal()
    ensures { (source : List ℕ) (p q : ℕ) → IsUnbuilt source p → IsUnbuilt source q → p ≡ q }
{}

/// Each source is a list of sums, or is refused at a place, and not both.
pub fn program_or_refusal()
    ensures either { (source : List ℕ) → ((lines : List Line) × Spells source lines) ⊎ ((place : ℕ) × IsUnbuilt source place) }
    ensures never_both { (source : List ℕ) (lines : List Line) (place : ℕ) → Spells source lines → IsUnbuilt source place → ⊥ }
{}

/// Whatever a command asks, each source is taken or refused, and not both; what has a
/// fault of tokens is refused for that, and a program for what it lacks.
pub fn refusals_are_exact()
    ensures { RefusalsAreExact }
{
    each_source_is_answered();
    fault_of_tokens_comes();
    never_program_and_refusal();
    never_tokens_and_fault();
}
