//! The program of a source.

ghost use Rattle.cr_grammar.specs.declared.tree.Tree.{Tree};
ghost use Rattle.cr_source.specs.Source.{Answers, IsFault, IsOnly, IsSource, lexical, syntactic};
ghost use Rattle.cr_source.specs.declared.fault.Refusal.{Refusal};
ghost use Rattle.cr_source.specs.declared.fault.SourceFault.TheVariants as source;
ghost use Rattle.cr_syntax.specs.declared.fault.LexFault.{LexFault};
ghost use Rattle.cr_syntax.specs.declared.fault.LexFault.TheVariants as lex;
ghost use Rattle.cr_syntax.specs.declared.token.TheConstants.{MAX_SOURCE_BYTES};
ghost use Rattle.cr_syntax.specs.Faults.{lex_fault};
ghost use Rattle.std.specs.Prelude.{length, ◌≡◌, ◌≢◌, ◌≤◌};

use crate::fault::{Code, Refusal, SourceFault};
use crate::laws::{at_most_one_source, fault_of_tokens_comes, never_program_and_refusal};
use cr_decl::program;
use cr_descent::tokens_end_once;
use cr_grammar::Tree;
use cr_lex::tokens;
use cr_readers::ParseFault;
use cr_syntax::{LexFault, never_tokens_and_fault};
use std::alloc::Global;

fn refused(code: Code, at: u32) -> SourceFault
    ensures { result ≡ source.Refused (record { code = code; at = at }) }
{
    SourceFault::Refused(Refusal { code, at })
}

/// The refusal of a source that has no tokens.
fn of_tokens(fault: LexFault) -> SourceFault
    ensures { result ≡ lexical fault }
{
    match fault {
        LexFault::NotUtf8(at) => refused(Code::NotUtf8, at),
        LexFault::BadByte(at) => refused(Code::BadByte, at),
        LexFault::OpenString(at) => refused(Code::OpenString, at),
        LexFault::BadEscape(at) => refused(Code::BadEscape, at),
        LexFault::BadNumber(at) => refused(Code::BadNumber, at),
        LexFault::NoMemory => SourceFault::NoMemory,
    }
}

/// The refusal of a list of tokens that spell no program within the limits.
fn of_grammar(fault: ParseFault) -> SourceFault
    ensures { result ≡ syntactic fault }
{
    match fault {
        ParseFault::Unexpected(at) => refused(Code::Unexpected, at),
        ParseFault::TooDeep(at) => refused(Code::TooDeep, at),
        ParseFault::TooManyNodes(at) => refused(Code::TooManyNodes, at),
        ParseFault::NoMemory => SourceFault::NoMemory,
    }
}

/// The tree of the program of a source, or its refusal.
fn answered(alloc: Global, bytes: &[u8]) -> Result<Tree, SourceFault>
    requires { length bytes.now ≤ MAX_SOURCE_BYTES }
    ensures { Answers bytes.now result }
{
    tokens_end_once();
    match tokens(alloc, bytes) {
        Ok(list) => match program(alloc, list.as_slice()) {
            Ok(tree) => Ok(tree),
            Err(fault) => Err(of_grammar(fault)),
        },
        Err(fault) => Err(of_tokens(fault)),
    }
}

/// The tree of the program of a source.
///
/// # Errors
///
/// `Refused` where the source is no program: with the fault of its tokens where it has none, else with that of the grammar or of a limit.
/// `NoMemory` where memory runs out, or where more constructs stand in one another than the parser's depth.
pub fn program_of(alloc: Global, bytes: &[u8]) -> Result<Tree, SourceFault>
    requires short { length bytes.now ≤ MAX_SOURCE_BYTES }
    // What is answered is so.
    ensures answer { Answers bytes.now result }

    // A program is refused nowhere, and the fault of a source without tokens is the one that is answered.
    ensures accepted { (x : Tree) → IsSource bytes.now x → IsOnly x result }
    ensures lexical { (f : LexFault) → lex_fault bytes.now f → IsFault (lexical f) result }
{
    at_most_one_source();
    never_program_and_refusal();
    fault_of_tokens_comes();
    never_tokens_and_fault();
    answered(alloc, bytes)
}
