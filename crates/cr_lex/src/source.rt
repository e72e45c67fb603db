//! The tokens of a source.
ghost use Rattle.std.specs.Prelude.{◌≡◌, ◌≢◌, ◌≤◌, ◌⊎◌, List, length, IfOk, IfErr, MatchResult};
ghost use Rattle.std.specs.Str.{IsUtf8};
ghost use Rattle.cr_syntax.specs.declared.fault.LexFault.{LexFault};
ghost use Rattle.cr_syntax.specs.declared.token.TheConstants.{MAX_SOURCE_BYTES};
ghost use Rattle.cr_syntax.specs.declared.fault.LexFault.TheVariants as fault;
ghost use Rattle.cr_syntax.specs.declared.token.Token.{Token};
ghost use Rattle.cr_syntax.specs.Lexes.{Lexes};
ghost use Rattle.cr_syntax.specs.Faults.{FrontFails, lex_fault, is_open_string as is_open};

use crate::lexer::text_tokens;
use cr_syntax::{LexFault, Token, at_most_one_fault, at_most_one_list, never_tokens_and_fault};
use std::alloc::Global;
use std::str;

fn is_open_string(fault: LexFault) -> bool
    ensures { result ≡ is_open fault }
{
    match fault {
        LexFault::OpenString(_) => true,
        _ => false,
    }
}

/// The fault of a source whose longest front of text this is.
fn front_fault(alloc: Global, front: &[u8]) -> LexFault
    requires size { length front.now ≤ MAX_SOURCE_BYTES }
    requires utf8 { IsUtf8 front.now }
    ensures { result ≢ fault.NoMemory → FrontFails front.now result }
{
    let past = front.len() as u32;
    let fault = match text_tokens(alloc, front) {
        Ok(_) => return LexFault::NotUtf8(past),
        Err(fault) => fault,
    };
    if is_open_string(fault) {
        return LexFault::NotUtf8(past);
    }
    fault
}

fn read(alloc: Global, bytes: &[u8]) -> Result<Vec<Token>, LexFault>
    requires { length bytes.now ≤ MAX_SOURCE_BYTES }
    ensures ok { IfOk result (λ tokens. Lexes bytes.now tokens.items) }
    ensures err { IfErr result (λ f. f ≢ fault.NoMemory → lex_fault bytes.now f) }
{
    match str::from_utf8(bytes) {
        Ok(_) => text_tokens(alloc, bytes),
        Err(error) => Err(front_fault(alloc, &bytes[..error.valid_up_to()])),
    }
}

/// The tokens of a source of at most 1 MiB, the last of them End.
///
/// An `Err` is the source's first fault, with its byte place, or want of memory.
pub fn tokens(alloc: Global, bytes: &[u8]) -> Result<Vec<Token>, LexFault>
    requires { length bytes.now ≤ MAX_SOURCE_BYTES }
    // What is answered is so.
    ensures ok { IfOk result (λ tokens. Lexes bytes.now tokens.items) }
    ensures err { IfErr result (λ f. f ≢ fault.NoMemory → lex_fault bytes.now f) }

    // What is so is answered, unless memory runs out.
    ensures accepted { (ts : List Token) → Lexes bytes.now ts → MatchResult result (λ tokens. tokens.items ≡ ts) (λ f. f ≡ fault.NoMemory) }
    ensures refused { (f : LexFault) → lex_fault bytes.now f → MatchResult result (λ _. ⊥) (λ g. (g ≡ f) ⊎ (g ≡ fault.NoMemory)) }
{
    at_most_one_list();
    at_most_one_fault();
    never_tokens_and_fault();
    read(alloc, bytes)
}
