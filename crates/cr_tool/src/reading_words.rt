// Reading a command line.
ghost use Rattle.std.specs.Prelude.{◌≡◌, ◌≢◌, ◌↔◌, ℕ, List, codes, IfOk, IsErrOf, IsTrue, MatchOption};
ghost use Rattle.cr_tool.specs.declared.reading_words.Command.{Command as Named};
ghost use Rattle.cr_tool.specs.declared.words.Words.{Words as Said};
ghost use Rattle.cr_tool.specs.Commands.{word_of};
ghost use Rattle.cr_tool.specs.Words.{IsFileWord, IsLineOf, Says};

use crate::words::{Job, RunWords, Still, StillWords, Words, WordsFault};
use cr_value::Text;
use std::alloc::Global;

/// How many workers run a program, where the words don't say.
const DEFAULT_WORKERS: u32 = 4;

/// The most reductions and resumes of a run, where the words don't say.
const DEFAULT_BUDGET: u64 = 10_000_000;

/// What a first word names.
#[derive(Clone, Copy, Debug, PartialEq, Eq)]
pub enum Command {
    Run,
    Still(Still),
}

/// The command that a word names.
fn command_of(word: &Text) -> Option<Command>
    ensures { MatchOption result ((command : Named) → word.now ≢ word_of command) (λ command. word.now ≡ word_of command) }
{
    if word.as_str() == "run" {
        return Some(Command::Run);
    }
    if word.as_str() == "format" {
        return Some(Command::Still(Still::Format));
    }
    None
}

/// Whether a word names a file: it is not empty and does not begin with `-`.
fn is_file_word(word: &Text) -> bool
    ensures { IsTrue result ↔ IsFileWord word.now }
{
    match word.as_bytes().first() {
        None => false,
        Some(byte) => *byte != b'-',
    }
}

/// The command and the file that the words name.
fn command_and_file(words: &[Text]) -> Option<(Command, &Text)>
    ensures { MatchOption result ((command : Named) (file : List ℕ) → IsLineOf words.now (word_of command) file → ⊥)
        (λ named. IsLineOf words.now (word_of named.0) named.1.now) }
{
    match words {
        [command, file] if is_file_word(file) => Some((command_of(command)?, file)),
        _ => None,
    }
}

/// What a command with this file says.
fn said(command: Command, file: Text) -> Words
    ensures { (line : List (List ℕ)) → IsLineOf line (word_of command) file → Says line result }
{
    match command {
        Command::Run => Words::Run(RunWords {
            job: Job::File(file),
            workers: DEFAULT_WORKERS,
            budget: DEFAULT_BUDGET,
            trace: None,
        }),
        Command::Still(command) => Words::Still(StillWords {
            command,
            file,
            trace: None,
        }),
    }
}

/// What the words of a command line say: `run FILE` or `format FILE`. `Usage` exactly where they are no command line.
pub fn read_words(alloc: Global, words: &[Text]) -> Result<Words, WordsFault>
    ensures ok { IfOk result (λ said. Says words.now said) }
    ensures usage { IsErrOf result WordsFault.Usage ↔ ((said : Said) → Says words.now said → ⊥) }
{
    let Some((command, file)) = command_and_file(words) else {
        return Err(WordsFault::Usage);
    };
    let Ok(file) = file.copy(alloc) else {
        return Err(WordsFault::NoMemory);
    };
    Ok(said(command, file))
}
