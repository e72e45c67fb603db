//! The program: the words of its command line, its files and its streams, handed to `tool`. These few lines are trusted.
#![tactic(auto)]

use cr_io::{OpenGate, StdSink, StdSource};
use cr_tool::{Job, Words, read_words, tool};
use cr_value::{Text, TextFault};
use std::alloc::{AllocError, Global};
use std::env;
use std::fs::{self, File};
use std::io::ErrorKind;
use std::process::ExitCode;
use std::rt::{Env, Files};

/// The status of a program that finds no memory itself.
const NO_MEMORY: u8 = 8;

/// The words behind the program's name. None where one of them is no text, which is no command line; one that is too
/// long for a text is handed on as the empty text, which is none either.
fn words<R: Env + Alloc<A = Global>>(rt: &R) -> Result<Vec<Text>, AllocError> {
    let mut words = Vec::new(rt.alloc());
    let arguments = match env::args(rt) {
        Ok(arguments) => arguments,
        Err(error) if error.kind() == ErrorKind::OutOfMemory => return Err(AllocError),
        Err(_) => return Ok(words),
    };
    for argument in arguments.skip(1) {
        let word = match Text::of(rt.alloc(), argument.as_str()) {
            Err(TextFault::TooLong) => Text::of(rt.alloc(), ""),
            word => word,
        };
        match word {
            Ok(word) => words.push(word)?,
            Err(_) => return Err(AllocError),
        }
    }
    Ok(words)
}

/// The file that the words name, if they name one that can be opened.
fn file<R: Files<File = File> + Alloc<A = Global>>(rt: &R, words: &[Text]) -> Option<File> {
    match read_words(rt.alloc(), words) {
        Ok(Words::Run(run)) => {
            let Job::File(name) = &run.job;
            fs::open(rt, name.as_str()).ok()
        }
        Ok(Words::Still(still)) => fs::open(rt, still.file.as_str()).ok(),
        Err(_) => None,
    }
}

fn main(rt: HostRuntime) -> ExitCode {
    let Ok(words) = words(&rt) else {
        return ExitCode::from(NO_MEMORY);
    };
    let mut source = StdSource::new(file(&rt, &words));
    let mut old_trace = StdSource::<File>::new(None);
    let mut new_trace = StdSink::<File>::new(None);
    let out = StdSink::new(Some(rt.stdout()));
    let err = StdSink::new(Some(rt.stderr()));
    let ran = tool(
        &rt,
        rt.alloc(),
        &words,
        &mut source,
        &mut old_trace,
        out,
        err,
        &mut new_trace,
        &OpenGate,
    );
    ExitCode::from(ran.report.status)
}
