// What a command line says.
use cr_value::Text;

/// What is to be run.
#[derive(Debug, Drop)]
pub enum Job {
    /// The program in this file.
    File(Text),
}

/// What a `run` command says.
#[derive(Debug, Drop)]
pub struct RunWords {
    pub job: Job,
    /// How many workers run it, 1 to 64.
    pub workers: u32,
    /// The most reductions and resumes of the run, 1 to 50,000,000.
    pub budget: u64,
    /// The file that the new trace goes to.
    pub trace: Option<Text>,
}

/// A command that runs nothing.
#[derive(Clone, Copy, Debug, PartialEq, Eq)]
pub enum Still {
    /// `format`: the layout of the program.
    Format,
}

/// What a still command says.
#[derive(Debug, Drop)]
pub struct StillWords {
    pub command: Still,
    /// The file of the program.
    pub file: Text,
    /// The file of a trace, where the command takes one.
    pub trace: Option<Text>,
}

/// What a command line says.
#[derive(Debug, Drop)]
pub enum Words {
    Run(RunWords),
    Still(StillWords),
}

/// Why the words are not read.
#[derive(Clone, Copy, Debug, PartialEq, Eq)]
pub enum WordsFault {
    /// They are no command line.
    Usage,
    /// Want of memory.
    NoMemory,
}
