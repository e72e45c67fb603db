// The evaluation of a list of sums.
ghost use Rattle.std.specs.Prelude.{◌≡◌, ◌≢◌, ◌≤◌, ◌<◌, ◌+◌, ◌*◌, ◌^◌, List, ℕ, pos, length, IfOk, OnOk, OnErr, IsErrOf};
ghost use Rattle.std.specs.List.{AllByRecursion};
ghost use Rattle.cr_io.specs.Faults.{Rose};
ghost use Rattle.cr_io.specs.Sink.{Appends, AppendsFront};
ghost use Rattle.cr_tool.specs.Sums.{IsSum, HasForm, most_lines};
ghost use Rattle.cr_tool.specs.Program.{sums_of};
ghost use Rattle.cr_tool.specs.Writing.{total_of, output_line, turns, turns_at};
ghost use Rattle.cr_tool.specs.Evaluated.{HasWritten};

use crate::sums::{Line, Sum};
use cr_base::NoMemory;
use cr_io::{Failed, Sink, put_all};
use cr_value::{Value, Width, add, show};
use std::alloc::Global;

/// Why an evaluation stopped before its end.
#[derive(Clone, Copy, Debug, PartialEq, Eq)]
pub enum Stop {
    /// Want of memory.
    NoMemory,
    /// The output failed.
    Failed,
}

impl From<NoMemory> for Stop {
    ghost use Rattle.std.specs.Prelude.{◌≡◌};
    ghost use Rattle.cr_tool.specs.declared.evaluation.Stop.TheVariants as stop;

    ghost from_gives = { λ _ e. e ≡ stop.NoMemory };

    fn from(_: NoMemory) -> Self {
        Stop::NoMemory
    }
}

impl From<Failed> for Stop {
    ghost use Rattle.std.specs.Prelude.{◌≡◌};
    ghost use Rattle.cr_tool.specs.declared.evaluation.Stop.TheVariants as stop;

    ghost from_gives = { λ _ e. e ≡ stop.Failed };

    fn from(_: Failed) -> Self {
        Stop::Failed
    }
}

/// The value of a sum.
fn total(sum: Sum) -> i32
    requires { IsSum sum }
    ensures { result ≡ pos (total_of sum.first sum.second) }
{
    let first = i64::from(sum.first);
    let second = i64::from(sum.second.unwrap_or(0));
    match add(Width::Small, first, second) {
        Some(total) => total as i32,
        None => unreachable!(),
    }
}

/// The line that a sum writes.
fn line_of(alloc: Global, sum: Sum) -> Result<Vec<u8>, NoMemory>
    requires { IsSum sum }
    ensures { IfOk result (λ line. line.items ≡ output_line sum) }
{
    let text = show(alloc, &Value::Small(total(sum)))?;
    let mut line = text.as_bytes().to_vec(alloc)?;
    line.push(b'\n')?;
    Ok(line)
}

/// Writes the line of a sum.
fn puts<K: Sink>(alloc: Global, sum: Sum, out: &mut K) -> Result<(), Stop>
    requires form { IsSum sum }
    requires fits { (sink : K) (text : List ℕ) → K.fits sink text }
    ensures ok { OnOk result (Appends (K.written out.old) (output_line sum) (K.written out.new)) }
    ensures no_memory { IsErrOf result Stop.NoMemory → out.new ≡ out.old }
    ensures failed { IsErrOf result Stop.Failed → AppendsFront (K.written out.old) (output_line sum) (K.written out.new) }
    ensures fault { IsErrOf result Stop.Failed → Rose (K.faults out.old) (K.faults out.new) }
    ensures steady { OnOk result (K.faults out.new ≡ K.faults out.old) }
{
    let line = line_of(alloc, sum)?;
    put_all(out, &line)?;
    Ok(())
}

/// How many reductions the statement of a sum takes, and one to go on to the next.
fn turns_of(sum: Sum) -> u32
    ensures { result ≡ turns sum }
{
    match sum.second {
        None => 2,
        Some(_) => 3,
    }
}

/// How far an evaluation came.
#[derive(Clone, Copy, Debug, PartialEq, Eq)]
pub struct Evaluated {
    /// The reductions of the statements that were evaluated, and one for each to go on to the next.
    pub turns: u32,
    /// Why it stopped; None at the end.
    pub stop: Option<Stop>,
}

/// An evaluation that stops at this sum, after these turns. The line of a sum that failed was written in part, so its
/// reductions count.
fn stopped(turns: u32, sum: Sum, stop: Stop) -> Evaluated
    requires { turns < 2 ^ 31 }
    ensures stop { result.stop ≡ Some stop }
    ensures turns { result.turns ≡ turns + turns_at stop sum }
{
    let turns = match stop {
        Stop::NoMemory => turns,
        Stop::Failed => turns + turns_of(sum),
    };
    Evaluated {
        turns,
        stop: Some(stop),
    }
}

/// Evaluates the lines from the first on.
pub fn evaluate<K: Sink>(alloc: Global, lines: &[Line], out: &mut K) -> Evaluated
    requires form { AllByRecursion HasForm lines.now }
    requires few { length lines.now ≤ most_lines }
    requires fits { (sink : K) (text : List ℕ) → K.fits sink text }
    ensures written { HasWritten (sums_of lines.now) (K.written out.old) (K.written out.new) result }
    ensures fault { result.stop ≡ Some Stop.Failed → Rose (K.faults out.old) (K.faults out.new) }
    ensures steady { result.stop ≢ Some Stop.Failed → K.faults out.new ≡ K.faults out.old }
    ensures bound { result.turns ≤ 3 * most_lines }
{
    let mut turns = 0;
    for line in lines {
        let Line::Puts(sum) = line else { continue };
        if let Err(stop) = puts(alloc, *sum, out) {
            return stopped(turns, *sum, stop);
        }
        turns += turns_of(*sum);
    }
    Evaluated { turns, stop: None }
}
