//! The exceptions that the language itself raises, and the line that an unhandled one writes.
ghost use Rattle.std.specs.Prelude.{◌≡◌, IfOk, string_bytes};
ghost use Rattle.cr_builtins.specs.Raises.{class_name, message, unhandled_line};

use cr_base::{FiberId, NoMemory};
use std::alloc::Global;

/// Why an operation raises.
#[derive(Clone, Copy, Debug, PartialEq, Eq)]
pub enum Raise {
    /// The result does not fit the width of the numbers.
    Overflow,
    /// The divisor is 0.
    Division,
    /// An array has no such element.
    Index,
    /// A hash has no such key.
    Key,
    /// The channel is closed.
    Closed,
    /// An argument is out of its range.
    Argument,
    /// One of the limits of a run would be passed.
    Limit,
}

impl Raise {
    /// The name of the exception's class.
    pub fn class_name(self) -> &'static str
        ensures { result.now ≡ class_name self }
    {
        match self {
            Raise::Overflow => "OverflowError",
            Raise::Division => "DivisionByZeroError",
            Raise::Index => "IndexError",
            Raise::Key => "KeyError",
            Raise::Closed => "Channel::ClosedError",
            Raise::Argument => "ArgumentError",
            Raise::Limit => "LimitError",
        }
    }

    /// The exception's message.
    pub fn message(self) -> &'static str
        ensures { result.now ≡ message self }
    {
        match self {
            Raise::Overflow => "Arithmetic overflow",
            Raise::Division => "Division by 0",
            Raise::Index => "Index out of bounds",
            Raise::Key => "Missing hash key",
            Raise::Closed => "Channel is closed",
            Raise::Argument => "Argument out of range",
            Raise::Limit => "Limit reached",
        }
    }
}

/// The line that the error output gets where an exception ends a fiber, with its newline.
pub fn unhandled(
    alloc: Global,
    fiber: FiberId,
    class_name: &str,
    message: &str,
) -> Result<String, NoMemory>
    ensures { IfOk result (λ line. string_bytes line ≡ unhandled_line fiber.0 class_name.now message.now) }
{
    let FiberId(number) = fiber;
    Ok(format!(in alloc; "Unhandled exception in fiber {number}: {class_name}: {message}\n")?)
}
