ghost use Rattle.std.specs.Prelude.{◌≡◌, IfOk, IsSome};
ghost use Rattle.std.specs.Fmt.{signed_decimal};
ghost use Rattle.cr_value.specs.Showing.{shown};

use crate::text::Text;
use crate::value::Value;
use cr_base::NoMemory;
use std::alloc::{AllocError, Global};

/// The text that `puts` writes of a value that is no reference: the empty text for nil, decimal digits for a number.
pub fn show(alloc: Global, v: &Value) -> Result<Text, NoMemory>
    requires { IsSome (shown v.now) }
    ensures { IfOk result (λ text. shown v.now ≡ Some text) }
{
    Ok(match v {
        Value::Nil => Text::within(alloc, "")?,
        Value::Flag(true) => Text::within(alloc, "true")?,
        Value::Flag(false) => Text::within(alloc, "false")?,
        Value::Small(number) => decimal(alloc, i64::from(*number))?,
        Value::Big(number) => decimal(alloc, *number)?,
        Value::Word(text) => text.copy(alloc)?,
        Value::Ref(_) => unreachable!(),
    })
}

// The decimal digits of a number, with a minus sign before those of a negative one.
fn decimal(alloc: Global, number: i64) -> Result<Text, AllocError>
    ensures { IfOk result (λ text. text ≡ signed_decimal number) }
{
    let digits = number.to_string(alloc)?;
    Text::within(alloc, digits.as_str())
}
