//! The numbers of the built-in classes.
ghost use Rattle.std.specs.Prelude.{◌≡◌};
ghost use Rattle.cr_tables.specs.Numbers as spec;
ghost use Rattle.cr_tables.specs.World as world;

use cr_base::ClassId;
use cr_prelude::BuiltinClass;
use cr_value::Value;

/// The number of a built-in class. Takes no memory.
pub fn number_of(class: BuiltinClass) -> ClassId
    ensures { result ≡ spec.class class }
{
    ClassId(match class {
        BuiltinClass::Object => 0,
        BuiltinClass::Nil => 1,
        BuiltinClass::Bool => 2,
        BuiltinClass::Int32 => 3,
        BuiltinClass::Int64 => 4,
        BuiltinClass::String => 5,
        BuiltinClass::Array => 6,
        BuiltinClass::Hash => 7,
        BuiltinClass::Channel => 8,
        BuiltinClass::Concurrent => 9,
        BuiltinClass::Parallel => 10,
        BuiltinClass::Isolated => 11,
    })
}

/// The class of a value that is no reference; of a reference only its cell tells it. Takes no memory.
pub fn class_of(value: &Value) -> ClassId
    ensures { result ≡ world.class_of value.now }
{
    number_of(match value {
        Value::Nil => BuiltinClass::Nil,
        Value::Flag(_) => BuiltinClass::Bool,
        Value::Small(_) => BuiltinClass::Int32,
        Value::Big(_) => BuiltinClass::Int64,
        Value::Word(_) => BuiltinClass::String,
        Value::Ref(_) => BuiltinClass::Object,
    })
}
