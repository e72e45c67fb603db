//! Which operation each line of the table of built-in methods is.
ghost use Rattle.std.specs.Prelude.{◌≡◌, ◌<◌, length, map, slice_get, Some};
ghost use Rattle.cr_prelude.specs.Builtins.{lines};
ghost use Rattle.cr_builtins.specs.Operations.{line_of_operation};

use crate::operation::{
    ArrayOperation, ChannelOperation, Comparison, ContextOperation, HashOperation, NumberOperation,
    Operation, PlainOperation, Reckoning, ReferenceClass, ScalarOperation, TextOperation,
};
use cr_base::BuiltinId;

/// The operations, in the order of the table of built-in methods.
pub const OPERATIONS: [Operation; 93] = [
    Operation::Scalar(ScalarOperation::Same(ReferenceClass::Object)),
    Operation::Scalar(ScalarOperation::Nil(PlainOperation::Equal)),
    Operation::Scalar(ScalarOperation::Nil(PlainOperation::ToText)),
    Operation::Scalar(ScalarOperation::Bool(PlainOperation::Equal)),
    Operation::Scalar(ScalarOperation::Bool(PlainOperation::ToText)),
    Operation::Scalar(ScalarOperation::Int32(NumberOperation::Reckon(Reckoning::Add))),
    Operation::Scalar(ScalarOperation::Int32(NumberOperation::Reckon(Reckoning::Subtract))),
    Operation::Scalar(ScalarOperation::Int32(NumberOperation::Reckon(Reckoning::Multiply))),
    Operation::Scalar(ScalarOperation::Int32(NumberOperation::Reckon(Reckoning::Divide))),
    Operation::Scalar(ScalarOperation::Int32(NumberOperation::Reckon(Reckoning::Remainder))),
    Operation::Scalar(ScalarOperation::Int32(NumberOperation::Reckon(Reckoning::WrapAdd))),
    Operation::Scalar(ScalarOperation::Int32(NumberOperation::Reckon(Reckoning::WrapSubtract))),
    Operation::Scalar(ScalarOperation::Int32(NumberOperation::Reckon(Reckoning::WrapMultiply))),
    Operation::Scalar(ScalarOperation::Int32(NumberOperation::Compare(Comparison::Less))),
    Operation::Scalar(ScalarOperation::Int32(NumberOperation::Compare(Comparison::LessEqual))),
    Operation::Scalar(ScalarOperation::Int32(NumberOperation::Compare(Comparison::Greater))),
    Operation::Scalar(ScalarOperation::Int32(NumberOperation::Compare(Comparison::GreaterEqual))),
    Operation::Scalar(ScalarOperation::Int32(NumberOperation::Negate)),
    Operation::Scalar(ScalarOperation::Int32(NumberOperation::Equal)),
    Operation::Scalar(ScalarOperation::Int32(NumberOperation::ToInt32)),
    Operation::Scalar(ScalarOperation::Int32(NumberOperation::ToInt64)),
    Operation::Scalar(ScalarOperation::Int32(NumberOperation::ToText)),
    Operation::Scalar(ScalarOperation::Int64(NumberOperation::Reckon(Reckoning::Add))),
    Operation::Scalar(ScalarOperation::Int64(NumberOperation::Reckon(Reckoning::Subtract))),
    Operation::Scalar(ScalarOperation::Int64(NumberOperation::Reckon(Reckoning::Multiply))),
    Operation::Scalar(ScalarOperation::Int64(NumberOperation::Reckon(Reckoning::Divide))),
    Operation::Scalar(ScalarOperation::Int64(NumberOperation::Reckon(Reckoning::Remainder))),
    Operation::Scalar(ScalarOperation::Int64(NumberOperation::Reckon(Reckoning::WrapAdd))),
    Operation::Scalar(ScalarOperation::Int64(NumberOperation::Reckon(Reckoning::WrapSubtract))),
    Operation::Scalar(ScalarOperation::Int64(NumberOperation::Reckon(Reckoning::WrapMultiply))),
    Operation::Scalar(ScalarOperation::Int64(NumberOperation::Compare(Comparison::Less))),
    Operation::Scalar(ScalarOperation::Int64(NumberOperation::Compare(Comparison::LessEqual))),
    Operation::Scalar(ScalarOperation::Int64(NumberOperation::Compare(Comparison::Greater))),
    Operation::Scalar(ScalarOperation::Int64(NumberOperation::Compare(Comparison::GreaterEqual))),
    Operation::Scalar(ScalarOperation::Int64(NumberOperation::Negate)),
    Operation::Scalar(ScalarOperation::Int64(NumberOperation::Equal)),
    Operation::Scalar(ScalarOperation::Int64(NumberOperation::ToInt32)),
    Operation::Scalar(ScalarOperation::Int64(NumberOperation::ToInt64)),
    Operation::Scalar(ScalarOperation::Int64(NumberOperation::ToText)),
    Operation::Scalar(ScalarOperation::String(TextOperation::Join)),
    Operation::Scalar(ScalarOperation::String(TextOperation::Repeat)),
    Operation::Scalar(ScalarOperation::String(TextOperation::Equal)),
    Operation::Scalar(ScalarOperation::String(TextOperation::Compare(Comparison::Less))),
    Operation::Scalar(ScalarOperation::String(TextOperation::Compare(Comparison::LessEqual))),
    Operation::Scalar(ScalarOperation::String(TextOperation::Compare(Comparison::Greater))),
    Operation::Scalar(ScalarOperation::String(TextOperation::Compare(Comparison::GreaterEqual))),
    Operation::Scalar(ScalarOperation::String(TextOperation::Size)),
    Operation::Scalar(ScalarOperation::String(TextOperation::ByteSize)),
    Operation::Scalar(ScalarOperation::String(TextOperation::IsEmpty)),
    Operation::Scalar(ScalarOperation::String(TextOperation::StartsWith)),
    Operation::Scalar(ScalarOperation::String(TextOperation::ToText)),
    Operation::Array(ArrayOperation::Size),
    Operation::Array(ArrayOperation::IsEmpty),
    Operation::Array(ArrayOperation::Get),
    Operation::Array(ArrayOperation::GetOrNil),
    Operation::Array(ArrayOperation::Set),
    Operation::Array(ArrayOperation::Append),
    Operation::Array(ArrayOperation::Push),
    Operation::Array(ArrayOperation::Pop),
    Operation::Array(ArrayOperation::PopOrNil),
    Operation::Array(ArrayOperation::Shift),
    Operation::Array(ArrayOperation::ShiftOrNil),
    Operation::Array(ArrayOperation::First),
    Operation::Array(ArrayOperation::Last),
    Operation::Array(ArrayOperation::Clear),
    Operation::Hash(HashOperation::Size),
    Operation::Hash(HashOperation::IsEmpty),
    Operation::Hash(HashOperation::Get),
    Operation::Hash(HashOperation::GetOrNil),
    Operation::Hash(HashOperation::Set),
    Operation::Hash(HashOperation::HasKey),
    Operation::Hash(HashOperation::Delete),
    Operation::Hash(HashOperation::Keys),
    Operation::Hash(HashOperation::Values),
    Operation::Hash(HashOperation::Clear),
    Operation::Channel(ChannelOperation::New),
    Operation::Channel(ChannelOperation::NewSized),
    Operation::Channel(ChannelOperation::Send),
    Operation::Channel(ChannelOperation::Receive),
    Operation::Channel(ChannelOperation::ReceiveOrNil),
    Operation::Channel(ChannelOperation::Close),
    Operation::Channel(ChannelOperation::IsClosed),
    Operation::Scalar(ScalarOperation::Same(ReferenceClass::Channel)),
    Operation::Context(ContextOperation::NewConcurrent),
    Operation::Context(ContextOperation::SpawnConcurrent),
    Operation::Scalar(ScalarOperation::Same(ReferenceClass::Concurrent)),
    Operation::Context(ContextOperation::NewParallel),
    Operation::Context(ContextOperation::SpawnParallel),
    Operation::Scalar(ScalarOperation::Same(ReferenceClass::Parallel)),
    Operation::Context(ContextOperation::NewIsolated),
    Operation::Context(ContextOperation::SpawnIsolated),
    Operation::Context(ContextOperation::Wait),
    Operation::Scalar(ScalarOperation::Same(ReferenceClass::Isolated)),
];

/// The operation at a place.
fn operation_at(table: &[Operation], at: usize) -> Operation
    requires { at < length table.now }
    ensures { slice_get (map line_of_operation table.now) at ≡ Some (line_of_operation result) }
{
    table[at]
}

/// The operation of the built-in method with this number. It takes no memory.
#[tactic(auto, unfolding(cr_prelude::specs::Builtins::lines, crate::specs::Operations::line_of_operation))]
pub fn operation_of(id: BuiltinId) -> Operation
    requires { id.0 < length lines }
    ensures { slice_get lines id.0 ≡ Some (line_of_operation result) }
{
    operation_at(&OPERATIONS, id.0 as usize)
}
