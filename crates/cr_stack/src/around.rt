//! What a stack is made of: the layers around the part of a term that is reduced next, and that part.

ghost use Rattle.std.specs.Prelude.{◌≡◌};
ghost use Rattle.cr_stack.specs.Layers.{frame_of};
ghost use Rattle.cr_stack.specs.Steps.{finished};

use cr_base::NodeId;
use cr_core::Listed;
use cr_value::Value;

/// One layer of what surrounds the part that is reduced next.
#[derive(Drop)]
pub enum Around {
    /// A node, with the values that its parts came to so far.
    Part(NodeId, Listed<Value>),
    /// A choice among clauses, with the values of the clauses whose parts all have theirs, and those of the clause in progress.
    Choice {
        node: NodeId,
        clauses: Listed<Listed<Value>>,
        values: Listed<Value>,
    },
    /// A turn of a loop, with the node that each turn begins with.
    Turn(NodeId),
    /// A call in progress. That of an `initialize` gives its object.
    Frame(Option<Value>),
    /// A block in progress.
    Body,
}

/// The part that is reduced next.
#[derive(Drop)]
pub enum Now {
    /// A node as it stands in the core tree.
    Node(NodeId),
    /// A value.
    Value(Value),
    /// A node with the values of all parts that are reduced before it.
    Ready(NodeId, Listed<Value>),
    /// A choice whose clauses all have the values of their parts.
    Choice(NodeId, Listed<Listed<Value>>),
    /// A send whose item stands in the channel.
    Sent { channel: u32, item: u32 },
}

/// What a stack that was opened shows: its value, or what is reduced next.
pub enum Redex<'a> {
    /// Nothing: the term is this value.
    Finished(&'a Value),
    /// A node, with the values of all parts that are reduced before it.
    Node(NodeId, &'a [Value]),
    /// A choice, with the values of each of its clauses.
    Choice(NodeId, &'a [Listed<Value>]),
    /// A loop whose turn came to a value.
    Turn,
    /// A call that came to a value.
    Frame,
    /// A block that came to a value.
    Body,
    /// A send whose item stands in the channel.
    Sent { channel: u32, item: u32 },
}

/// How many calls a layer is.
pub(crate) fn frame_of(layer: &Around) -> usize
    ensures { result ≡ frame_of layer.now }
{
    match layer {
        Around::Frame(_) => 1,
        _ => 0,
    }
}

/// What stands where a layer ended: what it gives.
pub(crate) fn finished(layer: Around, value: Now) -> Now
    ensures { result ≡ finished layer value }
{
    match layer {
        Around::Turn(_) => Now::Value(Value::Nil),
        Around::Frame(gives) => match gives {
            Some(object) => Now::Value(object),
            None => value,
        },
        other => {
            drop(other);
            value
        }
    }
}
