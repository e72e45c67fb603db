use super::*;
use cr_base::{CellId, ClassId, FiberId, NameId};
use cr_builtins::{ArrayOperation, HashOperation, Outcome, Raise};
use cr_value::{CellRef, Value};
use std::test::Fail;

// What gives the reference to this cell.
fn reference(cell: u32) -> Outcome {
    Outcome::Gives(Value::Ref(CellRef { cell, atom: 0 }))
}

#[test]
fn a_field_reads_as_it_was_assigned(rt: HostRuntime) -> Result<(), Fail> {
    let alloc = rt.alloc();
    let mut heap = Heap::new(alloc);
    heap.make(Cell::Object(Instance {
        class: ClassId(7),
        fields: Vec::new(alloc),
    }))?;
    let receiver = Value::Ref(CellRef { cell: 0, atom: 0 });
    heap.set_field(alloc, NameId(3), &Value::Flag(true), Some(&receiver))?;
    let read = heap.read_field(alloc, NameId(3), Some(&receiver))?;
    assert_eq!(rt; read, Outcome::Gives(Value::Flag(true)));
    Ok(())
}

#[test]
fn an_array_gives_its_last_element(rt: HostRuntime) -> Result<(), Fail> {
    let alloc = rt.alloc();
    let mut heap = Heap::new(alloc);
    heap.make_array(alloc, &[Value::Small(1), Value::Small(2)])?;
    let last = heap.array_operation(alloc, CellId(0), ArrayOperation::Pop, &[])?;
    assert_eq!(rt; last, Outcome::Gives(Value::Small(2)));
    Ok(())
}

#[test]
fn the_keys_of_a_hash_are_a_new_array(rt: HostRuntime) -> Result<(), Fail> {
    let alloc = rt.alloc();
    let mut heap = Heap::new(alloc);
    heap.make_hash(alloc, &[Value::Small(1), Value::Small(2)])?;
    let keys = heap.hash_operation(alloc, CellId(0), HashOperation::Keys, &[])?;
    assert_eq!(rt; keys, reference(1));
    assert_eq!(rt; heap.kind(CellId(1)), CellKind::Array);
    Ok(())
}

#[test]
fn a_capacity_past_the_limit_raises(rt: HostRuntime) -> Result<(), Fail> {
    let alloc = rt.alloc();
    let mut heap = Heap::new(alloc);
    let made = heap.make_channel(alloc, &[Value::Small(65_537)])?;
    assert_eq!(rt; made, Outcome::Raises(Raise::Argument));
    Ok(())
}

#[test]
fn a_channel_passes_values_on(rt: HostRuntime) -> Result<(), Fail> {
    let alloc = rt.alloc();
    let mut heap = Heap::new(alloc);
    heap.make_channel(alloc, &[])?;
    let met = heap.meet(CellId(0), FiberId(1), Value::Small(1))?;
    assert_eq!(rt; met, Some(Value::Small(1)));
    assert_eq!(rt;
        heap.append(CellId(0), FiberId(1), Value::Small(2))?,
        Some(1)
    );
    heap.close(CellId(0));
    assert_eq!(rt; heap.take(CellId(0)), None);
    Ok(())
}
