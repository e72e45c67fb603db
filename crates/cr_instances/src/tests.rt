use super::*;
use cr_base::{AtomId, InstanceId, MethodId, NodeId};
use std::alloc::{AllocError, Global};
use std::test::Fail;

// The key of a method for a receiver of atom 1 and arguments of these atoms, with a block of this node or none.
fn key_of(
    alloc: Global,
    method: u32,
    args: &[AtomId],
    block: Option<u32>,
) -> Result<Key, AllocError> {
    Ok(Key {
        method: MethodId(method),
        receiver: AtomId(1),
        args: AtomList::new(Vec::from_slice(alloc, args)?),
        block: block.map(NodeId),
        outer: block.map(InstanceId),
    })
}

// The number of the instance of this key, which is found just where it was before and keeps its key.
fn number_of(
    alloc: Global,
    instances: &mut Instances,
    method: u32,
    args: &[AtomId],
    block: Option<u32>,
) -> Result<Option<u32>, Fail> {
    let found = instances.find(&key_of(alloc, method, args, block)?);
    let id = instances.add(key_of(alloc, method, args, block)?)?;
    let kept = id.0 < instances.count()
        && *instances.key(id) == key_of(alloc, method, args, block)?;
    Ok((kept && found.is_none_or(|old| old == id)).then_some(id.0))
}

#[test]
fn a_key_keeps_the_place_where_it_first_came(rt: HostRuntime) -> Result<(), Fail> {
    let alloc = rt.alloc();
    let mut instances = Instances::new(alloc);
    for (method, args, block, want) in [
        (7, &[][..], None, 0),
        (7, &[AtomId(2)][..], None, 1),
        (7, &[AtomId(2), AtomId(3)][..], None, 2),
        (7, &[AtomId(3), AtomId(2)][..], None, 3),
        (7, &[][..], Some(0), 4),
        (8, &[][..], None, 5),
        (7, &[AtomId(2)][..], None, 1),
        (7, &[][..], Some(0), 4),
    ] {
        let number = number_of(alloc, &mut instances, method, args, block)?;
        assert_eq!(rt; number, Some(want), "at {want}");
    }
    Ok(())
}

#[test]
fn arguments_come_back_in_order(rt: HostRuntime) -> Result<(), Fail> {
    let args = [AtomId(2), AtomId(3)];
    let key = key_of(rt.alloc(), 7, &args, None)?;
    assert_eq!(rt; key.args.into_vec().as_slice(), args.as_slice());
    Ok(())
}

// Adds the keys of the methods below this one, and says whether each goes last.
fn fill(alloc: Global, instances: &mut Instances, methods: u32) -> Result<bool, Fail> {
    for method in 0..methods {
        let id = instances.add(key_of(alloc, method, &[AtomId(2)], None)?)?;
        if id.0 != method {
            return Ok(false);
        }
    }
    Ok(true)
}

// What is answered where the key of this method is looked for, and where it is added.
fn answers(
    alloc: Global,
    instances: &mut Instances,
    method: u32,
) -> Result<(Option<InstanceId>, Result<InstanceId, AddFault>), Fail> {
    let found = instances.find(&key_of(alloc, method, &[AtomId(2)], None)?);
    Ok((
        found,
        instances.add(key_of(alloc, method, &[AtomId(2)], None)?),
    ))
}

#[test]
fn no_new_key_is_added_past_the_limit(rt: HostRuntime) -> Result<(), Fail> {
    let alloc = rt.alloc();
    let mut instances = Instances::new(alloc);
    assert!(rt; fill(alloc, &mut instances, 20_000)?);
    for (method, want) in [
        (0, Ok(InstanceId(0))),
        (19_999, Ok(InstanceId(19_999))),
        (20_000, Err(AddFault::Full)),
        (12_345, Ok(InstanceId(12_345))),
    ] {
        let (found, added) = answers(alloc, &mut instances, method)?;
        assert_eq!(rt; found, want.ok(), "at {method}");
        assert_eq!(rt; added, want, "at {method}");
    }
    assert_eq!(rt; instances.count(), 20_000);
    Ok(())
}
