use crate::{BUILTINS, BuiltinClass, builtin, builtin_count, line, text, tree};
use cr_base::{BuiltinId, NoMemory};
use cr_grammar::Tree;
use std::test::Fail;

#[test]
fn builtins_are_found_by_class_name_and_count(rt: HostRuntime) -> Result<(), Fail> {
    for (class, name, count, want) in [
        (BuiltinClass::Object, "==", 1, Some(0)),
        (BuiltinClass::Object, "to_s", 0, None),
        (BuiltinClass::Nil, "to_s", 0, Some(2)),
        (BuiltinClass::Int32, "-", 1, Some(6)),
        (BuiltinClass::Int32, "-", 0, Some(17)),
        (BuiltinClass::Int64, "-", 0, Some(34)),
        (BuiltinClass::Int32, "/", 1, None),
        (BuiltinClass::String, "starts_with?", 1, Some(49)),
        (BuiltinClass::String, "-", 1, None),
        (BuiltinClass::Array, "==", 1, None),
        (BuiltinClass::Array, "[]=", 2, Some(55)),
        (BuiltinClass::Array, "[]=", 1, None),
        (BuiltinClass::Hash, "has_key?", 1, Some(70)),
        (BuiltinClass::Channel, "new", 0, Some(75)),
        (BuiltinClass::Channel, "new", 1, Some(76)),
        (BuiltinClass::Channel, "new", 2, None),
        (BuiltinClass::Concurrent, "spawn", 0, Some(84)),
        (BuiltinClass::Parallel, "new", 2, Some(86)),
        (BuiltinClass::Parallel, "wait", 0, None),
        (BuiltinClass::Isolated, "==", 1, Some(92)),
        (BuiltinClass::Isolated, "", 0, None),
    ] {
        let found = builtin(class, name, count);
        assert_eq!(rt; found, want.map(BuiltinId), "{class:?} {name} {count}");
    }
    Ok(())
}

#[test]
fn lines_are_those_of_the_table(rt: HostRuntime) -> Result<(), Fail> {
    assert_eq!(rt; builtin_count(), BUILTINS.len());
    let last = line(BuiltinId(92));
    assert_eq!(rt; last.class, BuiltinClass::Isolated);
    assert_eq!(rt; (last.name, last.count), ("==", 1));
    Ok(())
}

#[test]
fn prelude_has_its_text_and_five_classes(rt: HostRuntime) -> Result<(), NoMemory> {
    assert!(rt; text().starts_with("class Object\n  def not_nil!\n    self\n"));
    assert_eq!(rt; text().len(), 928);
    match tree(rt.alloc())? {
        Tree::Statements { list } => assert_eq!(rt; list.len(), 5),
        _ => assert!(rt; false),
    }
    Ok(())
}
