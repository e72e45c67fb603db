use crate::Names;
use std::test::Fail;

#[test]
fn names_keep_the_place_where_they_first_came(rt: HostRuntime) -> Result<(), Fail> {
    let mut names = Names::new(rt.alloc());
    assert!(rt; names.is_empty());
    for (text, want) in [
        ("puts", 0),
        ("@x", 1),
        ("puts", 0),
        ("", 2),
        ("é", 3),
        ("@x", 1),
    ] {
        let id = names.intern(text)?;
        assert_eq!(rt; id.0, want, "at {text}");
        assert!(rt; (id.0 as usize) < names.len());
        assert_eq!(rt; names.text(id), text);
    }
    assert_eq!(rt; names.len(), 4);
    Ok(())
}
