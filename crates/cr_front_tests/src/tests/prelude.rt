//! The prelude as it is built, and as its text is read.

use crate::tests::{answer, shown};
use cr_prelude::{text, tree};
use cr_readers::ParseFault;
use std::test::Fail;

#[test]
fn prelude_is_built_as_it_is_read(rt: HostRuntime) -> Result<(), Fail> {
    let read = shown(rt.alloc(), answer(&rt, rt.alloc(), text())?)?;
    let built = tree(rt.alloc()).map_err(|_| ParseFault::NoMemory);
    let built = shown(rt.alloc(), built)?;
    assert_eq!(rt; read.as_str(), built.as_str());
    assert!(rt; read.len() > 500);
    Ok(())
}
