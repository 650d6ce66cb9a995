//! Long chains.

use concrete_syntax::{Item, Items, Statement, StatementKind};
use std::test::Fail;

/// A `;` that is the token of this number.
fn empty(at: usize) -> Statement {
    Statement {
        at,
        kind: StatementKind::Skip,
    }
}

/// Long chains are made and dropped by loops, within the stack.
#[test]
fn long_chains(rt: HostRuntime) -> Result<(), Fail> {
    let mut list = Vec::new(rt.alloc());
    for _ in 0..65536 {
        list.push(Item::Statement(empty(4)))?;
    }
    let items = Items::of(rt.alloc(), list)?;
    assert!(rt; !matches!(&items, Items::Ended));
    Ok(())
}
