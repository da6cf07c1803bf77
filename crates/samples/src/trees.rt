//! Fresh trees, and reading their nodes.
use crate::grained::Grained;
use mesh::{Node, NodeFault, Tables};
use plane::{Measure, Optical, Weighted};
use std::mem::size_of;
use std::process::Abort;
use std::test::Fail;

// The masters and the neighbours of the two nodes of a fresh tree.
fn first_nodes<M: Measure>(
    rt: &impl Abort,
    measure: &M,
    first: ([u8; 3], [Option<u16>; 3]),
    second: ([u8; 3], [Option<u16>; 3]),
) -> Result<(), Fail> {
    let tables = Tables::fresh(measure);
    let a = tables.node(0)?;
    let b = tables.node(1)?;
    assert_eq!(rt; a.masters, first.0);
    assert_eq!(rt; a.neighbours, first.1);
    assert_eq!(rt; b.masters, second.0);
    assert_eq!(rt; b.neighbours, second.1);
    assert!(rt; a.killer.is_none() && b.father.is_none());
    assert_eq!(rt; tables.node(2).err(), Some(NodeFault::NoSuchNode));
    Ok(())
}

#[test]
fn fresh_trees(rt: HostRuntime) -> Result<(), Fail> {
    let level = (
        ([0, 1, 2], [None, None, Some(1)]),
        ([0, 2, 3], [Some(0), None, None]),
    );
    let round = Weighted::new(1, 1, 0)?;
    let slanted = Weighted::new(2, 2, 1)?;
    first_nodes(&rt, &round, level.0, level.1)?;
    first_nodes(&rt, &Optical, level.0, level.1)?;
    first_nodes(&rt, &Grained, level.0, level.1)?;
    first_nodes(
        &rt,
        &slanted,
        ([0, 1, 3], [None, Some(1), None]),
        ([1, 2, 3], [None, None, Some(0)]),
    )
}

// What the documents say of memory.
#[test]
fn sizes(rt: HostRuntime) {
    assert_eq!(rt; size_of::<Node>(), 38);
    assert_eq!(rt; size_of::<Tables>(), 39_440);
}
