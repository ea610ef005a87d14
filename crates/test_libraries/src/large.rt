//! An AIR of many nodes.
use circle_air::{Air, AirParts, Constraint, Node, Place, Violation, check_constraints};
use circle_commit::{Matrix, RowMajorMatrix};
use circle_field::{Field, Mersenne31};
use std::alloc::{AllocError, Global};
use std::process::Abort;
use std::test::Fail;

/// The number of nodes.
const NODES: usize = 100_000;

/// The number of rows: a block, and a part of another.
const HEIGHT: usize = 34;

// The parts of the AIR of one column whose next entry is the entry times the number of nodes less
// two: node `i` is the entry times `i + 1`, then comes the next entry, and the difference.
fn parts_of_many_nodes(alloc: Global) -> Result<AirParts<Mersenne31>, AllocError> {
    let mut nodes = Vec::with_capacity(alloc, NODES)?;
    nodes.push(Node::Local(0))?;
    for i in 0..NODES - 3 {
        nodes.push(Node::Add(i, 0))?;
    }
    nodes.push(Node::Next(0))?;
    nodes.push(Node::Sub(NODES - 2, NODES - 3))?;
    let constraint = Constraint {
        place: Place::Transition,
        node: NODES - 1,
    };
    Ok(AirParts {
        width: 1,
        num_public_values: 0,
        periodic_columns: Vec::new(alloc),
        nodes,
        constraints: Vec::from_slice(alloc, &[constraint])?,
    })
}

// What is found where the first `count` rows are powers, from 1 on, and zeros come after them.
fn found(
    rt: &impl Abort,
    alloc: Global,
    air: &Air<Mersenne31>,
    count: usize,
) -> Result<Option<Violation>, AllocError> {
    let factor = Mersenne31::from_u64(NODES as u64 - 2);
    let mut entries = Mersenne31::powers(alloc, factor, count)?;
    entries.resize(HEIGHT, Mersenne31::ZERO)?;
    let rows = RowMajorMatrix::new_col(entries);
    assert!(rt; rows.width() == air.width() && air.num_public_values() == 0);
    check_constraints(alloc, air, &rows, &[])
}

#[test]
fn many_nodes_are_checked(rt: HostRuntime) -> Result<(), Fail> {
    let air = Air::try_new(rt.alloc(), parts_of_many_nodes(rt.alloc())?)?;
    assert!(rt; air.nodes().len() == NODES);
    assert!(rt; air.max_constraint_degree() == 2);
    assert!(rt; found(&rt, rt.alloc(), &air, HEIGHT)?.is_none());
    let violation = found(&rt, rt.alloc(), &air, HEIGHT - 1)?.ok_or("a violation")?;
    assert!(rt; violation.row == HEIGHT - 2);
    Ok(())
}
