//! Traces of one block of rows and of several, each with one entry changed.
use crate::plain::{MEMORY, plain_check};
use circle_air::{Air, AirParts, Constraint, Node, Place, check_constraints};
use circle_commit::{Matrix, RowMajorMatrix};
use circle_field::{Field, Mersenne31};
use std::alloc::{AllocError, Global};
use std::process::Abort;

/// The number of columns of the trace.
const WIDTH: usize = 4;

/// The length of the periodic column, more than a block has rows.
const PERIOD: usize = 64;

/// Heights around the ends of blocks, and shorter ones.
const HEIGHTS: [usize; 12] = [1, 2, 3, 31, 32, 33, 63, 64, 65, 96, 97, 130];

// The nodes of an AIR of rows `a b d e`, by their positions.
const NODES: [Node<Mersenne31>; 15] = [
    // 0 to 4: `a`, `b` and `e`, the next `a` and the next `d`.
    Node::Local(0),
    Node::Local(1),
    Node::Local(3),
    Node::Next(0),
    Node::Next(2),
    // 5 to 7: the public values, and the periodic entry.
    Node::Public(0),
    Node::Public(1),
    Node::Periodic(0),
    // 8 and 9: the sums of `a` and the periodic entry, and of `a` and `b`.
    Node::Add(0, 7),
    Node::Add(0, 1),
    // 10 to 14: the differences that are 0.
    Node::Sub(0, 6),
    Node::Sub(1, 8),
    Node::Sub(3, 9),
    Node::Sub(4, 2),
    Node::Sub(0, 5),
];

// At every row `b` is the sum of `a` and the periodic entry, and `e` is the next row's `d`, at the
// last row that of the first. At each row but the last, the next `a` is the sum of `a` and `b`. The
// public values are `a` at the first row and at the last.
const CONSTRAINTS: [Constraint; 5] = [
    Constraint {
        place: Place::Last,
        node: 10,
    },
    Constraint {
        place: Place::Every,
        node: 11,
    },
    Constraint {
        place: Place::Transition,
        node: 12,
    },
    Constraint {
        place: Place::Every,
        node: 13,
    },
    Constraint {
        place: Place::First,
        node: 14,
    },
];

// What the AIR is made of.
fn parts(alloc: Global) -> Result<AirParts<Mersenne31>, AllocError> {
    Ok(AirParts {
        width: WIDTH,
        num_public_values: 2,
        periodic_columns: vec![in alloc; periodic_column(alloc)?]?,
        nodes: Vec::from_slice(alloc, &NODES)?,
        constraints: Vec::from_slice(alloc, &CONSTRAINTS)?,
    })
}

// The periodic column: 5, 6 and so on.
fn periodic_column(alloc: Global) -> Result<Vec<Mersenne31>, AllocError> {
    let mut column = Vec::with_capacity(alloc, PERIOD)?;
    for i in 0..PERIOD {
        column.push(Mersenne31::from_u64(i as u64 + 5))?;
    }
    Ok(column)
}

// The entries of rows that satisfy the AIR, and `a` at the last row.
fn satisfying_rows<F: Field>(rt: &impl Abort, alloc: Global, height: usize) -> (Vec<F>, F) {
    let mut entries = Vec::new(alloc);
    let (mut a, mut last) = (F::ONE, F::ONE);
    for row in 0..height {
        let b = a + F::from_u64((row % PERIOD) as u64 + 5);
        let next = if row + 1 == height { 0 } else { row + 1 };
        entries.push(a).expect(rt, MEMORY);
        entries.push(b).expect(rt, MEMORY);
        entries.push(F::from_u64(row as u64)).expect(rt, MEMORY);
        entries.push(F::from_u64(next as u64)).expect(rt, MEMORY);
        last = a;
        a = a + b;
    }
    (entries, last)
}

// The rows of these entries with one more at position `i`, if there is such an entry.
fn changed(
    rt: &impl Abort,
    alloc: Global,
    entries: &[Mersenne31],
    i: usize,
) -> RowMajorMatrix<Mersenne31> {
    let mut changed = Vec::from_slice(alloc, entries).expect(rt, MEMORY);
    if let Some(entry) = changed.get_mut(i) {
        *entry = *entry + Mersenne31::ONE;
    }
    RowMajorMatrix::try_new(changed, WIDTH).expect(rt, "the rows differ in length")
}

// Asserts that the rows are found satisfied or not, as by the plain body.
fn assert_found(
    rt: &impl Abort,
    alloc: Global,
    air: &Air<Mersenne31>,
    rows: &RowMajorMatrix<Mersenne31>,
    public_values: &[Mersenne31],
    is_satisfied: bool,
) {
    assert!(rt; rows.width() == air.width() && public_values.len() == air.num_public_values());
    let found = check_constraints(alloc, air, rows, public_values).expect(rt, MEMORY);
    assert!(rt; found == plain_check(rt, alloc, air, rows, public_values));
    assert!(rt; found.is_none() == is_satisfied);
}

// Asserts what is found where an entry of satisfying rows is changed, on each of these, and where
// none is.
fn assert_height(rt: &impl Abort, alloc: Global, height: usize) {
    let air = Air::try_new(alloc, parts(alloc).expect(rt, MEMORY)).expect(rt, "the AIR");
    let (entries, last) = satisfying_rows(rt, alloc, height);
    for i in 0..=entries.len() {
        let rows = changed(rt, alloc, &entries, i);
        let is_satisfied = i == entries.len();
        assert_found(
            rt,
            alloc,
            &air,
            &rows,
            &[Mersenne31::ONE, last],
            is_satisfied,
        );
    }
}

#[test]
fn each_changed_entry_is_found(rt: HostRuntime) {
    for height in HEIGHTS {
        assert_height(&rt, rt.alloc(), height);
    }
}
