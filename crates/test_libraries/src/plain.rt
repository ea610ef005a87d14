//! A plain body of `check_constraints`.
use circle_air::{Air, Constraint, Node, Violation};
use circle_commit::{Matrix, RowMajorMatrix};
use circle_field::{Field, Mersenne31};
use std::alloc::Global;
use std::process::Abort;

type Rows = RowMajorMatrix<Mersenne31>;

/// Why a test ends that memory is refused.
pub const MEMORY: &str = "memory is refused";

// Entry `i`, or 0 past the end.
fn entry(xs: &[Mersenne31], i: usize) -> Mersenne31 {
    xs.get(i).copied().unwrap_or(Mersenne31::ZERO)
}

// The value of a node at a row, by those of the earlier nodes.
fn plain_value(
    air: &Air<Mersenne31>,
    rows: &Rows,
    public_values: &[Mersenne31],
    row: usize,
    earlier: &[Mersenne31],
    node: Node<Mersenne31>,
) -> Mersenne31 {
    let height = rows.height();
    if row >= height {
        return Mersenne31::ZERO;
    }
    let next = if row + 1 == height { 0 } else { row + 1 };
    match node {
        Node::Local(column) => entry(rows.row(row), column),
        Node::Next(column) => entry(rows.row(next), column),
        Node::Periodic(i) => match air.periodic_columns().get(i) {
            Some(column) if !column.is_empty() => entry(column, row % column.len()),
            _ => Mersenne31::ZERO,
        },
        Node::Public(index) => entry(public_values, index),
        Node::Constant(constant) => constant,
        Node::Add(left, right) => entry(earlier, left) + entry(earlier, right),
        Node::Sub(left, right) => entry(earlier, left) - entry(earlier, right),
        Node::Mul(left, right) => entry(earlier, left) * entry(earlier, right),
        Node::Neg(operand) => -entry(earlier, operand),
    }
}

// The first constraint that fails at a row, by the values of its nodes.
fn plain_failure(
    air: &Air<Mersenne31>,
    values: &[Mersenne31],
    row: usize,
    height: usize,
) -> Option<usize> {
    for (j, Constraint { place, node }) in air.constraints().iter().enumerate() {
        if row < height && place.has_row(row, height) && !entry(values, *node).is_zero() {
            return Some(j);
        }
    }
    None
}

/// What `check_constraints` returns, row after row and node after node.
pub fn plain_check(
    rt: &impl Abort,
    alloc: Global,
    air: &Air<Mersenne31>,
    rows: &Rows,
    public_values: &[Mersenne31],
) -> Option<Violation> {
    for row in 0..rows.height() {
        let mut values = Vec::new(alloc);
        for node in air.nodes() {
            let value = plain_value(air, rows, public_values, row, &values, *node);
            values.push(value).expect(rt, MEMORY);
        }
        if let Some(constraint) = plain_failure(air, &values, row, rows.height()) {
            return Some(Violation { row, constraint });
        }
    }
    None
}
