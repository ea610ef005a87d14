//! The values of nodes over the windows of a block of rows.
ghost use Rattle.circle_air.specs.declared.node.Node.{Node};
ghost use Rattle.std.specs.Prelude.{EachIndex, ◌≡◌, ℕ, ◌+◌, ◌*◌, ◌<◌, ◌≤◌, length, slice_index_or};
ghost use Rattle.std.specs.Prelude.{drop, take};
ghost use Rattle.circle_field.specs.Field.{sub};
ghost use Rattle.circle_air.specs.Lanes.{lane};
ghost use Rattle.circle_air.specs.Ranges.{IsInRange};
ghost use Rattle.circle_air.specs.Values.{Window, entry, value, values as values_of};

use crate::node::Node;
use circle_field::{ExtensionField, Field};

/// The windows of a block of rows, one for each lane of the block.
pub trait Windows<E: Copy> {
    ghost width: { Self → ℕ };

    ghost num_periodic_columns: { Self → ℕ };

    ghost num_public_values: { Self → ℕ };

    ghost window: { Self → ℕ → Window E };

    /// Writes the entries of the rows in a column, one for each lane.
    fn write_local(&self, column: usize, lanes: &mut [E])
        requires { column < width self.now }
        ensures count { length lanes.new ≡ length lanes.old }
        ensures entries { (r : ℕ) (d : E) → r < length lanes.new → slice_index_or lanes.new r d
            ≡ slice_index_or (window self.now r).local column d };

    /// Writes the entries of the next rows in a column, one for each lane.
    fn write_next(&self, column: usize, lanes: &mut [E])
        requires { column < width self.now }
        ensures count { length lanes.new ≡ length lanes.old }
        ensures entries { (r : ℕ) (d : E) → r < length lanes.new → slice_index_or lanes.new r d
            ≡ slice_index_or (window self.now r).next column d };

    /// Writes the entries of a periodic column at the rows, one for each lane.
    fn write_periodic(&self, column: usize, lanes: &mut [E])
        requires { column < num_periodic_columns self.now }
        ensures count { length lanes.new ≡ length lanes.old }
        ensures entries { (r : ℕ) (d : E) → r < length lanes.new → slice_index_or lanes.new r d
            ≡ slice_index_or (window self.now r).periodic column d };

    /// A public value.
    fn public(&self, index: usize) -> E
        requires { index < num_public_values self.now }
        ensures { (r : ℕ) (d : E) → result ≡ slice_index_or (window self.now r).public index d };
}

// Writes the same value at each lane.
fn write_same<E: Copy>(value: E, lanes: &mut [E])
    ensures { (r : ℕ) (d : E) → r < length lanes.new → slice_index_or lanes.new r d ≡ value }
{
    for entry in lanes.iter_mut() {
        *entry = value;
    }
}

// Writes the sums of the values at each lane.
fn write_sums<E: Field>(left: &[E], right: &[E], sums: &mut [E])
    requires left { length left.now ≡ length sums.old }
    requires right { length right.now ≡ length sums.old }
    ensures { (r : ℕ) → r < length sums.new → entry E.ops sums.new r
        ≡ E.ops.add (entry E.ops left.now r) (entry E.ops right.now r) }
{
    for (i, sum) in sums.iter_mut().enumerate() {
        *sum = left[i] + right[i];
    }
}

// Writes the differences of the values at each lane.
fn write_differences<E: Field>(left: &[E], right: &[E], differences: &mut [E])
    requires left { length left.now ≡ length differences.old }
    requires right { length right.now ≡ length differences.old }
    ensures { (r : ℕ) → r < length differences.new → entry E.ops differences.new r
        ≡ sub E.ops (entry E.ops left.now r) (entry E.ops right.now r) }
{
    for (i, difference) in differences.iter_mut().enumerate() {
        *difference = left[i] - right[i];
    }
}

// Writes the products of the values at each lane.
fn write_products<E: Field>(left: &[E], right: &[E], products: &mut [E])
    requires left { length left.now ≡ length products.old }
    requires right { length right.now ≡ length products.old }
    ensures { (r : ℕ) → r < length products.new → entry E.ops products.new r
        ≡ E.ops.mul (entry E.ops left.now r) (entry E.ops right.now r) }
{
    for (i, product) in products.iter_mut().enumerate() {
        *product = left[i] * right[i];
    }
}

// Writes the opposites of the values at each lane.
fn write_opposites<E: Field>(of: &[E], opposites: &mut [E])
    requires { length of.now ≡ length opposites.old }
    ensures { (r : ℕ) → r < length opposites.new → entry E.ops opposites.new r
        ≡ E.ops.neg (entry E.ops of.now r) }
{
    for (i, opposite) in opposites.iter_mut().enumerate() {
        *opposite = -of[i];
    }
}

/// The values of a node, one for each lane.
pub(crate) fn node_lanes<E>(values: &[E], node: usize, lanes: usize) -> &[E]
    requires { (node + 1) * lanes ≤ length values.now }
    ensures count { length result.now ≡ lanes }
    ensures values { result.now ≡ take lanes (drop (node * lanes) values.now) }
{
    let start = node * lanes;
    &values[start..start + lanes]
}

// Writes the values of a node at each lane, by those of the earlier nodes.
fn write_node<F: Field, E: ExtensionField<F>, W: Windows<E>>(
    node: &Node<F>,
    windows: &W,
    earlier: &[E],
    values: &mut [E],
)
    requires { (i : ℕ) × (length earlier.now ≡ i * length values.old) × IsInRange
        (W.width windows.now) (W.num_periodic_columns windows.now) (W.num_public_values windows.now)
        i node.now }
    ensures { (r : ℕ) → r < length values.new → entry E.ops values.new r
        ≡ value E.ops E.embed (W.window windows.now r) (lane E.ops (length values.new) r earlier.now)
        node.now }
{
    let lanes = values.len();
    match *node {
        Node::Local(column) => windows.write_local(column, values),
        Node::Next(column) => windows.write_next(column, values),
        Node::Periodic(column) => windows.write_periodic(column, values),
        Node::Public(index) => write_same(windows.public(index), values),
        Node::Constant(constant) => write_same(E::from_base(constant), values),
        Node::Add(left, right) => write_sums(
            node_lanes(earlier, left, lanes),
            node_lanes(earlier, right, lanes),
            values,
        ),
        Node::Sub(left, right) => write_differences(
            node_lanes(earlier, left, lanes),
            node_lanes(earlier, right, lanes),
            values,
        ),
        Node::Mul(left, right) => write_products(
            node_lanes(earlier, left, lanes),
            node_lanes(earlier, right, lanes),
            values,
        ),
        Node::Neg(operand) => write_opposites(node_lanes(earlier, operand, lanes), values),
    }
}

/// Writes the values of the nodes over the windows of a block, node after node: those of node `i`
/// stand from `i * lanes` on, one for each lane.
///
/// Requires room for the values of each node, and nodes that read what the windows have.
pub fn write_values<F: Field, E: ExtensionField<F>, W: Windows<E>>(
    nodes: &[Node<F>],
    windows: &W,
    lanes: usize,
    values: &mut [E],
)
    requires room { length values.old ≡ length nodes.now * lanes }
    requires range { EachIndex nodes.now (λ i. (node : Node F) → node ≡ slice_index_or nodes.now i node
        → IsInRange (W.width windows.now) (W.num_periodic_columns windows.now)
        (W.num_public_values windows.now) i node) }
    ensures count { length values.new ≡ length values.old }
    ensures values { (r : ℕ) → r < lanes → lane E.ops lanes r values.new
        ≡ values_of E.ops E.embed nodes.now (W.window windows.now r) }
{
    for (i, node) in nodes.iter().enumerate() {
        let (earlier, rest) = values.split_at_mut(i * lanes);
        let (here, _later) = rest.split_at_mut(lanes);
        write_node(node, windows, earlier, here);
    }
}
