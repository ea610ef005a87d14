//! AIRs built step by step.
ghost use Rattle.std.specs.Prelude.{◌≡◌, ◌+◌, ◌≤◌, ◌<◌, ◌⊎◌, [], IfErr, IfOk, None, Some, false, length, take, true};
ghost use Rattle.std.specs.Int.{is_power_of_two};
ghost use Rattle.circle_air.specs.Parts.{parts_of};
ghost use Rattle.circle_air.specs.Refusal.{refusal};
ghost use Rattle.circle_air.specs.declared.error.AirError.TheVariants.{Memory};

use crate::air::Air;
use crate::error::AirError;
use crate::node::{Constraint, Node, Place};
use crate::parts::AirParts;
use std::alloc::Global;

/// A node of a builder, by its position.
#[derive(Clone, Copy, PartialEq, Eq, Debug)]
pub struct Expr {
    position: usize,
}

/// An AIR that is built step by step: each call appends nodes or a constraint.
///
/// A call that fails leaves the builder as it was.
#[derive(Drop)]
pub struct AirBuilder<F> {
    alloc: Global,
    parts: AirParts<F>,
}

impl<F: Copy> AirBuilder<F> {
    ghost use Rattle.circle_air.specs.Air.{air_of};
    ghost use Rattle.circle_air.specs.Built.{built};
    ghost use Rattle.circle_air.specs.Builder.{IsAppended, IsAppendedPeriodic, IsChanged, IsRefusedAs, with_bool, with_constraint, with_node};
    ghost use Rattle.circle_air.specs.declared.error.AirError.TheVariants.{ColumnOutOfRange, ConstraintOutOfRange, NodeOutOfOrder, PeriodicLength, PublicOutOfRange};
    ghost use Rattle.circle_air.specs.declared.node.Node.TheVariants as node;

    /// The builder of an AIR with so many columns and public values, and nothing else yet.
    pub fn new(alloc: Global, width: usize, num_public_values: usize) -> Self
        ensures { built result ≡ record {
          width = width;
          num_public_values = num_public_values;
          periodic_columns = [];
          nodes = [];
          constraints = [];
        } }
    {
        AirBuilder {
            alloc,
            parts: AirParts {
                width,
                num_public_values,
                periodic_columns: Vec::new(alloc),
                nodes: Vec::new(alloc),
                constraints: Vec::new(alloc),
            },
        }
    }

    // Appends a node.
    fn append(&mut self, node: Node<F>) -> Result<Expr, AirError>
        ensures { IsAppended (built self.old) node (built self.new) result }
    {
        let position = self.parts.nodes.len();
        match self.parts.nodes.push(node) {
            Ok(()) => Ok(Expr { position }),
            Err(_) => Err(AirError::Memory),
        }
    }

    /// The entry of the current row in a column.
    ///
    /// Fails as `ColumnOutOfRange` where there is no such column, and as `Memory`.
    pub fn local(&mut self, column: usize) -> Result<Expr, AirError>
        ensures refused { (built self.old).width ≤ column → IsRefusedAs
            (ColumnOutOfRange (length (built self.old).nodes)) (built self.old) (built self.new) result }
        ensures appended { column < (built self.old).width
            → IsAppended (built self.old) (node.Local column) (built self.new) result }
    {
        if column >= self.parts.width {
            return Err(AirError::ColumnOutOfRange {
                node: self.parts.nodes.len(),
            });
        }
        self.append(Node::Local(column))
    }

    /// The entry of the next row in a column.
    ///
    /// Fails as `ColumnOutOfRange` where there is no such column, and as `Memory`.
    pub fn next(&mut self, column: usize) -> Result<Expr, AirError>
        ensures refused { (built self.old).width ≤ column → IsRefusedAs
            (ColumnOutOfRange (length (built self.old).nodes)) (built self.old) (built self.new) result }
        ensures appended { column < (built self.old).width
            → IsAppended (built self.old) (node.Next column) (built self.new) result }
    {
        if column >= self.parts.width {
            return Err(AirError::ColumnOutOfRange {
                node: self.parts.nodes.len(),
            });
        }
        self.append(Node::Next(column))
    }

    /// A public value.
    ///
    /// Fails as `PublicOutOfRange` where there is no such public value, and as `Memory`.
    pub fn public(&mut self, index: usize) -> Result<Expr, AirError>
        ensures refused { (built self.old).num_public_values ≤ index → IsRefusedAs
            (PublicOutOfRange (length (built self.old).nodes)) (built self.old) (built self.new) result }
        ensures appended { index < (built self.old).num_public_values
            → IsAppended (built self.old) (node.Public index) (built self.new) result }
    {
        if index >= self.parts.num_public_values {
            return Err(AirError::PublicOutOfRange {
                node: self.parts.nodes.len(),
            });
        }
        self.append(Node::Public(index))
    }

    /// A constant.
    ///
    /// Fails as `Memory`.
    pub fn constant(&mut self, constant: F) -> Result<Expr, AirError>
        ensures { IsAppended (built self.old) (node.Constant constant) (built self.new) result }
    {
        self.append(Node::Constant(constant))
    }

    /// The entry of a new periodic column at the current row. The column has one period.
    ///
    /// Fails as `PeriodicLength` where its length isn't a power of two, and as `Memory`.
    #[tactic(auto, using(std::proofs::lemmas::List::map_push))]
    pub fn periodic(&mut self, column: Vec<F>) -> Result<Expr, AirError>
        ensures refused { is_power_of_two (length column.items) ≡ false → IsRefusedAs
            (PeriodicLength (length (built self.old).periodic_columns)) (built self.old)
            (built self.new) result }
        ensures appended { is_power_of_two (length column.items) ≡ true
            → IsAppendedPeriodic (built self.old) column.items (built self.new) result }
    {
        let index = self.parts.periodic_columns.len();
        if !column.len().is_power_of_two() {
            return Err(AirError::PeriodicLength { column: index });
        }
        match self.parts.periodic_columns.push(column) {
            Ok(()) => {}
            Err(_) => return Err(AirError::Memory),
        }
        match self.append(Node::Periodic(index)) {
            Ok(entry) => Ok(entry),
            Err(error) => {
                self.parts.periodic_columns.truncate(index);
                Err(error)
            }
        }
    }

    // Tests that the handles are of nodes that are there.
    fn check_operands(&self, left: Expr, right: Expr) -> Result<(), AirError>
        ensures there { IfOk result (λ _. (left.position < length (built self.now).nodes)
            × (right.position < length (built self.now).nodes)) }
        ensures refused { IfErr result (λ e. (e ≡ NodeOutOfOrder (length (built self.now).nodes))
            × ((length (built self.now).nodes ≤ left.position)
            ⊎ (length (built self.now).nodes ≤ right.position))) }
    {
        let node = self.parts.nodes.len();
        if left.position >= node || right.position >= node {
            return Err(AirError::NodeOutOfOrder { node });
        }
        Ok(())
    }

    /// The sum of two nodes.
    ///
    /// Fails as `NodeOutOfOrder` where a handle isn't of a node that is there, and as `Memory`.
    pub fn add(&mut self, left: Expr, right: Expr) -> Result<Expr, AirError>
        ensures refused { (length (built self.old).nodes ≤ left.position)
            ⊎ (length (built self.old).nodes ≤ right.position) → IsRefusedAs
            (NodeOutOfOrder (length (built self.old).nodes)) (built self.old) (built self.new) result }
        ensures appended { left.position < length (built self.old).nodes
            → right.position < length (built self.old).nodes → IsAppended (built self.old)
            (node.Add left.position right.position) (built self.new) result }
    {
        self.check_operands(left, right)?;
        self.append(Node::Add(left.position, right.position))
    }

    /// The first node minus the second.
    ///
    /// Fails as `NodeOutOfOrder` where a handle isn't of a node that is there, and as `Memory`.
    pub fn sub(&mut self, left: Expr, right: Expr) -> Result<Expr, AirError>
        ensures refused { (length (built self.old).nodes ≤ left.position)
            ⊎ (length (built self.old).nodes ≤ right.position) → IsRefusedAs
            (NodeOutOfOrder (length (built self.old).nodes)) (built self.old) (built self.new) result }
        ensures appended { left.position < length (built self.old).nodes
            → right.position < length (built self.old).nodes → IsAppended (built self.old)
            (node.Sub left.position right.position) (built self.new) result }
    {
        self.check_operands(left, right)?;
        self.append(Node::Sub(left.position, right.position))
    }

    /// The product of two nodes.
    ///
    /// Fails as `NodeOutOfOrder` where a handle isn't of a node that is there, and as `Memory`.
    pub fn mul(&mut self, left: Expr, right: Expr) -> Result<Expr, AirError>
        ensures refused { (length (built self.old).nodes ≤ left.position)
            ⊎ (length (built self.old).nodes ≤ right.position) → IsRefusedAs
            (NodeOutOfOrder (length (built self.old).nodes)) (built self.old) (built self.new) result }
        ensures appended { left.position < length (built self.old).nodes
            → right.position < length (built self.old).nodes → IsAppended (built self.old)
            (node.Mul left.position right.position) (built self.new) result }
    {
        self.check_operands(left, right)?;
        self.append(Node::Mul(left.position, right.position))
    }

    /// The opposite of a node.
    ///
    /// Fails as `NodeOutOfOrder` where the handle isn't of a node that is there, and as `Memory`.
    pub fn neg(&mut self, of: Expr) -> Result<Expr, AirError>
        ensures refused { length (built self.old).nodes ≤ of.position → IsRefusedAs
            (NodeOutOfOrder (length (built self.old).nodes)) (built self.old) (built self.new) result }
        ensures appended { of.position < length (built self.old).nodes
            → IsAppended (built self.old) (node.Neg of.position) (built self.new) result }
    {
        self.check_operands(of, of)?;
        self.append(Node::Neg(of.position))
    }

    /// Requires a node to be 0 at the rows of a place.
    ///
    /// Fails as `ConstraintOutOfRange` where the handle isn't of a node that is there, and as
    /// `Memory`.
    pub fn assert_zero(&mut self, place: Place, of: Expr) -> Result<(), AirError>
        ensures refused { length (built self.old).nodes ≤ of.position → IsRefusedAs
            (ConstraintOutOfRange (length (built self.old).constraints)) (built self.old)
            (built self.new) result }
        ensures appended { of.position < length (built self.old).nodes → IsChanged (built self.old)
            (with_constraint (built self.old) (record { place = place; node = of.position }))
            (built self.new) result }
    {
        if of.position >= self.parts.nodes.len() {
            return Err(AirError::ConstraintOutOfRange {
                constraint: self.parts.constraints.len(),
            });
        }
        let node = of.position;
        match self.parts.constraints.push(Constraint { place, node }) {
            Ok(()) => Ok(()),
            Err(_) => Err(AirError::Memory),
        }
    }

    // Requires the node that the builder ends with to be 0 at the rows of a place, or gives up the
    // nodes from a position on.
    fn assert_last(&mut self, place: Place, of: Expr, from: usize) -> Result<(), AirError>
        requires from { from ≤ length (built self.old).nodes }
        requires there { of.position < length (built self.old).nodes }
        ensures { IsChanged (record (built self.old) { nodes = take from (built self.old).nodes })
            (with_constraint (built self.old) (record { place = place; node = of.position }))
            (built self.new) result }
    {
        match self.assert_zero(place, of) {
            Ok(()) => Ok(()),
            Err(_) => {
                self.parts.nodes.truncate(from);
                Err(AirError::Memory)
            }
        }
    }

    /// Requires two nodes to be equal at the rows of a place: their difference is appended.
    ///
    /// Fails as `NodeOutOfOrder` where a handle isn't of a node that is there, and as `Memory`.
    pub fn assert_eq(&mut self, place: Place, left: Expr, right: Expr) -> Result<(), AirError>
        ensures refused { (length (built self.old).nodes ≤ left.position)
            ⊎ (length (built self.old).nodes ≤ right.position) → IsRefusedAs
            (NodeOutOfOrder (length (built self.old).nodes)) (built self.old) (built self.new)
            result }
        ensures appended { left.position < length (built self.old).nodes
            → right.position < length (built self.old).nodes → IsChanged (built self.old)
            (with_constraint (with_node (built self.old) (node.Sub left.position right.position))
            (record { place = place; node = length (built self.old).nodes })) (built self.new)
            result }
    {
        let from = self.parts.nodes.len();
        let difference = self.sub(left, right)?;
        self.assert_last(place, difference, from)
    }

    /// Requires a node to be 0 or 1 at the rows of a place: its square is appended, and the
    /// difference of that and the node.
    ///
    /// Fails as `NodeOutOfOrder` where the handle isn't of a node that is there, and as `Memory`.
    pub fn assert_bool(&mut self, place: Place, of: Expr) -> Result<(), AirError>
        ensures refused { length (built self.old).nodes ≤ of.position → IsRefusedAs
            (NodeOutOfOrder (length (built self.old).nodes)) (built self.old) (built self.new)
            result }
        ensures appended { of.position < length (built self.old).nodes → IsChanged (built self.old)
            (with_constraint (with_bool (built self.old) of.position)
            (record { place = place; node = length (built self.old).nodes + 1 })) (built self.new)
            result }
    {
        let from = self.parts.nodes.len();
        let square = self.mul(of, of)?;
        match self.sub(square, of) {
            Ok(difference) => self.assert_last(place, difference, from),
            Err(error) => {
                self.parts.nodes.truncate(from);
                Err(error)
            }
        }
    }

    /// The AIR.
    ///
    /// Fails as [`Air::try_new`] does.
    pub fn finish(self) -> Result<Air<F>, AirError>
        ensures accepts { IfOk result (λ _. refusal (built self) ≡ None) }
        ensures same { IfOk result (λ air. air_of air ≡ built self) }
        ensures refuses { IfErr result (λ e. (e ≡ Memory) ⊎ (refusal (built self) ≡ Some e)) }
    {
        let AirBuilder { alloc, parts } = self;
        Air::try_new(alloc, parts)
    }
}
