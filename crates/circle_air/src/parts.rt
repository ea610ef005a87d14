//! What an AIR is made of.
ghost use Rattle.std.specs.Prelude.{◌≡◌, ◌^◌, ◌≤◌, ◌⊎◌, All, IfErr, IfOk, MatchResult};
ghost use Rattle.std.specs.Prelude.{None, Some, map, length, ◌+◌, [], false};
ghost use Rattle.circle_air.specs.Degrees.{degree as degree_of, degrees as degrees_of};
ghost use Rattle.circle_air.specs.Degrees.{greatest_degree as greatest_of};
ghost use Rattle.circle_air.specs.Parts.{parts_of};
ghost use Rattle.circle_air.specs.Refusal.{constraints_refusal, is_out_of_order, lacks_column};
ghost use Rattle.circle_air.specs.Refusal.{lacks_periodic, lacks_public, node_refusal};
ghost use Rattle.circle_air.specs.Refusal.{nodes_refusal, periods_refusal};
ghost use Rattle.circle_air.specs.declared.error.AirError.TheVariants.{Memory};

use crate::error::AirError;
use crate::node::{Constraint, Node};
use std::alloc::{AllocError, Global};

/// The greatest degree that a node may have.
const MAX_DEGREE: usize = 1 << 30;

/// What an AIR is made of, before it is tested.
#[derive(Drop)]
pub struct AirParts<F> {
    /// The number of columns.
    pub width: usize,
    /// The number of public values.
    pub num_public_values: usize,
    /// The columns that repeat, each for one period.
    pub periodic_columns: Vec<Vec<F>>,
    /// The steps, each after its operands.
    pub nodes: Vec<Node<F>>,
    /// The constraints.
    pub constraints: Vec<Constraint>,
}

impl<F> AirParts<F> {
    // Whether the node reads a column that isn't there.
    fn lacks_column(&self, node: &Node<F>) -> bool
        ensures { result ≡ lacks_column (parts_of self.now) node.now }
    {
        match node {
            Node::Local(column) | Node::Next(column) => *column >= self.width,
            _ => false,
        }
    }

    // Whether the node reads a periodic column that isn't there.
    fn lacks_periodic(&self, node: &Node<F>) -> bool
        ensures { result ≡ lacks_periodic (parts_of self.now) node.now }
    {
        match node {
            Node::Periodic(column) => *column >= self.periodic_columns.len(),
            _ => false,
        }
    }

    // Whether the node reads a public value that isn't there.
    fn lacks_public(&self, node: &Node<F>) -> bool
        ensures { result ≡ lacks_public (parts_of self.now) node.now }
    {
        match node {
            Node::Public(index) => *index >= self.num_public_values,
            _ => false,
        }
    }

    // Tests the node that stands behind nodes of these degrees, and returns its own.
    fn checked_degree(&self, node: &Node<F>, earlier: &[usize]) -> Result<usize, AirError>
        requires { All (λ d. d ≤ 2 ^ 30) earlier.now }
        ensures accepts { IfOk result (λ _.
            node_refusal (parts_of self.now) earlier.now node.now ≡ None) }
        ensures degree { IfOk result (λ d. d ≡ degree_of earlier.now node.now) }
        ensures small { IfOk result (λ d. d ≤ 2 ^ 30) }
        ensures refuses { IfErr result (λ e.
            node_refusal (parts_of self.now) earlier.now node.now ≡ Some e) }
    {
        let position = earlier.len();
        if node.is_out_of_order(position) {
            return Err(AirError::NodeOutOfOrder { node: position });
        }
        if self.lacks_column(node) {
            return Err(AirError::ColumnOutOfRange { node: position });
        }
        if self.lacks_periodic(node) {
            return Err(AirError::PeriodicOutOfRange { node: position });
        }
        if self.lacks_public(node) {
            return Err(AirError::PublicOutOfRange { node: position });
        }
        let degree = degree(node, earlier);
        if degree > MAX_DEGREE {
            return Err(AirError::DegreeTooHigh { node: position });
        }
        Ok(degree)
    }

    // The degrees of the nodes, in order. The first node that is refused is refused.
    #[tactic(auto, using(crate::proofs::Nodes::refusal_more, crate::proofs::Nodes::degrees_more))]
    pub(crate) fn checked_degrees(&self, alloc: Global) -> Result<Vec<usize>, AirError>
        ensures accepts { IfOk result (λ _.
            nodes_refusal (parts_of self.now) [] (parts_of self.now).nodes ≡ None) }
        ensures degrees { IfOk result (λ ds. ds.items ≡ degrees_of (parts_of self.now).nodes) }
        ensures count { IfOk result (λ ds. length ds.items ≡ length (parts_of self.now).nodes) }
        ensures small { IfOk result (λ ds. All (λ d. d ≤ 2 ^ 30) ds.items) }
        ensures refuses { IfErr result (λ e. (e ≡ Memory)
            ⊎ (nodes_refusal (parts_of self.now) [] (parts_of self.now).nodes ≡ Some e)) }
    {
        let mut degrees = Vec::with_capacity(alloc, self.nodes.len())?;
        for node in &self.nodes {
            let degree = self.checked_degree(node, &degrees)?;
            degrees.push(degree).map_err(AllocError::from)?;
        }
        Ok(degrees)
    }
}

// The node's degree, by those of the earlier nodes.
fn degree<F>(node: &Node<F>, earlier: &[usize]) -> usize
    requires order { is_out_of_order (length earlier.now) node.now ≡ false }
    requires small { All (λ d. d ≤ 2 ^ 30) earlier.now }
    ensures { result ≡ degree_of earlier.now node.now }
{
    match node {
        Node::Local(_) | Node::Next(_) | Node::Periodic(_) => 1,
        Node::Public(_) | Node::Constant(_) => 0,
        Node::Add(a, b) | Node::Sub(a, b) => earlier[*a].max(earlier[*b]),
        Node::Mul(a, b) => earlier[*a] + earlier[*b],
        Node::Neg(a) => earlier[*a],
    }
}

// The first periodic column whose length isn't a power of two is refused.
pub(crate) fn check_periods<F>(columns: &[Vec<F>]) -> Result<(), AirError>
    ensures { MatchResult result
        (λ _. periods_refusal 0 (map (λ column. column.items) columns.now) ≡ None)
        (λ e. periods_refusal 0 (map (λ column. column.items) columns.now) ≡ Some e) }
{
    for (column, values) in columns.iter().enumerate() {
        if !values.len().is_power_of_two() {
            return Err(AirError::PeriodicLength { column });
        }
    }
    Ok(())
}

// The greatest degree of the constraints. The first on a node that isn't there is refused.
pub(crate) fn checked_greatest_degree(
    constraints: &[Constraint],
    degrees: &[usize],
) -> Result<usize, AirError>
    requires { All (λ d. d ≤ 2 ^ 30) degrees.now }
    ensures accepts { IfOk result (λ _.
        constraints_refusal (length degrees.now) 0 constraints.now ≡ None) }
    ensures degree { IfOk result (λ d. d ≡ greatest_of degrees.now constraints.now) }
    ensures small { IfOk result (λ d. d ≤ 2 ^ 30 + 1) }
    ensures refuses { IfErr result (λ e.
        constraints_refusal (length degrees.now) 0 constraints.now ≡ Some e) }
{
    let mut greatest = 0;
    for (constraint, &Constraint { place, node }) in constraints.iter().enumerate() {
        if node >= degrees.len() {
            return Err(AirError::ConstraintOutOfRange { constraint });
        }
        greatest = greatest.max(degrees[node] + place.selector_degree());
    }
    Ok(greatest)
}
