//! Why parts make no AIR.
use std::alloc::AllocError;
use thiserror::Error;

/// Why parts make no AIR.
#[derive(Clone, Copy, Debug, Drop, Error, PartialEq, Eq)]
pub enum AirError {
    /// There are no columns.
    #[error("there are no columns")]
    NoColumns,
    /// The length of a periodic column isn't a power of two.
    #[error("the length of periodic column {column} isn't a power of two")]
    PeriodicLength {
        /// The periodic column.
        column: usize,
    },
    /// An operand of a node isn't an earlier node.
    #[error("an operand of node {node} isn't an earlier node")]
    NodeOutOfOrder {
        /// The node.
        node: usize,
    },
    /// A node reads a column that isn't there.
    #[error("node {node} reads a column that isn't there")]
    ColumnOutOfRange {
        /// The node.
        node: usize,
    },
    /// A node reads a periodic column that isn't there.
    #[error("node {node} reads a periodic column that isn't there")]
    PeriodicOutOfRange {
        /// The node.
        node: usize,
    },
    /// A node reads a public value that isn't there.
    #[error("node {node} reads a public value that isn't there")]
    PublicOutOfRange {
        /// The node.
        node: usize,
    },
    /// The degree of a node is above `2^30`.
    #[error("the degree of node {node} is above 2^30")]
    DegreeTooHigh {
        /// The node.
        node: usize,
    },
    /// There are no constraints.
    #[error("there are no constraints")]
    NoConstraints,
    /// A constraint is on a node that isn't there.
    #[error("constraint {constraint} is on a node that isn't there")]
    ConstraintOutOfRange {
        /// The constraint.
        constraint: usize,
    },
    /// An allocation was refused.
    #[error("out of memory")]
    Memory,
}

impl From<AllocError> for AirError {
    ghost use Rattle.std.specs.Prelude.{◌≡◌};
    ghost use Rattle.circle_air.specs.declared.error.AirError.TheVariants.{Memory};

    ghost from_gives = { λ _ error. error ≡ Memory };

    fn from(_refused: AllocError) -> AirError {
        AirError::Memory
    }
}
