//! Why opened rows are refused.
ghost use Rattle.std.specs.Prelude.{◌≡◌};
ghost use Rattle.circle_merkle.specs.Named.{merkle_name};
ghost use Rattle.circle_merkle.specs.declared.error.MerkleTreeError.TheVariants.{Memory};

use std::alloc::AllocError;
use thiserror::Error;

/// Why opened rows are refused: the first that holds, in the order WrongWidth, WrongIndex,
/// DisagreeingRows, WrongProofLength, RootMismatch.
#[derive(Clone, Copy, Debug, Drop, Error, PartialEq, Eq)]
pub enum MerkleTreeError {
    /// There are no indices, one isn't below the greatest height, or there isn't one list of rows
    /// for each.
    #[error("an index is out of range, or not each has its rows")]
    WrongIndex,
    /// There are no shapes, a height isn't a power of two, or some rows don't have the shapes'
    /// widths.
    #[error("the rows don't have the shapes of the matrices")]
    WrongWidth,
    /// The proof doesn't have as many digests as the indices leave open.
    #[error("the proof has a wrong number of digests")]
    WrongProofLength,
    /// Two different rows are given for one row of a matrix.
    #[error("two different rows stand at one position")]
    DisagreeingRows,
    /// The rows and the proof give another root than the commitment.
    #[error("the root is not the commitment")]
    RootMismatch,
    /// Memory was refused.
    #[error("out of memory")]
    Memory,
}

impl MerkleTreeError {
    /// The variant's name.
    pub fn name(&self) -> &'static str
        ensures { result.now ≡ merkle_name self.now }
    {
        match self {
            MerkleTreeError::WrongIndex => "WrongIndex",
            MerkleTreeError::WrongWidth => "WrongWidth",
            MerkleTreeError::WrongProofLength => "WrongProofLength",
            MerkleTreeError::DisagreeingRows => "DisagreeingRows",
            MerkleTreeError::RootMismatch => "RootMismatch",
            MerkleTreeError::Memory => "Memory",
        }
    }
}

impl From<AllocError> for MerkleTreeError {
    ghost from_gives = { λ _ e. e ≡ Memory };

    fn from(_refused: AllocError) -> MerkleTreeError {
        MerkleTreeError::Memory
    }
}
