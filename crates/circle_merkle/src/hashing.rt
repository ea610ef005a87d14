//! The digests of rows and of nodes.
ghost use Rattle.std.specs.Prelude.{◌≡◌, ℕ, ◌<◌, List, ◌∷◌, ◌++◌};
ghost use Rattle.std.specs.List.{flat_map};
ghost use Rattle.sha2.specs.Hashers.{Holds256};
ghost use Rattle.sha2.specs.Sha256.{sha256};
ghost use Rattle.circle_merkle.specs.Tree.{node_digest as node_digest_of};
ghost use Rattle.circle_merkle.specs.Tree.{rows_digest as rows_digest_of};
ghost use Rattle.circle_merkle.specs.Rows.{bytes_of_height};

pub use crate::lanes::Hash;
use crate::rows::RowOfEach;
use circle_field::ElementBytes;
use sha2::{Digest, Sha256};

// Adds the bytes of a row's entries to the message.
fn absorb_row<T: ElementBytes>(hasher: &mut Sha256, row: &[T])
    ensures { (m : List ℕ) → Holds256 hasher.old m
        → Holds256 hasher.new (m ++ flat_map T.bytes row.now) }
{
    for entry in row {
        hasher.update(entry.to_bytes());
    }
}

// Adds the bytes of those of the rows whose matrices have this height to the message.
fn absorb_rows<T: ElementBytes, R: RowOfEach<T>>(hasher: &mut Sha256, rows: &R, height: usize)
    ensures { (m : List ℕ) → Holds256 hasher.old m → Holds256 hasher.new
        (m ++ bytes_of_height T.bytes (R.dimensions rows.now) height (R.rows rows.now)) }
{
    for j in 0..rows.count() {
        if rows.height(j) == height {
            absorb_row(hasher, rows.row(j));
        }
    }
}

/// The digest of those of the rows whose matrices have this height.
pub fn rows_digest<T: ElementBytes, R: RowOfEach<T>>(rows: &R, height: usize) -> Hash
    ensures { result ≡ rows_digest_of sha256
        (bytes_of_height T.bytes (R.dimensions rows.now) height (R.rows rows.now)) }
{
    let mut hasher = Sha256::new();
    hasher.update([0u8].as_slice());
    absorb_rows(&mut hasher, rows, height);
    hasher.finalize()
}

/// The digest of two digests behind a byte.
pub fn digest_of_pair(first: u8, left: &Hash, right: &Hash) -> Hash
    ensures { result ≡ sha256 ((first ∷ left.now) ++ right.now) }
{
    let mut hasher = Sha256::new();
    hasher.update([first].as_slice());
    hasher.update(left.as_slice());
    hasher.update(right.as_slice());
    hasher.finalize()
}

/// The digest of a node with these two below it.
pub fn node_digest(left: &Hash, right: &Hash) -> Hash
    ensures { result ≡ node_digest_of sha256 left.now right.now }
{
    digest_of_pair(1, left, right)
}

/// The digest of a node at whose position rows of this digest stand too.
pub fn joined_digest(node: &Hash, rows: &Hash) -> Hash
    ensures { result ≡ sha256 ((2 ∷ node.now) ++ rows.now) }
{
    digest_of_pair(2, node, rows)
}
