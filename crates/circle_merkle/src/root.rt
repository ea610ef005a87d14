//! The root of a tree of which some rows are opened.
ghost use Rattle.std.specs.Prelude.{◌≡◌, ℕ, ◌+◌, ◌*◌, ◌/◌, ◌^◌, ◌<◌, ◌≤◌, ◌==◌, ◌∷◌, length, map};
ghost use Rattle.std.specs.Prelude.{drop, All, IfOk, vec_len};
ghost use Rattle.sha2.specs.Sha256.{sha256};
ghost use Rattle.circle_commit.specs.Mmcs.{greatest, heights};
ghost use Rattle.circle_merkle.specs.Tree.{rows_digest as rows_digest_of, taken_below};
ghost use Rattle.circle_merkle.specs.Walk.{siblings_of};
ghost use Rattle.circle_merkle.specs.Order.{first_places};

use crate::hashing::{Hash, joined_digest, node_digest, rows_digest};
use crate::positions::sibling;
use crate::rows::OpenedAt;
use circle_commit::{Dimensions, log2_strict};
use circle_field::ElementBytes;
use std::alloc::{AllocError, Global};

/// The digest at a known position of a level.
#[derive(Clone, Copy)]
pub struct Node {
    /// The position on its level.
    pub position: usize,
    /// The place of the first index that stands below it.
    pub place: usize,
    /// The digest there.
    pub digest: Hash,
}

/// Rows at indices, one for each of several matrices.
#[derive(Drop)]
pub struct Opening<'a, T> {
    /// The shapes of the matrices.
    pub dimensions: &'a [Dimensions],
    /// The indices, below the greatest height.
    pub indices: &'a [usize],
    /// The rows: for each index, for each matrix.
    pub opened: &'a [Vec<Vec<T>>],
    /// The greatest height.
    pub top: usize,
    ghost greatest_height: { top ≡ greatest (heights dimensions.now) },
    ghost one_each: { length opened.now ≡ length indices.now },
    ghost whole: { All (λ rows. vec_len rows ≡ length dimensions.now) opened.now },
}

impl<T: ElementBytes> Opening<'_, T> {
    ghost use Rattle.circle_merkle.specs.Opening.{IsRootOf, placed_rows, parent_in, lowest_node};
    ghost use Rattle.circle_commit.specs.Matrix.{IsPowerOfTwo};
    ghost use Rattle.circle_merkle.specs.Climb.{IsFirstOf, climbed, positions_of, left_of, lone};
    ghost use Rattle.circle_merkle.specs.Climb.{joined};

    // The digest of those of the rows at an index, named by its place, that stand on a level.
    fn rows_digest(&self, level: usize, place: usize) -> Hash
        requires { level < 64 }
        ensures { result
            ≡ rows_digest_of sha256 ((placed_rows T.bytes self.now).bytes level place) }
    {
        let height = self.top >> level;
        match self.opened.get(place) {
            Some(rows) => {
                let dimensions = self.dimensions;
                rows_digest(&OpenedAt { dimensions, rows }, height)
            }
            None => {
                let none = OpenedAt::<'_, T> {
                    dimensions: &[],
                    rows: &[],
                };
                rows_digest(&none, height)
            }
        }
    }

    // Whether rows stand on a level.
    fn has_rows(&self, level: usize) -> bool
        requires { level < 64 }
        ensures { result ≡ (placed_rows T.bytes self.now).stand level }
    {
        let height = self.top >> level;
        self.dimensions.iter().any(|dim| dim.height == height)
    }

    // The digest of the node over `left` and `right`, below which the index at a place stands.
    fn parent(&self, level: usize, has_rows: bool, place: usize, left: &Hash, right: &Hash) -> Hash
        requires small { level < 64 }
        requires rows { has_rows ≡ (placed_rows T.bytes self.now).stand level }
        ensures { result ≡ parent_in T.bytes self.now level place left.now right.now }
    {
        let node = node_digest(left, right);
        if has_rows {
            joined_digest(&node, &self.rows_digest(level, place))
        } else {
            node
        }
    }

    // The node over a pair.
    fn joined(&self, level: usize, has_rows: bool, left: &Node, right: &Node) -> Node
        requires small { level < 64 }
        requires rows { has_rows ≡ (placed_rows T.bytes self.now).stand level }
        ensures { result ≡ joined (parent_in T.bytes self.now level) left.now right.now }
    {
        let place = left.place.min(right.place);
        Node {
            position: left.position / 2,
            place,
            digest: self.parent(level, has_rows, place, &left.digest, &right.digest),
        }
    }

    // The node over one whose sibling has the given digest.
    fn lone(&self, level: usize, has_rows: bool, node: &Node, given: &Hash) -> Node
        requires small { level < 64 }
        requires rows { has_rows ≡ (placed_rows T.bytes self.now).stand level }
        ensures { result ≡ lone (parent_in T.bytes self.now level) node.now given.now }
    {
        let digest = if node.position % 2 == 0 {
            self.parent(level, has_rows, node.place, &node.digest, given)
        } else {
            self.parent(level, has_rows, node.place, given, &node.digest)
        };
        Node {
            position: node.position / 2,
            place: node.place,
            digest,
        }
    }

    // The node over the first of some, the others that it doesn't stand over, and the given digests
    // that it leaves.
    fn first_parent<'n, 'g>(
        &self,
        level: usize,
        has_rows: bool,
        node: &Node,
        others: &'n [Node],
        given: &'g [Hash],
    ) -> (Node, &'n [Node], &'g [Hash])
        requires small { level < 64 }
        requires rows { has_rows ≡ (placed_rows T.bytes self.now).stand level }
        requires enough { length (siblings_of (positions_of (node.now ∷ others.now)))
            ≤ length given.now }
        ensures shorter { length result.1.now ≤ length others.entry.now }
        ensures enough { length (siblings_of (positions_of result.1.now)) ≤ length result.2.now }
        ensures parents { IsFirstOf (parent_in T.bytes self.now level) result.0
            (node.now ∷ others.entry.now) given.entry.now result.1.now result.2.now }
        ensures left { left_of (node.now ∷ others.entry.now) given.entry.now
            ≡ left_of result.1.now result.2.now }
    {
        match others.split_first() {
            Some((next, after)) if next.position == sibling(node.position) => {
                (self.joined(level, has_rows, node, next), after, given)
            }
            _ => match given.split_first() {
                Some((digest, left)) => (self.lone(level, has_rows, node, digest), others, left),
                None => unreachable!(),
            },
        }
    }

    // The nodes of a level over those of the one below, and the given digests that it leaves.
    fn climb<'g>(
        &self,
        alloc: Global,
        level: usize,
        nodes: &[Node],
        given: &'g [Hash],
    ) -> Result<(Vec<Node>, &'g [Hash]), AllocError>
        requires small { level < 64 }
        requires enough { length (siblings_of (positions_of nodes.now)) ≤ length given.now }
        ensures parents { IfOk result (λ r. r.0.items
            ≡ climbed (parent_in T.bytes self.now level) nodes.now given.entry.now) }
        ensures rest { IfOk result (λ r. r.1.now
            ≡ drop (length (siblings_of (positions_of nodes.now))) given.entry.now) }
    {
        let has_rows = self.has_rows(level);
        let mut parents = Vec::with_capacity(alloc, nodes.len())?;
        let mut rest = nodes;
        let mut given = given;
        while let Some((node, others)) = rest.split_first() {
            let (parent, after, left) = self.first_parent(level, has_rows, node, others, given);
            parents.push(parent)?;
            rest = after;
            given = left;
        }
        Ok((parents, given))
    }

    // The nodes of the lowest level at these indices, each with its place.
    fn lowest(&self, alloc: Global, firsts: &[(usize, usize)]) -> Result<Vec<Node>, AllocError>
        ensures { IfOk result
            (λ nodes. nodes.items ≡ map (lowest_node T.bytes self.now) firsts.now) }
    {
        let mut nodes = Vec::with_capacity(alloc, firsts.len())?;
        for (position, place) in firsts {
            nodes.push(Node {
                position: *position,
                place: *place,
                digest: self.rows_digest(0, *place),
            })?;
        }
        Ok(nodes)
    }

    /// The root of the tree over the rows, with these digests for the positions that aren't known.
    ///
    /// Takes the distinct indices in ascending order, each with the place of the first that equals
    /// it. Requires at least one index, each below the greatest height, which is a power of two,
    /// and as many digests as are missing. Fails where memory is refused.
    pub fn root(
        &self,
        alloc: Global,
        firsts: &[(usize, usize)],
        proof: &[Hash],
    ) -> Result<Hash, AllocError>
        requires some { 1 ≤ length self.now.indices.now }
        requires in_range { All (λ i. i < self.now.top) self.now.indices.now }
        requires power { IsPowerOfTwo self.now.top }
        requires firsts { (levels : ℕ) → self.now.top ≡ 2 ^ levels
            → firsts.now ≡ first_places self.now.indices.now levels }
        requires count { (levels : ℕ) → self.now.top ≡ 2 ^ levels
            → length proof.now ≡ taken_below self.now.indices.now levels levels }
        ensures { IfOk result (λ root. IsRootOf T.bytes self.now proof.now root) }
    {
        let count = log2_strict(self.top);
        let mut nodes = self.lowest(alloc, firsts)?;
        let mut given = proof;
        for level in 0..count {
            let (parents, left) = self.climb(alloc, level + 1, &nodes, given)?;
            nodes = parents;
            given = left;
        }
        Ok(nodes[0].digest)
    }
}
