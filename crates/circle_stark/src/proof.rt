//! What is proved, and what a proof is made of.

use circle_air::Air;
use circle_commit::Mmcs;
use circle_field::Field;
use circle_relation::CirclePcsProof;

/// What a proof is of: rows of a trace satisfy an AIR. All of it is the verifier's own.
#[derive(Clone, Copy)]
pub struct StarkStatement<'a, Val> {
    /// The constraints.
    pub air: &'a Air<Val>,
    /// The binary logarithm of the trace's height.
    pub log_n: usize,
    /// The public values.
    pub public_values: &'a [Val],
}

/// The values that a proof opens at the drawn point.
#[derive(Drop)]
pub struct StarkOpenedValues<EF> {
    /// The columns of the trace.
    pub trace_local: Vec<EF>,
    /// The columns of the trace at the next point.
    pub trace_next: Vec<EF>,
    /// For each chunk of the quotient its columns, one for each coefficient of an element.
    pub quotient_chunks: Vec<Vec<EF>>,
}

/// A proof that some rows of a trace satisfy an AIR.
///
/// `InputMmcs` commits to the trace and to the quotient, `FriMmcs` to the codewords of the opening.
#[derive(Drop)]
pub struct StarkProof<Val: Field, EF: Field, InputMmcs: Mmcs<Val>, FriMmcs: Mmcs<EF>> {
    /// The commitment to the trace.
    pub trace_commitment: InputMmcs::Commitment,
    /// The commitment to the quotient's chunks.
    pub quotient_commitment: InputMmcs::Commitment,
    /// The opened values.
    pub opened_values: StarkOpenedValues<EF>,
    /// The proof that they are those of the committed polynomials.
    pub opening_proof: CirclePcsProof<Val, EF, InputMmcs, FriMmcs, Val>,
}
