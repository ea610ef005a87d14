//! A statement that can be proved over a scheme.
ghost use Rattle.circle_stark.specs.Provable.{IsProvable};
ghost use Rattle.circle_stark.specs.Statement.{statement_of};

use crate::proof::StarkStatement;
use crate::relation::StarkRelation;
use circle_challenger::ChallengerState;
use p3_circle::CirclePcs;
use std::marker::PhantomData;

/// A statement that can be proved over a scheme, by the tests of a prover or of a verifier, with
/// challengers of the type `C`.
#[derive(Drop)]
pub(crate) struct ProvableStatement<'a, P: StarkRelation<EF, C>, EF, C: ChallengerState> {
    /// The scheme.
    pub pcs: &'a P,
    /// The statement.
    pub statement: StarkStatement<'a, P::Entry>,
    /// The binary logarithm of the number of the quotient's chunks.
    pub log_chunks: usize,
    /// The extension and the challengers.
    pub of: PhantomData<(EF, C)>,
    /// What was tested.
    pub ghost provable: { IsProvable P.schemes.fields.two_adicity (P.schemes.params pcs.now)
        (statement_of statement) log_chunks },
}

/// Such a statement over the scheme of the circle.
pub(crate) type ProvableOver<'a, Val, EF, InputMmcs, FriMmcs, C> = ProvableStatement<
    'a,
    CirclePcs<Val, InputMmcs, FriMmcs>,
    EF,
    C,
>;
