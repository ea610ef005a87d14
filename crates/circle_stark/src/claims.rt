//! The claims of a proof at the drawn point.
ghost use Rattle.std.specs.Prelude.{◌≡◌, [], ◌∷◌, IfOk, map};
ghost use Rattle.circle_domain.specs.Domain.{log_size};
ghost use Rattle.circle_relation.specs.StatementOf.{batch_claims, matrix_claims, point_claim};
ghost use Rattle.circle_relation.specs.StatementOf.{matrix_claim};
ghost use Rattle.circle_stark.specs.Claims.{at, claimed, claims_at};
ghost use Rattle.circle_stark.specs.Statement.{proved_of};

use crate::lists::{pair, single};
use crate::proof::StarkProof;
use circle_commit::{CommitmentOpening, MatrixOpening, Mmcs, PointOpening};
use circle_domain::CircleDomain;
use circle_field::{ComplexExtendable, ExtensionField};
use circle_point::{Neutral, Point};
use std::alloc::{AllocError, Global};

/// The points that a trace is opened at, each by its coordinate.
#[derive(Clone, Copy)]
pub(crate) struct OpenedPoints<EF> {
    /// The drawn point.
    pub zeta: EF,
    /// The next point.
    pub next: EF,
}

// A domain of `2^log_n` points. Of a claimed domain only its size counts.
fn domain_of_size<F: ComplexExtendable>(log_n: usize) -> CircleDomain<F>
    ensures { log_size result ≡ log_n }
{
    CircleDomain::new(log_n, Point::ZERO)
}

// The claim that these are the values at a point.
fn claim<E: Copy>(alloc: Global, point: E, values: &[E]) -> Result<PointOpening<E>, AllocError>
    ensures { IfOk result (λ c. point_claim c ≡ at point values.now) }
{
    let values = Vec::from_slice(alloc, values)?;
    Ok(PointOpening { point, values })
}

// The claims of the trace's columns at both points.
fn trace_claims<F: ComplexExtendable, E: Copy>(
    alloc: Global,
    log_n: usize,
    local: PointOpening<E>,
    next: PointOpening<E>,
) -> Result<Vec<MatrixOpening<E, CircleDomain<F>>>, AllocError>
    ensures { IfOk result (λ ms. matrix_claims ms.items
        ≡ claimed log_n (point_claim local ∷ point_claim next ∷ []) ∷ []) }
{
    let claim = MatrixOpening {
        domain: domain_of_size(log_n),
        points: pair(alloc, local, next)?,
    };
    single(alloc, claim)
}

// The claim of a chunk's columns at a point.
fn chunk_claim<F: ComplexExtendable, E: Copy>(
    alloc: Global,
    log_n: usize,
    point: E,
    chunk: &[E],
) -> Result<MatrixOpening<E, CircleDomain<F>>, AllocError>
    ensures { IfOk result (λ m. matrix_claim m ≡ claimed log_n (at point chunk.now ∷ [])) }
{
    let points = single(alloc, claim(alloc, point, chunk)?)?;
    Ok(MatrixOpening {
        domain: domain_of_size(log_n),
        points,
    })
}

// The claims of the chunks' columns at a point.
fn chunk_claims<F: ComplexExtendable, E: Copy>(
    alloc: Global,
    log_n: usize,
    point: E,
    chunks: &[Vec<E>],
) -> Result<Vec<MatrixOpening<E, CircleDomain<F>>>, AllocError>
    ensures { IfOk result (λ ms. matrix_claims ms.items
        ≡ map (λ chunk. claimed log_n (at point chunk ∷ [])) (map (λ chunk. chunk.items)
        chunks.now)) }
{
    let mut claims = Vec::with_capacity(alloc, chunks.len())?;
    for chunk in chunks {
        claims.push(chunk_claim(alloc, log_n, point, chunk)?)?;
    }
    Ok(claims)
}

/// The claims of a proof: the trace at both points, and each chunk of the quotient at the first.
/// Fails where memory is refused.
pub(crate) fn claims_of<
    Val: ComplexExtendable,
    EF: ExtensionField<Val>,
    InputMmcs: Mmcs<Val>,
    FriMmcs: Mmcs<EF>,
>(
    alloc: Global,
    log_n: usize,
    proof: &StarkProof<Val, EF, InputMmcs, FriMmcs>,
    points: OpenedPoints<EF>,
) -> Result<Vec<CommitmentOpening<EF, InputMmcs::Commitment, CircleDomain<Val>>>, AllocError>
where
    InputMmcs::Commitment: Copy,
    ensures { IfOk result (λ claims. batch_claims claims.items
        ≡ claims_at log_n (proved_of proof.now) points.zeta points.next) }
{
    let values = &proof.opened_values;
    let local = claim(alloc, points.zeta, &values.trace_local)?;
    let next = claim(alloc, points.next, &values.trace_next)?;
    let trace = CommitmentOpening {
        commitment: proof.trace_commitment,
        matrices: trace_claims(alloc, log_n, local, next)?,
    };
    let quotient = CommitmentOpening {
        commitment: proof.quotient_commitment,
        matrices: chunk_claims(alloc, log_n, points.zeta, &values.quotient_chunks)?,
    };
    pair(alloc, trace, quotient)
}
