//! What a prover opens at the drawn point.
ghost use Rattle.std.specs.Prelude.{◌≡◌, ◌∷◌, [], All, IfOk, length, map, replicate, vec_len};
ghost use Rattle.circle_commit.specs.Honest.{requested_points};
ghost use Rattle.circle_commit.specs.Pcs.{openings};
ghost use Rattle.circle_stark.specs.Opened.{IsOpenedOf, opened_lists};
ghost use Rattle.circle_stark.specs.Statement.{values_of};

use crate::claims::OpenedPoints;
use crate::lists::{both, only, pair, single};
use crate::proof::StarkOpenedValues;
use circle_commit::{OpenedValues, OpenedValuesForMatrix, OpeningRequest};
use std::alloc::{AllocError, Global};

/// What a prover keeps of the trace and of its quotient.
#[derive(Drop)]
pub(crate) struct KeptData<'a, ProverData> {
    /// Of the trace.
    pub trace: &'a ProverData,
    /// Of the quotient's chunks.
    pub quotient: &'a ProverData,
}

// Points for each of a number of matrices: the same one of each.
fn points_of_chunks<E: Copy>(
    alloc: Global,
    num_chunks: usize,
    point: E,
) -> Result<Vec<Vec<E>>, AllocError>
    ensures { IfOk result (λ points. map (λ v. v.items) points.items
        ≡ replicate num_chunks (point ∷ [])) }
{
    let mut points = Vec::with_capacity(alloc, num_chunks)?;
    for _chunk in 0..num_chunks {
        points.push(single(alloc, point)?)?;
    }
    Ok(points)
}

/// Requests for the trace at both points, and for each chunk of the quotient at the first.
pub(crate) fn requests_at<'a, E: Copy, D>(
    alloc: Global,
    kept: KeptData<'a, D>,
    num_chunks: usize,
    points: OpenedPoints<E>,
) -> Result<Vec<OpeningRequest<'a, D, E>>, AllocError>
    ensures kept { IfOk result (λ v. map (λ r. r.prover_data.now) v.items
        ≡ kept.entry.trace.now ∷ kept.entry.quotient.now ∷ []) }
    ensures points { IfOk result (λ v. map requested_points v.items
        ≡ ((points.zeta ∷ points.next ∷ []) ∷ [])
        ∷ replicate num_chunks (points.zeta ∷ []) ∷ []) }
{
    let KeptData { trace, quotient } = kept;
    let of_trace = OpeningRequest {
        prover_data: trace,
        points: single(alloc, pair(alloc, points.zeta, points.next)?)?,
    };
    let of_quotient = OpeningRequest {
        prover_data: quotient,
        points: points_of_chunks(alloc, num_chunks, points.zeta)?,
    };
    pair(alloc, of_trace, of_quotient)
}

// The values of the chunks, each opened at one point.
fn chunk_values<E: Copy>(
    alloc: Global,
    chunks: Vec<OpenedValuesForMatrix<E>>,
) -> Result<Vec<Vec<E>>, AllocError>
    requires { All (λ chunk. vec_len chunk ≡ 1) chunks.items }
    ensures { IfOk result (λ values. map (λ chunk. map (λ v. v.items) chunk.items) chunks.items
        ≡ map (λ v. v.items ∷ []) values.items) }
{
    let mut values = Vec::with_capacity(alloc, chunks.len())?;
    for chunk in chunks {
        values.push(only(chunk))?;
    }
    Ok(values)
}

/// The opened values of requests that [`requests_at`] returns.
///
/// Requires a value for each of their points.
pub(crate) fn values_of_openings<E: Copy>(
    alloc: Global,
    values: OpenedValues<E>,
) -> Result<StarkOpenedValues<E>, AllocError>
    requires { IsOpenedOf (openings values.items) }
    ensures { IfOk result (λ v. openings values.items ≡ opened_lists (values_of v)) }
{
    let (trace, quotient) = both(values);
    let (trace_local, trace_next) = both(only(trace));
    let quotient_chunks = chunk_values(alloc, quotient)?;
    Ok(StarkOpenedValues {
        trace_local,
        trace_next,
        quotient_chunks,
    })
}
