//! The trait of schemes for STARKs over one trace.
ghost use Rattle.std.specs.Prelude.{◌≡◌, ℕ, List, IfOk, IfErr};
ghost use Rattle.circle_commit.specs.PeriodicLdeTable.{columns_of};
ghost use Rattle.circle_commit.specs.declared.matrix.RowMajorMatrix.{RowMajorMatrix};
ghost use Rattle.circle_commit.specs.declared.periodic.PeriodicLdeTable.{PeriodicLdeTable};

use crate::scheme::Pcs;
use crate::{PeriodicLdeTable, PolynomialSpace, RowMajorMatrix};
use circle_challenger::ChallengerState;
use circle_field::ExtensionField;
use std::alloc::Global;
use std::fmt::Debug;

/// What a STARK over one trace also requires of a scheme: matrices that are committed to as they
/// are, what a committed matrix is on another domain, and periodic columns.
pub trait UnivariateStarkPcs<Challenge, Challenger: ChallengerState>: Pcs<Challenge, Challenger>
where
    Challenge: ExtensionField<<Self::Domain as PolynomialSpace>::Val>,
{
    /// Whether what is opened hides the rest of what was committed to.
    const ZK: bool;

    /// Why there is no table of periodic columns.
    type PeriodicError: Debug + Drop;

    ghost log_max_trace_height: { Self → ℕ };

    ghost log_min_trace_height: { Self → ℕ };

    ghost get_quotient_ldes_gives: { Self → List (Self.Domain × RowMajorMatrix Self.Domain.Val)
        → List (RowMajorMatrix Self.Domain.Val) → Type 0 };

    ghost get_quotient_ldes_refuses: { Self → List (Self.Domain × RowMajorMatrix Self.Domain.Val)
        → Self.ProverError → Type 0 };

    ghost commit_ldes_asks: { Self → List (RowMajorMatrix Self.Domain.Val) → Type 0 };

    ghost commit_ldes_gives: { Self → List (RowMajorMatrix Self.Domain.Val) → Self.Commitment
        → Self.ProverData → Type 0 };

    ghost commit_ldes_refuses: { Self → List (RowMajorMatrix Self.Domain.Val)
        → Self.ProverError → Type 0 };

    ghost get_evaluations_on_domain_asks: { Self → Self.ProverData → ℕ → Self.Domain → Type 0 };

    ghost get_evaluations_on_domain_gives: { Self → Self.ProverData → ℕ → Self.Domain
        → RowMajorMatrix Self.Domain.Val → Type 0 };

    ghost get_evaluations_on_domain_refuses: { Self → Self.ProverData → ℕ → Self.Domain
        → Self.ProverError → Type 0 };

    ghost build_periodic_lde_table_asks: { Self → Self.Domain → Self.Domain → Type 0 };

    ghost build_periodic_lde_table_gives: { Self → List (List Self.Domain.Val) → Self.Domain
        → Self.Domain → PeriodicLdeTable Self.Domain.Val → Type 0 };

    ghost build_periodic_lde_table_refuses: { Self → List (List Self.Domain.Val) → Self.Domain
        → Self.Domain → Self.PeriodicError → Type 0 };

    /// The binary logarithm of the greatest number of rows that a trace can have.
    fn log_max_trace_height(&self) -> usize
        ensures { result ≡ log_max_trace_height self.now };

    /// The binary logarithm of the least number of rows that a trace can have.
    fn log_min_trace_height(&self) -> usize
        ensures { result ≡ log_min_trace_height self.now };

    /// The matrices that [`commit`](Pcs::commit) would commit to, uncommitted: of the chunks of a
    /// quotient, of which there are `num_chunks`. Requires what `commit` requires. Fails where
    /// memory is refused.
    fn get_quotient_ldes(
        &self,
        alloc: Global,
        evaluations: Vec<
            (
                Self::Domain,
                RowMajorMatrix<<Self::Domain as PolynomialSpace>::Val>,
            ),
        >,
        num_chunks: usize,
    ) -> Result<Vec<RowMajorMatrix<<Self::Domain as PolynomialSpace>::Val>>, Self::ProverError>
        requires { Self.commit_asks self.now evaluations.items }
        ensures made { IfOk result (λ r. get_quotient_ldes_gives self.now evaluations.items
            r.items) }
        ensures refused { IfErr result (get_quotient_ldes_refuses self.now evaluations.items) };

    /// Commits to matrices as they are. Fails where memory is refused.
    fn commit_ldes(
        &self,
        alloc: Global,
        ldes: Vec<RowMajorMatrix<<Self::Domain as PolynomialSpace>::Val>>,
    ) -> Result<(Self::Commitment, Self::ProverData), Self::ProverError>
        requires { commit_ldes_asks self.now ldes.items }
        ensures committed { IfOk result (λ r. commit_ldes_gives self.now ldes.items r.0 r.1) }
        ensures refused { IfErr result (commit_ldes_refuses self.now ldes.items) };

    /// The values on a domain of the polynomials that the matrix at the index commits to. Fails
    /// where memory is refused.
    fn get_evaluations_on_domain(
        &self,
        alloc: Global,
        prover_data: &Self::ProverData,
        idx: usize,
        domain: Self::Domain,
    ) -> Result<RowMajorMatrix<<Self::Domain as PolynomialSpace>::Val>, Self::ProverError>
        requires { get_evaluations_on_domain_asks self.now prover_data.now idx domain }
        ensures values { IfOk result (get_evaluations_on_domain_gives self.now prover_data.now idx
            domain) }
        ensures refused { IfErr result (get_evaluations_on_domain_refuses self.now
            prover_data.now idx domain) };

    /// The values of periodic columns of a trace at the points of an extension of its domain. Fails
    /// where memory is refused.
    fn build_periodic_lde_table(
        &self,
        alloc: Global,
        periodic_cols: &[Vec<<Self::Domain as PolynomialSpace>::Val>],
        trace_domain: Self::Domain,
        quotient_domain: Self::Domain,
    ) -> Result<PeriodicLdeTable<<Self::Domain as PolynomialSpace>::Val>, Self::PeriodicError>
        requires { build_periodic_lde_table_asks self.now trace_domain quotient_domain }
        ensures table { IfOk result (build_periodic_lde_table_gives self.now
            (columns_of periodic_cols.now) trace_domain quotient_domain) }
        ensures refusal { IfErr result (build_periodic_lde_table_refuses self.now
            (columns_of periodic_cols.now) trace_domain quotient_domain) };

    // What is committed to as the matrices of a batch is a commitment to the batch.
    ghost ldes_commit: { (pcs : Self) (batch : List (Self.Domain × RowMajorMatrix Self.Domain.Val))
        (ldes : List (RowMajorMatrix Self.Domain.Val)) (commitment : Self.Commitment)
        (kept : Self.ProverData) → get_quotient_ldes_gives pcs batch ldes
        → commit_ldes_gives pcs ldes commitment kept
        → Self.commits pcs batch commitment kept };
}
