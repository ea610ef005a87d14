//! The heights that matrices are claimed of.
ghost use Rattle.std.specs.Prelude.{◌≡◌, ◌==◌, IfOk};
ghost use Rattle.std.specs.List.{list_any};
ghost use Rattle.circle_domain.specs.Domain.{log_size};
ghost use Rattle.circle_relation.specs.Accepts.{is_claimed};
ghost use Rattle.circle_verifier.specs.OfRun.{fields_of, run_of, heights_of};

use crate::run::OpenedRun;
use circle_commit::{CommitmentOpening, MatrixOpening, Mmcs};
use circle_domain::CircleDomain;
use circle_field::{ComplexExtendable, ExtensionField};
use std::alloc::{AllocError, Global};

// Whether a matrix of a batch is claimed on a domain of `2^log_n` points.
fn batch_has_domain<F: ComplexExtendable, E>(
    matrices: &[MatrixOpening<E, CircleDomain<F>>],
    log_n: usize,
) -> bool
    ensures { result ≡ list_any (λ m. log_size m.domain == log_n) matrices.now }
{
    matrices.iter().any(|m| m.domain.log_n() == log_n)
}

/// Whether a matrix is claimed on a domain of `2^log_n` points.
pub(crate) fn has_domain<F: ComplexExtendable, E, Com>(
    claims: &[CommitmentOpening<E, Com, CircleDomain<F>>],
    log_n: usize,
) -> bool
    ensures { result ≡ list_any (λ b. list_any (λ m. log_size m.domain == log_n) b.matrices.items)
        claims.now }
{
    for batch in claims {
        if batch_has_domain(&batch.matrices, log_n) {
            return true;
        }
    }
    false
}

impl<
    Val: ComplexExtendable,
    EF: ExtensionField<Val>,
    InputMmcs: Mmcs<Val>,
    FriMmcs: Mmcs<EF>,
> OpenedRun<'_, Val, EF, InputMmcs, FriMmcs> {
    // Whether a matrix of `2^log_height` rows is claimed.
    fn is_claimed(&self, log_height: usize) -> bool
        ensures { result
            ≡ is_claimed (fields_of self.now) self.now.params.now (run_of self.now) log_height }
    {
        let log_blowup = self.params.log_blowup;
        log_height >= log_blowup && has_domain(self.claims, log_height - log_blowup)
    }

    /// The binary logarithms of all heights that matrices are claimed of, ascending, each once.
    ///
    /// Fails where memory is refused.
    pub fn claimed_heights(&self, alloc: Global) -> Result<Vec<usize>, AllocError>
        ensures { IfOk result (λ v. v.items ≡ heights_of self.now) }
    {
        let mut heights = Vec::new(alloc);
        for log_height in 0..=self.log_max_height {
            if self.is_claimed(log_height) {
                heights.push(log_height)?;
            }
        }
        Ok(heights)
    }
}
