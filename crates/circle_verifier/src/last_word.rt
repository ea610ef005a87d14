//! The end of the queries' chains.
ghost use Rattle.std.specs.Prelude.{◌≡◌, ◌+◌, ◌^◌, ◌<◌, ◌≤◌, map, slice_index_or, OnOk, IfErr};
ghost use Rattle.circle_domain.specs.Order.{coset};
ghost use Rattle.circle_verifier.specs.OfRun.{last_values, ChainsEnd, Refuses};

use crate::checked::CheckedRun;
use circle_commit::{FriError, Mmcs};
use circle_domain::{CircleDomain, cfft_permute_index};
use circle_field::{ComplexExtendable, ExtensionField, Operations};
use circle_folding::x_value;
use circle_relation::{OverCircle, VerifierError};

/// The queries' values in the last codeword of a run.
#[derive(Drop)]
pub struct LastValues<
    'a,
    Val: Operations,
    EF: Operations + OverCircle<Val>,
    InputMmcs: Mmcs<Val>,
    FriMmcs: Mmcs<EF>,
> {
    /// The run.
    pub run: &'a CheckedRun<'a, Val, EF, InputMmcs, FriMmcs>,
    /// The value of each query.
    pub values: Vec<EF>,
    /// What the values are.
    pub ghost ends: { values.items ≡ last_values run.now.run },
}

impl<
    Val: ComplexExtendable,
    EF: ExtensionField<Val>,
    InputMmcs: Mmcs<Val>,
    FriMmcs: Mmcs<EF>,
> LastValues<'_, Val, EF, InputMmcs, FriMmcs> {
    /// Refuses a run of which some query ends in another value than that of the final polynomial at
    /// its place in the last codeword, by `FinalPolyMismatch`. Takes no memory.
    #[tactic(auto, unfolding(circle_relation::specs::Reasons::IsReason))]
    pub fn check_final(&self) -> Result<(), VerifierError<InputMmcs::Error, FriMmcs::Error>>
        ensures ended { OnOk result (ChainsEnd self.now.run.now.run) }
        ensures refused { IfErr result (Refuses self.now.run.now.run) }
    {
        let run = &self.run.run;
        let log_len = run.params.log_blowup + run.params.log_final_poly_len;
        let bits = run.log_max_height - log_len;
        let values = self.values.as_slice();
        for (j, index) in run.indices.iter().enumerate() {
            let x = x_at::<Val>(log_len, *index >> bits);
            if values[j] != x_value(&run.proof.fri_proof.final_poly, x) {
                return Err(FriError::FinalPolyMismatch);
            }
        }
        Ok(())
    }
}

// The x coordinate that an entry of a codeword of 2^log_len entries belongs to: that of every
// second point of a standard domain in the order of the transform.
fn x_at<F: ComplexExtendable>(log_len: usize, place: usize) -> F
    requires in_group { log_len + 2 ≤ F.CIRCLE_TWO_ADICITY }
    requires within { place < 2 ^ log_len }
    ensures { result ≡ slice_index_or (map (λ p. p.x)
        (coset F.ops F.generators log_len (F.generators (log_len + 2)))) place F.ops.zero }
{
    let domain = CircleDomain::<F>::standard(log_len + 1);
    domain
        .nth_point(cfft_permute_index(2 * place, log_len + 1))
        .x()
}
