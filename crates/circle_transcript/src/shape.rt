//! The shape of a run, which fixes its transcript.
ghost use Rattle.std.specs.Prelude.{◌≡◌, ◌↔◌, IsTrue, ◌-◌, ◌+◌, ◌<◌, ◌≤◌, ◌^◌, [], ◌∷◌, ◌++◌, IfOk};
ghost use Rattle.std.specs.Prelude.{OnOk, map, flat_map, length, codes};
ghost use Rattle.circle_challenger.specs.Interaction.{step_of};
ghost use Rattle.circle_challenger.specs.Step.{be64, step};
ghost use Rattle.circle_challenger.specs.declared.interaction.Hierarchy.TheVariants.{Atomic};
ghost use Rattle.circle_challenger.specs.declared.interaction.ValueType.TheVariants.{Algebra};
ghost use Rattle.circle_transcript.specs.Shape.{Shape, claim_steps, batch_steps, first_layer_steps};
ghost use Rattle.circle_transcript.specs.Shape.{round_steps, rounds_steps, final_poly_step};
ghost use Rattle.circle_transcript.specs.Shape.{query_steps, steps_of, pow_steps};
ghost use Rattle.circle_transcript.specs.Shape.{guarded_challenge_steps, widths_in, batch_layout};
ghost use Rattle.circle_transcript.specs.Shape.{layout, version_of, separator_of, text_of};
ghost use Rattle.circle_transcript.specs.Shape.{labels_of};
ghost use Rattle.circle_transcript.specs.Shape.{IsSameRun};
ghost use Rattle.circle_transcript.specs.ShapeOf.{Appends, matrices_of, batches_of};

use circle_challenger::{
    DomainSeparator, Hierarchy, Interaction, InteractionPattern, Kind, Length,
};
use circle_commit::FriParameters;
use circle_field::{ExtensionField, Field};
use std::alloc::{AllocError, Global};

/// The version that the seed names.
const VERSION: u8 = 1;

/// The version that the seed names where the final polynomial has several coefficients.
const VERSION_OF_SEVERAL: u8 = 2;

/// The protocol's name in the seed.
const NAME: &str = "p3-circle-pcs";

/// The step of an opening point's coordinates.
pub const OPENING_POINT: &str = "opening_point";

/// The step of the values claimed at an opening point.
pub const OPENED_VALUES: &str = "opened_values";

/// The proof of work before the batching challenge.
pub const BATCH_POW: &str = "batch_pow";

/// The challenge that batches the claims.
pub const BATCH_CHALLENGE: &str = "batch_challenge";

/// The commitment to the first layer.
pub const FIRST_LAYER_COMMITMENT: &str = "first_layer_commitment";

/// The challenge that folds the first, bivariate layer.
pub const BIVARIATE_CHALLENGE: &str = "bivariate_challenge";

/// The commitment of a round.
pub const COMMITMENT: &str = "commit_phase_commitment";

/// The proof of work before a folding challenge.
pub const COMMIT_POW: &str = "commit_pow";

/// The folding challenge of a round.
pub const FOLD_CHALLENGE: &str = "fold_challenge";

/// The coefficients of the final polynomial.
pub const FINAL_POLY: &str = "final_poly";

/// The proof of work before the query indices.
pub const QUERY_POW: &str = "query_pow";

/// The query indices.
pub const QUERY_INDICES: &str = "query_indices";

/// The number of coordinates of a point.
const POINT_COORDINATES: usize = 2;

/// The numbers that fix the transcript of one run of the scheme.
///
/// Both sides make it of their own parameters and of the claims, never of a proof.
#[derive(PartialEq, Eq, Debug, Drop)]
pub struct CirclePcsShape {
    /// The number of columns of every claim, by batch, matrix and point. A matrix that is opened at
    /// no point has an empty list.
    pub opened_widths: Vec<Vec<Vec<usize>>>,
    /// The number of rounds that fold the codeword after the first layer.
    pub num_commit_rounds: usize,
    /// The difficulty, in bits, of the proof of work before the batching challenge.
    pub batch_pow_bits: usize,
    /// The difficulty, in bits, of the proof of work before each folding challenge.
    pub commit_pow_bits: usize,
    /// The difficulty, in bits, of the proof of work before the query indices.
    pub query_pow_bits: usize,
    /// The number of query indices.
    pub num_queries: usize,
    /// The number of bits of each query index.
    pub index_bits: usize,
    /// The binary logarithm of the blowup.
    pub log_blowup: usize,
    /// The binary logarithm of the number of coefficients of the final polynomial.
    pub log_final_poly_len: usize,
}

impl CirclePcsShape {
    ghost use Rattle.circle_transcript.specs.ShapeOf.{shape_of, shape_for};

    /// The shape of a run with these parameters, over claims of these numbers of columns, where
    /// `log_max_height` is the logarithm of the greatest committed height and the folding strategy
    /// needs `extra_query_index_bits` further bits of an index.
    ///
    /// Folding halves the codeword, the first layer takes one bit, and folding stops at the
    /// codeword of the final polynomial, so there are `log_max_height - 1 - log_blowup -
    /// log_final_poly_len` rounds and `log_max_height - 1 + extra_query_index_bits` bits of an
    /// index.
    ///
    /// Requires `log_max_height > log_blowup + log_final_poly_len`, and that the number of bits is
    /// below `2^64`.
    pub fn new<M>(
        params: &FriParameters<M>,
        opened_widths: Vec<Vec<Vec<usize>>>,
        log_max_height: usize,
        extra_query_index_bits: usize,
    ) -> Self
        requires high { params.now.log_blowup + params.now.log_final_poly_len < log_max_height }
        requires small { log_max_height - 1 + extra_query_index_bits < 2 ^ 64 }
        ensures { result ≡
            shape_for params.now opened_widths log_max_height extra_query_index_bits }
    {
        CirclePcsShape {
            opened_widths,
            num_commit_rounds: log_max_height - 1 - params.log_blowup - params.log_final_poly_len,
            batch_pow_bits: params.batch_proof_of_work_bits,
            commit_pow_bits: params.commit_proof_of_work_bits,
            query_pow_bits: params.query_proof_of_work_bits,
            num_queries: params.num_queries,
            index_bits: log_max_height - 1 + extra_query_index_bits,
            log_blowup: params.log_blowup,
            log_final_poly_len: params.log_final_poly_len,
        }
    }

    /// An equal shape.
    pub fn try_clone(&self, alloc: Global) -> Result<Self, AllocError>
        ensures { IfOk result (λ s. shape_of s ≡ shape_of self.now) }
    {
        Ok(CirclePcsShape {
            opened_widths: copied_batches(alloc, &self.opened_widths)?,
            num_commit_rounds: self.num_commit_rounds,
            batch_pow_bits: self.batch_pow_bits,
            commit_pow_bits: self.commit_pow_bits,
            query_pow_bits: self.query_pow_bits,
            num_queries: self.num_queries,
            index_bits: self.index_bits,
            log_blowup: self.log_blowup,
            log_final_poly_len: self.log_final_poly_len,
        })
    }

    /// The steps of the run, in order.
    ///
    /// Requires `log_final_poly_len <= 63`.
    #[tactic(auto, unfolding(crate::specs::Shape::batch_steps))]
    pub fn pattern<F: Field, EF: ExtensionField<F>>(
        &self,
        alloc: Global,
    ) -> Result<InteractionPattern, AllocError>
        requires final_poly { self.now.log_final_poly_len ≤ 63 }
        ensures { IfOk result (λ p. p ≡ steps_of EF.DEGREE (shape_of self.now)) }
    {
        let mut steps = Vec::new(alloc);
        push_batches(&mut steps, EF::DEGREE, &self.opened_widths)?;
        push_batch_challenge(&mut steps, EF::DEGREE, self.batch_pow_bits)?;
        push_first_layer(&mut steps, EF::DEGREE)?;
        push_rounds(
            &mut steps,
            EF::DEGREE,
            self.commit_pow_bits,
            self.num_commit_rounds,
        )?;
        push_query(
            &mut steps,
            EF::DEGREE,
            self.log_final_poly_len,
            self.query_pow_bits,
            self.index_bits,
            self.num_queries,
        )?;
        Ok(InteractionPattern::new(steps))
    }

    /// What the run is seeded with: the protocol, the steps, and two labels, the logarithm of the
    /// blowup and how the claims are grouped. Where the final polynomial has several coefficients
    /// there is a third label, `log_final_poly_len`, and the version is another one.
    ///
    /// Requires `log_final_poly_len <= 63`.
    #[tactic(auto, unfolding(circle_challenger::specs::Step::be64))]
    pub fn domain_separator<F: Field, EF: ExtensionField<F>>(
        &self,
        alloc: Global,
    ) -> Result<DomainSeparator, AllocError>
        requires final_poly { self.now.log_final_poly_len ≤ 63 }
        ensures separator { IfOk result (λ s. s ≡ separator_of EF.DEGREE (shape_of self.now)) }
        ensures fits { IfOk result (λ _. self.now.log_blowup < 2 ^ 64) }
    {
        let pattern = self.pattern::<F, EF>(alloc)?;
        let separator = DomainSeparator::new(alloc, self.version(), NAME, pattern)?;
        self.labelled(alloc, separator)
    }

    /// A separator with the labels of the shape after its own.
    fn labelled(
        &self,
        alloc: Global,
        separator: DomainSeparator,
    ) -> Result<DomainSeparator, AllocError>
        ensures separator { IfOk result (λ s. s ≡ record separator {
          labels = separator.labels ++ labels_of (shape_of self.now);
        }) }
        ensures fits { IfOk result (λ _. self.now.log_blowup < 2 ^ 64) }
    {
        let separator = separator.instance(alloc, &in_eight_bytes(self.log_blowup))?;
        let separator = separator.instance(alloc, &self.opening_layout(alloc)?)?;
        if self.log_final_poly_len == 0 {
            return Ok(separator);
        }
        separator.instance(alloc, &in_eight_bytes(self.log_final_poly_len))
    }

    /// The version that the seed names.
    fn version(&self) -> u8
        ensures { result ≡ version_of (shape_of self.now) }
    {
        if self.log_final_poly_len == 0 {
            VERSION
        } else {
            VERSION_OF_SEVERAL
        }
    }

    /// Whether another shape has the same seed text, for challenges in this extension. Shapes of
    /// one seed text agree in all but the difficulty of rounds that there aren't. Fails where
    /// memory is refused.
    ///
    /// Requires `log_final_poly_len <= 63` of both.
    pub fn has_seed_of<F: Field, EF: ExtensionField<F>>(
        &self,
        alloc: Global,
        other: &CirclePcsShape,
    ) -> Result<bool, AllocError>
        requires final_poly { self.now.log_final_poly_len ≤ 63 }
        requires others { other.now.log_final_poly_len ≤ 63 }
        ensures same { IfOk result (λ same. IsTrue same ↔ (text_of EF.DEGREE (shape_of self.now)
            ≡ text_of EF.DEGREE (shape_of other.now))) }
        ensures told { IfOk result (λ same. text_of EF.DEGREE (shape_of self.now) ≡ text_of
            EF.DEGREE (shape_of other.now) → IsSameRun (shape_of self.now) (shape_of other.now)) }
    {
        let own = self.domain_separator::<F, EF>(alloc)?;
        let others = other.domain_separator::<F, EF>(alloc)?;
        Ok(own.text() == others.text())
    }

    /// How the claims are grouped: the number of batches, for each its number of matrices, and for
    /// each of these its number of points, in eight bytes each, the greatest first.
    #[tactic(auto, unfolding(crate::specs::Shape::layout))]
    fn opening_layout(&self, alloc: Global) -> Result<Vec<u8>, AllocError>
        ensures { IfOk result (λ v. v.items ≡ layout (shape_of self.now).opened_widths) }
    {
        let mut text = Vec::new(alloc);
        put_number(&mut text, self.opened_widths.len())?;
        put_batches(&mut text, &self.opened_widths)?;
        Ok(text)
    }
}

/// A step of elements of an algebra of this degree.
fn algebra(kind: Kind, label: &'static str, degree: usize, length: Length) -> Interaction
    ensures { step_of result ≡ step Atomic kind (Algebra degree) label.now length }
{
    Interaction::algebra(Hierarchy::Atomic, kind, label, degree, length)
}

/// Appends a proof of work, where it has a difficulty.
fn push_pow(
    steps: &mut Vec<Interaction>,
    label: &'static str,
    bits: usize,
) -> Result<(), AllocError>
    ensures { OnOk result (Appends steps.old.items steps.new.items (pow_steps label.now bits)) }
{
    if bits == 0 {
        return Ok(());
    }
    steps.push(algebra(Kind::Pow, label, 1, Length::Fixed(bits)))?;
    Ok(())
}

/// Appends the steps of a claim.
#[tactic(auto, unfolding(crate::specs::Shape::claim_steps))]
fn push_claim(steps: &mut Vec<Interaction>, degree: usize, width: usize) -> Result<(), AllocError>
    ensures { OnOk result (Appends steps.old.items steps.new.items (claim_steps degree width)) }
{
    steps.push(algebra(
        Kind::Message,
        OPENING_POINT,
        degree,
        Length::Fixed(POINT_COORDINATES),
    ))?;
    steps.push(algebra(Kind::Message, OPENED_VALUES, degree, Length::Fixed(width)))?;
    Ok(())
}

/// Appends the steps of a matrix's claims.
fn push_claims(
    steps: &mut Vec<Interaction>,
    degree: usize,
    widths: &[usize],
) -> Result<(), AllocError>
    ensures { OnOk result (Appends steps.old.items steps.new.items
        (flat_map (claim_steps degree) widths.now)) }
{
    for width in widths {
        push_claim(steps, degree, *width)?;
    }
    Ok(())
}

/// Appends the steps of a batch's claims.
fn push_matrices(
    steps: &mut Vec<Interaction>,
    degree: usize,
    matrices: &[Vec<usize>],
) -> Result<(), AllocError>
    ensures { OnOk result (Appends steps.old.items steps.new.items
        (flat_map (claim_steps degree) (flat_map (λ m. m) (matrices_of matrices.now)))) }
{
    for matrix in matrices {
        push_claims(steps, degree, matrix)?;
    }
    Ok(())
}

/// Appends the steps of the claims.
fn push_batches(
    steps: &mut Vec<Interaction>,
    degree: usize,
    batches: &[Vec<Vec<usize>>],
) -> Result<(), AllocError>
    ensures { OnOk result (Appends steps.old.items steps.new.items
        (flat_map (claim_steps degree) (widths_in (batches_of batches.now)))) }
{
    for batch in batches {
        push_matrices(steps, degree, batch)?;
    }
    Ok(())
}

/// Appends the batching challenge, guarded by its proof of work.
fn push_batch_challenge(
    steps: &mut Vec<Interaction>,
    degree: usize,
    bits: usize,
) -> Result<(), AllocError>
    ensures { OnOk result (Appends steps.old.items steps.new.items
        (guarded_challenge_steps degree (codes "batch_pow") bits (codes "batch_challenge"))) }
{
    push_pow(steps, BATCH_POW, bits)?;
    steps.push(algebra(Kind::Challenge, BATCH_CHALLENGE, degree, Length::Scalar))?;
    Ok(())
}

/// Appends the steps of the first layer.
#[tactic(auto, unfolding(crate::specs::Shape::first_layer_steps))]
fn push_first_layer(steps: &mut Vec<Interaction>, degree: usize) -> Result<(), AllocError>
    ensures { OnOk result (Appends steps.old.items steps.new.items (first_layer_steps degree)) }
{
    steps.push(Interaction::opaque(
        Hierarchy::Atomic,
        Kind::Message,
        FIRST_LAYER_COMMITMENT,
        Length::Scalar,
    ))?;
    steps.push(algebra(Kind::Challenge, BIVARIATE_CHALLENGE, degree, Length::Scalar))?;
    Ok(())
}

/// Appends the steps of a round.
fn push_round(steps: &mut Vec<Interaction>, degree: usize, bits: usize) -> Result<(), AllocError>
    ensures { OnOk result (Appends steps.old.items steps.new.items (round_steps degree bits)) }
{
    steps.push(Interaction::opaque(Hierarchy::Atomic, Kind::Message, COMMITMENT, Length::Scalar))?;
    push_pow(steps, COMMIT_POW, bits)?;
    steps.push(algebra(Kind::Challenge, FOLD_CHALLENGE, degree, Length::Scalar))?;
    Ok(())
}

/// Appends the steps of the rounds.
fn push_rounds(
    steps: &mut Vec<Interaction>,
    degree: usize,
    bits: usize,
    rounds: usize,
) -> Result<(), AllocError>
    ensures { OnOk result (Appends steps.old.items steps.new.items
        (rounds_steps degree bits rounds)) }
{
    for _round in 0..rounds {
        push_round(steps, degree, bits)?;
    }
    Ok(())
}

/// The step of the final polynomial.
fn final_poly(degree: usize, log_len: usize) -> Interaction
    requires { log_len ≤ 63 }
    ensures { step_of result ≡ final_poly_step degree log_len }
{
    let length = if log_len == 0 {
        Length::Scalar
    } else {
        Length::Fixed(1 << log_len)
    };
    algebra(Kind::Message, FINAL_POLY, degree, length)
}

/// Appends the steps of the final polynomial and of the query indices.
fn push_query(
    steps: &mut Vec<Interaction>,
    degree: usize,
    log_len: usize,
    bits: usize,
    width: usize,
    count: usize,
) -> Result<(), AllocError>
    requires { log_len ≤ 63 }
    ensures { OnOk result (Appends steps.old.items steps.new.items
        (query_steps degree log_len bits width count)) }
{
    steps.push(final_poly(degree, log_len))?;
    push_pow(steps, QUERY_POW, bits)?;
    steps.push(Interaction::bits(
        Hierarchy::Atomic,
        Kind::Challenge,
        QUERY_INDICES,
        width,
        Length::Fixed(count),
    ))?;
    Ok(())
}

/// A number in eight bytes, the greatest first.
#[tactic(auto, unfolding(circle_challenger::specs::Step::be64))]
fn in_eight_bytes(number: usize) -> [u8; 8]
    ensures bytes { result ≡ be64 number }
    ensures fits { number < 2 ^ 64 }
{
    (number as u64).to_be_bytes()
}

/// Appends a number in eight bytes, the greatest first.
#[tactic(auto, unfolding(circle_challenger::specs::Step::be64))]
fn put_number(text: &mut Vec<u8>, number: usize) -> Result<(), AllocError>
    ensures { OnOk result (text.new.items ≡ text.old.items ++ be64 number) }
{
    text.extend_from_slice(&in_eight_bytes(number))
}

/// Appends the numbers of points of matrices.
fn put_matrices(text: &mut Vec<u8>, matrices: &[Vec<usize>]) -> Result<(), AllocError>
    ensures { OnOk result (text.new.items ≡ text.old.items ++ flat_map (λ m. be64 (length m))
        (matrices_of matrices.now)) }
{
    for matrix in matrices {
        put_number(text, matrix.len())?;
    }
    Ok(())
}

/// Appends how the claims of a batch are grouped.
#[tactic(auto, unfolding(crate::specs::Shape::batch_layout))]
fn put_batch(text: &mut Vec<u8>, batch: &[Vec<usize>]) -> Result<(), AllocError>
    ensures { OnOk result (text.new.items ≡ text.old.items ++ batch_layout
        (matrices_of batch.now)) }
{
    put_number(text, batch.len())?;
    put_matrices(text, batch)
}

/// Appends how the claims of each batch are grouped.
fn put_batches(text: &mut Vec<u8>, batches: &[Vec<Vec<usize>>]) -> Result<(), AllocError>
    ensures { OnOk result (text.new.items ≡ text.old.items ++ flat_map batch_layout
        (batches_of batches.now)) }
{
    for batch in batches {
        put_batch(text, batch)?;
    }
    Ok(())
}

/// Equal numbers of columns of a batch.
fn copied_matrices(alloc: Global, matrices: &[Vec<usize>]) -> Result<Vec<Vec<usize>>, AllocError>
    ensures { IfOk result (λ v. matrices_of v.items ≡ matrices_of matrices.now) }
{
    let mut copies = Vec::with_capacity(alloc, matrices.len())?;
    for matrix in matrices {
        copies.push(Vec::from_slice(alloc, matrix)?)?;
    }
    Ok(copies)
}

/// Equal numbers of columns of all claims.
fn copied_batches(
    alloc: Global,
    batches: &[Vec<Vec<usize>>],
) -> Result<Vec<Vec<Vec<usize>>>, AllocError>
    ensures { IfOk result (λ v. batches_of v.items ≡ batches_of batches.now) }
{
    let mut copies = Vec::with_capacity(alloc, batches.len())?;
    for batch in batches {
        copies.push(copied_matrices(alloc, batch)?)?;
    }
    Ok(copies)
}
