//! The sums of the quotients of all claims, for each height at all queries.
ghost use Rattle.std.specs.Prelude.{◌≡◌, ◌+◌, ◌<◌, ◌≤◌, ◌++◌, length, map, All};
ghost use Rattle.std.specs.Prelude.{IsNone, OnSome, OnOk, IfOk, IfErr};
ghost use Rattle.circle_commit.specs.Mmcs.{opened_rows};
ghost use Rattle.circle_domain.specs.Domain.{log_size};
ghost use Rattle.circle_folding.specs.Quotient.{ArePowers};
ghost use Rattle.circle_relation.specs.StatementOf.{matrix_claims};
ghost use Rattle.circle_relation.specs.RunOf.{queried};
ghost use Rattle.circle_verifier.specs.OfRun.{reduced_words, AreApart, Refuses};
ghost use Rattle.circle_verifier.specs.Rows.{placed, rows_claimed, rows_at};
ghost use Rattle.circle_verifier.specs.Sums.{claimed_rows, IsApartFrom, AddsAll};
ghost use Rattle.circle_verifier.specs.Sums.{word_at, IsApartIn};

use crate::checked::CheckedRun;
use circle_commit::{FriError, MatrixOpening, Mmcs};
use circle_domain::CircleDomain;
use circle_field::{ComplexExtendable, ExtensionField, Field, Operations};
use circle_folding::{Claim, MatrixRows, add_quotients, query_points};
use circle_point::Point;
use circle_relation::{InputError, OverCircle, QueriedWord, VerifierError};
use circle_transcript::OpeningClaim;
use std::alloc::{AllocError, Global};

/// The reduced codewords of a run, at the queries.
#[derive(Drop)]
pub struct ReducedWords<
    'a,
    Val: Operations,
    EF: Operations + OverCircle<Val>,
    InputMmcs: Mmcs<Val>,
    FriMmcs: Mmcs<EF>,
> {
    /// The run.
    pub run: &'a CheckedRun<'a, Val, EF, InputMmcs, FriMmcs>,
    /// For each claimed height the points of the queries, and the sums of quotients there.
    pub words: Vec<QueriedWord<Val, EF>>,
    /// What the codewords are.
    pub ghost sums: { map queried words.items ≡ reduced_words run.now.run },
}

// The codeword of one height, at the queries.
#[derive(Drop)]
struct Word<'a, F: Operations, EF> {
    // The binary logarithm of its length.
    log_height: usize,
    // The powers of the batching challenge, from the first on.
    powers: &'a [EF],
    // The point of each query.
    points: &'a [Point<F>],
}

// Where the rows of a claim's matrix stand among those that are opened.
#[derive(Clone, Copy)]
struct ClaimedRows<'a, F> {
    // The binary logarithm of the matrix's height.
    log_height: usize,
    // For each query the rows of the matrix's batch.
    opened: &'a [Vec<Vec<F>>],
    // The matrix's place in its batch.
    matrix: usize,
}

// Adds for each claim on a batch's matrices where its rows stand.
fn push_rows<'a, Val: ComplexExtendable, EF>(
    rows: &mut Vec<ClaimedRows<'a, Val>>,
    log_blowup: usize,
    opened: &'a [Vec<Vec<Val>>],
    matrices: &[MatrixOpening<EF, CircleDomain<Val>>],
) -> Result<(), AllocError>
    requires { All (λ m. log_size m.domain + log_blowup ≤ 62) matrices.now }
    ensures { let ms = placed (opened_rows opened.now) 0 (matrix_claims matrices.now) in OnOk result
        (map rows_at rows.new.items ≡ map rows_at rows.old.items ++ rows_claimed log_blowup ms) }
{
    for (i, matrix) in matrices.iter().enumerate() {
        let claimed = ClaimedRows {
            log_height: matrix.domain.log_n() + log_blowup,
            opened,
            matrix: i,
        };
        rows.resize(rows.len() + matrix.points.len(), claimed)?;
    }
    Ok(())
}

// The greatest number of values of a claim.
fn greatest_width<EF: Operations>(claims: &[OpeningClaim<EF>]) -> usize
    ensures { All (λ c. length c.1.now ≤ result) claims.now }
{
    let mut width = 0;
    for (_, values) in claims {
        width = values.len().max(width);
    }
    width
}

// The powers of the batching challenge, one more than there are values of any claim.
fn powers_for<EF: Field>(
    alloc: Global,
    alpha: EF,
    claims: &[OpeningClaim<EF>],
) -> Result<Vec<EF>, AllocError>
    ensures powers { IfOk result (λ powers. ArePowers EF.ops alpha powers.items) }
    ensures enough { IfOk result (λ powers.
        All (λ c. length c.1.now < length powers.items) claims.now) }
{
    // Fewer than 2^63 elements can be stored: where the sum saturates, this fails.
    EF::powers(alloc, alpha, greatest_width(claims).saturating_add(1))
}

impl<
    Val: ComplexExtendable,
    EF: ExtensionField<Val>,
    InputMmcs: Mmcs<Val>,
    FriMmcs: Mmcs<EF>,
> CheckedRun<'_, Val, EF, InputMmcs, FriMmcs> {
    // For each claimed point where the rows of its matrix stand.
    fn claimed_rows(&self, alloc: Global) -> Result<Vec<ClaimedRows<'_, Val>>, AllocError>
        ensures { IfOk result (λ rows. map rows_at rows.items ≡ claimed_rows self.now.run) }
    {
        let run = &self.run;
        let openings = &run.proof.fri_proof.input_openings.input_openings;
        let mut rows = Vec::with_capacity(alloc, run.claimed_points.len())?;
        for (batch, opening) in run.claims.iter().zip(openings) {
            let opened = &opening.opened_values;
            push_rows(&mut rows, run.params.log_blowup, opened, &batch.matrices)?;
        }
        Ok(rows)
    }

    // Adds to the sums the quotients of all rows under the claims on matrices of the codeword's
    // height. `None` exactly where a claimed point is that of a query.
    fn add_claims(
        &self,
        sums: &mut [EF],
        word: &Word<Val, EF>,
        rows: &[ClaimedRows<Val>],
    ) -> Option<()>
        requires points { length word.now.points.now ≡ length sums.old }
        requires queries { length self.now.run.indices.now ≡ length sums.old }
        requires rows { map rows_at rows.now ≡ claimed_rows self.now.run }
        requires powers { ArePowers EF.ops self.now.run.alpha word.now.powers.now }
        requires enough { All (λ c. length c.1.now < length word.now.powers.now)
            self.now.run.claimed_points.now }
        ensures none { IsNone result → IsApartFrom self.now.run word.now → ⊥ }
        ensures apart { OnSome result (IsApartFrom self.now.run word.now) }
        ensures sums { OnSome result (AddsAll self.now.run word.now sums.old sums.new) }
    {
        let mut offset = EF::ONE;
        for (claim, place) in self.run.claimed_points.iter().zip(rows) {
            if place.log_height == word.log_height {
                let (point, values) = *claim;
                let (opened, matrix) = (place.opened, place.matrix);
                let rows = MatrixRows { opened, matrix };
                let claim = Claim { point, values };
                add_quotients(sums, offset, word.powers, word.points, &rows, &claim)?;
                let power = word.powers[values.len()];
                offset = offset * power * power;
            }
        }
        Some(())
    }

    // The codeword of one height at the queries.
    fn reduced_word(
        &self,
        alloc: Global,
        powers: &[EF],
        rows: &[ClaimedRows<Val>],
        log_height: usize,
    ) -> Result<QueriedWord<Val, EF>, VerifierError<InputMmcs::Error, FriMmcs::Error>>
        requires positive { 1 ≤ log_height }
        requires within { log_height ≤ self.now.run.log_max_height }
        requires powers { ArePowers EF.ops self.now.run.alpha powers.now }
        requires rows { map rows_at rows.now ≡ claimed_rows self.now.run }
        requires enough { All (λ c. length c.1.now < length powers.now)
            self.now.run.claimed_points.now }
        ensures word { IfOk result (λ word. queried word ≡ word_at self.now.run log_height) }
        ensures apart { OnOk result (IsApartIn self.now.run log_height) }
        ensures refused { IfErr result (Refuses self.now.run) }
    {
        let run = &self.run;
        let points = query_points(alloc, log_height, run.log_max_height, run.indices)?;
        let mut values = vec![in alloc; EF::ZERO; run.indices.len()]?;
        let word = Word {
            log_height,
            powers,
            points: &points,
        };
        match self.add_claims(&mut values, &word, rows) {
            Some(()) => Ok(QueriedWord {
                log_height,
                points,
                values,
            }),
            None => Err(FriError::InputError(InputError::OpeningPointMatchesQueryPoint)),
        }
    }

    /// For each claimed height the points of the queries, and at each of them the sum of the
    /// quotients of its rows under the claims on matrices of that height, in order, each times the
    /// power of the batching challenge of twice the number of columns that are claimed before it.
    /// Refuses a claim at the point of a query, by `OpeningPointMatchesQueryPoint`.
    ///
    /// Fails with `Memory` where memory is refused.
    pub fn reduced_words(
        &self,
        alloc: Global,
    ) -> Result<
        ReducedWords<'_, Val, EF, InputMmcs, FriMmcs>,
        VerifierError<InputMmcs::Error, FriMmcs::Error>,
    >
        ensures run { IfOk result (λ reduced. reduced.run.now ≡ self.now) }
        ensures apart { OnOk result (AreApart self.now.run) }
        ensures refused { IfErr result (Refuses self.now.run) }
    {
        let powers = powers_for(alloc, self.run.alpha, self.run.claimed_points)?;
        let rows = self.claimed_rows(alloc)?;
        let heights = self.heights.as_slice();
        let mut words = Vec::with_capacity(alloc, heights.len())?;
        for log_height in heights {
            let word = self.reduced_word(alloc, &powers, &rows, *log_height)?;
            match words.push(word) {
                Ok(()) => {}
                Err(_) => return Err(FriError::Memory),
            }
        }
        Ok(ReducedWords { run: self, words })
    }
}
