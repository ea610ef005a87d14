//! Combinations of the columns of committed matrices by powers of the batching challenge. Of a wide
//! matrix the combination is formed on its first rows alone, and extended from there (Circle
//! STARKs, section 4.3).
//!
//! Where columns are of low degree, their combination is so too, and its first entries fix the
//! others. A combined row takes a product for each column and each coefficient of the extension,
//! and by the transform about half a product for each layer and each coefficient.
ghost use Rattle.std.specs.Prelude.{◌≡◌, ◌-◌, ◌^◌, ◌<◌, ◌≤◌, ◌++◌, length, map, IfOk, OnOk};
ghost use Rattle.circle_commit.specs.DotProduct.{dot};
ghost use Rattle.circle_commit.specs.RowMajorMatrix.{rows, width_of};
ghost use Rattle.circle_codewords.specs.OfMatrices.{combined_of, extended_word};

use crate::matrix::OpenedMatrix;
use crate::values::first_domain;
use circle_commit::{Matrix, RowMajorMatrix, entry_count};
use circle_domain::CircleDomain;
use circle_field::{ComplexExtendable, ExtensionField, Field};
use circle_plane::CircleEvaluations;
use std::alloc::{AllocError, Global};

/// The number of columns from which on the combination of a matrix's columns is formed on its first
/// rows alone, and extended from there by the transform.
pub const LIFT_WIDTH: usize = 1024;

// The sum of the entries, each times its power.
fn combined_row<F: Field, EF: ExtensionField<F>>(row: &[F], powers: &[EF]) -> EF
    requires enough { length row.now ≤ length powers.now }
    ensures { result ≡ dot EF.ops powers.now (map EF.embed row.now) }
{
    let mut sum = EF::ZERO;
    for (j, entry) in row.iter().enumerate() {
        sum = sum + powers[j].times_base(*entry);
    }
    sum
}

// For each row the sum of its entries, each times its power.
fn combined_each<F: Field, EF: ExtensionField<F>, M: Matrix<F>>(
    alloc: Global,
    matrix: &M,
    powers: &[EF],
) -> Result<Vec<EF>, AllocError>
    requires enough { M.width matrix.now ≤ length powers.now }
    ensures { IfOk result (λ made. made.items
        ≡ map (λ row. dot EF.ops powers.now (map EF.embed row)) (M.rows matrix.now)) }
{
    let mut made = Vec::with_capacity(alloc, matrix.height())?;
    for r in 0..matrix.height() {
        made.push(combined_row(matrix.row(r), powers))?;
    }
    Ok(made)
}

// Adds the coefficients of an element in the base field.
fn push_coefficients<F: Field, EF: ExtensionField<F>>(
    values: &mut Vec<F>,
    entry: EF,
) -> Result<(), AllocError>
    ensures { OnOk result (values.new.items ≡ values.old.items ++ EF.coefficients entry) }
{
    for i in 0..EF::DEGREE {
        values.push(entry.coefficient(i))?;
    }
    Ok(())
}

// The coefficients of a codeword's entries in the base field, a row for each entry.
fn coefficient_rows<F: Field, EF: ExtensionField<F>>(
    alloc: Global,
    word: &[EF],
) -> Result<RowMajorMatrix<F>, AllocError>
    ensures width { IfOk result (λ m. width_of m ≡ EF.DEGREE) }
    ensures rows { IfOk result (λ m. rows m ≡ map EF.coefficients word.now) }
{
    let mut values = Vec::with_capacity(alloc, entry_count(word.len(), EF::DEGREE)?)?;
    for entry in word {
        push_coefficients(&mut values, *entry)?;
    }
    Ok(RowMajorMatrix::new(values, EF::DEGREE))
}

// The codeword of whose entries these rows are the coefficients.
fn word_of_rows<F: Field, EF: ExtensionField<F>>(
    alloc: Global,
    matrix: &RowMajorMatrix<F>,
) -> Result<Vec<EF>, AllocError>
    requires width { width_of matrix.now ≡ EF.DEGREE }
    ensures { IfOk result (λ word. map EF.coefficients word.items ≡ rows matrix.now) }
{
    let mut word = Vec::with_capacity(alloc, matrix.height())?;
    for r in 0..matrix.height() {
        word.push(EF::from_coefficients(matrix.row(r)))?;
    }
    Ok(word)
}

impl<F: ComplexExtendable, EF: ExtensionField<F>> OpenedMatrix<'_, F, EF> {
    // The codeword of the matrix's height that its first entries fix: at each point of the domain
    // the sum of these, each times the Lagrange polynomial of its point.
    fn extended(
        &self,
        alloc: Global,
        log_blowup: usize,
        first: &[EF],
    ) -> Result<Vec<EF>, AllocError>
        requires blowup { log_blowup < self.now.log_height }
        requires count { length first.now ≡ 2 ^ (self.now.log_height - log_blowup) }
        ensures { IfOk result (λ word.
            word.items ≡ extended_word self.now log_blowup first.now) }
    {
        let columns = coefficient_rows::<F, EF>(alloc, first)?;
        let domain = first_domain::<F>(log_blowup, self.log_height);
        let given = CircleEvaluations::from_cfft_order(domain, columns);
        let made = given.extrapolate(alloc, CircleDomain::standard(self.log_height))?;
        word_of_rows(alloc, &made.to_cfft_order())
    }

    /// The combination of the columns: at each row the sum of the entries that codewords read
    /// there, each times its power of the batching challenge. Of at least [`LIFT_WIDTH`] columns
    /// the values are read that the first `2^(log_height - log_blowup)` rows fix.
    ///
    /// Requires `log_blowup < log_height`, and as many powers as there are columns. Fails where
    /// memory is refused.
    pub fn combined_rows(
        &self,
        alloc: Global,
        log_blowup: usize,
        powers: &[EF],
    ) -> Result<Vec<EF>, AllocError>
        requires blowup { log_blowup < self.now.log_height }
        requires enough { width_of self.now.rows.now ≤ length powers.now }
        ensures { IfOk result (λ c. c.items ≡ combined_of self.now log_blowup powers.now) }
    {
        if self.rows.width() < LIFT_WIDTH {
            return combined_each(alloc, self.rows, powers);
        }
        let (first, _) = self.rows.split_rows(1 << (self.log_height - log_blowup));
        let combination = combined_each(alloc, &first, powers)?;
        self.extended(alloc, log_blowup, &combination)
    }
}
