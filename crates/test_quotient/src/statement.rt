//! A trace under an AIR: its columns' values at a point, its quotient and what that comes to.
use crate::opened::{Opened, composed, recomposed, vanishing_at};
use crate::periods::are_periods_short;
use anyhow::{Context, Result, bail};
use circle_air::Air;
use circle_commit::{LagrangeSelectors, Matrix, PolynomialSpace, RowMajorMatrix, is_power_of_two};
use circle_domain::CircleDomain;
use circle_field::{Cubic, ExtensionField, Field, Mersenne31};
use circle_plane::{CircleEvaluations, Point};
use circle_quotient::chunks::quotient_chunks;
use circle_quotient::fit::{fit_is_clear, is_fit};
use circle_quotient::quotient::quotient_values;
use circle_quotient::trace::ExtendedTrace;
use std::alloc::{AllocError, Global};

/// The domains of rows.
pub type Domain = CircleDomain<Mersenne31>;

/// The rows of a trace or a chunk.
pub type Rows = RowMajorMatrix<Mersenne31>;

/// The greatest binary logarithm of a number of rows here.
const MAX_LOG_N: usize = 16;

/// The greatest binary logarithm of a number of chunks here.
const MAX_LOG_CHUNKS: usize = 8;

/// An AIR, public values and a trace of `2^log_n` rows. The first column is the polynomial with the
/// rows' entries plus a multiple of the vanishing polynomial.
#[derive(Drop)]
pub struct Statement {
    pub air: Air<Mersenne31>,
    pub public_values: Vec<Mersenne31>,
    pub rows: Rows,
    pub log_n: usize,
    pub multiple: Mersenne31,
}

/// The values at the point of `zeta` of the polynomials with these rows.
pub fn values_at(alloc: Global, domain: Domain, rows: Rows, zeta: Cubic) -> Result<Vec<Cubic>> {
    let log_n = domain.log_n();
    let Some(point) = Point::from_projective_line(zeta) else {
        bail!("the point is at infinity");
    };
    if log_n == 0 || log_n > MAX_LOG_N || rows.height() != 1 << log_n {
        bail!("there isn't a row for each point");
    }
    if !domain.is_genuine() || !domain.is_clear_of(point) {
        bail!("the point is on the domain");
    }
    let evaluations = CircleEvaluations::from_natural_order(domain, rows);
    Ok(evaluations.evaluate_at_point(alloc, point)?)
}

/// The values of chunks on their domains at the point of `zeta`.
pub fn chunks_at(
    alloc: Global,
    chunks: Vec<(Domain, Rows)>,
    zeta: Cubic,
) -> Result<Vec<Vec<Cubic>>> {
    let mut values = Vec::with_capacity(alloc, chunks.len())?;
    for (domain, chunk) in chunks {
        values.push(values_at(alloc, domain, chunk, zeta)?)?;
    }
    Ok(values)
}

// Appends the entries of a row, with `more` added to the first.
fn push_row(
    values: &mut Vec<Mersenne31>,
    row: &[Mersenne31],
    more: Mersenne31,
) -> Result<(), AllocError> {
    for (c, entry) in row.iter().enumerate() {
        let added = if c == 0 { more } else { Mersenne31::ZERO };
        values.push(*entry + added)?;
    }
    Ok(())
}

// The elements of the extension that these are.
fn lifted(alloc: Global, values: &[Mersenne31]) -> Result<Vec<Cubic>, AllocError> {
    let mut all = Vec::new(alloc);
    for value in values {
        all.push(Cubic::from_base(*value))?;
    }
    Ok(all)
}

impl Statement {
    // The columns at a point.
    fn columns_at(&self, alloc: Global, zeta: Cubic) -> Result<Vec<Cubic>> {
        if self.log_n > MAX_LOG_N {
            bail!("there are too many rows");
        }
        let domain = Domain::standard(self.log_n);
        let mut values = values_at(alloc, domain, self.rows.try_clone(alloc)?, zeta)?;
        let vanishing = vanishing_at(self.log_n, zeta)?;
        if let Some(first) = values.first_mut() {
            *first = *first + vanishing.times_base(self.multiple);
        }
        Ok(values)
    }

    // The periodic columns at a point.
    fn periodic_at(&self, alloc: Global, zeta: Cubic) -> Result<Vec<Cubic>> {
        if self.log_n == 0 || self.log_n > MAX_LOG_N {
            bail!("the number of rows is out of range");
        }
        if is_fit::<Mersenne31, Cubic>(self.log_n, zeta).is_none() {
            bail!("the point isn't fit");
        }
        fit_is_clear::<Mersenne31, Cubic>(self.log_n, zeta);
        let domain = Domain::standard(self.log_n);
        let mut values = Vec::new(alloc);
        for column in self.air.periodic_columns() {
            if !is_power_of_two(column.len()) || column.len() > 1 << self.log_n {
                bail!("a periodic column is too long");
            }
            values.push(domain.evaluate_periodic_column_at(alloc, column, zeta)?)?;
        }
        Ok(values)
    }

    // The selectors at a point.
    fn selectors_at(&self, zeta: Cubic) -> Result<LagrangeSelectors<Cubic>> {
        if self.log_n == 0 || self.log_n > MAX_LOG_N {
            bail!("the number of rows is out of range");
        }
        let domain = Domain::standard(self.log_n);
        match Point::from_projective_line(zeta) {
            Some(point) if domain.is_genuine() && domain.is_clear_of(point) => {
                Ok(domain.selectors_at_point(zeta))
            }
            _ => bail!("the point is on the domain"),
        }
    }

    /// Puts another entry at a place of the rows, and returns the old one.
    pub fn change(&mut self, alloc: Global, place: usize, entry: Mersenne31) -> Result<Mersenne31> {
        let mut values = Vec::from_slice(alloc, self.rows.values())?;
        let Some(changed) = values.get_mut(place) else {
            bail!("there are fewer entries");
        };
        let old = *changed;
        *changed = entry;
        let rows = Rows::try_new(values, self.air.width());
        self.rows = rows.context("the rows don't fit the AIR")?;
        Ok(old)
    }

    /// The coordinate of the next point.
    pub fn next_of(&self, zeta: Cubic) -> Result<Cubic> {
        if self.log_n == 0 || self.log_n > MAX_LOG_N {
            bail!("the number of rows is out of range");
        }
        is_fit::<Mersenne31, Cubic>(self.log_n, zeta).context("the point isn't fit")
    }

    /// What the constraints read at a point.
    pub fn opened(&self, alloc: Global, zeta: Cubic) -> Result<Opened<Cubic>> {
        let next = self.next_of(zeta)?;
        Ok(Opened {
            selectors: self.selectors_at(zeta)?,
            local: self.columns_at(alloc, zeta)?,
            next: self.columns_at(alloc, next)?,
            periodic: self.periodic_at(alloc, zeta)?,
            public_values: lifted(alloc, &self.public_values)?,
        })
    }

    // The rows on a domain of `2^log_num_chunks` times as many points.
    fn extended_rows(&self, alloc: Global, log_num_chunks: usize) -> Result<Rows> {
        let log_n = self.log_n;
        if log_n == 0 || log_n > MAX_LOG_N || log_num_chunks > MAX_LOG_CHUNKS {
            bail!("the sizes are out of range");
        }
        let domain = Domain::standard(log_n);
        let target = Domain::standard(log_n + log_num_chunks);
        let rows = self.rows.try_clone(alloc)?;
        if !domain.is_genuine() || rows.height() != 1 << log_n {
            bail!("there isn't a row for each point");
        }
        let evaluations = CircleEvaluations::from_natural_order(domain, rows);
        let natural = evaluations.extrapolate(alloc, target)?.to_natural_order();
        let values = self.with_multiple(alloc, target, &natural)?;
        Rows::try_new(values, natural.width()).context("the rows differ in length")
    }

    // The entries of rows on a domain, with the multiple of the vanishing polynomial added to the
    // first column.
    fn with_multiple<M: Matrix<Mersenne31>>(
        &self,
        alloc: Global,
        domain: Domain,
        rows: &M,
    ) -> Result<Vec<Mersenne31>> {
        if self.log_n == 0 {
            bail!("there is a single row");
        }
        let mut values = Vec::new(alloc);
        for i in 0..rows.height() {
            let Some(point) = domain.try_nth_point(i) else {
                bail!("there are more rows than points");
            };
            let more = self.multiple * point.v_n(self.log_n);
            push_row(&mut values, rows.row(i), more)?;
        }
        Ok(values)
    }

    /// The quotient's values on the standard domain of `2^log_num_chunks` times as many points.
    pub fn quotient(
        &self,
        alloc: Global,
        log_num_chunks: usize,
        alpha: Cubic,
    ) -> Result<Vec<Cubic>> {
        let rows = self.extended_rows(alloc, log_num_chunks)?;
        self.quotient_of(alloc, &rows, log_num_chunks, alpha)
    }

    // The quotient's values, where the columns have these values on its domain.
    fn quotient_of(
        &self,
        alloc: Global,
        rows: &Rows,
        log_num_chunks: usize,
        alpha: Cubic,
    ) -> Result<Vec<Cubic>> {
        let (air, log_n, height) = (&self.air, self.log_n, self.rows.height());
        if log_n == 0
            || log_n > MAX_LOG_N
            || log_num_chunks == 0
            || log_num_chunks > MAX_LOG_CHUNKS
        {
            bail!("the sizes are out of range");
        }
        if rows.height() != 1 << (log_n + log_num_chunks)
            || rows.width() != air.width()
            || self.public_values.len() != air.num_public_values()
        {
            bail!("the rows or the public values don't fit the AIR");
        }
        if height != 1 << log_n || !are_periods_short(air, height) {
            bail!("a periodic column is too long");
        }
        let trace = ExtendedTrace {
            rows,
            log_n,
            log_num_chunks,
            public_values: &self.public_values,
        };
        Ok(quotient_values(alloc, air, &trace, alpha)?)
    }

    /// The chunks of these values, with their domains.
    pub fn chunks(
        &self,
        alloc: Global,
        log_num_chunks: usize,
        values: Vec<Cubic>,
    ) -> Result<Vec<(Domain, Rows)>> {
        let log_n = self.log_n;
        if log_n == 0 || log_n > MAX_LOG_N || log_num_chunks > MAX_LOG_CHUNKS {
            bail!("the sizes are out of range");
        }
        if values.len() != 1 << (log_n + log_num_chunks) {
            bail!("there isn't a value for each point");
        }
        Ok(quotient_chunks::<Mersenne31, Cubic>(alloc, log_n, log_num_chunks, values)?)
    }

    /// Both sides of the identity at the point of `zeta`: the constraints put together, and the
    /// vanishing polynomial times what the chunks of the quotient come to.
    pub fn both_sides(
        &self,
        alloc: Global,
        log_num_chunks: usize,
        alpha: Cubic,
        zeta: Cubic,
    ) -> Result<(Cubic, Cubic)> {
        let constraints = composed(alloc, &self.air, &self.opened(alloc, zeta)?, alpha)?;
        let values = self.quotient(alloc, log_num_chunks, alpha)?;
        let at_zeta = chunks_at(alloc, self.chunks(alloc, log_num_chunks, values)?, zeta)?;
        let quotient = recomposed::<Mersenne31, Cubic>(alloc, self.log_n, &at_zeta, zeta)?;
        Ok((constraints, vanishing_at(self.log_n, zeta)? * quotient))
    }

    /// Whether the quotient's values on a domain of `2^log_num_chunks` times as many points are,
    /// point after point, what the constraints come to there over the vanishing polynomial.
    pub fn has_values_of_constraints(
        &self,
        alloc: Global,
        log_num_chunks: usize,
        alpha: Cubic,
    ) -> Result<bool> {
        let domain = Domain::try_standard(self.log_n.saturating_add(log_num_chunks));
        let domain = domain.context("the group is too small")?;
        let values = self.quotient(alloc, log_num_chunks, alpha)?;
        for (i, value) in values.iter().enumerate() {
            if !self.has_value_at(alloc, domain, i, *value, alpha)? {
                return Ok(false);
            }
        }
        Ok(true)
    }

    // Whether the constraints come to the value at a point of a domain, times the vanishing
    // polynomial.
    fn has_value_at(
        &self,
        alloc: Global,
        domain: Domain,
        index: usize,
        value: Cubic,
        alpha: Cubic,
    ) -> Result<bool> {
        let point = domain.try_nth_point(index);
        let point = point.context("there are more values than points")?;
        let coordinate = point.to_projective_line();
        let coordinate = coordinate.context("a point of the domain is at infinity")?;
        let zeta = Cubic::from_base(coordinate);
        let constraints = composed(alloc, &self.air, &self.opened(alloc, zeta)?, alpha)?;
        Ok(constraints == vanishing_at(self.log_n, zeta)? * value)
    }
}
