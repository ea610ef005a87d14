//! "I know the start of a hash chain of four steps that ends in this digest."
//!
//! A step fills a state of eight elements with the digest of four before it and zeros, puts it
//! through 15 rounds, and keeps four of the result. A round adds constants, takes fifth powers and
//! multiplies by a circulant matrix.
//!
//! Nobody has examined this hash, which serves as an example. Proofs aren't zero-knowledge: who
//! sees this one may learn of the start.
ghost use Rattle.std.specs.Prelude.{◌<◌};

use crate::stark::{self, Proof};
use anyhow::{Context, Result};
use circle_air::{Air, AirBuilder, Expr, Place};
use circle_presets::{Scheme, Val};
use circle_stark::{StarkStatement, StarkTrace};
use p3_circle::{Field, RowMajorMatrix};
use sha2::{Digest, Sha256};
use std::alloc::{AllocError, Global};
use std::array;

/// The binary logarithm of the number of rows, those of four steps.
const LOG_ROWS: usize = 6;

/// The number of rows of a step.
const STEP: usize = 16;

/// The number of elements of a state.
const STATE: usize = 8;

/// The number of elements of a digest.
const DIGEST: usize = 4;

/// The first row of the circulant matrix.
const MATRIX: [u64; STATE] = [7, 1, 3, 8, 8, 3, 4, 9];

/// The state that the chain starts from, which the prover alone knows.
const START: [u64; STATE] = [314159265, 358979323, 846264338, 327950288, 0, 0, 0, 0];

/// A state.
type State = [Val; STATE];

/// Expressions of the entries of a state.
type Exprs = [Expr; STATE];

/// The digest that the chain ends in.
fn public_values() -> [Val; DIGEST] {
    [2142406719, 1417013288, 478634157, 999900522].map(Val::from_u64)
}

/// What the round from a row of a step on adds to an entry of the state.
fn constant(row: usize, entry: usize) -> Val {
    let mut hasher = Sha256::new();
    hasher.update(b"circle-stark permutation");
    hasher.update((row as u64).to_be_bytes());
    hasher.update((entry as u64).to_be_bytes());
    let digest: [u8; 32] = hasher.finalize();
    let first = digest
        .first_chunk()
        .map_or(0, |bytes| u64::from_be_bytes(*bytes));
    Val::from_u64(first)
}

/// The constants of an entry, as a periodic column.
fn constants(alloc: Global, entry: usize) -> Result<Vec<Val>, AllocError> {
    (0..STEP).map(|row| constant(row, entry)).collect(alloc)
}

/// A periodic column that marks the last row of a step.
fn last_rows(alloc: Global) -> Result<Vec<Val>, AllocError> {
    let mut column = vec![in alloc; Val::ZERO; STEP]?;
    column[STEP - 1] = Val::ONE;
    Ok(column)
}

/// What builds the constraints. It appends each constant and each multiple once, as the examples in
/// Python and Rust do.
#[derive(Drop)]
struct Builder {
    air: AirBuilder<Val>,
    constants: Vec<(u64, Expr)>,
    multiples: Vec<(u64, Expr, Expr)>,
}

impl Builder {
    fn new(alloc: Global) -> Self {
        Builder {
            air: AirBuilder::new(alloc, 2 * STATE, DIGEST),
            constants: Vec::new(alloc),
            multiples: Vec::new(alloc),
        }
    }

    /// A constant.
    fn constant(&mut self, n: u64) -> Result<Expr> {
        for (known, constant) in &self.constants {
            if *known == n {
                return Ok(*constant);
            }
        }
        let constant = self.air.constant(Val::from_u64(n))?;
        self.constants.push((n, constant))?;
        Ok(constant)
    }

    /// An expression times a constant.
    fn multiple(&mut self, n: u64, of: Expr) -> Result<Expr> {
        if n == 1 {
            return Ok(of);
        }
        for (factor, known, multiple) in &self.multiples {
            if *factor == n && *known == of {
                return Ok(*multiple);
            }
        }
        let constant = self.constant(n)?;
        let multiple = self.air.mul(of, constant)?;
        self.multiples.push((n, of, multiple))?;
        Ok(multiple)
    }

    /// The sum of the products of powers and of entries of the matrix.
    fn dot(&mut self, row: &[u64; STATE], powers: &Exprs) -> Result<Expr> {
        let mut sum = self.multiple(row[0], powers[0])?;
        for j in 1..STATE {
            let multiple = self.multiple(row[j], powers[j])?;
            sum = self.air.add(sum, multiple)?;
        }
        Ok(sum)
    }

    /// The product of the matrix and the powers.
    fn after_round(&mut self, powers: &Exprs) -> Result<Exprs> {
        let mut row = MATRIX;
        let mut after = *powers;
        for entry in after.iter_mut() {
            *entry = self.dot(&row, powers)?;
            row.rotate_right(1);
        }
        Ok(after)
    }

    /// Requires an entry of the next state to be `after`. Behind the last row of a step it stays where
    /// it is of the digest, and else is 0, as in the first row. The last row has the public digest.
    fn require_next(&mut self, nodes: &Nodes, after: Expr, i: usize) -> Result<()>
        requires { i < STATE }
    {
        let state = nodes.state[i];
        let kept = if i < DIGEST { state } else { self.constant(0)? };
        let change = self.air.sub(kept, after)?;
        let change_at_last = self.air.mul(nodes.is_last, change)?;
        let due = self.air.add(after, change_at_last)?;
        self.air.assert_eq(Place::Transition, nodes.next[i], due)?;
        if i < DIGEST {
            self.air.assert_eq(Place::Last, state, nodes.digest[i])?;
        } else {
            self.air.assert_zero(Place::First, state)?;
        }
        Ok(())
    }
}

/// What the constraints read: a row, the state of the next row, and what both sides know.
#[derive(Clone, Copy)]
struct Nodes {
    state: Exprs,
    cubes: Exprs,
    next: Exprs,
    digest: [Expr; DIGEST],
    is_last: Expr,
}

impl Nodes {
    fn read(alloc: Global, air: &mut AirBuilder<Val>) -> Result<Self> {
        Ok(Nodes {
            state: array::try_from_fn(|i| air.local(i))?,
            cubes: array::try_from_fn(|i| air.local(STATE + i))?,
            next: array::try_from_fn(|i| air.next(i))?,
            digest: array::try_from_fn(|i| air.public(i))?,
            is_last: air.periodic(last_rows(alloc)?)?,
        })
    }
}

/// The state plus the constants of the round.
fn sums(alloc: Global, air: &mut AirBuilder<Val>, state: &Exprs) -> Result<Exprs> {
    let mut sums = *state;
    for (entry, sum) in sums.iter_mut().enumerate() {
        let constants = air.periodic(constants(alloc, entry)?)?;
        *sum = air.add(*sum, constants)?;
    }
    Ok(sums)
}

/// The squares of the sums, and their fifth powers: squares times the cubes of the row.
fn squares_and_fifths(
    air: &mut AirBuilder<Val>,
    sums: &Exprs,
    cubes: &Exprs,
) -> Result<(Exprs, Exprs)> {
    let (mut squares, mut fifths) = (*sums, *sums);
    for i in 0..STATE {
        squares[i] = air.mul(sums[i], sums[i])?;
        fifths[i] = air.mul(cubes[i], squares[i])?;
    }
    Ok((squares, fifths))
}

/// Appends the constraints.
fn require_rounds(alloc: Global, builder: &mut Builder) -> Result<()> {
    let nodes = Nodes::read(alloc, &mut builder.air)?;
    let sums = sums(alloc, &mut builder.air, &nodes.state)?;
    let (squares, fifths) = squares_and_fifths(&mut builder.air, &sums, &nodes.cubes)?;
    let after = builder.after_round(&fifths)?;
    for i in 0..STATE {
        let cube = builder.air.mul(squares[i], sums[i])?;
        builder.air.assert_eq(Place::Every, nodes.cubes[i], cube)?;
        builder.require_next(&nodes, after[i], i)?;
    }
    Ok(())
}

/// The constraints. A row has the state, and the cubes that fifth powers are of.
fn constraints(alloc: Global) -> Result<Air<Val>> {
    let mut builder = Builder::new(alloc);
    require_rounds(alloc, &mut builder)?;
    Ok(builder.air.finish()?)
}

/// The rows: the state, and the cubes of its entries plus the round's constants.
fn rows(alloc: Global) -> Result<RowMajorMatrix<Val>> {
    let mut entries = Vec::new(alloc);
    let mut state = START.map(Val::from_u64);
    for row in 0..1 << LOG_ROWS {
        let sums = with_constants(&state, row % STEP);
        entries.extend_from_slice(&state)?;
        entries.extend_from_slice(&powers(&sums, 3))?;
        state = if row % STEP == STEP - 1 {
            first_of_step(&state)
        } else {
            after_round(&powers(&sums, 5))
        };
    }
    RowMajorMatrix::try_new(entries, 2 * STATE).context("a row lacks an entry")
}

/// The state plus the constants of the round from a row of a step on.
fn with_constants(state: &State, row: usize) -> State {
    let mut sums = *state;
    for (i, sum) in sums.iter_mut().enumerate() {
        *sum = *sum + constant(row, i);
    }
    sums
}

/// The powers of the entries.
fn powers(entries: &State, exponent: u64) -> State {
    entries.map(|entry| entry.exp_u64(exponent))
}

/// The state that a step begins with, after one that ends in a state.
fn first_of_step(last: &State) -> State {
    let mut first = [Val::ZERO; STATE];
    first[..DIGEST].copy_from_slice(&last[..DIGEST]);
    first
}

/// The product of the matrix and the powers.
fn after_round(powers: &State) -> State {
    let mut row = MATRIX;
    let mut after = [Val::ZERO; STATE];
    for entry in after.iter_mut() {
        *entry = dot(&row, powers);
        row.rotate_right(1);
    }
    after
}

/// The sum of the products of powers and of entries of the matrix.
fn dot<F: Field>(row: &[u64; STATE], powers: &[F; STATE]) -> F {
    let mut sum = F::ZERO;
    for (n, power) in row.iter().zip(powers) {
        sum = sum + *power * F::from_u64(*n);
    }
    sum
}

/// The prover's part.
pub fn prove(alloc: Global, pcs: &Scheme) -> Result<Proof> {
    let air = constraints(alloc)?;
    let trace = StarkTrace {
        air: &air,
        rows: rows(alloc)?,
        public_values: &public_values(),
    };
    stark::prove(alloc, pcs, trace)
}

/// The verifier's part, which returns the digest of the constraints.
pub fn verify(alloc: Global, pcs: &Scheme, proof: &Proof) -> Result<[u8; 32]> {
    let air = constraints(alloc)?;
    let statement = StarkStatement {
        air: &air,
        log_n: LOG_ROWS,
        public_values: &public_values(),
    };
    stark::verify(alloc, pcs, statement, proof)?;
    Ok(air.digest())
}
