//! AIRs of two columns and three public values, and traces of them.
use circle_air::{Air, AirBuilder, AirError, Place};
use circle_airs::fibonacci_air;
use circle_commit::RowMajorMatrix;
use circle_field::Field;
use circle_presets::Val;
use std::alloc::Global;
use std::process::Abort;
use test_batches::batches::elements;
use test_batches::parameters::{Numbers, SMALL};

/// What an AIR says of its rows.
#[derive(Clone, Copy)]
pub(crate) enum Rule {
    /// A row has the second entry of the row before and the sum of both. The public values are the
    /// entries of the first row and the second entry of the last.
    Fibonacci,
    /// The second entry is the square of the first at the rows of the place.
    Squares(Place),
    /// The first entry is that of a periodic column of so many ones.
    Ones(usize),
}

/// A trace with its AIR, and the numbers of the parameters that it is proved by.
#[derive(Clone, Copy)]
pub(crate) struct Case {
    pub(crate) rule: Rule,
    pub(crate) public_values: &'static [u64],
    /// The entries of the rows.
    pub(crate) entries: &'static [u64],
    pub(crate) width: usize,
    pub(crate) numbers: Numbers,
}

/// The binary logarithm of the number of rows of each trace that can be proved.
pub(crate) const LOG_N: usize = 3;

/// Eight rows of Fibonacci numbers.
pub(crate) const FIBONACCI: Case = Case {
    rule: Rule::Fibonacci,
    public_values: &[1, 1, 34],
    entries: &[1, 1, 1, 2, 2, 3, 3, 5, 5, 8, 8, 13, 13, 21, 21, 34],
    width: 2,
    numbers: SMALL,
};

/// Why a test ends that memory is refused.
pub(crate) const MEMORY: &str = "memory is refused";

// The number of columns.
const WIDTH: usize = 2;

// The number of public values.
const NUM_PUBLIC_VALUES: usize = 3;

fn squares(alloc: Global, place: Place) -> Result<Air<Val>, AirError> {
    let mut builder = AirBuilder::new(alloc, WIDTH, NUM_PUBLIC_VALUES);
    let root = builder.local(0)?;
    let square = builder.local(1)?;
    let product = builder.mul(root, root)?;
    builder.assert_eq(place, square, product)?;
    builder.finish()
}

fn ones(alloc: Global, length: usize) -> Result<Air<Val>, AirError> {
    let mut builder = AirBuilder::new(alloc, WIDTH, NUM_PUBLIC_VALUES);
    let entry = builder.local(0)?;
    let one = builder.periodic(vec![in alloc; Val::ONE; length]?)?;
    builder.assert_eq(Place::Every, entry, one)?;
    builder.finish()
}

/// The AIR that says this.
pub(crate) fn air_of(alloc: Global, rule: Rule) -> Result<Air<Val>, AirError> {
    match rule {
        Rule::Fibonacci => fibonacci_air(alloc),
        Rule::Squares(place) => squares(alloc, place),
        Rule::Ones(length) => ones(alloc, length),
    }
}

/// The elements of these numbers.
pub(crate) fn elements_of(rt: &impl Abort, alloc: Global, numbers: &[u64]) -> Vec<Val> {
    elements(alloc, numbers).expect(rt, MEMORY)
}

/// The rows of a trace.
pub(crate) fn rows_of(rt: &impl Abort, alloc: Global, case: &Case) -> RowMajorMatrix<Val> {
    let entries = elements_of(rt, alloc, case.entries);
    RowMajorMatrix::try_new(entries, case.width).expect(rt, "the rows differ in length")
}
