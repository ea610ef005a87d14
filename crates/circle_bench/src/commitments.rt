//! Lines about commitments to matrices over SHA-256: what they come to, and how long they take.
use crate::timing::{self, Mode};
use crate::transforms::Size;
use circle_commit::{
    Dimensions, Mmcs, OpenedRows, RowMajorMatrix, are_below, heights_are_powers_of_two,
};
use circle_field::Mersenne31;
use circle_merkle::{ShaMmcs, ShaProverData};
use std::alloc::{AllocError, Global};
use std::io::{self, ErrorKind};
use std::time::{Duration, Instant};

/// How many indices are opened.
const INDICES: usize = 40;

/// The factor of the place of an index, an odd number.
const FACTOR: usize = 2654435761;

/// How many times rows are opened, and how many times they are verified, when that is timed.
const RUNS: usize = 50;

/// A digest of SHA-256.
pub type Hash = [u8; 32];

type Data = ShaProverData<Mersenne31>;

/// What is committed to, with the root.
#[derive(Drop)]
struct Committed {
    size: Size,
    root: Hash,
    data: Data,
}

/// Rows that were opened, with their proof.
#[derive(Drop)]
struct Opened {
    indices: Vec<usize>,
    rows: OpenedRows<Mersenne31>,
    proof: Vec<Hash>,
}

/// Prints a line for each pass over a matrix of each size.
pub fn report(
    rt: &HostRuntime,
    mode: Mode,
    sizes: &[Size],
    start: Mersenne31,
    step: Mersenne31,
) -> io::Result<()> {
    for size in sizes {
        let matrix = size.matrix(rt.alloc(), start, step)?;
        let (time, committed) = commit(rt, mode, *size, &matrix)?;
        let digest = number(&committed.root);
        timing::print_line(rt, mode, "ShaMmcs", "commit", *size, time, digest)?;
        report_opening(rt, mode, &committed)?;
    }
    Ok(())
}

/// Prints a line for opening what was committed to, and one for verifying that.
fn report_opening(rt: &HostRuntime, mode: Mode, committed: &Committed) -> io::Result<()> {
    let size = committed.size;
    let (time, opened) = open(rt, mode, committed)?;
    let digest = numbers(&opened.proof);
    timing::print_line(rt, mode, "ShaMmcs", "open", size, time, digest)?;
    let (time, accepted) = verify(rt, mode, committed, &opened)?;
    timing::print_line(
        rt,
        mode,
        "ShaMmcs",
        "verify",
        size,
        time,
        u64::from(accepted),
    )
}

/// The shortest time of a commitment to the matrix, and the last one.
fn commit(
    rt: &HostRuntime,
    mode: Mode,
    size: Size,
    matrix: &RowMajorMatrix<Mersenne31>,
) -> io::Result<(Duration, Committed)> {
    let (mut best, mut committed) = commit_once(rt, size, matrix)?;
    for _ in 1..timing::runs(mode, timing::runs_of(size)) {
        let (time, next) = commit_once(rt, size, matrix)?;
        best = best.min(time);
        committed = next;
    }
    Ok((best, committed))
}

/// The time of one commitment to a copy of the matrix.
fn commit_once(
    rt: &HostRuntime,
    size: Size,
    matrix: &RowMajorMatrix<Mersenne31>,
) -> io::Result<(Duration, Committed)> {
    let inputs = batch_of(rt.alloc(), matrix)?;
    if inputs.is_empty() || !heights_are_powers_of_two(&inputs) {
        return Err(io::Error::from(ErrorKind::InvalidInput));
    }
    let begin = Instant::now(rt)?;
    let (root, data) = ShaMmcs::<Mersenne31>::new().commit(rt.alloc(), inputs)?;
    let time = begin.elapsed(rt)?;
    Ok((time, Committed { size, root, data }))
}

/// A copy of the matrix, a batch of its own.
fn batch_of(
    alloc: Global,
    matrix: &RowMajorMatrix<Mersenne31>,
) -> Result<Vec<RowMajorMatrix<Mersenne31>>, AllocError> {
    Ok(vec![in alloc; matrix.try_clone(alloc)?]?)
}

/// The indices that are opened, below the number of rows.
fn indices(alloc: Global, rows: usize) -> Result<Vec<usize>, AllocError> {
    let mut indices = Vec::with_capacity(alloc, INDICES)?;
    for k in 0..INDICES {
        indices.push(k.wrapping_mul(FACTOR) % rows.max(1))?;
    }
    Ok(indices)
}

/// The shortest time of an opening, and the last one.
fn open(rt: &HostRuntime, mode: Mode, committed: &Committed) -> io::Result<(Duration, Opened)> {
    let (mut best, mut opened) = open_once(rt, committed)?;
    for _ in 1..timing::runs(mode, RUNS) {
        let (time, next) = open_once(rt, committed)?;
        best = best.min(time);
        opened = next;
    }
    Ok((best, opened))
}

/// The time of one opening.
fn open_once(rt: &HostRuntime, committed: &Committed) -> io::Result<(Duration, Opened)> {
    let mmcs = ShaMmcs::<Mersenne31>::new();
    let indices = indices(rt.alloc(), committed.size.rows())?;
    let top = mmcs.get_max_height(&committed.data);
    if indices.is_empty() || !are_below(&indices, top) {
        return Err(io::Error::from(ErrorKind::InvalidInput));
    }
    let begin = Instant::now(rt)?;
    let (rows, proof) = mmcs.open_multi_batch(rt.alloc(), &indices, &committed.data)?;
    let time = begin.elapsed(rt)?;
    let opened = Opened {
        indices,
        rows,
        proof,
    };
    Ok((time, opened))
}

/// The shortest time of a verification, and whether the rows were accepted.
fn verify(
    rt: &HostRuntime,
    mode: Mode,
    committed: &Committed,
    opened: &Opened,
) -> io::Result<(Duration, bool)> {
    let dimensions = [Dimensions {
        width: committed.size.width,
        height: committed.size.rows(),
    }];
    let mut best = Duration::MAX;
    let mut accepted = false;
    for _ in 0..timing::runs(mode, RUNS) {
        let begin = Instant::now(rt)?;
        let verdict = ShaMmcs::<Mersenne31>::new().verify_multi_batch(
            rt.alloc(),
            &committed.root,
            &dimensions,
            &opened.indices,
            &opened.rows,
            &opened.proof,
        );
        best = best.min(begin.elapsed(rt)?);
        accepted = verdict.is_ok();
    }
    Ok((best, accepted))
}

/// The first four bytes of a digest as a number, greatest first.
pub fn number(digest: &Hash) -> u64 {
    u64::from(u32::from_be_bytes([digest[0], digest[1], digest[2], digest[3]]))
}

/// The sum of the numbers of digests.
pub fn numbers(digests: &[Hash]) -> u64 {
    let mut sum = 0u64;
    for digest in digests {
        sum = sum.wrapping_add(number(digest));
    }
    sum
}
