//! Lines about tables of periodic columns: what they come to, and how long they take.
ghost use Rattle.std.specs.Prelude.{◌≤◌};

use crate::timing::{self, Mode};
use crate::transforms::{self, Size};
use circle_commit::{Matrix, PeriodicLdeTable};
use circle_field::Mersenne31;
use circle_plane::{CircleDomain, PeriodicError, build_periodic_lde_table_circle};
use std::alloc::{AllocError, Global};
use std::io::{self, ErrorKind};
use std::time::{Duration, Instant};

/// Prints a line for the columns of a matrix of each size, over a trace of four times its rows and
/// an extension of twice the trace's.
pub fn report(
    rt: &HostRuntime,
    mode: Mode,
    sizes: &[Size],
    start: Mersenne31,
    step: Mersenne31,
) -> io::Result<()> {
    for size in sizes {
        let runs = timing::runs(mode, timing::runs_of(*size));
        let columns = columns(rt.alloc(), *size, start, step)?;
        let (time, digest) = fastest(rt, &columns, size.log_rows, step, runs)?;
        let digest = u64::from(digest);
        timing::print_line(rt, mode, "PeriodicLdeTable", "build", *size, time, digest)?;
    }
    Ok(())
}

/// The columns of the matrix of a size.
fn columns(
    alloc: Global,
    size: Size,
    start: Mersenne31,
    step: Mersenne31,
) -> Result<Vec<Vec<Mersenne31>>, AllocError> {
    let matrix = size.matrix(alloc, start, step)?;
    let mut columns = Vec::with_capacity(alloc, matrix.width())?;
    for c in 0..matrix.width() {
        columns.push(column(alloc, &matrix, c)?)?;
    }
    Ok(columns)
}

/// The entries of a column.
fn column<M: Matrix<Mersenne31>>(
    alloc: Global,
    matrix: &M,
    c: usize,
) -> Result<Vec<Mersenne31>, AllocError> {
    let mut entries = Vec::with_capacity(alloc, matrix.height())?;
    for r in 0..matrix.height() {
        if let Some(entry) = matrix.row(r).get(c) {
            entries.push(*entry)?;
        }
    }
    Ok(entries)
}

/// The shortest time in which the table is made, and the digest of the last one.
fn fastest(
    rt: &HostRuntime,
    columns: &[Vec<Mersenne31>],
    log_rows: usize,
    step: Mersenne31,
    runs: usize,
) -> io::Result<(Duration, u32)>
    requires { log_rows ≤ 24 }
{
    let trace = CircleDomain::standard(log_rows + 2);
    let extension = CircleDomain::standard(log_rows + 3);
    let mut best = Duration::MAX;
    let mut digest = 0;
    for _ in 0..runs {
        let begin = Instant::now(rt)?;
        let made = build_periodic_lde_table_circle(rt.alloc(), columns, &trace, &extension);
        best = best.min(begin.elapsed(rt)?);
        let table = made.map_err(refused)?;
        digest = transforms::digest(&entries(rt.alloc(), &table)?, step).value();
    }
    Ok((best, digest))
}

fn refused(_error: PeriodicError) -> io::Error {
    io::Error::from(ErrorKind::InvalidInput)
}

/// The entries of a table, row after row.
fn entries(
    alloc: Global,
    table: &PeriodicLdeTable<Mersenne31>,
) -> Result<Vec<Mersenne31>, AllocError> {
    let mut entries = Vec::new(alloc);
    for r in 0..table.height() {
        append_row(&mut entries, table, r)?;
    }
    Ok(entries)
}

fn append_row(
    entries: &mut Vec<Mersenne31>,
    table: &PeriodicLdeTable<Mersenne31>,
    r: usize,
) -> Result<(), AllocError> {
    if table.height() == 0 {
        return Ok(());
    }
    for c in 0..table.width() {
        entries.push(table.get(r, c))?;
    }
    Ok(())
}
