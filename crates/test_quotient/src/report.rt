//! The lines of a trace.
use crate::opened::{Opened, composed, recomposed, vanishing_at};
use crate::statement::{Domain, Rows, chunks_at};
use crate::traces::Trace;
use anyhow::{Context, Result, bail};
use circle_commit::Matrix;
use circle_field::{Cubic, Mersenne31};
use circle_json::JsonForm;
use std::alloc::{AllocError, Global};

/// The binary logarithms of numbers of chunks that each trace is tried with.
const TRIED: [usize; 4] = [1, 2, 3, 4];

/// The binary logarithm of a number of points that takes several blocks of `quotient_values`, which
/// have 64.
const LOG_POINTS: usize = 7;

/// The places of entries that are changed one at a time.
const CHANGED: [usize; 3] = [0, 7, 12];

/// The residue of the entry that is put at a changed place.
const OTHER: u32 = 1234567;

/// The multiple of the vanishing polynomial that is added to the first column.
const MULTIPLE: u32 = 77777;

/// Prints the lines of a trace.
pub fn report(rt: &HostRuntime, trace: &mut Trace) -> Result<()> {
    report_columns(rt, trace)?;
    report_quotient(rt, trace)?;
    report_sides(rt, trace)?;
    report_chunks_tried(rt, trace)?;
    report_blocks(rt, trace)?;
    report_multiple(rt, trace)?;
    report_changes(rt, trace)
}

// Prints what something of a trace is, as JSON.
fn print_line<T: JsonForm>(rt: &HostRuntime, name: &str, what: &str, value: &T) -> Result<()> {
    let text = value.to_json(rt.alloc())?.to_string(rt.alloc())?;
    println!(rt; "{name} {what} {text}")?;
    Ok(())
}

// Prints what the constraints read at the trace's point, and what they come to.
fn report_columns(rt: &HostRuntime, trace: &Trace) -> Result<()> {
    let opened = trace.statement.opened(rt.alloc(), trace.zeta)?;
    report_opened(rt, trace, &opened)
}

// Prints what is opened at the trace's point, and what the constraints come to with it.
fn report_opened(rt: &HostRuntime, trace: &Trace, opened: &Opened<Cubic>) -> Result<()> {
    let (name, statement, zeta) = (trace.name, &trace.statement, trace.zeta);
    print_line(rt, name, "next_of_zeta", &statement.next_of(zeta)?)?;
    print_line(rt, name, "trace_local", &opened.local)?;
    print_line(rt, name, "trace_next", &opened.next)?;
    print_line(rt, name, "x_at_zeta", &vanishing_at(statement.log_n, zeta)?)?;
    let selectors = &opened.selectors;
    print_line(rt, name, "is_first_row_at_zeta", &selectors.is_first_row)?;
    print_line(rt, name, "is_last_row_at_zeta", &selectors.is_last_row)?;
    print_line(rt, name, "is_transition_at_zeta", &selectors.is_transition)?;
    let composition = composed(rt.alloc(), &statement.air, opened, trace.alpha)?;
    print_line(rt, name, "composition_at_zeta", &composition)
}

// The rows of a matrix.
fn rows_of(alloc: Global, matrix: &Rows) -> Result<Vec<Vec<Mersenne31>>, AllocError> {
    let mut rows = Vec::with_capacity(alloc, matrix.height())?;
    for r in 0..matrix.height() {
        rows.push(Vec::from_slice(alloc, matrix.row(r))?)?;
    }
    Ok(rows)
}

// The vanishing polynomial of a trace's domain at the first points of its quotient's parts.
fn vanishing_of_parts(
    alloc: Global,
    log_n: usize,
    chunks: &[(Domain, Rows)],
) -> Result<Vec<Mersenne31>> {
    if log_n == 0 {
        bail!("there is a single row");
    }
    let mut vanishing = Vec::with_capacity(alloc, chunks.len())?;
    for (domain, _) in chunks {
        vanishing.push(domain.shift().v_n(log_n))?;
    }
    Ok(vanishing)
}

// The rows of each chunk.
fn rows_of_chunks(
    alloc: Global,
    chunks: &[(Domain, Rows)],
) -> Result<Vec<Vec<Vec<Mersenne31>>>, AllocError> {
    let mut rows = Vec::with_capacity(alloc, chunks.len())?;
    for (_, chunk) in chunks {
        rows.push(rows_of(alloc, chunk)?)?;
    }
    Ok(rows)
}

// Prints the vanishing polynomial on the quotient's parts, and its chunks.
fn report_chunks(rt: &HostRuntime, trace: &Trace, chunks: &[(Domain, Rows)]) -> Result<()> {
    let vanishing = vanishing_of_parts(rt.alloc(), trace.statement.log_n, chunks)?;
    print_line(rt, trace.name, "vanishing_of_parts", &vanishing)?;
    print_line(
        rt,
        trace.name,
        "chunks",
        &rows_of_chunks(rt.alloc(), chunks)?,
    )
}

// Prints the quotient's values, its chunks, and what these come to at the trace's point.
fn report_quotient(rt: &HostRuntime, trace: &Trace) -> Result<()> {
    let log_num_chunks = trace.statement.air.log_num_quotient_chunks();
    let values = trace
        .statement
        .quotient(rt.alloc(), log_num_chunks, trace.alpha)?;
    print_line(rt, trace.name, "quotient_values", &values)?;
    let chunks = trace.statement.chunks(rt.alloc(), log_num_chunks, values)?;
    report_chunks(rt, trace, &chunks)?;
    report_recomposition(rt, trace, chunks)
}

// Prints the chunks at the trace's point, and what they come to there.
fn report_recomposition(
    rt: &HostRuntime,
    trace: &Trace,
    chunks: Vec<(Domain, Rows)>,
) -> Result<()> {
    let (log_n, zeta) = (trace.statement.log_n, trace.zeta);
    let at_zeta = chunks_at(rt.alloc(), chunks, zeta)?;
    print_line(rt, trace.name, "quotient_chunks_at_zeta", &at_zeta)?;
    let quotient = recomposed::<Mersenne31, Cubic>(rt.alloc(), log_n, &at_zeta, zeta)?;
    print_line(rt, trace.name, "recomposition_at_zeta", &quotient)
}

// Prints both sides of the identity at the trace's point.
fn report_sides(rt: &HostRuntime, trace: &Trace) -> Result<()> {
    let log_num_chunks = trace.statement.air.log_num_quotient_chunks();
    let (constraints, quotient) = trace.both_sides(rt.alloc(), log_num_chunks)?;
    let both = vec![in rt.alloc(); constraints, quotient]?;
    print_line(rt, trace.name, "both_sides", &both)
}

// Prints for some numbers of chunks whether the identity holds with them.
fn report_chunks_tried(rt: &HostRuntime, trace: &Trace) -> Result<()> {
    for log_num_chunks in TRIED {
        let same = trace.holds_with(rt.alloc(), log_num_chunks)?;
        let count = 1u32 << log_num_chunks;
        println!(rt; "{} with {count} chunks: identity {same}", trace.name)?;
    }
    Ok(())
}

// Prints whether the quotient's values on two blocks of points are those of the constraints, point
// after point.
fn report_blocks(rt: &HostRuntime, trace: &Trace) -> Result<()> {
    let statement = &trace.statement;
    let Some(log_num_chunks) = LOG_POINTS.checked_sub(statement.log_n) else {
        bail!("there are more rows than points");
    };
    let same = statement.has_values_of_constraints(rt.alloc(), log_num_chunks, trace.alpha)?;
    let count = 1u32 << LOG_POINTS;
    println!(rt; "{} at {count} points: values {same}", trace.name)?;
    Ok(())
}

// Prints whether the identity holds where the first column is another polynomial with the same rows,
// whose degree is one more.
fn report_multiple(rt: &HostRuntime, trace: &mut Trace) -> Result<()> {
    trace.statement.multiple = residue(MULTIPLE)?;
    let same = trace.holds(rt.alloc())?;
    println!(rt;
        "{} with a multiple of the vanishing polynomial: identity {same}",
        trace.name
    )?;
    trace.statement.multiple = residue(0)?;
    Ok(())
}

// Prints for some places whether the identity holds with another entry there.
fn report_changes(rt: &HostRuntime, trace: &mut Trace) -> Result<()> {
    for place in CHANGED {
        let entry = trace.statement.change(rt.alloc(), place, residue(OTHER)?)?;
        let same = trace.holds(rt.alloc())?;
        println!(rt;
            "{} with entry {place} changed: identity {same}",
            trace.name
        )?;
        trace.statement.change(rt.alloc(), place, entry)?;
    }
    Ok(())
}

// The element of a residue.
fn residue(number: u32) -> Result<Mersenne31> {
    Mersenne31::try_new(number).context("the number is no residue")
}
