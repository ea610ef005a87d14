//! Chains of field operations, circle transforms, values at a point, tables of periodic columns,
//! commitments, the challenger over SHA-256, the compressions that a proof asks for, the whole
//! scheme, a stored proof and constraints on traces: what they come to, or with the argument `time`
//! how long they take.
//!
//! Each file prints the lines of its passes; it promises no more than that it is safe, and the gate
//! compares what is printed. `timing.rt` has what the files share, `transforms.rt` the matrices by
//! their sizes.
#![tactic(auto)]

mod airs;
mod chains;
mod commitments;
mod compressions;
mod evaluations;
mod hashing;
mod openings;
mod proofs;
mod quotients;
mod starks;
mod tables;
mod timing;
mod transforms;

use chains::Operation;
use circle_field::{Cubic, ExtensionField, Field, Mersenne31};
use std::process::ExitCode;
use std::{env, io};
use timing::{Case, Mode};
use transforms::{Size, Transform};

/// The chains over [`Mersenne31`].
const MERSENNE31: [Case; 6] = [
    Case {
        operation: Operation::Add,
        large: 1 << 26,
    },
    Case {
        operation: Operation::Sub,
        large: 1 << 26,
    },
    Case {
        operation: Operation::Mul,
        large: 1 << 25,
    },
    Case {
        operation: Operation::Halve,
        large: 1 << 26,
    },
    Case {
        operation: Operation::TryInverse,
        large: 1 << 20,
    },
    Case {
        operation: Operation::BatchInverse,
        large: 1 << 22,
    },
];

/// The chains over [`Cubic`].
const CUBIC: [Case; 5] = [
    Case {
        operation: Operation::Add,
        large: 1 << 25,
    },
    Case {
        operation: Operation::Mul,
        large: 1 << 22,
    },
    Case {
        operation: Operation::Halve,
        large: 1 << 25,
    },
    Case {
        operation: Operation::TryInverse,
        large: 1 << 19,
    },
    Case {
        operation: Operation::BatchInverse,
        large: 1 << 20,
    },
];

/// The transforms that are measured.
const TRANSFORMS: [Transform; 3] = [
    Transform::Interpolate,
    Transform::Evaluate,
    Transform::Extrapolate,
];

/// The matrices whose transforms are printed.
const SMALL: [Size; 3] = [
    Size {
        log_rows: 6,
        width: 1,
    },
    Size {
        log_rows: 6,
        width: 8,
    },
    Size {
        log_rows: 6,
        width: 64,
    },
];

/// The matrices to which commitments are timed.
const COMMITTED: [Size; 6] = [
    Size {
        log_rows: 14,
        width: 1,
    },
    Size {
        log_rows: 14,
        width: 8,
    },
    Size {
        log_rows: 14,
        width: 64,
    },
    Size {
        log_rows: 18,
        width: 1,
    },
    Size {
        log_rows: 18,
        width: 8,
    },
    Size {
        log_rows: 18,
        width: 64,
    },
];

/// The matrices whose polynomials are evaluated at a point when that is timed.
const EVALUATED: [Size; 1] = [Size {
    log_rows: 16,
    width: 8,
}];

/// The matrices of whose columns tables are made when that is timed.
const PERIODIC: [Size; 1] = [Size {
    log_rows: 14,
    width: 8,
}];

/// The matrix of which a proof is printed.
const PROVED: [Size; 1] = [Size {
    log_rows: 6,
    width: 8,
}];

/// The matrices of which proofs are timed.
const PROVED_LARGE: [Size; 3] = [
    Size {
        log_rows: 12,
        width: 8,
    },
    Size {
        log_rows: 16,
        width: 8,
    },
    Size {
        log_rows: 18,
        width: 8,
    },
];

/// The matrices whose opening alone is timed: one of a column fewer than those whose combinations
/// are extended from the first rows, and two of these.
const OPENED_LARGE: [Size; 3] = [
    Size {
        log_rows: 12,
        width: 1023,
    },
    Size {
        log_rows: 12,
        width: 1024,
    },
    Size {
        log_rows: 12,
        width: 2048,
    },
];

/// The matrices by which times grow with the rows.
const GROWING: [Size; 11] = [
    Size {
        log_rows: 10,
        width: 8,
    },
    Size {
        log_rows: 11,
        width: 8,
    },
    Size {
        log_rows: 12,
        width: 8,
    },
    Size {
        log_rows: 13,
        width: 8,
    },
    Size {
        log_rows: 14,
        width: 8,
    },
    Size {
        log_rows: 15,
        width: 8,
    },
    Size {
        log_rows: 16,
        width: 8,
    },
    Size {
        log_rows: 17,
        width: 8,
    },
    Size {
        log_rows: 18,
        width: 8,
    },
    Size {
        log_rows: 19,
        width: 8,
    },
    Size {
        log_rows: 20,
        width: 8,
    },
];

/// The matrices whose transforms are timed.
const LARGE: [Size; 9] = [
    Size {
        log_rows: 10,
        width: 1,
    },
    Size {
        log_rows: 10,
        width: 8,
    },
    Size {
        log_rows: 10,
        width: 64,
    },
    Size {
        log_rows: 14,
        width: 1,
    },
    Size {
        log_rows: 14,
        width: 8,
    },
    Size {
        log_rows: 14,
        width: 64,
    },
    Size {
        log_rows: 18,
        width: 1,
    },
    Size {
        log_rows: 18,
        width: 8,
    },
    Size {
        log_rows: 18,
        width: 64,
    },
];

/// The numbers of rows of traces that are checked and proved; their widths are those of the AIRs.
const CHECKED: [Size; 1] = [Size {
    log_rows: 16,
    width: 8,
}];

/// What the program is asked for.
enum Asked {
    /// A line for each case.
    Cases(Mode),

    /// How times grow with the rows of a matrix.
    Growth,
}

fn main(rt: HostRuntime) -> io::Result<ExitCode> {
    let start = Mersenne31::from_u64(123456789);
    let step = Mersenne31::from_u64(987654321);
    match asked_for(&rt)? {
        Some(Asked::Cases(mode)) => report_cases(&rt, mode, start, step)?,
        Some(Asked::Growth) => report_growth(&rt, start, step)?,
        None => {
            eprintln!(rt; "usage: circle_bench [time|rows]")?;
            return Ok(ExitCode::from(2));
        }
    }
    Ok(ExitCode::SUCCESS)
}

/// Prints the times of the widest transform, of proofs, of their compressions alone, of verifying,
/// and of checking and proving constraints, for matrices of ever more rows.
fn report_growth(rt: &HostRuntime, start: Mersenne31, step: Mersenne31) -> io::Result<()> {
    let sizes = GROWING.as_slice();
    timing::report_transform(rt, Mode::Times, Transform::Extrapolate, sizes, start, step)?;
    openings::report(rt, Mode::Times, sizes, start, step)?;
    airs::report(rt, Mode::Times, sizes, start, step)
}

/// Prints a line for each case.
fn report_cases(
    rt: &HostRuntime,
    mode: Mode,
    start: Mersenne31,
    step: Mersenne31,
) -> io::Result<()> {
    timing::report(rt, mode, "Mersenne31", &MERSENNE31, start, step)?;
    report_passes(rt, mode, start, step)?;
    report_schemes(rt, mode, start, step)?;
    report_cubic(rt, mode, start, step)?;
    hashing::report(rt, mode)?;
    proofs::report(rt, mode)?;
    let sizes = mode.sizes(PROVED.as_slice(), CHECKED.as_slice());
    airs::report(rt, mode, sizes, start, step)
}

/// Prints the lines of chains over the extension.
fn report_cubic(
    rt: &HostRuntime,
    mode: Mode,
    start: Mersenne31,
    step: Mersenne31,
) -> io::Result<()> {
    let start = Cubic::from_coefficients(&[start, step, start.square()]);
    let step = Cubic::from_coefficients(&[step, start.coefficient(2), step.square()]);
    timing::report(rt, mode, "Cubic", &CUBIC, start, step)
}

/// Prints the lines of transforms, of values at a point and of tables.
fn report_passes(
    rt: &HostRuntime,
    mode: Mode,
    start: Mersenne31,
    step: Mersenne31,
) -> io::Result<()> {
    let sizes = mode.sizes(SMALL.as_slice(), LARGE.as_slice());
    for transform in TRANSFORMS {
        timing::report_transform(rt, mode, transform, sizes, start, step)?;
    }
    let sizes = mode.sizes(SMALL.as_slice(), EVALUATED.as_slice());
    evaluations::report(rt, mode, sizes, start, step)?;
    let sizes = mode.sizes(SMALL.as_slice(), PERIODIC.as_slice());
    tables::report(rt, mode, sizes, start, step)
}

/// Prints the lines of commitments, of proofs and of openings.
fn report_schemes(
    rt: &HostRuntime,
    mode: Mode,
    start: Mersenne31,
    step: Mersenne31,
) -> io::Result<()> {
    let sizes = mode.sizes(SMALL.as_slice(), COMMITTED.as_slice());
    commitments::report(rt, mode, sizes, start, step)?;
    let sizes = mode.sizes(PROVED.as_slice(), PROVED_LARGE.as_slice());
    openings::report(rt, mode, sizes, start, step)?;
    let sizes = mode.sizes(PROVED.as_slice(), OPENED_LARGE.as_slice());
    openings::report_opening(rt, mode, sizes, start, step)
}

/// What the arguments ask for, or `None` where they ask for nothing that there is.
fn asked_for(rt: &HostRuntime) -> io::Result<Option<Asked>> {
    let mut args = env::args(rt)?.skip(1);
    let Some(word) = args.next() else {
        return Ok(Some(Asked::Cases(Mode::Digests)));
    };
    if args.next().is_some() {
        return Ok(None);
    }
    Ok(match word.as_str() {
        "time" => Some(Asked::Cases(Mode::Times)),
        "rows" => Some(Asked::Growth),
        _ => None,
    })
}
