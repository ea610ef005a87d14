//! Lines about the challenger over SHA-256: what it gives, and how long it takes.
ghost use Rattle.std.specs.Prelude.{◌≤◌};

use crate::timing::{self, Mode};
use circle_challenger::{CanObserve, CanSample, GrindingChallenger, Sha256Challenger};
use circle_field::{Field, Mersenne31};
use std::io;
use std::time::{Duration, Instant};

/// How many elements are absorbed, in a line without a time and in one with a time.
const OBSERVED: u32 = 1000;

const OBSERVED_TIMED: u32 = 1 << 16;

/// The difficulty of a proof of work, in a line without a time and in one with a time.
const BITS: usize = 8;

const BITS_TIMED: usize = 16;

/// How many times each is done when it is timed.
const RUNS: u32 = 9;

/// Prints a line for elements that are absorbed, and one for proofs of work.
pub fn report(rt: &HostRuntime, mode: Mode) -> io::Result<()> {
    match mode {
        Mode::Digests => report_digests(rt),
        Mode::Times => report_times(rt),
    }
}

fn report_digests(rt: &HostRuntime) -> io::Result<()> {
    let (_, next) = observe(rt, OBSERVED, 1)?;
    println!(rt; "Sha256Challenger observe {OBSERVED}: {}", next.value())?;
    let (_, witness) = grind(rt, BITS, 1)?;
    println!(rt; "Sha256Challenger grind {BITS}: {witness}")
}

fn report_times(rt: &HostRuntime) -> io::Result<()> {
    let (time, next) = observe(rt, OBSERVED_TIMED, RUNS)?;
    println!(rt;
        "Sha256Challenger observe {OBSERVED_TIMED}: {time} ns, {}",
        next.value()
    )?;
    let (time, witness) = grind(rt, BITS_TIMED, RUNS)?;
    println!(rt; "Sha256Challenger grind {BITS_TIMED}: {time} ns a trial, {witness}")
}

/// The nanoseconds of an element that is absorbed, in the fastest run, and the element drawn at
/// last. Each run begins in the state where the one before it ended.
fn observe(rt: &HostRuntime, count: u32, runs: u32) -> io::Result<(u128, Mersenne31)> {
    let mut challenger = Sha256Challenger::new();
    let mut best = Duration::MAX;
    for _ in 0..runs {
        let begin = Instant::now(rt)?;
        for n in 0..count {
            challenger.observe(&Mersenne31::from_u64(u64::from(n)));
        }
        best = best.min(begin.elapsed(rt)?);
    }
    Ok((timing::nanoseconds_each(best, count), challenger.sample()))
}

/// The nanoseconds of a trial in the fastest of several proofs of work, and the last witness. Each
/// begins in the state where the one before it ended. The witness is the least, so there is a trial
/// for each number up to it.
fn grind(rt: &HostRuntime, bits: usize, runs: u32) -> io::Result<(u128, u32)>
    requires { bits ≤ 63 }
{
    let mut challenger = Sha256Challenger::new();
    let mut best = u128::MAX;
    let mut last = 0;
    for _ in 0..runs {
        let begin = Instant::now(rt)?;
        let witness = challenger.grind(bits);
        let time = begin.elapsed(rt)?;
        last = match witness {
            Some(witness) => witness.value(),
            None => 0,
        };
        best = best.min(timing::nanoseconds_each(time, last.saturating_add(1)));
    }
    Ok((best, last))
}
