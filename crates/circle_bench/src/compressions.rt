//! Lines about the compressions of SHA-256 that proofs ask for by their format: how many they are,
//! and how long as many take alone.
use crate::timing::Mode;
use crate::transforms::Size;
use sha2::{Digest, Sha256};
use std::io;
use std::time::{Duration, Instant};

/// How many times the compressions alone are made when that is timed.
const RUNS: usize = 5;

/// The bytes of an element of the field, of one of its extension, and of a node's message.
const ELEMENT: u64 = 4;

const CHALLENGE: u64 = 12;

const NODE: u64 = 65;

/// The compressions of a challenge of the extension, and of a commitment that is absorbed.
const DRAW: u64 = 6;

const COMMITMENT: u64 = 2;

/// The bytes of the seed's text: of what is in each, of a claim's steps, and of a round's.
const SEED: [u64; 3] = [305, 82, 93];

/// A matrix that is proved, folded to a constant and without proofs of work.
#[derive(Clone, Copy)]
pub struct Proved {
    /// The number of rows and of columns.
    pub size: Size,
    /// The number of points.
    pub points: usize,
    /// The binary logarithm of how many times as many rows are committed to.
    pub log_blowup: usize,
    /// The number of queries.
    pub num_queries: usize,
}

/// A block holds 64 bytes, and a message is followed by a byte and its length in eight.
fn of_bytes(bytes: u64) -> u64 {
    (bytes.saturating_add(8) / 64).saturating_add(1)
}

/// Those of a tree over `rows` rows of `bytes` bytes, each behind a byte.
fn of_tree(rows: u64, bytes: u64) -> u64 {
    let leaves = rows.saturating_mul(of_bytes(bytes.saturating_add(1)));
    let nodes = rows.saturating_sub(1).saturating_mul(of_bytes(NODE));
    leaves.saturating_add(nodes)
}

/// Those of the transcript of `rounds` rounds: of the commitment, of the seed's text, one for each
/// byte, of the claims, one for each coefficient, of the first layer and of the rounds, of the
/// constant, and of the queries, two for each.
fn of_transcript(proved: Proved, rounds: u64) -> u64 {
    let (width, points) = (proved.size.width as u64, proved.points as u64);
    let parts = [
        COMMITMENT,
        SEED[0],
        points.saturating_mul(SEED[1]),
        rounds.saturating_mul(SEED[2]),
        points.saturating_mul(width.saturating_mul(3).saturating_add(6)),
        DRAW,
        rounds.saturating_add(1).saturating_mul(COMMITMENT + DRAW),
        3,
        (proved.num_queries as u64).saturating_mul(2),
    ];
    let mut sum = 0u64;
    for part in parts {
        sum = sum.saturating_add(part);
    }
    sum
}

/// Those of a proof: of the trees of the codewords, by pairs, of the matrix's tree, and of the
/// transcript.
fn of_proof(proved: Proved) -> u64 {
    let size = proved.size;
    let mut rows = 1u64 << proved.log_blowup.min(8);
    let mut sum = of_transcript(proved, (size.log_rows - 1) as u64);
    for _ in 0..size.log_rows {
        sum = sum.saturating_add(of_tree(rows, 2 * CHALLENGE));
        rows = rows.saturating_mul(2);
    }
    sum.saturating_add(of_tree(rows, (size.width as u64).saturating_mul(ELEMENT)))
}

/// Prints the number of a proof's compressions, and where times are printed how long as many take
/// alone and how many times as long the proof took.
pub fn report(rt: &HostRuntime, mode: Mode, proved: Proved, time: Duration) -> io::Result<()> {
    let count = of_proof(proved);
    let (rows, width) = (proved.size.rows(), proved.size.width);
    print!(rt;
        "Sha256 compressions of a proof {rows} x {width} at {}: ",
        proved.points
    )?;
    if mode == Mode::Times {
        let alone = alone(rt, count)?;
        let hundredths = time.as_nanos().saturating_mul(100) / alone.as_nanos().max(1);
        print!(rt;
            "{} ns alone, a proof {}.{:02} times that, ",
            alone.as_nanos(),
            hundredths / 100,
            hundredths % 100
        )?;
    }
    println!(rt; "[{count}]")
}

/// The shortest time of `count` compressions of one message.
fn alone(rt: &HostRuntime, count: u64) -> io::Result<Duration> {
    let blocks = count.saturating_sub(1);
    let message = [0u8; 4096];
    let mut best = Duration::MAX;
    let mut digest = [0u8; 32];
    for _ in 0..RUNS {
        let begin = Instant::now(rt)?;
        let mut hasher = Sha256::new();
        hasher.update(digest.as_slice());
        for _ in 0..blocks / 64 {
            hasher.update(message.as_slice());
        }
        hasher.update(&message[..(blocks % 64) as usize * 64]);
        digest = hasher.finalize();
        best = best.min(begin.elapsed(rt)?);
    }
    Ok(best)
}
