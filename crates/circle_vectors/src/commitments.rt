//! Opened rows and what is refused, over each scheme of commitments.
use circle_commit::{Dimensions, Mmcs, OpenedRows, are_below, heights_are_powers_of_two};
use circle_field::{Field, Mersenne31};
use circle_merkle::ShaMmcs;
use std::alloc::{AllocError, Global};
use std::test::Fail;
use test_batches::batches::{one, rows};
use test_schemes::matrix_list::MatrixList;
use test_schemes::schemes::{ListMmcs, TrustingMmcs};

/// What is handed to verification in place of the opening at 7, 2, 3 and 2: indices, the only
/// entries of their rows, and the dimensions.
struct Change {
    indices: [usize; 4],
    entries: &'static [u64],
    dimensions: Dimensions,
}

const INDICES: [usize; 4] = [7, 2, 3, 2];

const COLUMN: Dimensions = Dimensions {
    width: 1,
    height: 8,
};

const WIDE: Dimensions = Dimensions {
    width: 2,
    height: 8,
};

// The opening itself.
const UNCHANGED: &Change = &Change {
    indices: INDICES,
    entries: &[17, 12, 13, 12],
    dimensions: COLUMN,
};

// The changes that each scheme has to refuse.
const CHANGES: &[Change] = &[
    Change {
        indices: INDICES,
        entries: &[17, 12, 14, 12],
        dimensions: COLUMN,
    },
    Change {
        indices: INDICES,
        entries: &[17, 12, 13, 13],
        dimensions: COLUMN,
    },
    Change {
        indices: [8, 2, 3, 2],
        entries: &[17, 12, 13, 12],
        dimensions: COLUMN,
    },
    Change {
        indices: INDICES,
        entries: &[17, 12, 13],
        dimensions: COLUMN,
    },
    Change {
        indices: INDICES,
        entries: &[17, 12, 13, 12],
        dimensions: WIDE,
    },
];

// A list of rows for each of these entries, each the only row of its index.
fn rows_of(alloc: Global, entries: &[u64]) -> Result<OpenedRows<Mersenne31>, AllocError> {
    let mut rows = Vec::new(alloc);
    for entry in entries {
        rows.push(one(alloc, one(alloc, Mersenne31::from_u64(*entry))?)?)?;
    }
    Ok(rows)
}

// Whether a scheme refuses a change.
fn refuses<M: Mmcs<Mersenne31>>(
    alloc: Global,
    mmcs: &M,
    commitment: &M::Commitment,
    proof: &M::MultiProof,
    change: &Change,
) -> Result<bool, Fail> {
    let rows = rows_of(alloc, change.entries)?;
    let dimensions = [change.dimensions];
    match mmcs.verify_multi_batch(
        alloc,
        commitment,
        &dimensions,
        &change.indices,
        &rows,
        proof,
    ) {
        Ok(()) => Ok(false),
        Err(error) => {
            if M::is_memory(&error) {
                return Err(Fail::new("memory"));
            }
            Ok(true)
        }
    }
}

// The entries of the column.
const ENTRIES: &[u64] = &[10, 11, 12, 13, 14, 15, 16, 17];

// Commits to the column.
fn committed<M: Mmcs<Mersenne31>>(
    alloc: Global,
    mmcs: &M,
) -> Result<(M::Commitment, M::ProverData), Fail> {
    let inputs = one(alloc, rows(alloc, ENTRIES, 1)?)?;
    if inputs.is_empty() || !heights_are_powers_of_two(&inputs) {
        return Err(Fail::new("the column"));
    }
    Ok(mmcs.commit(alloc, inputs)?)
}

// The proof of the opening at 7, 2, 3 and 2.
fn opened<M: Mmcs<Mersenne31>>(
    alloc: Global,
    mmcs: &M,
    data: &M::ProverData,
) -> Result<M::MultiProof, Fail> {
    if !are_below(&INDICES, mmcs.get_max_height(data)) {
        return Err(Fail::new("the height"));
    }
    let (rows, proof) = mmcs.open_multi_batch(alloc, &INDICES, data)?;
    if rows != rows_of(alloc, UNCHANGED.entries)? {
        return Err(Fail::new("the rows"));
    }
    Ok(proof)
}

// The commitment to the column, and its proof of the opening at 7, 2, 3 and 2.
fn proved<M: Mmcs<Mersenne31>>(
    alloc: Global,
    mmcs: &M,
) -> Result<(M::Commitment, M::MultiProof), Fail> {
    let (commitment, data) = committed(alloc, mmcs)?;
    let proof = opened(alloc, mmcs, &data)?;
    Ok((commitment, proof))
}

// How many of the changes a scheme refuses, after it took the opening itself.
fn refused<M: Mmcs<Mersenne31>>(alloc: Global, mmcs: &M) -> Result<usize, Fail> {
    let (commitment, proof) = proved(alloc, mmcs)?;
    if refuses(alloc, mmcs, &commitment, &proof, UNCHANGED)? {
        return Err(Fail::new("the opening"));
    }
    let mut count = 0;
    for change in CHANGES {
        if refuses(alloc, mmcs, &commitment, &proof, change)? {
            count += 1;
        }
    }
    Ok(count)
}

#[test]
fn honest_schemes_refuse_each_change(rt: HostRuntime) -> Result<(), Fail> {
    let by_trees = refused(rt.alloc(), &ShaMmcs::<Mersenne31>::new())?;
    let by_lists = refused(rt.alloc(), &ListMmcs)?;
    assert!(rt; by_trees == 5 && by_lists == 5);
    Ok(())
}

#[test]
fn the_trusting_scheme_refuses_none(rt: HostRuntime) -> Result<(), Fail> {
    assert!(rt; refused(rt.alloc(), &TrustingMmcs)? == 0);
    Ok(())
}

// The column of eight rows and one of three, which no commitment takes.
fn of_eight_and_three(alloc: Global) -> Result<MatrixList<Mersenne31>, Fail> {
    let mut matrices = one(alloc, rows(alloc, ENTRIES, 1)?)?;
    matrices.push(rows(alloc, &[0, 1, 2], 1)?)?;
    Ok(MatrixList::new(matrices))
}

#[test]
fn data_of_other_heights(rt: HostRuntime) -> Result<(), Fail> {
    let data = of_eight_and_three(rt.alloc())?;
    let indices = [7usize, 2];
    assert!(rt; are_below(&indices, ListMmcs.get_max_height(&data)));
    let (rows, _) = ListMmcs.open_multi_batch(rt.alloc(), &indices, &data)?;
    assert!(rt; rows.len() == 2);
    Ok(())
}
