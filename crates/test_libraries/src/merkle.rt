//! Roots, proofs and refusals, with expected values from outside.
use circle_commit::{
    Dimensions, Mmcs, OpenedRows, RowMajorMatrix, are_below, heights_are_powers_of_two,
};
use circle_field::{Field, Mersenne31};
use circle_merkle::{MerkleTreeError, ShaMmcs, ShaProverData};
use sha2::{Digest, Sha256};
use std::alloc::Global;
use std::fmt::InlineText;
use std::ops::Range;
use std::process::Abort;

type Hash = [u8; 32];

type Matrix = RowMajorMatrix<Mersenne31>;

type Rows = OpenedRows<Mersenne31>;

type Data = ShaProverData<Mersenne31>;

// The root over the one column 10, 11, .. 17, by Python's hashlib.
const COLUMN_ROOT: Hash = [
    0xd8, 0xfe, 0x59, 0xfc, 0xea, 0x31, 0x17, 0x4c, 0x14, 0x06, 0xc5, 0xef, 0xd7, 0x8b, 0x74, 0x9c,
    0x77, 0x5a, 0x17, 0x8f, 0x7f, 0x43, 0x4c, 0xe8, 0x9f, 0xe3, 0x82, 0x88, 0x7d, 0x40, 0x5a, 0x01,
];

// The digest at position 6 of that tree's lowest level.
const LEAF: Hash = [
    0x2b, 0xe0, 0x22, 0xb7, 0x8f, 0xb6, 0x36, 0x18, 0xb2, 0xd5, 0x8c, 0x76, 0x6f, 0x4b, 0x98, 0xb3,
    0x4f, 0x76, 0xdf, 0xac, 0xbb, 0xfb, 0x25, 0x0b, 0x4d, 0x36, 0x83, 0xc0, 0xa1, 0x54, 0x4a, 0xe1,
];

// The digest at position 0 of the next level.
const LEFT: Hash = [
    0xab, 0xde, 0x38, 0x38, 0x4d, 0x1a, 0x3e, 0xca, 0xb6, 0xf6, 0xae, 0x36, 0xfe, 0x37, 0x88, 0x12,
    0xe5, 0xad, 0xf3, 0x94, 0x52, 0xbc, 0x30, 0x21, 0xd5, 0x24, 0x7e, 0xd8, 0x58, 0xb6, 0x84, 0xf9,
];

// The digest at position 2 of that level.
const RIGHT: Hash = [
    0xc7, 0x58, 0xbd, 0x59, 0x08, 0x8a, 0xac, 0x86, 0x9b, 0xeb, 0xdb, 0x29, 0x61, 0x0b, 0xc2, 0xd6,
    0xd1, 0xe8, 0x7a, 0x21, 0x6d, 0x75, 0x27, 0x65, 0xf8, 0x78, 0x08, 0x16, 0x5d, 0xd1, 0x43, 0x17,
];

const COLUMN_PROOF: &[Hash] = &[LEAF, LEFT, RIGHT];

// What is told where all is as it was committed to.
const ACCEPTED: &str = "accepted";

const WRONG_INDEX: &str = "an index is out of range, or not each has its rows";

const WRONG_WIDTH: &str = "the rows don't have the shapes of the matrices";

const WRONG_PROOF_LENGTH: &str = "the proof has a wrong number of digests";

const DISAGREEING_ROWS: &str = "two different rows stand at one position";

const ROOT_MISMATCH: &str = "the root is not the commitment";

// The root over the rows 1 2, 3 4, 5 6, 7 8, over 9, over 100, 200, and over -1, 0, 1, 2.
const FOUR_ROOT: Hash = [
    0x15, 0x38, 0x44, 0x0c, 0xc0, 0x19, 0x4d, 0x26, 0x63, 0xd9, 0x87, 0xcb, 0xcb, 0xfd, 0x40, 0x4d,
    0xdc, 0x90, 0xc5, 0xbd, 0x84, 0x5c, 0x53, 0x6c, 0x97, 0x69, 0x24, 0x28, 0x66, 0xe3, 0xe1, 0x3b,
];

// The root over 64 rows of 20 columns, of the entries 0, 1, 2, .., over 32 rows of one column, of
// 5000, 5001, .., and over two rows of three, of 7000 to 7005.
const MANY_ROOT: Hash = [
    0x07, 0x32, 0x5a, 0xa6, 0x27, 0x66, 0xb3, 0x91, 0x8a, 0xe5, 0x6f, 0xa4, 0x46, 0x5f, 0xa6, 0x06,
    0x70, 0xb0, 0x80, 0xdd, 0x5b, 0x85, 0x9d, 0x74, 0xb6, 0x47, 0x52, 0x59, 0x5c, 0x93, 0x7a, 0x75,
];

// Why a test ends that memory is refused.
const MEMORY: &str = "memory is refused";

fn element(value: u64) -> Mersenne31 {
    Mersenne31::from_u64(value)
}

// The matrix of this width with these entries.
fn matrix(rt: &impl Abort, alloc: Global, values: &[u64], width: usize) -> Matrix {
    let entries = values.iter().map(|x| element(*x)).collect(alloc);
    let entries: Vec<Mersenne31> = entries.expect(rt, MEMORY);
    assert!(rt; width >= 1 && entries.len() % width == 0);
    RowMajorMatrix::new(entries, width)
}

// The matrices of these entries and widths.
fn matrices(rt: &impl Abort, alloc: Global, shapes: &[(&[u64], usize)]) -> Vec<Matrix> {
    let mut all = Vec::new(alloc);
    for (values, width) in shapes {
        all.push(matrix(rt, alloc, values, *width))
            .expect(rt, MEMORY);
    }
    all
}

// The root over matrices, and what they are opened with.
fn commit(rt: &impl Abort, alloc: Global, inputs: Vec<Matrix>) -> (Hash, Data) {
    assert!(rt; !inputs.is_empty() && heights_are_powers_of_two(&inputs));
    ShaMmcs::new().commit(alloc, inputs).expect(rt, MEMORY)
}

// The rows of all matrices at the indices, and the digests that prove them.
fn open(rt: &impl Abort, alloc: Global, indices: &[usize], data: &Data) -> (Rows, Vec<Hash>) {
    let mmcs = ShaMmcs::<Mersenne31>::new();
    assert!(rt; !indices.is_empty() && are_below(indices, mmcs.get_max_height(data)));
    mmcs.open_multi_batch(alloc, indices, data)
        .expect(rt, MEMORY)
}

// The rows of one query, each of one of these entries.
fn rows_of(rt: &impl Abort, alloc: Global, entries: &[Mersenne31]) -> Vec<Vec<Mersenne31>> {
    let mut rows = Vec::new(alloc);
    for entry in entries {
        let row = vec![in alloc; *entry].expect(rt, MEMORY);
        rows.push(row).expect(rt, MEMORY);
    }
    rows
}

// The rows of the column at these places, each as the only row of its index.
fn rows_at(rt: &impl Abort, alloc: Global, places: &[u64]) -> Rows {
    let mut rows = Vec::new(alloc);
    for place in places {
        rows.push(rows_of(rt, alloc, &[element(10) + element(*place)]))
            .expect(rt, MEMORY);
    }
    rows
}

// The text of a verdict.
fn shown(verdict: Result<(), MerkleTreeError>) -> InlineText<64> {
    match verdict {
        Ok(()) => InlineText::of(ACCEPTED),
        Err(refusal) => InlineText::of(refusal),
    }
}

// What is told of rows of the column.
fn verify(alloc: Global, indices: &[usize], rows: &Rows, proof: &Vec<Hash>) -> InlineText<64> {
    let mmcs = ShaMmcs::<Mersenne31>::new();
    let dimensions = [column_of(8)];
    shown(mmcs.verify_multi_batch(alloc, &COLUMN_ROOT, &dimensions, indices, rows, proof))
}

// The matrix of this width with these entries, each by one more than the one before it.
fn counting(rt: &impl Abort, alloc: Global, entries: Range<u64>, width: usize) -> Matrix {
    let values: Vec<u64> = entries.collect(alloc).expect(rt, MEMORY);
    matrix(rt, alloc, &values, width)
}

// Rows of two blocks, and rows beside nodes, sixteen at a time and in what is left.
#[test]
fn commits_to_many_rows(rt: HostRuntime) {
    let alloc = rt.alloc();
    let high = counting(&rt, alloc, 0..1280, 20);
    let lower = counting(&rt, alloc, 5000..5032, 1);
    let lowest = counting(&rt, alloc, 7000..7006, 3);
    let inputs = vec![in alloc; high, lower, lowest].expect(&rt, MEMORY);
    assert!(rt; commit(&rt, alloc, inputs).0 == MANY_ROOT);
}

// Asserts the height and the number of matrices of what the column is opened with.
fn assert_data_of_column(rt: &impl Abort, data: &Data) {
    let mmcs = ShaMmcs::<Mersenne31>::new();
    assert!(rt; mmcs.get_max_height(data) == 8);
    assert!(rt; mmcs.get_matrices(data).len() == 1);
}

// Asserts the rows of the column and the digests that it is opened to, and that they are accepted.
fn assert_opens_column(rt: &impl Abort, alloc: Global, data: &Data) {
    let (rows, proof) = open(rt, alloc, &[7, 2, 3, 2], data);
    assert!(rt; rows == rows_at(rt, alloc, &[7, 2, 3, 2]));
    assert!(rt; proof.as_slice() == COLUMN_PROOF);
    assert!(rt; verify(alloc, &[7, 2, 3, 2], &rows, &proof).as_str() == ACCEPTED);
}

#[test]
fn opens_a_column(rt: HostRuntime) {
    let alloc = rt.alloc();
    let column = matrices(&rt, alloc, &[(&[10, 11, 12, 13, 14, 15, 16, 17], 1)]);
    let (root, data) = commit(&rt, alloc, column);
    assert!(rt; root == COLUMN_ROOT);
    assert_data_of_column(&rt, &data);
    assert_opens_column(&rt, alloc, &data);
}

// What is told of the rows of the column at these places, with these digests for proof.
fn verdict(
    rt: &impl Abort,
    alloc: Global,
    indices: &[usize],
    places: &[u64],
    proof: &[Hash],
) -> InlineText<64> {
    let rows = rows_at(rt, alloc, places);
    let proof = proof.to_vec(alloc).expect(rt, MEMORY);
    verify(alloc, indices, &rows, &proof)
}

const FEWER: &[Hash] = &[LEAF, LEFT];

const MORE: &[Hash] = &[LEAF, LEFT, RIGHT, COLUMN_ROOT];

// Indices, the places whose rows are opened there, the digests for proof, and what is told.
type Case = (
    &'static [usize],
    &'static [u64],
    &'static [Hash],
    &'static str,
);

const CASES: &[Case] = &[
    (&[7, 2, 3, 2], &[7, 2, 3, 2], COLUMN_PROOF, ACCEPTED),
    (&[7, 2, 3, 2], &[7, 2, 3, 2], MORE, WRONG_PROOF_LENGTH),
    (&[7, 2, 3, 2], &[7, 2, 3, 2], FEWER, WRONG_PROOF_LENGTH),
    (&[7, 2, 3, 2], &[7, 2, 3, 2], &[], WRONG_PROOF_LENGTH),
    (&[7, 2, 3, 2], &[7, 2, 4, 2], COLUMN_PROOF, ROOT_MISMATCH),
    (&[7, 2, 3, 2], &[7, 2, 3, 3], COLUMN_PROOF, DISAGREEING_ROWS),
    (&[7, 2, 3, 2], &[7, 2, 3, 3], FEWER, DISAGREEING_ROWS),
    (&[8, 2, 3, 2], &[7, 2, 3, 2], COLUMN_PROOF, WRONG_INDEX),
    (&[7, 2, 3, 2], &[7, 2, 3], COLUMN_PROOF, WRONG_INDEX),
    (&[], &[], &[], WRONG_INDEX),
    (&[3, 2, 7], &[3, 2, 7], COLUMN_PROOF, ACCEPTED),
];

#[test]
fn refuses_what_is_changed(rt: HostRuntime) {
    for (indices, places, proof, expected) in CASES {
        let told = verdict(&rt, rt.alloc(), indices, places, proof);
        assert!(rt; told.as_str() == *expected);
    }
}

// The rows of the column at 7, 2, 3, 2, the first with an element more.
fn with_a_wide_row(rt: &impl Abort, alloc: Global) -> Rows {
    let mut rows = rows_at(rt, alloc, &[7, 2, 3, 2]);
    let wide = vec![in alloc; element(17), element(17)].expect(rt, MEMORY);
    *rows.get_mut(0).expect(rt, "there are no rows") = vec![in alloc; wide].expect(rt, MEMORY);
    rows
}

#[test]
fn refuses_a_wide_row_before_its_index(rt: HostRuntime) {
    let alloc = rt.alloc();
    let rows = with_a_wide_row(&rt, alloc);
    let proof = COLUMN_PROOF.to_vec(alloc).expect(&rt, MEMORY);
    let told = verify(alloc, &[8, 2, 3, 2], &rows, &proof);
    assert!(rt; told.as_str() == WRONG_WIDTH);
}

// Asserts that the column's first row, without a proof, is refused where matrices have this shape.
fn assert_refused(rt: &impl Abort, alloc: Global, dimensions: &[Dimensions]) {
    let (rows, none) = (rows_at(rt, alloc, &[0]), Vec::new(alloc));
    let mmcs = ShaMmcs::<Mersenne31>::new();
    let verdict = mmcs.verify_multi_batch(alloc, &COLUMN_ROOT, dimensions, &[0], &rows, &none);
    assert!(rt; shown(verdict).as_str() == WRONG_WIDTH);
}

// The shape of one column.
const fn column_of(height: usize) -> Dimensions {
    Dimensions { width: 1, height }
}

#[test]
fn refuses_shapes(rt: HostRuntime) {
    assert_refused(&rt, rt.alloc(), &[]);
    for height in [3, 0] {
        assert_refused(&rt, rt.alloc(), &[column_of(height)]);
    }
}

#[test]
fn one_refusal_is_of_memory(rt: HostRuntime) {
    assert!(rt; !ShaMmcs::<Mersenne31>::is_memory(&MerkleTreeError::WrongWidth));
    assert!(rt; ShaMmcs::<Mersenne31>::is_memory(&MerkleTreeError::Memory));
}

const FOUR: &[(&[u64], usize)] = &[
    (&[1, 2, 3, 4, 5, 6, 7, 8], 2),
    (&[9], 1),
    (&[100, 200], 1),
    (&[2147483646, 0, 1, 2], 1),
];

const FOUR_SHAPES: [Dimensions; 4] = [
    Dimensions {
        width: 2,
        height: 4,
    },
    Dimensions {
        width: 1,
        height: 1,
    },
    Dimensions {
        width: 1,
        height: 2,
    },
    Dimensions {
        width: 1,
        height: 4,
    },
];

// Asserts that the rows of the four matrices at the indices are accepted, with `count` digests for
// proof.
fn assert_opens(rt: &impl Abort, alloc: Global, indices: &[usize], data: &Data, count: usize) {
    let (rows, proof) = open(rt, alloc, indices, data);
    assert!(rt; proof.len() == count);
    let mmcs = ShaMmcs::<Mersenne31>::new();
    let verdict = mmcs.verify_multi_batch(alloc, &FOUR_ROOT, &FOUR_SHAPES, indices, &rows, &proof);
    assert!(rt; verdict.is_ok());
}

#[test]
fn opens_several_heights(rt: HostRuntime) {
    let alloc = rt.alloc();
    let (root, data) = commit(&rt, alloc, matrices(&rt, alloc, FOUR));
    assert!(rt; root == FOUR_ROOT);
    for index in 0..4 {
        assert_opens(&rt, alloc, &[index], &data, 2);
    }
    assert_opens(&rt, alloc, &[3, 0, 1, 2], &data, 0);
}

// The rows of two indices of two matrices, both of which stand for the only row of the lower one.
fn disagreeing_rows(rt: &impl Abort, alloc: Global) -> Rows {
    let first = rows_of(rt, alloc, &[element(1), element(5)]);
    let second = rows_of(rt, alloc, &[element(2), element(6)]);
    vec![in alloc; first, second].expect(rt, MEMORY)
}

#[test]
fn refuses_two_rows_at_one_position(rt: HostRuntime) {
    let alloc = rt.alloc();
    let verdict = ShaMmcs::<Mersenne31>::new().verify_multi_batch(
        alloc,
        &COLUMN_ROOT,
        &[column_of(2), column_of(1)],
        &[1, 0],
        &disagreeing_rows(&rt, alloc),
        &Vec::new(alloc),
    );
    assert!(rt; shown(verdict).as_str() == DISAGREEING_ROWS);
}

// The digest of a first byte and further pieces.
fn digest(first: u8, left: &[u8], right: &[u8]) -> Hash {
    let mut hasher = Sha256::new();
    hasher.update([first].as_slice());
    hasher.update(left);
    hasher.update(right);
    hasher.finalize()
}

// The digest of a row of one element.
fn leaf(x: u8) -> Hash {
    digest(0, &[0, 0, 0], &[x])
}

// The digest of two rows with a row beside their node.
fn node(left: u8, right: u8, beside: u8) -> Hash {
    digest(2, &digest(1, &leaf(left), &leaf(right)), &leaf(beside))
}

#[test]
fn the_root_by_hand(rt: HostRuntime) {
    let alloc = rt.alloc();
    let inputs = matrices(&rt, alloc, &[(&[1, 2, 3, 4], 1), (&[100, 200], 1)]);
    let (root, _data) = commit(&rt, alloc, inputs);
    assert!(rt; root == digest(1, &node(1, 2, 100), &node(3, 4, 200)));
}
