//! What a run is seeded with: steps that are listed one by one make the seed of a shape, and the
//! number of bits of an index reaches it. The first elements that challengers draw after the seed
//! were computed apart from this code.
ghost use Rattle.std.specs.Prelude.{◌≡◌, ◌≤◌};

use crate::transcript::{MEMORY, NONE, element, one_matrix, shape};
use circle_challenger::{
    CanSample, DomainSeparator, Hierarchy, Interaction, InteractionPattern, Kind, Length,
    Sha256Challenger,
};
use circle_field::{Cubic, Mersenne31};
use circle_transcript::CirclePcsShape;
use std::alloc::Global;
use std::process::Abort;
use test_schemes::expect;

/// A step of elements of the cubic extension.
fn cubic_step(kind: Kind, label: &'static str, length: Length) -> Interaction {
    Interaction::algebra(Hierarchy::Atomic, kind, label, 3, length)
}

/// A step of one commitment.
fn commitment_step(label: &'static str) -> Interaction {
    Interaction::opaque(Hierarchy::Atomic, Kind::Message, label, Length::Scalar)
}

/// A step of two numbers of three bits.
fn indices_step(label: &'static str) -> Interaction {
    Interaction::bits(
        Hierarchy::Atomic,
        Kind::Challenge,
        label,
        3,
        Length::Fixed(2),
    )
}

/// The steps of a run over one claim of one column, with one round and no proofs of work.
fn steps(rt: &impl Abort, alloc: Global) -> Vec<Interaction> {
    let steps = vec![in alloc;
        cubic_step(Kind::Message, "opening_point", Length::Fixed(2)),
        cubic_step(Kind::Message, "opened_values", Length::Fixed(1)),
        cubic_step(Kind::Challenge, "batch_challenge", Length::Scalar),
        commitment_step("first_layer_commitment"),
        cubic_step(Kind::Challenge, "bivariate_challenge", Length::Scalar),
        commitment_step("commit_phase_commitment"),
        cubic_step(Kind::Challenge, "fold_challenge", Length::Scalar),
        cubic_step(Kind::Message, "final_poly", Length::Scalar),
        indices_step("query_indices"),
    ];
    steps.expect(rt, MEMORY)
}

/// The layout of one matrix that is opened at one point.
const LAYOUT: [u8; 24] = [
    0, 0, 0, 0, 0, 0, 0, 1, 0, 0, 0, 0, 0, 0, 0, 1, 0, 0, 0, 0, 0, 0, 0, 1,
];

/// The separator of these steps, of blowup logarithm 1 and of that layout.
fn listed(rt: &impl Abort, alloc: Global) -> DomainSeparator {
    let pattern = InteractionPattern::new(steps(rt, alloc));
    let separator = DomainSeparator::new(alloc, 1, "p3-circle-pcs", pattern).expect(rt, MEMORY);
    let separator = separator.instance(alloc, &1u64.to_be_bytes());
    let separator = separator.expect(rt, MEMORY).instance(alloc, &LAYOUT);
    separator.expect(rt, MEMORY)
}

#[test]
fn listed_steps_make_the_seed_of_a_shape(rt: HostRuntime) {
    let alloc = rt.alloc();
    let shape = shape(&rt, alloc, 1, NONE);
    let separator = shape.domain_separator::<Mersenne31, Cubic>(alloc);
    assert_listed(&rt, alloc, separator.expect(&rt, MEMORY).text());
}

/// Asserts that the listed separator is of these steps and of two labels, and has this text.
fn assert_listed(rt: &impl Abort, alloc: Global, text: &[u8]) {
    let listed = listed(rt, alloc);
    expect!(rt; listed.pattern().steps() == steps(rt, alloc).as_slice());
    expect!(rt; listed.labels().len() == 2);
    expect!(rt; listed.text().len() == 480);
    expect!(rt; listed.text() == text);
}

/// The shape over one claim of four columns with one round, whose indices have `index_bits` bits.
fn of_index_bits(rt: &impl Abort, alloc: Global, index_bits: usize) -> CirclePcsShape
    ensures { result.log_final_poly_len ≡ 0 }
{
    let widths = vec![in alloc; 4].expect(rt, MEMORY);
    CirclePcsShape {
        opened_widths: one_matrix(rt, alloc, widths),
        num_commit_rounds: 1,
        batch_pow_bits: 0,
        commit_pow_bits: 0,
        query_pow_bits: 0,
        num_queries: 2,
        index_bits,
        log_blowup: 1,
        log_final_poly_len: 0,
    }
}

/// The first element that a challenger draws after the seed of a shape.
fn first_drawn(rt: &impl Abort, alloc: Global, shape: &CirclePcsShape) -> Mersenne31
    requires { shape.now.log_final_poly_len ≤ 63 }
{
    let mut challenger = Sha256Challenger::new();
    let separator = shape.domain_separator::<Mersenne31, Cubic>(alloc);
    separator
        .expect(rt, MEMORY)
        .seed::<Mersenne31, Sha256Challenger>(&mut challenger);
    challenger.sample()
}

#[test]
fn the_bits_of_an_index_reach_the_seed(rt: HostRuntime) {
    let alloc = rt.alloc();
    let eight = of_index_bits(&rt, alloc, 8);
    let nine = of_index_bits(&rt, alloc, 9);
    expect!(rt; first_drawn(&rt, alloc, &eight) == element(1561129955));
    expect!(rt; first_drawn(&rt, alloc, &nine) == element(1556354232));
    let have_one_seed = eight.has_seed_of::<Mersenne31, Cubic>(alloc, &nine);
    expect!(rt; !have_one_seed.expect(&rt, MEMORY));
}
