//! Domains of the circle transform, the two orders of their points, and their Lagrange polynomials.
//!
//! What is proved, for every lawful field:
//!
//! - `points`, `coset0`, `coset1` and `nth_point` give the points of a domain in natural order,
//!   `2^log_n` of them; `is_genuine` is true exactly where the halves are disjoint, `is_standard`
//!   exactly on standard domains, and `is_clear_of` exactly at points whose difference from each
//!   of the domain's points has a y coordinate that is not 0.
//! - `try_standard` and `try_nth_point` are `None` exactly where `standard` and `nth_point` require
//!   more.
//! - `cfft_permute_index` is the bit reversal between the two orders and its own inverse.
//! - On a standard domain `next_point` from `first_point` walks all points in natural order and
//!   returns (`walk`); `try_create_disjoint_domain` returns a standard domain of at least the
//!   required size that has no point of this one (`enough`, `disjoint`) and says exactly when there
//!   is none.
//! - The parts of `split_domains` are disjoint and make up the whole (`disjoint`, `whole`), and
//!   `split_evals` sends each row to the part that holds its point, at the point's natural place
//!   there (`goes`, `points`).
//! - `vanishing_poly_at_point`, `selectors_at_point` and `selectors_on_coset` are by their
//!   formulas, under conditions that exclude the poles and no more.
//! - `evaluate_polynomial_at` is the value at any point that the domain is clear of of the only
//!   polynomial with these values, also over an extension (`value`, `only`), and
//!   `evaluate_periodic_column_at` that of a column that repeats (`IsPeriodicValue`).
//! - Multiples of points, values by the halves of the coefficients, and that values on a genuine
//!   domain determine them, by calls that return nothing (`laws`).
//!
//! Its files:
//!
//! - In `src/`, `lagrange.rt`: the Lagrange polynomials at a point off the domain; `factors.rt`:
//!   the factors of the transform's layers and of folds; `row_selectors.rt`, `splitting.rt`:
//!   selectors at many points, and the rows of a part. `laws.rt`: laws for the crates above.
//! - In `specs/`, `Order`, `Ordering`, `Values`, `Clear`, `Selectors`, `Splitting`, `Periodic`: the
//!   definitions. `Spans`: codewords that are the values of polynomials with few coefficients.
//!   `Domain`, `CfftPerm`, `Space`: what the types are, require and return. `Layers`, `Lagrange`:
//!   blocks, factors and weights, for folding and the transform. `Rows`: examples.
//! - In `proofs/`, of orders: `Orders`, `Reversal`, `ReversedBlocks`, `CosetOrder`,
//!   `NaturalValues`, `OtherOrder`; in a larger field `Lifted`, `LiftedValues`; of domains
//!   `StandardDomain`, `Disjoint`, `NextPoints`, `Walking`, `Parts` and those beside it, `ClearOf`.
//! - In `proofs/`, of the transform, from the bottom: `HalfSums`, the value of coefficients from
//!   their two halves; `Blocks`, the points of a block and the factors of its halves; `Transform`,
//!   the layers of one block give its values; `Inversion`, on a genuine domain they can be undone;
//!   `Coefficients`, `Told`, there are such coefficients, and only they; `Layering`, `Layered`,
//!   `Undoing`, one layer over all blocks, forward and back; `Columns`, `Stored`, `Twiddles`,
//!   `ZeroRows`.
//! - In `proofs/`, of values off a domain: `LagrangePolynomials`, the Lagrange polynomial of a
//!   point as the product of `(1 + b(q) / b(p)) / 2` over the factors b of its blocks;
//!   `LagrangeQuotients`, that it is `(v_n(q) - v_n(s)) / s_p` times `(y_p + y_q) / (x_p - x_q)`;
//!   `LagrangeShares`, with one division for a point and its opposite; `LagrangeValues`, over an
//!   extension; `OffDomain`, `Apart`.
#![tactic(auto)]

pub mod domain;
pub mod factors;
pub mod lagrange;
pub mod laws;
pub mod ordering;
mod row_selectors;
mod splitting;

pub use domain::{CircleCoset, CircleDomain, CirclePoints};
pub use factors::{layer_twiddles, x_twiddles, y_twiddles};
pub use lagrange::{LagrangeWeights, lagrange_weights, value_off_domain};
pub use ordering::{
    CfftPerm, CfftPermutable, CfftView, append_moved, cfft_permute_index, first_points,
};
