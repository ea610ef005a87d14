//! Points of the unit circle, their group, and the polynomials of the circle basis.
//!
//! A `Point` carries the circle's equation in its type. What is proved, for every lawful field:
//!
//! - Points are a commutative group: each law is a clause of `Add::add`, `Sub::sub`, `Neg::neg`,
//!   `double` or `Mul::mul`, and `P * n` is the n-fold sum. `+` and `-` take a point of an
//!   extension and one of the field.
//! - `from_projective_line` is `None` exactly where `t^2 = -1`, `to_projective_line` exactly at `x
//!   = -1`, and where they return a value they undo each other (`back`).
//! - `is_at_infinity` is whether `t^2 = -1`.
//! - `v_tilde_p` and `v_p` are by their formulas, `re^2 + im^2 = 2 re` for the latter (`norm`),
//!   and `s_p_at_p(n)` is `-2^n` times the y coordinate of the multiple by `2^(n-1)`.
//! - `repeated_double`, `v_n` and `v_n_prod` are the multiple by a power of two, its x coordinate
//!   (which is the polynomial `v_n` too), and the product of these.
//!
//! Its files:
//!
//! - In `specs/`, `Basis`, `Projective`: the definitions; `Point`: what the type is to contracts.
//! - In `proofs/`: multiples, bases, projections, selectors, when two points are one.
#![tactic(auto)]

pub mod point;

pub use point::{Neutral, Point, is_at_infinity};
