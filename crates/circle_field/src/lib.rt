//! Fields for Circle STARKs: traits whose laws are proved, the prime field Mersenne31 and its cubic
//! extension.
//!
//! What is proved, for every lawful instance where no type is named:
//!
//! - `Mersenne31` is the field of the numbers modulo `2^31 - 1`, which is a prime (`order_prime`):
//!   its `+ - *` and negation are the sums, products and opposites of residues, without a division
//!   on the way (`add_gives` and the like of the operators' impls), and they have the laws of a
//!   field in which 2 is not 0 (`Operations::laws`); `+=`, `-=` and `*=` leave the same
//!   (`add_assign_gives` and the like). `try_new` is `None` exactly for numbers that are not below
//!   the order, `from_u64` is the sum of that many ones, `value` and `as_u64` the residue, which
//!   gives the element back.
//! - `Cubic` is `X^3 = 5` over it, with the same operators and laws: 5 is no cube, so every element
//!   but 0 has an inverse.
//! - For every field `==` is sameness, `try_inverse` is `None` exactly at 0 and else the inverse;
//!   `halve`, `div_2exp_u64`, `powers`, `exp_u64`, `mul_2exp_u64`, `square`, `double` and
//!   `is_zero` are what they say, and `batch_multiplicative_inverse` is the list of the inverses
//!   in order.
//! - An extension field keeps the operations of its base field and has different elements for
//!   different ones of it; its coefficients are linear and determine the element;
//!   `from_coefficients` and `coefficient` undo each other (the laws of `ExtensionField`); every
//!   field is an extension of itself.
//! - The bytes of an element are of a fixed number and determine it (`ElementBytes`).
//! - The generators of `Mersenne31` lie on the circle, each is the double of the next, the first
//!   is (1, 0) and the second (-1, 0) (`generators_law`).
//! - Powers by sums of exponents, of squares and of what isn't 0, and sums of ones, by calls that
//!   return nothing (`laws`).
//!
//! Its files:
//!
//! - In `src/`, `field.rt`: `Operations` names the operations and carries their laws, as members
//!   that contracts alone see; `Field` adds what code calls. A struct whose invariant speaks of a
//!   field is bound by `Operations` alone, so that it carries one argument in proofs.
//! - In `specs/`, `Field`, `Extension`, `Bytes`, `Products`: fields, extensions, bytes, products.
//!   `Circle`, `CircleGroup`: the circle, whose points are a commutative group. `Primes`, `Fermat`,
//!   `FastPowers`, `Residues`: primes, Fermat's little theorem, powers and sums modulo a number.
//!   Those that begin with `Mersenne31`: the prime field. Those that begin with `Cubic`, and
//!   `Carried`: the cubic extension of a field by a number that is no cube, and that of Mersenne31.
//! - In `specs/`, `Ring`, `RingFacts`, `RingSound`, `RingCombine`: equations of commutative rings
//!   by computation. `ring laws env lhs rhs refl` proves that two polynomial expressions have one
//!   value in every commutative ring; `combine` does it under given equations.
//! - In `proofs/`: powers, sums, halves, inverses, sums of products before they are reduced.
#![tactic(auto)]

pub mod batch_inverse;
pub mod bytes;
pub mod cubic;
pub mod extension;
pub mod field;
pub mod laws;
pub mod mersenne31;

pub use batch_inverse::batch_multiplicative_inverse;
pub use cubic::Cubic;
pub use extension::{ComplexExtendable, ElementBytes, ExtensionField, PrimeField64};
pub use field::{Field, Operations};
pub use mersenne31::Mersenne31;
