//! What stands between the constraints of a STARK and the commitment scheme: the quotient of a
//! trace's constraints, its chunks, and the identity that ties their values at a point to the
//! columns' (Circle STARKs, IACR ePrint 2024/278, section 5.1).
//!
//! What is proved, for every lawful field, generator and extension:
//!
//! - `is_fit` returns a coordinate exactly where the point of `zeta` is finite, the vanishing
//!   polynomial isn't 0 there and the next point is finite: that of the next point.
//! - `fit_is_clear`: such a point meets what selectors and periodic columns require.
//! - `composition` is by its formula: the sum over the constraints of the selector of the place
//!   times the node, times a power of the challenge.
//! - `quotient_values` is at each point of the quotient's domain that sum, over the row there and
//!   the row `2^k` places on, over the vanishing polynomial; and where the rows are the values of
//!   polynomials, it is the quotient of these, as `laws::quotient_recomposes` takes it.
//! - `recompose_quotient` is by its formula, with Lagrange factors in the vanishing polynomial's
//!   values on the parts and a basis of coefficients.
//! - `quotient_chunks` returns the domains and the rows that `split_domains` and `split_evals` of
//!   the quotient's domain return.
//! - `laws::next_row`: the polynomial of a column's next rows is that of the column, one step on.
//! - `laws::quotient_recomposes`: for rows that satisfy the constraints, the identity holds at
//!   every point off the trace's domain.
//! - `laws::identity_binds`: where the identity holds at enough points, for as many challenges as
//!   there are constraints, the columns' values on the trace's domain satisfy the constraints.
//!
//! Its files:
//!
//! - In `src/`, `window`, `composition`: the constraints at one point. `trace`, `quotient`: the
//!   quotient's values on its domain, over `lanes` and `nodes` (the rows of a block and the nodes'
//!   values there), `selectors`, `periodic`, `weights`, and `blocks` and `sums` (the constraints
//!   put together). `chunks`, `recomposition`, `fit`, `laws`: chunks, the quotient put together,
//!   points, theorems.
//! - In `specs/`, `Window` and `Composition`: what constraints read at a point, and what they come
//!   to under a challenge; `Records`: the records of the calls. `Basis`, `Recomposition`,
//!   `Identity`: chunks put together, and the identity. `Quotient`: the quotient's values by rows;
//!   `Terms`, `Blocks`, `Lanes`, `NodeLanes`, `RowSelectors`: by what stands at each place. `Fit`,
//!   `NextRow`: the points to open at, and next rows.
//! - In `proofs/`, of polynomials: `Monomials`, by their coefficients, with as many roots;
//!   `Forms`, functions `a(x) + y b(x)` on the circle; `Waves`, what a translation makes of them;
//!   `Doubling`, what doublings do; `LineRoots`, roots by coordinates of the projective line;
//!   `Challenges`, sums by powers of a challenge. `Fits`, `Grades`: degrees, counted in columns.
//! - In `proofs/`, of domains: `Places`, `Cosets`, `PartValues`: points by their places, their x
//!   coordinates, the vanishing polynomial on the parts. `FitPoints`: points clear of a domain.
//!   `Selecting`, `Periods`, `NextRows`: selectors, periodic columns and next rows have the degree
//!   of a column. `PartSizes`, `PartFactors`, `Interpolating`, `Recomposing`: what is put together
//!   of chunks, and `Basis` of coefficients.
//! - In `proofs/`, of constraints: `Windows`, `Compositions`: windows along the circle, and the
//!   degree of what they come to. `Identity`, `Binding`: the two theorems; `Sizes` for every size.
//! - In `proofs/`, of the quotient's values: `LaneLists`, `PlaceRanges`: lists by lanes and places;
//!   `Weighing`: powers as weights; `LiftedPlaces`: what constraints read in the base field and in
//!   the larger one; `RowSelectors`: the rows' selectors by one inverse for both;
//!   `QuotientPoints`, `QuotientPlaces`, `QuotientRows`: so the values by places are those by rows,
//!   and those of polynomials.
#![tactic(auto)]

mod blocks;
pub mod chunks;
pub mod composition;
pub mod fit;
mod lanes;
pub mod laws;
mod nodes;
mod periodic;
pub mod quotient;
pub mod recomposition;
mod selectors;
mod sums;
pub mod trace;
mod weights;
pub mod window;
