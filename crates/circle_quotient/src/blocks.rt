//! The quotient's values at a block of places, from the values of the nodes there.
ghost use Rattle.std.specs.Prelude.{◌≡◌, ℕ, ◌≤◌, ◌<◌, ◌+◌, ◌*◌, ◌++◌, All, IfSome, OnOk, length, map};
ghost use Rattle.std.specs.Prelude.{drop, take};
ghost use Rattle.std.specs.List.{range_with_len};
ghost use Rattle.std.specs.Option.{option_copied};
ghost use Rattle.circle_commit.specs.DotProduct.{pairwise};
ghost use Rattle.circle_air.specs.Lanes.{lane};
ghost use Rattle.circle_air.specs.Values.{entry};
ghost use Rattle.circle_quotient.specs.Composition.{selector};
ghost use Rattle.circle_quotient.specs.Lanes.{HaveLanes, factor_at, lane_of};
ghost use Rattle.circle_quotient.specs.Terms.{terms, weighted};

use crate::sums::{add_selected, clear_all, lane_sum};
use circle_air::{Constraint, Place};
use circle_commit::LagrangeSelectors;
use circle_field::{ExtensionField, Field};
use std::alloc::AllocError;

/// What the quotient is made of besides the rows: at each place of its domain the selectors and
/// the periodic columns, these as far as they differ, and for each constraint a weight.
#[derive(Drop)]
pub(crate) struct QuotientTerms<'a, F, EF> {
    pub constraints: &'a [Constraint],
    pub weights: Vec<EF>,
    pub selectors: LagrangeSelectors<Vec<F>>,
    pub periodic: Vec<Vec<F>>,
}

// The values of a node, one for each lane.
fn node_values<F>(nodes: &[F], node: usize, lanes: usize) -> &[F]
    requires { (node + 1) * lanes ≤ length nodes.now }
    ensures values { result.now ≡ take lanes (drop (node * lanes) nodes.now) }
    ensures count { length result.now ≡ lanes }
{
    let start = node * lanes;
    &nodes[start..start + lanes]
}

impl<F: Field, EF: ExtensionField<F>> QuotientTerms<'_, F, EF> {
    ghost use Rattle.circle_quotient.specs.Blocks.{HavePlaces, selectors_at_place};

    /// Writes for each lane the sum over the constraints of the selector of the constraint's place
    /// times its node, times the constraint's weight, at the places from `start` on. The sums are
    /// written by their coefficients.
    ///
    /// Requires values of the nodes for as many lanes as there are `products`, and selectors there.
    pub fn write_sums(
        &self,
        start: usize,
        nodes: &[F],
        coefficients: &mut [Vec<F>],
        products: &mut [F],
    )
        requires weights { length self.now.weights.items ≡ length self.now.constraints.now }
        requires places { HavePlaces (start + length products.old) self.now }
        requires nodes { All (λ c. (c.node + 1) * length products.old ≤ length nodes.now)
            self.now.constraints.now }
        requires sums { HaveLanes EF.DEGREE (length products.old) coefficients.old }
        ensures lanes { HaveLanes EF.DEGREE (length products.old) coefficients.new }
        ensures sums { (r : ℕ) → r < length products.old → lane_of F.ops coefficients.new r
            ≡ EF.coefficients (weighted F.ops EF.ops EF.embed self.now.weights.items
            (terms F.ops self.now.constraints.now (lane F.ops (length products.old) r nodes.now)
            (selectors_at_place F.ops self.now (start + r)))) }
    {
        clear_all(coefficients);
        let lanes = products.len();
        for (j, constraint) in self.constraints.iter().enumerate() {
            let values = node_values(nodes, constraint.node, lanes);
            let selector = self.selector(constraint.place, start, lanes);
            add_selected(coefficients, products, selector, values, self.weights[j]);
        }
    }

    // The selector of a place at the places from `start` on, and `None` where it is 1.
    fn selector(&self, place: Place, start: usize, lanes: usize) -> Option<&[F]>
        requires { HavePlaces (start + lanes) self.now }
        ensures count { IfSome result (λ s. length s.now ≡ lanes) }
        ensures values { (r : ℕ) → r < lanes → factor_at F.ops (option_copied result) r
            ≡ selector F.ops (selectors_at_place F.ops self.now (start + r)) place }
    {
        let end = start + lanes;
        match place {
            Place::Every => None,
            Place::First => Some(&self.selectors.is_first_row[start..end]),
            Place::Last => Some(&self.selectors.is_last_row[start..end]),
            Place::Transition => Some(&self.selectors.is_transition[start..end]),
        }
    }
}

/// Appends for each lane the sum times the inverse of the vanishing polynomial.
///
/// Requires sums for as many lanes as there are inverses. Fails where memory is refused.
pub(crate) fn push_quotients<F: Field, EF: ExtensionField<F>>(
    values: &mut Vec<EF>,
    sums: &[Vec<F>],
    inverses: &[F],
) -> Result<(), AllocError>
    requires { HaveLanes EF.DEGREE (length inverses.now) sums.now }
    ensures { OnOk result ((sum : ℕ → EF) → ((r : ℕ) → r < length inverses.now →
        lane_of F.ops sums.now r ≡ EF.coefficients (sum r)) → values.new.items ≡ values.old.items
        ++ map (λ r. EF.ops.mul (EF.embed (entry F.ops inverses.now r)) (sum r))
        (range_with_len 0 (length inverses.now))) }
{
    for (lane, inverse) in inverses.iter().enumerate() {
        values.push(lane_sum::<F, EF>(sums, lane).times_base(*inverse))?;
    }
    Ok(())
}
