//! The constraints of an AIR put together at one point by the powers of a challenge.
ghost use Rattle.std.specs.Prelude.{◌≡◌, ◌<◌, IfOk, All, length};
ghost use Rattle.circle_air.specs.Air.{air_of};
ghost use Rattle.circle_quotient.specs.Composition.{composition, selector, together};
ghost use Rattle.circle_quotient.specs.Records.{selectors_of, window_of};

use crate::window::PointWindow;
use circle_air::evaluate::write_values;
use circle_air::{Air, Constraint, Place};
use circle_commit::LagrangeSelectors;
use circle_field::{ExtensionField, Field};
use std::alloc::{AllocError, Global};

// The selector of a place.
fn place_selector<E: Field>(selectors: &LagrangeSelectors<E>, place: Place) -> E
    ensures { result ≡ selector E.ops (selectors_of selectors.now) place }
{
    match place {
        Place::Every => E::ONE,
        Place::First => selectors.is_first_row,
        Place::Last => selectors.is_last_row,
        Place::Transition => selectors.is_transition,
    }
}

// The constraints' nodes, each times the selector of its place, put together by the powers of
// `alpha`: the last has the power 0.
fn put_together<E: Field>(
    constraints: &[Constraint],
    nodes: &[E],
    selectors: &LagrangeSelectors<E>,
    alpha: E,
) -> E
    requires { All (λ c. c.node < length nodes.now) constraints.now }
    ensures { result
        ≡ together E.ops constraints.now nodes.now (selectors_of selectors.now) alpha }
{
    let mut sum = E::ZERO;
    for constraint in constraints {
        let selector = place_selector(selectors, constraint.place);
        sum = alpha * sum + selector * nodes[constraint.node];
    }
    sum
}

/// The constraints over what they read at a point and over the selectors there, put together: the
/// sum over the constraints of the selector of the constraint's place, 1 for every row, times the
/// constraint's node, times `alpha` to the number of the constraints that follow.
///
/// `inv_vanishing` of the selectors isn't read. Requires a window of the AIR's width and of as many
/// periodic columns and public values as it has. Fails where memory is refused.
pub fn composition<F: Field, EF: ExtensionField<F>>(
    alloc: Global,
    air: &Air<F>,
    window: &PointWindow<EF>,
    selectors: &LagrangeSelectors<EF>,
    alpha: EF,
) -> Result<EF, AllocError>
    requires width { length window.now.local.now ≡ (air_of air.now).width }
    requires periodic { length window.now.periodic.now
        ≡ length (air_of air.now).periodic_columns }
    requires public { length window.now.public_values.now ≡ (air_of air.now).num_public_values }
    ensures { IfOk result (λ value. value ≡ composition EF.ops EF.embed (air_of air.now)
        (window_of window.now) (selectors_of selectors.now) alpha) }
{
    let mut nodes = vec![in alloc; EF::ZERO; air.nodes().len()]?;
    write_values(air.nodes(), window, 1, nodes.as_mut_slice());
    Ok(put_together(air.constraints(), &nodes, selectors, alpha))
}
