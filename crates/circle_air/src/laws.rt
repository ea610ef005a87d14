//! Laws of the values of nodes. The calls of this module return nothing, allocate nothing and carry
//! what their contracts say.
ghost use Rattle.std.specs.Prelude.{◌≡◌, map};
ghost use Rattle.circle_air.specs.Air.{air_of};
ghost use Rattle.circle_air.specs.Text.{air_text};
ghost use Rattle.circle_air.specs.Values.{embedded, values, window};

use crate::air::Air;
use crate::node::Node;
use circle_field::{ElementBytes, ExtensionField, Field};

/// The values of nodes over a window of a field, embedded in an extension, are those over the
/// embedded window.
pub fn values_commute<F: Field, E: ExtensionField<F>>(
    nodes: &[Node<F>],
    local: &[F],
    next: &[F],
    periodic: &[F],
    public: &[F],
)
    ensures { let w = window local.now next.now periodic.now public.now in
        map E.embed (values F.ops (λ x. x) nodes.now w)
        ≡ values E.ops E.embed nodes.now (embedded E.embed w) }
{
    let _law = (
        nodes.len(),
        local.len(),
        next.len(),
        periodic.len(),
        public.len(),
    );
}

/// AIRs with one text, which their digests are of, are equal.
pub fn equal_texts<T: ElementBytes>(left: &Air<T>, right: &Air<T>)
    ensures { air_text T.bytes T.BYTES (air_of left.now) ≡ air_text T.bytes T.BYTES (air_of right.now)
        → air_of left.now ≡ air_of right.now }
{
    let _law = (
        left.width(),
        left.num_public_values(),
        right.width(),
        right.num_public_values(),
    );
}
