//! Laws of the relation that a verifier decides, of claims on codewords, of runs whose final
//! polynomial is a constant, and of points. The calls of this module return nothing and carry what
//! their contracts say.
ghost use Rattle.std.specs.Prelude.{◌≡◌, IsTrue};
ghost use Rattle.p3_circle.specs.Constant.{AreSameOfConstants, HasConstantText};
ghost use Rattle.p3_circle.specs.Constant.{HaveConstantShape};

use circle_commit::{CommitmentOpening, FriParameters, Mmcs};
use circle_domain::CircleDomain;
use circle_field::{ComplexExtendable, ExtensionField, Field};
pub use circle_folding::{claim_binds, quotient_binds};
use circle_plane::Point;
use circle_relation::CirclePcsProof;
use circle_transcript::CirclePcsShape;
use std::hash::Hash;

/// Where the final polynomial is a constant, the relation holds of the claims and the proof, under
/// any challenges and whatever field `EF` extends, exactly where that of one final value does: each
/// query's chain ends in that value. Takes no memory.
pub fn constant_ends<
    Val: ComplexExtendable,
    EF: ExtensionField<Val>,
    InputMmcs: Mmcs<Val>,
    FriMmcs: Mmcs<EF>,
>(
    mmcs: &InputMmcs,
    params: &FriParameters<FriMmcs>,
    claims: &[CommitmentOpening<EF, InputMmcs::Commitment, CircleDomain<Val>>],
    proof: &CirclePcsProof<Val, EF, InputMmcs, FriMmcs, Val>,
)
    ensures { AreSameOfConstants EF.ops params.now claims.now proof.now
        (InputMmcs.authenticates mmcs.now) (FriMmcs.authenticates params.now.mmcs) }
{
    let _mmcs = mmcs;
    let _params = params;
    let _claims = claims;
    let _proof = proof;
}

/// Where the final polynomial is a constant, the shape of a run is the one that names no final
/// polynomial, and its seed's text that of version 1, with two labels. Takes no memory.
pub fn constant_seeds<M>(degree: usize, params: &FriParameters<M>, shape: &CirclePcsShape)
    ensures shape { HaveConstantShape params.now }
    ensures text { HasConstantText degree shape.now }
{
    let _params = params;
    let _degree = degree;
    let _shape = shape;
}

/// Equal points hash equally. Takes no memory.
pub fn equal_points_hash_equally<F: Field>(a: Point<F>, b: Point<F>)
    ensures { let p = ⟦<Point<F> as Hash>⟧ in
        IsTrue (p.eq a b) → p.hash_input a ≡ p.hash_input b }
{
    let _points = (a, b);
}
