//! A run by what describes it.
ghost use Rattle.std.specs.Prelude.{◌≡◌};
ghost use Rattle.circle_transcript.specs.Draw.{DrawsInRange};
ghost use Rattle.circle_transcript.specs.Numbers.{numbers_of};
ghost use Rattle.circle_transcript.specs.Runs.{ArePlayable};
ghost use Rattle.circle_transcript.specs.ShapeOf.{shape_of};

use crate::moves::TranscriptMoves;
use crate::shape::CirclePcsShape;
use circle_challenger::{CanObserve, CanSample, GrindingChallenger};
use circle_field::{ExtensionField, Field};
use std::marker::PhantomData;

/// A run that can be played, by the shape that describes it.
///
/// For contracts alone its type carries what a challenger of the type `C` is to a run whose
/// commitments are of the type `Com`.
#[derive(Drop)]
pub struct CircleRun<C: TranscriptMoves<F, EF, Com>, F, EF, Com> {
    /// What describes the run.
    pub shape: CirclePcsShape,
    of: PhantomData<(C, F, EF, Com)>,
    pub ghost playable: { ArePlayable (numbers_of (shape_of shape)) },
    ghost in_range: { DrawsInRange C.run },
}

impl<
    F: Field,
    EF: ExtensionField<F>,
    C: CanSample<F> + GrindingChallenger<F> + CanObserve<Com>,
    Com,
> CircleRun<C, F, EF, Com> {
    /// The run that this shape describes.
    ///
    /// Requires difficulties, a number of bits of an index and a `log_final_poly_len` of at most
    /// 63.
    pub fn new(shape: CirclePcsShape) -> Self
        requires { ArePlayable (numbers_of (shape_of shape)) }
        ensures { result.shape ≡ shape }
    {
        CircleRun {
            shape,
            of: PhantomData,
        }
    }
}
