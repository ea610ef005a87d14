//! The points of requests, each made of its coordinate once, and the matrices with them.
ghost use Rattle.std.specs.Prelude.{◌≡◌, ◌++◌, All, IfOk, OnOk, flat_map, length};
ghost use Rattle.circle_domain.specs.Selectors.{IsFinite};
ghost use Rattle.circle_codewords.specs.Points.{coordinates_of};
ghost use Rattle.circle_codewords.specs.Requests.{lists_of};
ghost use Rattle.circle_prover.specs.OfRequests.{AddsAsked, AreHigh, AreMatricesAt, AreOpenableAt};
ghost use Rattle.circle_prover.specs.OfRequests.{ArePointsOf, BeginsWith, Leaves};

use crate::openable::OpenableRequests;
use circle_codewords::{MatrixAtPoints, OpeningPoint};
use circle_commit::{Matrix, Mmcs, RowMajorMatrix, log2_strict};
use circle_field::{ComplexExtendable, ExtensionField, Field};
use std::alloc::{AllocError, Global};

// Adds the points of a matrix.
fn push_points<EF: Field>(
    list: &mut Vec<OpeningPoint<EF>>,
    coordinates: &[EF],
) -> Result<(), AllocError>
    requires { All (IsFinite EF.ops) coordinates.now }
    ensures { OnOk result (coordinates_of list.new.items
        ≡ coordinates_of list.old.items ++ coordinates.now) }
{
    for coordinate in coordinates {
        list.push(OpeningPoint::new(*coordinate).unwrap())?;
    }
    Ok(())
}

// Adds the points of the matrices of a batch.
fn push_batch_points<EF: Field>(
    list: &mut Vec<OpeningPoint<EF>>,
    coordinates: &[Vec<EF>],
) -> Result<(), AllocError>
    requires { All (λ v. All (IsFinite EF.ops) v.items) coordinates.now }
    ensures { OnOk result (coordinates_of list.new.items
        ≡ coordinates_of list.old.items ++ flat_map (λ v. v.items) coordinates.now) }
{
    for matrix in coordinates {
        push_points(list, matrix)?;
    }
    Ok(())
}

impl<
    'a,
    Val: ComplexExtendable,
    EF: ExtensionField<Val>,
    InputMmcs: Mmcs<Val>,
    FriMmcs: Mmcs<EF>,
> OpenableRequests<'a, Val, EF, InputMmcs, FriMmcs> {
    /// The points of all requests, in the order batch, matrix, point. Fails where memory is
    /// refused.
    pub(crate) fn opening_points(&self, alloc: Global) -> Result<Vec<OpeningPoint<EF>>, AllocError>
        ensures { IfOk result (λ v. ArePointsOf self.now v.items) }
    {
        let mut list = Vec::new(alloc);
        for request in self.requests {
            push_batch_points(&mut list, &request.points)?;
        }
        Ok(list)
    }

    // Adds the matrices of a batch, whose points are the first of `points`, and returns the points
    // that follow.
    fn push_matrices(
        &self,
        list: &mut Vec<MatrixAtPoints<'a, Val, EF>>,
        matrices: &'a [RowMajorMatrix<Val>],
        coordinates: &[Vec<EF>],
        points: &'a [OpeningPoint<EF>],
    ) -> Result<&'a [OpeningPoint<EF>], AllocError>
        requires fit { AreOpenableAt self.now matrices.now (lists_of coordinates.now) }
        requires front { BeginsWith (flat_map (λ v. v.items) coordinates.now)
            (coordinates_of points.now) }
        ensures list { IfOk result (λ rest.
            AddsAsked matrices.now (lists_of coordinates.now) list.old.items list.new.items) }
        ensures high { IfOk result (λ rest.
            AreHigh self.now list.old.items → AreHigh self.now list.new.items) }
        ensures rest { IfOk result (λ rest. Leaves (flat_map (λ v. v.items) coordinates.now)
            (coordinates_of points.now) (coordinates_of rest.now)) }
    {
        let mut rest = points;
        for (matrix, asked) in matrices.iter().zip(coordinates) {
            let (points, others) = rest.split_at(asked.len());
            list.push(MatrixAtPoints {
                log_height: log2_strict(matrix.height()),
                rows: matrix,
                points,
            })?;
            rest = others;
        }
        Ok(rest)
    }

    /// All requested matrices with their points, one after another.
    ///
    /// Requires the points of all requests. Fails where memory is refused.
    pub(crate) fn matrices_at_points(
        &self,
        alloc: Global,
        points: &'a [OpeningPoint<EF>],
    ) -> Result<Vec<MatrixAtPoints<'a, Val, EF>>, AllocError>
        // It has as many coordinates as points. This is required by itself, since with one clause
        // alone the prover takes long to state the place of a call; so it is of the functions that
        // have a second clause which follows from the first.
        requires points { ArePointsOf self.now points.now }
        requires count { length points.now ≡ length (coordinates_of points.now) }
        ensures { IfOk result (λ v. AreMatricesAt self.now v.items) }
    {
        let mut list = Vec::new(alloc);
        let mut rest = points;
        for request in self.requests {
            let matrices = self.mmcs.get_matrices(request.prover_data);
            rest = self.push_matrices(&mut list, matrices, &request.points, rest)?;
        }
        Ok(list)
    }
}
