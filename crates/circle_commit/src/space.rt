//! Domains that polynomials are given on by their values.
ghost use Rattle.circle_commit.specs.Selectors.{selector_lists};
ghost use Rattle.std.specs.Prelude.{◌≡◌, ℕ, Option, IfOk, List};
ghost use Rattle.circle_field.specs.Field.{FieldOps};
ghost use Rattle.circle_commit.specs.declared.matrix.RowMajorMatrix.{RowMajorMatrix};
ghost use Rattle.circle_commit.specs.declared.space.LagrangeSelectors.{LagrangeSelectors};

use crate::matrix::RowMajorMatrix;
use circle_field::{ExtensionField, Field};
use std::alloc::{AllocError, Global};

/// The selectors of a domain's rows, by which a constraint is laid on some rows alone: at a point,
/// or at each point of a coset.
#[derive(Debug, Drop)]
pub struct LagrangeSelectors<T> {
    /// Zero at each point of the domain but the first.
    pub is_first_row: T,
    /// Zero at each point of the domain but the last.
    pub is_last_row: T,
    /// Zero at the last point of the domain alone.
    pub is_transition: T,
    /// The inverse of the domain's vanishing polynomial.
    pub inv_vanishing: T,
}

/// A set of points on which a polynomial is given by its values, a row for each point.
///
/// A point stands here by one coordinate, in the field of the values or in an extension of it. Each
/// space says what each call requires and returns.
pub trait PolynomialSpace: Copy {
    /// The field of the values.
    type Val: Field;

    ghost size_asks: { Self → Type 0 };

    ghost size: { Self → ℕ };

    ghost transition_degree_multiple: { Self → ℕ };

    ghost first_point_asks: { Self → Type 0 };

    ghost first_point_gives: { Self → Self.Val → Type 0 };

    ghost next_point_asks: { Self → Type 0 };

    ghost next_point_gives: { (E : Type 0) → FieldOps E → (Self.Val → E) → Self → E → Option E
        → Type 0 };

    ghost try_create_disjoint_domain_asks: { Self → Type 0 };

    ghost try_create_disjoint_domain_gives: { Self → ℕ → Option Self → Type 0 };

    ghost split_domains_asks: { Self → ℕ → Type 0 };

    ghost split_domains_gives: { Self → ℕ → List Self → Type 0 };

    ghost split_evals_asks: { Self → ℕ → RowMajorMatrix Self.Val → Type 0 };

    ghost split_evals_gives: { Self → ℕ → RowMajorMatrix Self.Val → List (RowMajorMatrix Self.Val)
        → Type 0 };

    ghost vanishing_poly_at_point_asks: { (E : Type 0) → FieldOps E → (Self.Val → E) → Self → E
        → Type 0 };

    ghost vanishing_poly_at_point_gives: { (E : Type 0) → FieldOps E → (Self.Val → E) → Self → E → E
        → Type 0 };

    ghost selectors_at_point_asks: { (E : Type 0) → FieldOps E → (Self.Val → E) → Self → E
        → Type 0 };

    ghost selectors_at_point_gives: { (E : Type 0) → FieldOps E → (Self.Val → E) → Self → E
        → LagrangeSelectors E → Type 0 };

    ghost selectors_on_coset_asks: { Self → Self → Type 0 };

    ghost selectors_on_coset_gives: { Self → Self → LagrangeSelectors (List Self.Val) → Type 0 };

    ghost evaluate_polynomial_at_asks: { (E : Type 0) → FieldOps E → (Self.Val → E) → Self
        → List Self.Val → E → Type 0 };

    ghost evaluate_polynomial_at_gives: { (E : Type 0) → FieldOps E → (Self.Val → E) → Self
        → List Self.Val → E → E → Type 0 };

    ghost evaluate_periodic_column_at_asks: { (E : Type 0) → FieldOps E → (Self.Val → E) → Self
        → List Self.Val → E → Type 0 };

    ghost evaluate_periodic_column_at_gives: { (E : Type 0) → FieldOps E → (Self.Val → E) → Self
        → List Self.Val → E → E → Type 0 };

    /// The number of points.
    fn size(&self) -> usize
        requires { size_asks self.now }
        ensures { result ≡ size self.now };

    /// How many times the degree of a column the transition selector counts.
    fn transition_degree_multiple(&self) -> usize
        ensures { result ≡ transition_degree_multiple self.now };

    /// The first point.
    fn first_point(&self) -> Self::Val
        requires { first_point_asks self.now }
        ensures { first_point_gives self.now result };

    /// The point after this one, where there is an algebraic rule for it.
    fn next_point<Ext: ExtensionField<Self::Val>>(&self, point: Ext) -> Option<Ext>
        requires { next_point_asks self.now }
        ensures { next_point_gives Ext Ext.ops Ext.embed self.now point result };

    /// A domain of at least `min_size` points that has no point of this one.
    fn try_create_disjoint_domain(&self, min_size: usize) -> Option<Self>
        requires { try_create_disjoint_domain_asks self.now }
        ensures { try_create_disjoint_domain_gives self.now min_size result };

    /// So many disjoint domains of equal sizes that make up this one. Fails where memory is
    /// refused.
    fn split_domains(&self, alloc: Global, num_chunks: usize) -> Result<Vec<Self>, AllocError>
        requires { split_domains_asks self.now num_chunks }
        ensures { IfOk result (λ parts. split_domains_gives self.now num_chunks parts.items) };

    /// The rows of values on this domain as values on its parts. Fails where memory is refused.
    fn split_evals(
        &self,
        alloc: Global,
        num_chunks: usize,
        evals: RowMajorMatrix<Self::Val>,
    ) -> Result<Vec<RowMajorMatrix<Self::Val>>, AllocError>
        requires { split_evals_asks self.now num_chunks evals }
        ensures { IfOk result (λ parts. split_evals_gives self.now num_chunks evals parts.items) };

    /// The value at this point of a polynomial that is zero on the domain alone.
    fn vanishing_poly_at_point<Ext: ExtensionField<Self::Val>>(&self, point: Ext) -> Ext
        requires { vanishing_poly_at_point_asks Ext Ext.ops Ext.embed self.now point }
        ensures { vanishing_poly_at_point_gives Ext Ext.ops Ext.embed self.now point result };

    /// The selectors of the rows at this point.
    fn selectors_at_point<Ext: ExtensionField<Self::Val>>(
        &self,
        point: Ext,
    ) -> LagrangeSelectors<Ext>
        requires { selectors_at_point_asks Ext Ext.ops Ext.embed self.now point }
        ensures { selectors_at_point_gives Ext Ext.ops Ext.embed self.now point result };

    /// The selectors of the rows at each point of another domain, in its order. Fails where memory
    /// is refused.
    fn selectors_on_coset(
        &self,
        alloc: Global,
        coset: Self,
    ) -> Result<LagrangeSelectors<Vec<Self::Val>>, AllocError>
        requires { selectors_on_coset_asks self.now coset }
        ensures { IfOk result (λ s. selectors_on_coset_gives self.now coset (selector_lists s)) };

    /// The value at this point of the polynomial with these values on the domain, in its order.
    /// Fails where memory is refused.
    fn evaluate_polynomial_at<Ext: ExtensionField<Self::Val>>(
        &self,
        alloc: Global,
        evals: &[Self::Val],
        point: Ext,
    ) -> Result<Ext, AllocError>
        requires { evaluate_polynomial_at_asks Ext Ext.ops Ext.embed self.now evals.now point }
        ensures { IfOk result (λ value. evaluate_polynomial_at_gives Ext Ext.ops Ext.embed self.now
            evals.now point value) };

    /// The value at this point of a column that repeats these entries over the domain. Fails where
    /// memory is refused.
    fn evaluate_periodic_column_at<Ext: ExtensionField<Self::Val>>(
        &self,
        alloc: Global,
        col: &[Self::Val],
        point: Ext,
    ) -> Result<Ext, AllocError>
        requires { evaluate_periodic_column_at_asks Ext Ext.ops Ext.embed self.now col.now point }
        ensures { IfOk result (λ value. evaluate_periodic_column_at_gives Ext Ext.ops Ext.embed
            self.now col.now point value) };
}
