//! Domains of the circle transform: twin cosets of a cyclic group of points.
ghost use Rattle.std.specs.Prelude.{◌≡◌, ◌≢◌, ◌↔◌, ◌≤◌, ◌<◌, ◌+◌, ◌-◌, ◌*◌, ◌^◌, ℕ, length, map};
ghost use Rattle.std.specs.Prelude.{take};
ghost use Rattle.std.specs.Prelude.{IsTrue, IsNone, IsSome, IfSome, IfOk, Some, Ok, All, AllPairs};
ghost use Rattle.std.specs.Prelude.{slice_get};
ghost use Rattle.std.specs.Iterator.{YieldsFirstBy, item_count};
ghost use Rattle.circle_field.specs.Circle.{opposite, lifted};
ghost use Rattle.circle_point.specs.Projective.{minus};
ghost use Rattle.circle_domain.specs.Domain.{points_of, IsStandardDomain, IsGenuineDomain};
ghost use Rattle.circle_domain.specs.Order.{half};
ghost use Rattle.circle_domain.specs.Space.{vanishing_of, inverse_vanishing_of};
ghost use Rattle.circle_domain.specs.Space.{first_row_of, last_row_of, transition_of};
ghost use Rattle.circle_point.specs.Point.{coordinates};
ghost use Rattle.circle_point.specs.Projective.{from_line};
ghost use Rattle.circle_domain.specs.Selectors.{IsFinite, IsLeastLog, zero_at};

use crate::lagrange::value_off_domain;
use crate::row_selectors::{natural_points, one_less_scaled, row_selector, vanishing_values};
use crate::splitting::rows_of_part;
use circle_commit::{LagrangeSelectors, PolynomialSpace, RowMajorMatrix, log2_strict};
use circle_field::{
    ComplexExtendable, ExtensionField, Field, Operations, batch_multiplicative_inverse,
};
use circle_point::{Neutral, Point};
use std::alloc::{AllocError, Global};

/// A twin coset of the circle's group: `2^log_n` points, half of which are `shift + a * g` and half
/// `-shift + (a + 1) * g`, where `g` generates the group of `2^(log_n - 1)` points
/// (Circle STARKs, IACR ePrint 2024/278, section 3.1).
///
/// In natural order the points of the two halves take turns, beginning with the shift. Eight points
/// by their places in this order, where the first half has the even places:
///
/// ```text
///        2     1
///     3           0 = shift
///     4           7 = -shift
///        5     6
/// ```
///
/// `2 = shift + g` and so on are the first half, `1 = -shift + g`, `3 = -shift + 2 * g` and so on
/// the second. Each point's opposite, across the x axis, is in the other half, so that the first
/// step of the transform, which pairs opposite points, has a point of each half in every pair. For
/// a standard domain, as here, the order is once round the circle; for another shift the halves are
/// turned against each other, and where they meet the domain isn't genuine.
#[derive(PartialEq, Eq, Debug)]
pub struct CircleDomain<F: Operations> {
    log_n: usize,
    shift: Point<F>,
}

impl<F: Operations> Clone for CircleDomain<F> {
    ghost is_clone = { λ a b. b ≡ a };

    ghost is_infallible = { λ _. Unit {0} };

    fn clone(&self) -> Result<Self, AllocError>
        ensures { result ≡ Ok self.now }
    {
        Ok(*self)
    }
}

impl<F: Operations> Copy for CircleDomain<F> {}

impl<F: Operations> CircleDomain<F> {
    ghost use Rattle.circle_point.specs.Point.{coordinates};
    ghost use Rattle.circle_domain.specs.Domain.{log_size, shift_of};

    /// The domain of `2^log_n` points with this shift.
    pub fn new(log_n: usize, shift: Point<F>) -> Self
        ensures size { log_size result ≡ log_n }
        ensures shift { shift_of result ≡ coordinates shift }
    {
        CircleDomain { log_n, shift }
    }

    /// The binary logarithm of the number of points.
    pub fn log_n(&self) -> usize
        ensures { result ≡ log_size self.now }
    {
        self.log_n
    }

    /// The first point.
    pub fn shift(&self) -> Point<F>
        ensures { coordinates result ≡ shift_of self.now }
    {
        self.shift
    }
}

impl<F: ComplexExtendable> CircleDomain<F> {
    ghost use Rattle.circle_point.specs.Point.{coordinates};
    ghost use Rattle.circle_domain.specs.Domain.{log_size, shift_of, points_left, coset_left};
    ghost use Rattle.circle_domain.specs.Clear.{IsClearOf};

    /// The standard domain of `2^log_n` points: all points of order `2^(log_n + 1)`.
    ///
    /// Requires `log_n + 1 <= CIRCLE_TWO_ADICITY`, as [`try_standard`](Self::try_standard) tests.
    pub fn standard(log_n: usize) -> Self
        requires { log_n + 1 ≤ F.CIRCLE_TWO_ADICITY }
        ensures size { log_size result ≡ log_n }
        ensures shift { shift_of result ≡ F.generators (log_n + 1) }
    {
        CircleDomain {
            log_n,
            shift: Point::generator(log_n + 1),
        }
    }

    /// What [`standard`](Self::standard) returns, and `None` where the group is too small for it.
    pub fn try_standard(log_n: usize) -> Option<Self>
        ensures some { IsSome result ↔ (log_n + 1 ≤ F.CIRCLE_TWO_ADICITY) }
        ensures size { IfSome result (λ d. log_size d ≡ log_n) }
        ensures shift { IfSome result (λ d. shift_of d ≡ F.generators (log_n + 1)) }
    {
        if F::CIRCLE_TWO_ADICITY <= log_n {
            return None;
        }
        Some(Self::standard(log_n))
    }

    /// Whether the two halves are disjoint, so that the domain has `2^log_n` different points.
    pub fn is_genuine(&self) -> bool
        ensures { IsTrue result ↔ IsGenuineDomain F.ops self.now }
    {
        1 <= self.log_n && self.shift.repeated_double(self.log_n) != Point::<F>::ZERO
    }

    /// Whether this is the standard domain of its size, so false where the group has none.
    ///
    /// Requires `1 <= log_n <= CIRCLE_TWO_ADICITY`.
    pub fn is_standard(&self) -> bool
        requires positive { 1 ≤ log_size self.now }
        requires in_group { log_size self.now ≤ F.CIRCLE_TWO_ADICITY }
        ensures { IsTrue result ↔ IsStandardDomain F.CIRCLE_TWO_ADICITY F.generators self.now }
    {
        let next = self.log_n + 1;
        next <= F::CIRCLE_TWO_ADICITY && self.shift == Point::generator(next)
    }

    /// Whether `(at - P).y` is not zero for every point `P` of the domain: `at` is none of the
    /// points, and none plus `(-1, 0)`.
    ///
    /// It costs `log_n` doublings, not a step for each point. The point of a coordinate `t` of the
    /// projective line is `Point::from_projective_line(t)`, which is also the test for a coordinate
    /// that is not at infinity.
    ///
    /// Requires `1 <= log_n <= CIRCLE_TWO_ADICITY`.
    pub fn is_clear_of<EF: ExtensionField<F>>(&self, at: Point<EF>) -> bool
        requires positive { 1 ≤ log_size self.now }
        requires in_group { log_size self.now ≤ F.CIRCLE_TWO_ADICITY }
        ensures { IsTrue result ↔ IsClearOf EF.ops EF.embed
            (points_of F.ops F.generators self.now) (coordinates at) }
    {
        let doublings = self.log_n.max(2);
        at.v_n(doublings) != EF::from_base(self.shift.v_n(doublings))
    }

    /// The number of points, `2^log_n`.
    ///
    /// Requires `log_n <= 63`.
    pub fn size(&self) -> usize
        requires { log_size self.now ≤ 63 }
        ensures { result ≡ 2 ^ log_size self.now }
    {
        1 << self.log_n
    }

    /// The points in natural order.
    ///
    /// Requires `1 <= log_n <= CIRCLE_TWO_ADICITY`.
    pub fn points(&self) -> CirclePoints<F>
        requires positive { 1 ≤ log_size self.now }
        requires in_group { log_size self.now ≤ F.CIRCLE_TWO_ADICITY }
        ensures order { points_left F.ops result ≡ points_of F.ops F.generators self.now }
        ensures count { length (points_left F.ops result) ≡ 2 ^ log_size self.now }
    {
        let step = self.subgroup_generator();
        CirclePoints {
            current: self.shift,
            other: step - self.shift,
            step,
            remaining: self.size(),
        }
    }

    /// The first half in order: `shift + a * g` for each `a` below `2^(log_n - 1)`.
    ///
    /// Requires `1 <= log_n <= CIRCLE_TWO_ADICITY`.
    pub fn coset0(&self) -> CircleCoset<F>
        requires positive { 1 ≤ log_size self.now }
        requires in_group { log_size self.now ≤ F.CIRCLE_TWO_ADICITY }
        ensures { coset_left F.ops result
            ≡ half F.ops F.generators (log_size self.now) (shift_of self.now) 0 }
    {
        CircleCoset {
            current: self.shift,
            step: self.subgroup_generator(),
            remaining: self.size() / 2,
        }
    }

    /// The second half in order: `-shift + (a + 1) * g` for each `a` below `2^(log_n - 1)`.
    ///
    /// Requires `1 <= log_n <= CIRCLE_TWO_ADICITY`.
    pub fn coset1(&self) -> CircleCoset<F>
        requires positive { 1 ≤ log_size self.now }
        requires in_group { log_size self.now ≤ F.CIRCLE_TWO_ADICITY }
        ensures { coset_left F.ops result
            ≡ half F.ops F.generators (log_size self.now) (opposite F.ops (shift_of self.now)) 1 }
    {
        let step = self.subgroup_generator();
        CircleCoset {
            current: step - self.shift,
            step,
            remaining: self.size() / 2,
        }
    }

    /// The point at place `index` of the natural order.
    ///
    /// Requires `1 <= log_n <= CIRCLE_TWO_ADICITY` and `index < size`, as
    /// [`try_nth_point`](Self::try_nth_point) tests.
    pub fn nth_point(&self, index: usize) -> Point<F>
        requires positive { 1 ≤ log_size self.now }
        requires in_group { log_size self.now ≤ F.CIRCLE_TWO_ADICITY }
        requires in_range { index < 2 ^ log_size self.now }
        ensures { slice_get (points_of F.ops F.generators self.now) index
            ≡ Some (coordinates result) }
    {
        let turn = index / 2;
        if index % 2 == 0 {
            self.shift + self.subgroup_generator() * turn
        } else {
            -self.shift + self.subgroup_generator() * (turn + 1)
        }
    }

    /// What [`nth_point`](Self::nth_point) returns, and `None` where `log_n` is 0 or above
    /// `CIRCLE_TWO_ADICITY`, or the index isn't below the size.
    pub fn try_nth_point(&self, index: usize) -> Option<Point<F>>
        ensures some { IsSome result ↔ ((1 ≤ log_size self.now)
            × (log_size self.now ≤ F.CIRCLE_TWO_ADICITY) × (index < 2 ^ log_size self.now)) }
        ensures point { IfSome result (λ p. slice_get (points_of F.ops F.generators self.now) index
            ≡ Some (coordinates p)) }
    {
        if self.log_n == 0 || F::CIRCLE_TWO_ADICITY < self.log_n {
            return None;
        }
        if index < self.size() {
            Some(self.nth_point(index))
        } else {
            None
        }
    }

    // The vanishing polynomial of the domain at a point.
    fn vanishing_poly<EF: ExtensionField<F>>(&self, at: Point<EF>) -> EF
        requires { 1 ≤ log_size self.now }
        ensures { result ≡ vanishing_of EF.ops EF.embed self.now (coordinates at) }
    {
        at.v_n(self.log_n) - EF::from_base(self.shift.v_n(self.log_n))
    }

    // The selectors of the rows at a point.
    fn selectors_at<EF: ExtensionField<F>>(&self, at: Point<EF>) -> LagrangeSelectors<EF>
        requires in_group { log_size self.now ≤ F.CIRCLE_TWO_ADICITY }
        requires genuine { IsGenuineDomain F.ops self.now }
        requires clear { IsClearOf EF.ops EF.embed
            (points_of F.ops F.generators self.now) (coordinates at) }
        ensures first { result.is_first_row
            ≡ first_row_of EF.ops EF.embed self.now (coordinates at) }
        ensures last { result.is_last_row
            ≡ last_row_of EF.ops EF.embed self.now (coordinates at) }
        ensures transition { result.is_transition
            ≡ transition_of EF.ops EF.embed self.now (coordinates at) }
        ensures inverse { result.inv_vanishing
            ≡ inverse_vanishing_of EF.ops EF.embed self.now (coordinates at) }
    {
        let vanishing = self.vanishing_poly(at);
        let normaliser = inverse((-self.shift).s_p_at_p(self.log_n));
        let is_last_row = vanishing * inverse_zero_at(-self.shift, at);
        LagrangeSelectors {
            is_first_row: vanishing * inverse_zero_at(self.shift, at),
            is_last_row,
            is_transition: EF::ONE - is_last_row * EF::from_base(normaliser),
            inv_vanishing: inverse(vanishing),
        }
    }

    // The generator of the group that each half is a coset of.
    fn subgroup_generator(&self) -> Point<F>
        requires positive { 1 ≤ log_size self.now }
        requires in_group { log_size self.now ≤ F.CIRCLE_TWO_ADICITY }
        ensures { coordinates result ≡ F.generators (log_size self.now - 1) }
    {
        Point::generator(self.log_n - 1)
    }
}

/// A point stands by its coordinate on the projective line, so all points but `(-1, 0)` have one.
impl<F: ComplexExtendable> PolynomialSpace for CircleDomain<F> {
    type Val = F;

    ghost use Rattle.circle_point.specs.Projective.{to_line, from_line, half_turn};
    ghost use Rattle.circle_domain.specs.Domain.{log_size, shift_of, IsStandardOf};
    ghost use Rattle.circle_commit.specs.Matrix.{IsPowerOfTwo};
    ghost use Rattle.circle_commit.specs.RowMajorMatrix.{rows, width_of, height_of};
    ghost use Rattle.circle_domain.specs.Splitting.{split_rows, EachRowGoes};
    ghost use Rattle.circle_domain.specs.Periodic.{IsPeriodicValue, IsClearOfPeriod};
    ghost use Rattle.circle_domain.specs.Values.{IsValueOfOne, IsValueOfEach};
    ghost use Rattle.circle_domain.specs.Selectors.{IsFinite, IsLeastLog, other_than};
    ghost use Rattle.circle_domain.specs.Space.{next_in, HasNoNext, StepsAlong, HasNoOther};
    ghost use Rattle.circle_domain.specs.Space.{AreApart, AreMadeUpOf};
    ghost use Rattle.circle_domain.specs.Space.{EachPointGoes, EachStandardPointWouldGo};
    ghost use Rattle.circle_domain.specs.Clear.{IsClearOf};

    ghost size_asks = { λ d. log_size d ≤ 63 };

    ghost size = { λ d. 2 ^ log_size d };

    ghost transition_degree_multiple = { λ d. 1 };

    ghost first_point_asks = { λ d. shift_of d ≢ half_turn F.ops };

    ghost first_point_gives = { λ d t. t ≡ to_line F.ops (shift_of d) };

    ghost next_point_asks = { λ d. (1 ≤ log_size d) × (log_size d ≤ F.CIRCLE_TWO_ADICITY) };

    ghost next_point_gives = { λ e l embed d t r.
        (IsNone r ↔ HasNoNext l embed d F.CIRCLE_TWO_ADICITY F.generators t)
        × IfSome r (λ next. next ≡ to_line l (next_in l embed d F.generators t)) };

    ghost try_create_disjoint_domain_asks = { λ d.
        (1 ≤ log_size d) × (log_size d ≤ F.CIRCLE_TWO_ADICITY) };

    ghost try_create_disjoint_domain_gives = { λ d m r.
        ((k : ℕ) → IsLeastLog m k →
        (IsNone r ↔ HasNoOther F.CIRCLE_TWO_ADICITY F.generators d k))
        × IfSome r (λ other. (k : ℕ) → IsLeastLog m k →
        IsStandardOf F.generators (other_than (log_size d) k) other) };

    ghost split_domains_asks = { λ d c. IsStandardDomain F.CIRCLE_TWO_ADICITY F.generators d
        × IsPowerOfTwo c × (2 * c ≤ 2 ^ log_size d) };

    ghost split_domains_gives = { λ d c parts.
        All (λ part. 2 ^ log_size part * c ≡ 2 ^ log_size d) parts
        × (map shift_of parts ≡ take c (points_of F.ops F.generators d)) };

    ghost split_evals_asks = { λ d c evals. (log_size d ≤ 63)
        × (height_of evals ≡ 2 ^ log_size d) × IsPowerOfTwo c × (2 * c ≤ 2 ^ log_size d) };

    ghost split_evals_gives = { λ d c evals parts.
        map rows parts ≡ split_rows c (2 ^ log_size d) (rows evals) };

    ghost vanishing_poly_at_point_asks = { λ e l embed d t. (1 ≤ log_size d) × IsFinite l t };

    ghost vanishing_poly_at_point_gives = { λ e l embed d t r.
        r ≡ vanishing_of l embed d (from_line l t) };

    ghost selectors_at_point_asks = { λ e l embed d t. (log_size d ≤ F.CIRCLE_TWO_ADICITY)
        × IsGenuineDomain F.ops d × IsFinite l t
        × IsClearOf l embed (points_of F.ops F.generators d) (from_line l t) };

    ghost selectors_at_point_gives = { λ e l embed d t r.
        (r.is_first_row ≡ first_row_of l embed d (from_line l t))
        × (r.is_last_row ≡ last_row_of l embed d (from_line l t))
        × (r.is_transition ≡ transition_of l embed d (from_line l t))
        × (r.inv_vanishing ≡ inverse_vanishing_of l embed d (from_line l t)) };

    ghost selectors_on_coset_asks = { λ d coset. (log_size d ≤ F.CIRCLE_TWO_ADICITY)
        × IsGenuineDomain F.ops d
        × (1 ≤ log_size coset) × (log_size coset ≤ F.CIRCLE_TWO_ADICITY)
        × All (IsClearOf F.ops (λ x. x) (points_of F.ops F.generators d))
        (points_of F.ops F.generators coset) };

    ghost selectors_on_coset_gives = { λ d coset r.
        let points = points_of F.ops F.generators coset in
        (r.is_first_row ≡ map (first_row_of F.ops (λ x. x) d) points)
        × (r.is_last_row ≡ map (last_row_of F.ops (λ x. x) d) points)
        × (r.is_transition ≡ map (transition_of F.ops (λ x. x) d) points)
        × (r.inv_vanishing ≡ map (inverse_vanishing_of F.ops (λ x. x) d) points) };

    ghost evaluate_polynomial_at_asks = { λ e l embed d evals t.
        IsStandardDomain F.CIRCLE_TWO_ADICITY F.generators d
        × (1 ≤ log_size d) × (length evals ≡ 2 ^ log_size d) × IsFinite l t
        × IsClearOf l embed (points_of F.ops F.generators d) (from_line l t) };

    ghost evaluate_polynomial_at_gives = { λ e l embed d evals t v.
        IsValueOfOne F.ops F.generators l embed
        (log_size d) (shift_of d) evals (from_line l t) v };

    ghost evaluate_periodic_column_at_asks = { λ e l embed d col t. 2 ≤ length col →
        IsStandardDomain F.CIRCLE_TWO_ADICITY F.generators d
        × IsPowerOfTwo (length col) × (length col ≤ 2 ^ log_size d) × IsFinite l t
        × IsClearOfPeriod F.ops F.generators l embed (log_size d) col (from_line l t) };

    ghost evaluate_periodic_column_at_gives = { λ e l embed d col t v.
        IsPeriodicValue F.ops F.generators l embed (log_size d) col (from_line l t) v };

    fn size(&self) -> usize {
        CircleDomain::size(self)
    }

    /// 1: the selector of the last row has the degree of a column.
    fn transition_degree_multiple(&self) -> usize {
        1
    }

    /// The coordinate of the shift.
    ///
    /// Requires that the shift is not `(-1, 0)`, so that `self.shift().to_projective_line()` is
    /// `Some`.
    fn first_point(&self) -> F {
        self.shift.to_projective_line().unwrap()
    }

    /// On a standard domain the coordinate of this point plus the generator of `2^log_n` points, by
    /// which the natural order steps. `None` on others, at infinity (`t^2 = -1`), and where the sum
    /// is `(-1, 0)`.
    ///
    /// Requires `1 <= log_n <= CIRCLE_TWO_ADICITY`.
    fn next_point<Ext: ExtensionField<F>>(&self, point: Ext) -> Option<Ext>
        requires positive { 1 ≤ log_size self.now }
        requires in_group { log_size self.now ≤ F.CIRCLE_TWO_ADICITY }
        ensures none { IsNone result
            ↔ HasNoNext Ext.ops Ext.embed self.now F.CIRCLE_TWO_ADICITY F.generators point }
        ensures value { IfSome result (λ next.
            next ≡ to_line Ext.ops (next_in Ext.ops Ext.embed self.now F.generators point)) }
        ensures walk { IsStandardDomain F.CIRCLE_TWO_ADICITY F.generators self.now →
            StepsAlong Ext.ops Ext.embed self.now F.ops F.generators point result }
    {
        if !self.is_standard() {
            return None;
        }
        let point = Point::from_projective_line(point)?;
        (point + Point::<F>::generator(self.log_n)).to_projective_line()
    }

    /// The standard domain of the least number of points that is at least `min_size` and 2 and not
    /// this domain's. `None` where this domain isn't standard or the group is too small.
    ///
    /// Requires `1 <= log_n <= CIRCLE_TWO_ADICITY`.
    fn try_create_disjoint_domain(&self, min_size: usize) -> Option<Self>
        requires positive { 1 ≤ log_size self.now }
        requires in_group { log_size self.now ≤ F.CIRCLE_TWO_ADICITY }
        ensures none { (k : ℕ) → IsLeastLog min_size k →
            (IsNone result ↔ HasNoOther F.CIRCLE_TWO_ADICITY F.generators self.now k) }
        ensures standard { IfSome result (λ other. (k : ℕ) → IsLeastLog min_size k →
            IsStandardOf F.generators (other_than (log_size self.now) k) other) }
        ensures enough { IfSome result (λ other. min_size ≤ 2 ^ log_size other) }
        ensures disjoint { IfSome result (λ other. AreApart F.ops F.generators other self.now) }
    {
        if !self.is_standard() {
            return None;
        }
        let least = least_log(min_size);
        let log_n = if least == self.log_n {
            least + 1
        } else {
            least
        };
        if log_n < F::CIRCLE_TWO_ADICITY {
            Some(Self::standard(log_n))
        } else {
            None
        }
    }

    /// Domains of equal sizes, whose shifts are the first `num_chunks` points in natural order.
    ///
    /// The parts of a standard domain are disjoint and make it up: each point goes to the part that
    /// `split_evals` gives its row to.
    ///
    /// Requires a standard domain, as [`CircleDomain::is_standard`] tests, and a number of parts
    /// that is a power of two, as `is_power_of_two` tests, and leaves at least two points for each.
    /// Fails where memory is refused.
    fn split_domains(&self, alloc: Global, num_chunks: usize) -> Result<Vec<Self>, AllocError>
        requires standard { IsStandardDomain F.CIRCLE_TWO_ADICITY F.generators self.now }
        requires power { IsPowerOfTwo num_chunks }
        requires room { 2 * num_chunks ≤ 2 ^ log_size self.now }
        ensures sizes { IfOk result (λ parts.
            All (λ part. 2 ^ log_size part * num_chunks ≡ 2 ^ log_size self.now) parts.items) }
        ensures shifts { IfOk result (λ parts. map shift_of parts.items
            ≡ take num_chunks (points_of F.ops F.generators self.now)) }
        ensures disjoint { IfOk result (λ parts.
            AllPairs (AreApart F.ops F.generators) parts.items) }
        ensures whole { IfOk result (λ parts.
            AreMadeUpOf F.ops F.generators self.now parts.items) }
        ensures places { IfOk result (λ parts.
            EachPointGoes F.ops F.generators self.now num_chunks parts.items) }
    {
        let log_n = self.log_n - log2_strict(num_chunks);
        let mut parts = Vec::with_capacity(alloc, num_chunks)?;
        for i in 0..num_chunks {
            parts.push(CircleDomain::new(log_n, self.nth_point(i)))?;
        }
        Ok(parts)
    }

    /// Row `i` goes to part `j = i mod 2c` of the `c` parts, or to `2c - 1 - j` where that `j` is
    /// at least `c`: to the part of a standard domain that holds its point, at the point's natural
    /// place. So the rows go forth and back over the parts. Of 16 rows with 4 parts:
    ///
    /// ```text
    ///     part 0:  0              7  8              15
    ///     part 1:     1        6        9        14
    ///     part 2:        2  5              10 13
    ///     part 3:        3  4              11 12
    /// ```
    ///
    /// They turn because the natural order alternates between the halves of the domain: part 0 has
    /// shift `0` of the first half, and its second half begins at the opposite of the shift and one
    /// step of its own, which is place `7` of the whole.
    ///
    /// Requires as many rows as points, and a number of parts that is a power of two, as
    /// `is_power_of_two` tests, and leaves at least two rows for each. Fails where memory is
    /// refused.
    fn split_evals(
        &self,
        alloc: Global,
        num_chunks: usize,
        evals: RowMajorMatrix<F>,
    ) -> Result<Vec<RowMajorMatrix<F>>, AllocError>
        requires size { height_of evals ≡ 2 ^ log_size self.now }
        requires power { IsPowerOfTwo num_chunks }
        requires room { 2 * num_chunks ≤ 2 ^ log_size self.now }
        ensures rows { IfOk result (λ parts.
            map rows parts.items ≡ split_rows num_chunks (2 ^ log_size self.now) (rows evals)) }
        ensures widths { IfOk result (λ parts.
            All (λ part. width_of part ≡ width_of evals) parts.items) }
        ensures goes { IfOk result (λ parts.
            EachRowGoes num_chunks (2 ^ log_size self.now) evals parts.items) }
        ensures points { IfOk result (λ parts. EachStandardPointWouldGo F.ops F.generators
            F.CIRCLE_TWO_ADICITY self.now num_chunks) }
    {
        let mut parts = Vec::with_capacity(alloc, num_chunks)?;
        for part in 0..num_chunks {
            parts.push(rows_of_part(alloc, &evals, num_chunks, part)?)?;
        }
        Ok(parts)
    }

    /// `v_n(point) - v_n(shift)` for `n = log_n`, where `v_n` is the vanishing polynomial of the
    /// standard domain (section 3.3, equation 8).
    ///
    /// Requires `log_n >= 1` and a point that is not at infinity:
    /// `Point::from_projective_line(point)` is `Some`.
    fn vanishing_poly_at_point<Ext: ExtensionField<F>>(&self, point: Ext) -> Ext {
        self.vanishing_poly(finite_point(point))
    }

    /// The selectors at this point, with `z` the vanishing polynomial there: `z / v_tilde_shift`
    /// for the first row, `z / v_tilde_(-shift)`, not normalised, for the last, `1` less the
    /// normalised one of the last for the transition, and `1 / z` (section 5.1).
    ///
    /// Requires a genuine domain, as [`CircleDomain::is_genuine`] tests, with `log_n <=
    /// CIRCLE_TWO_ADICITY`, and a point that is not at infinity and is clear of the domain, as
    /// [`CircleDomain::is_clear_of`] tests of `Point::from_projective_line(point)`.
    fn selectors_at_point<Ext: ExtensionField<F>>(&self, point: Ext) -> LagrangeSelectors<Ext>
        requires in_group { log_size self.now ≤ F.CIRCLE_TWO_ADICITY }
        requires genuine { IsGenuineDomain F.ops self.now }
        requires finite { IsFinite Ext.ops point }
        requires clear { IsClearOf Ext.ops Ext.embed
            (points_of F.ops F.generators self.now) (from_line Ext.ops point) }
        ensures first { result.is_first_row
            ≡ first_row_of Ext.ops Ext.embed self.now (from_line Ext.ops point) }
        ensures last { result.is_last_row
            ≡ last_row_of Ext.ops Ext.embed self.now (from_line Ext.ops point) }
        ensures transition { result.is_transition
            ≡ transition_of Ext.ops Ext.embed self.now (from_line Ext.ops point) }
        ensures inverse { result.inv_vanishing
            ≡ inverse_vanishing_of Ext.ops Ext.embed self.now (from_line Ext.ops point) }
    {
        self.selectors_at(finite_point(point))
    }

    /// The selectors at each point of another domain, in natural order.
    ///
    /// Requires a genuine domain, as [`CircleDomain::is_genuine`] tests, with `log_n <=
    /// CIRCLE_TWO_ADICITY`, and a coset with `1 <= log_n <= CIRCLE_TWO_ADICITY` each of whose
    /// points is clear of the domain, as [`CircleDomain::is_clear_of`] tests of one. Fails where
    /// memory is refused.
    fn selectors_on_coset(
        &self,
        alloc: Global,
        coset: Self,
    ) -> Result<LagrangeSelectors<Vec<F>>, AllocError>
        requires in_group { log_size self.now ≤ F.CIRCLE_TWO_ADICITY }
        requires genuine { IsGenuineDomain F.ops self.now }
        requires coset_positive { 1 ≤ log_size coset }
        requires coset_in_group { log_size coset ≤ F.CIRCLE_TWO_ADICITY }
        requires clear { All (IsClearOf F.ops (λ x. x) (points_of F.ops F.generators self.now))
            (points_of F.ops F.generators coset) }
        ensures first { IfOk result (λ selectors. selectors.is_first_row.items
            ≡ map (first_row_of F.ops (λ x. x) self.now) (points_of F.ops F.generators coset)) }
        ensures last { IfOk result (λ selectors. selectors.is_last_row.items
            ≡ map (last_row_of F.ops (λ x. x) self.now) (points_of F.ops F.generators coset)) }
        ensures transition { IfOk result (λ selectors. selectors.is_transition.items
            ≡ map (transition_of F.ops (λ x. x) self.now) (points_of F.ops F.generators coset)) }
        ensures inverse { IfOk result (λ selectors. selectors.inv_vanishing.items ≡ map
            (inverse_vanishing_of F.ops (λ x. x) self.now) (points_of F.ops F.generators coset)) }
    {
        let points = natural_points(alloc, coset)?;
        let vanishing = vanishing_values(alloc, *self, &points)?;
        let is_last_row = row_selector(alloc, -self.shift, &points, &vanishing)?;
        let normaliser = inverse((-self.shift).s_p_at_p(self.log_n));
        Ok(LagrangeSelectors {
            is_first_row: row_selector(alloc, self.shift, &points, &vanishing)?,
            is_transition: one_less_scaled(alloc, &is_last_row, normaliser)?,
            inv_vanishing: batch_multiplicative_inverse(alloc, &vanishing)?,
            is_last_row,
        })
    }

    /// The value at this point of the only polynomial with these values in natural order (Circle
    /// STARKs, section 4.3).
    ///
    /// Requires a standard domain of at least two points, as [`CircleDomain::is_standard`] tests, a
    /// value for each of them, and a point that is not at infinity and that is clear of the domain,
    /// as [`CircleDomain::is_clear_of`] tests of `Point::from_projective_line(point)`. Fails where
    /// memory is refused.
    fn evaluate_polynomial_at<Ext: ExtensionField<F>>(
        &self,
        alloc: Global,
        evals: &[F],
        point: Ext,
    ) -> Result<Ext, AllocError>
        requires standard { IsStandardDomain F.CIRCLE_TWO_ADICITY F.generators self.now }
        requires positive { 1 ≤ log_size self.now }
        requires size { length evals.now ≡ 2 ^ log_size self.now }
        requires finite { IsFinite Ext.ops point }
        requires clear { IsClearOf Ext.ops Ext.embed
            (points_of F.ops F.generators self.now) (from_line Ext.ops point) }
        ensures value { IfOk result (IsValueOfOne F.ops F.generators Ext.ops Ext.embed
            (log_size self.now) (shift_of self.now) evals.now (from_line Ext.ops point)) }
        ensures only { IfOk result (IsValueOfEach F.ops F.generators Ext.ops Ext.embed
            (log_size self.now) (shift_of self.now) evals.now (from_line Ext.ops point)) }
    {
        value_off_domain(alloc, *self, evals, finite_point(point))
    }

    /// The value at this point of a column that repeats these entries over the domain: 0 for no
    /// entries, the entry for one, and for `2^k` entries the value at the point, doubled `log_n -
    /// k` times, of the only polynomial with these values on the standard domain of `2^k` points.
    ///
    /// Requires nothing of a column of at most one entry. For others requires a standard domain, as
    /// [`CircleDomain::is_standard`] tests, a length that is a power of two, as `is_power_of_two`
    /// tests, and at most the size, and a point that is not at infinity and, once doubled, clear of
    /// that smaller domain, as [`CircleDomain::is_clear_of`] tests. Fails where memory is refused.
    fn evaluate_periodic_column_at<Ext: ExtensionField<F>>(
        &self,
        alloc: Global,
        col: &[F],
        point: Ext,
    ) -> Result<Ext, AllocError>
        requires standard { 2 ≤ length col.now →
            IsStandardDomain F.CIRCLE_TWO_ADICITY F.generators self.now }
        requires power { 2 ≤ length col.now → IsPowerOfTwo (length col.now) }
        requires at_most_size { 2 ≤ length col.now → length col.now ≤ 2 ^ log_size self.now }
        requires finite { 2 ≤ length col.now → IsFinite Ext.ops point }
        requires clear { 2 ≤ length col.now → IsClearOfPeriod F.ops F.generators Ext.ops Ext.embed
            (log_size self.now) col.now (from_line Ext.ops point) }
        ensures { IfOk result (IsPeriodicValue F.ops F.generators Ext.ops Ext.embed
            (log_size self.now) col.now (from_line Ext.ops point)) }
    {
        if col.len() == 0 {
            return Ok(Ext::ZERO);
        }
        if col.len() == 1 {
            return Ok(Ext::from_base(col[0]));
        }
        let log_period = log2_strict(col.len());
        let doubled = finite_point(point).repeated_double(self.log_n - log_period);
        value_off_domain(alloc, Self::standard(log_period), col, doubled)
    }
}

/// The points of a domain in natural order.
#[derive(Drop)]
pub struct CirclePoints<F: Operations> {
    current: Point<F>,
    other: Point<F>,
    step: Point<F>,
    remaining: usize,
}

impl<F: Field> Iterator for CirclePoints<F> {
    type Item = Point<F>;

    ghost use Rattle.circle_point.specs.Point.{coordinates};
    ghost use Rattle.circle_domain.specs.Domain.{points_left};

    ghost next_gives = { YieldsFirstBy coordinates (points_left F.ops) };

    ghost remaining = { item_count (points_left F.ops) };

    fn next(&mut self) -> Option<Point<F>> {
        if self.remaining == 0 {
            return None;
        }
        let point = self.current;
        self.current = self.other;
        self.other = point + self.step;
        self.remaining -= 1;
        Some(point)
    }
}

/// The points of one half of a domain in order.
#[derive(Drop)]
pub struct CircleCoset<F: Operations> {
    current: Point<F>,
    step: Point<F>,
    remaining: usize,
}

impl<F: Field> Iterator for CircleCoset<F> {
    type Item = Point<F>;

    ghost use Rattle.circle_point.specs.Point.{coordinates};
    ghost use Rattle.circle_domain.specs.Domain.{coset_left};

    ghost next_gives = { YieldsFirstBy coordinates (coset_left F.ops) };

    ghost remaining = { item_count (coset_left F.ops) };

    fn next(&mut self) -> Option<Point<F>> {
        if self.remaining == 0 {
            return None;
        }
        let point = self.current;
        self.current = point + self.step;
        self.remaining -= 1;
        Some(point)
    }
}

// The point of a coordinate of the projective line that is not at infinity.
fn finite_point<F: Field>(t: F) -> Point<F>
    requires { IsFinite F.ops t }
    ensures { coordinates result ≡ from_line F.ops t }
{
    Point::from_projective_line(t).unwrap()
}

// The inverse of the selector that is zero at `point` alone, at `at`: `(d.x + 1) / d.y` for
// `d = at - point`, which has no pole where `d.y` is not 0.
fn inverse_zero_at<F: Field, EF: ExtensionField<F>>(point: Point<F>, at: Point<EF>) -> EF
    requires { (minus EF.ops EF.embed (coordinates at) (coordinates point)).y ≢ EF.ops.zero }
    ensures { result
        ≡ EF.ops.inv (zero_at EF.ops (lifted EF.embed (coordinates point)) (coordinates at)) }
{
    let difference = at - point;
    (difference.x() + EF::ONE) * inverse(difference.y())
}

// The inverse of an element that is not 0.
fn inverse<F: Field>(element: F) -> F
    requires { element ≢ F.ops.zero }
    ensures { result ≡ F.ops.inv element }
{
    element.try_inverse().unwrap()
}

// The least number of at least 1 whose power of two is at least `min_size`.
fn least_log(min_size: usize) -> usize
    ensures least { IsLeastLog min_size result }
    ensures small { result ≤ 64 }
{
    if min_size <= 2 {
        1
    } else {
        (min_size - 1).ilog2() as usize + 1
    }
}
