//! Points out of a trace's domain at which a proof opens its columns.
ghost use Rattle.std.specs.Prelude.{◌≡◌, ◌≤◌, ◌+◌, ◌^◌, ◌↔◌, IsSome, IfSome, List, length};
ghost use Rattle.circle_point.specs.Projective.{from_line, to_line};
ghost use Rattle.circle_domain.specs.Clear.{IsClearOf};
ghost use Rattle.circle_domain.specs.Order.{natural_order};
ghost use Rattle.circle_domain.specs.Periodic.{IsClearOfPeriod};
ghost use Rattle.circle_domain.specs.Selectors.{next_from};
ghost use Rattle.circle_quotient.specs.Fit.{IsFit};

use circle_field::{ComplexExtendable, ExtensionField};
use circle_point::Point;

/// The coordinate of the point that follows the point of coordinate `zeta`, one step of the domain
/// of `2^log_n` points on, where both points may be opened; `None` where they may not.
///
/// They may where `zeta` is finite and the vanishing polynomial of the domain isn't 0 at its point,
/// and where the next point is finite.
///
/// Requires `1 <= log_n < CIRCLE_TWO_ADICITY`.
pub fn is_fit<F: ComplexExtendable, EF: ExtensionField<F>>(log_n: usize, zeta: EF) -> Option<EF>
    requires positive { 1 ≤ log_n }
    requires in_group { log_n + 1 ≤ F.CIRCLE_TWO_ADICITY }
    ensures some { IsSome result ↔ IsFit EF.ops EF.embed F.generators log_n zeta }
    ensures next { IfSome result (λ next. next
        ≡ to_line EF.ops (next_from EF.ops EF.embed F.generators log_n zeta)) }
    ensures point { IfSome result (λ next. from_line EF.ops next
        ≡ next_from EF.ops EF.embed F.generators log_n zeta) }
{
    let point = Point::from_projective_line(zeta)?;
    if point.v_n(log_n).is_zero() {
        return None;
    }
    (point + Point::<F>::generator(log_n)).to_projective_line()
}

/// The point of a coordinate at which [`is_fit`] is `Some` is clear of the domain of `2^log_n`
/// points, and its multiples of the domains of columns whose period divides that: it meets what
/// `selectors_at_point` and `evaluate_periodic_column_at` require.
///
/// Requires `1 <= log_n < CIRCLE_TWO_ADICITY`.
pub fn fit_is_clear<F: ComplexExtendable, EF: ExtensionField<F>>(log_n: usize, zeta: EF)
    requires positive { 1 ≤ log_n }
    requires in_group { log_n + 1 ≤ F.CIRCLE_TWO_ADICITY }
    ensures rows { IsFit EF.ops EF.embed F.generators log_n zeta → IsClearOf EF.ops EF.embed
        (natural_order F.ops F.generators log_n (F.generators (log_n + 1)))
        (from_line EF.ops zeta) }
    ensures periods { IsFit EF.ops EF.embed F.generators log_n zeta → (column : List F) →
        length column ≤ 2 ^ log_n → IsClearOfPeriod F.ops F.generators EF.ops EF.embed log_n column
        (from_line EF.ops zeta) }
{
    let _law = (log_n, zeta);
}
