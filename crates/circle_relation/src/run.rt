//! The operations of a field, its circle and an extension by one name, and the queries' values.
ghost use Rattle.circle_relation.specs.Accepts.{Fields};

use circle_field::{ComplexExtendable, ExtensionField, Operations};
use circle_point::Point;

/// What is known to contracts of a field with its circle and of its extension.
///
/// Each extension has it, so no function requires it. A struct whose ghost field cites `EF.fields`
/// has it as a bound, and a clause reads the fields off a value of the struct; where there is no
/// such value, it quotes the impl. The trait stands on `Copy` alone because each trait below a
/// bound of a struct is an argument of its type in `specs/`.
pub trait OverCircle<F>: Copy {
    ghost fields: { Fields F Self };
}

impl<F: ComplexExtendable, EF: ExtensionField<F>> OverCircle<F> for EF {
    ghost fields = { record {
      field = F.ops;
      gen = F.generators;
      two_adicity = F.CIRCLE_TWO_ADICITY;
      is_zero = λ w. F.eq w F.ZERO;
      extension = EF.ops;
      embed = EF.embed;
      same = EF.eq;
    } };
}

/// The points and the values of all queries in a codeword of the first layer.
#[derive(Drop)]
pub struct QueriedWord<F: Operations, EF> {
    /// The binary logarithm of the codeword's length.
    pub log_height: usize,
    /// The point of each query.
    pub points: Vec<Point<F>>,
    /// The value of each query.
    pub values: Vec<EF>,
}

/// The values of all queries that join the rounds at one height.
#[derive(Drop)]
pub struct QueryValues<EF> {
    /// The binary logarithm of the height that they were folded from.
    pub log_height: usize,
    /// The value of each query.
    pub values: Vec<EF>,
}
