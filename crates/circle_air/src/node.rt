//! The steps that constraints are made of.
ghost use Rattle.std.specs.Prelude.{◌≡◌, ◌↔◌, IsTrue, ◌<◌};
ghost use Rattle.circle_air.specs.Places.{HasRow};
ghost use Rattle.circle_air.specs.Degrees.{selector_degree};
ghost use Rattle.circle_air.specs.Refusal.{is_out_of_order};

/// A step of an AIR's arithmetic.
///
/// A node's name is its position in the AIR's list of nodes. Operands are names of earlier nodes.
#[derive(Clone, Copy, PartialEq, Eq, Debug)]
pub enum Node<F> {
    /// The entry of the current row in this column.
    Local(usize),
    /// The entry of the next row in this column; the first row comes next after the last.
    Next(usize),
    /// The entry of this periodic column at the current row.
    Periodic(usize),
    /// This public value.
    Public(usize),
    /// A constant.
    Constant(F),
    /// The sum of two nodes.
    Add(usize, usize),
    /// The first node minus the second.
    Sub(usize, usize),
    /// The product of two nodes.
    Mul(usize, usize),
    /// The opposite of a node.
    Neg(usize),
}

/// The rows at which a constraint holds.
#[derive(Clone, Copy, PartialEq, Eq, Debug)]
pub enum Place {
    /// Every row.
    Every,
    /// The first row.
    First,
    /// The last row.
    Last,
    /// Every row but the last.
    Transition,
}

/// A node that is 0 at the rows of a place.
#[derive(Clone, Copy, PartialEq, Eq, Debug)]
pub struct Constraint {
    /// The rows at which the node is 0.
    pub place: Place,
    /// The node's position.
    pub node: usize,
}

impl<F> Node<F> {
    // Whether an operand isn't earlier than this position.
    pub(crate) fn is_out_of_order(&self, position: usize) -> bool
        ensures { result ≡ is_out_of_order position self.now }
    {
        match self {
            Node::Add(a, b) | Node::Sub(a, b) | Node::Mul(a, b) => *a >= position || *b >= position,
            Node::Neg(a) => *a >= position,
            _ => false,
        }
    }
}

impl Place {
    // What the place adds to the degree of a constraint.
    pub(crate) fn selector_degree(self) -> usize
        ensures { result ≡ selector_degree self }
    {
        match self {
            Place::Every => 0,
            Place::First | Place::Last | Place::Transition => 1,
        }
    }

    /// Whether the place has row `row` of `height` rows.
    pub fn has_row(self, row: usize, height: usize) -> bool
        requires { row < height }
        ensures { IsTrue result ↔ HasRow self height row }
    {
        match self {
            Place::Every => true,
            Place::First => row == 0,
            Place::Last => row + 1 == height,
            Place::Transition => row + 1 != height,
        }
    }
}
