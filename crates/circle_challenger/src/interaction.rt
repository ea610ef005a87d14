//! The steps of a transcript.
ghost use Rattle.std.specs.Prelude.{◌≡◌};
ghost use Rattle.circle_challenger.specs.Step.{hierarchy_byte, kind_byte, type_byte, parameter_of};
ghost use Rattle.circle_challenger.specs.Step.{form_byte, value_count};

/// How a step stands among the others.
#[derive(Clone, Copy, PartialEq, Eq, Debug)]
pub enum Hierarchy {
    /// A step that has no steps within it.
    Atomic,
}

/// What a step does.
#[derive(Clone, Copy, PartialEq, Eq, Debug)]
pub enum Kind {
    /// Values are absorbed.
    Message,
    /// Values are drawn.
    Challenge,
    /// A witness of a proof of work is absorbed.
    Pow,
}

/// What the values of a step are.
#[derive(Clone, Copy, PartialEq, Eq, Debug)]
pub enum ValueType {
    /// Elements of an algebra of this degree over the base field.
    Algebra(usize),
    /// Values that the challenger absorbs as they are.
    Opaque,
    /// Numbers of this many bits.
    Bits(usize),
}

/// How many values a step has. Of a proof of work it is the difficulty in bits.
#[derive(Clone, Copy, PartialEq, Eq, Debug)]
pub enum Length {
    /// One value.
    Scalar,
    /// A fixed number of values.
    Fixed(usize),
}

/// A step of a transcript, as it is described before the transcript begins.
#[derive(Clone, Copy, PartialEq, Eq, Debug)]
pub struct Interaction {
    /// How the step stands among the others.
    pub hierarchy: Hierarchy,
    /// What the step does.
    pub kind: Kind,
    /// What its values are.
    pub value_type: ValueType,
    /// What its values mean.
    pub label: &'static str,
    /// How many values it has.
    pub length: Length,
}

impl Hierarchy {
    /// The byte that stands for it in a text.
    pub(crate) fn byte(self) -> u8
        ensures { result ≡ hierarchy_byte self }
    {
        match self {
            Hierarchy::Atomic => 0,
        }
    }
}

impl Kind {
    /// The byte that stands for it in a text.
    pub(crate) fn byte(self) -> u8
        ensures { result ≡ kind_byte self }
    {
        match self {
            Kind::Message => 0,
            Kind::Challenge => 1,
            Kind::Pow => 2,
        }
    }
}

impl ValueType {
    /// The byte that stands for it in a text.
    pub(crate) fn byte(self) -> u8
        ensures { result ≡ type_byte self }
    {
        match self {
            ValueType::Algebra(_) => 0,
            ValueType::Opaque => 1,
            ValueType::Bits(_) => 2,
        }
    }

    /// Its degree or its number of bits.
    pub(crate) fn parameter(self) -> usize
        ensures { result ≡ parameter_of self }
    {
        match self {
            ValueType::Algebra(degree) => degree,
            ValueType::Opaque => 0,
            ValueType::Bits(width) => width,
        }
    }
}

impl Length {
    /// The byte that stands for its form in a text.
    pub(crate) fn byte(self) -> u8
        ensures { result ≡ form_byte self }
    {
        match self {
            Length::Scalar => 0,
            Length::Fixed(_) => 1,
        }
    }

    /// How many values it says.
    pub(crate) fn count(self) -> usize
        ensures { result ≡ value_count self }
    {
        match self {
            Length::Scalar => 1,
            Length::Fixed(count) => count,
        }
    }
}

impl Interaction {
    ghost use Rattle.circle_challenger.specs.Step.{step};
    ghost use Rattle.circle_challenger.specs.Interaction.{step_of};

    /// A step of elements of an algebra of degree `degree` over the base field.
    pub fn algebra(
        hierarchy: Hierarchy,
        kind: Kind,
        label: &'static str,
        degree: usize,
        length: Length,
    ) -> Self
        ensures { step_of result ≡ step hierarchy kind (ValueType.Algebra degree) label.now length }
    {
        Interaction {
            hierarchy,
            kind,
            value_type: ValueType::Algebra(degree),
            label,
            length,
        }
    }

    /// A step of values that the challenger absorbs as they are.
    pub fn opaque(hierarchy: Hierarchy, kind: Kind, label: &'static str, length: Length) -> Self
        ensures { step_of result ≡ step hierarchy kind ValueType.Opaque label.now length }
    {
        Interaction {
            hierarchy,
            kind,
            value_type: ValueType::Opaque,
            label,
            length,
        }
    }

    /// A step of numbers of `width` bits.
    pub fn bits(
        hierarchy: Hierarchy,
        kind: Kind,
        label: &'static str,
        width: usize,
        length: Length,
    ) -> Self
        ensures { step_of result ≡ step hierarchy kind (ValueType.Bits width) label.now length }
    {
        Interaction {
            hierarchy,
            kind,
            value_type: ValueType::Bits(width),
            label,
            length,
        }
    }
}
