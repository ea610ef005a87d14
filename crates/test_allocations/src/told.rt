//! Where a run ends, and what is printed of a call.
ghost use Rattle.std.specs.Prelude.{IsErr};

use anyhow::{Result, bail};
use circle_field::{ExtensionField, Mersenne31};
use std::fmt::{Display, InlineText};

/// Where a run of a call ends.
#[derive(Clone, Copy)]
pub enum Stage {
    /// Right before the call.
    Before,
    /// Right after the call.
    After,
    /// Once all is done.
    Whole,
}

impl Stage {
    /// Comes right before the call. The error ends a run there, and its text is printed.
    pub fn begin(self) -> Result<()> {
        match self {
            Stage::Before => bail!("before"),
            Stage::After | Stage::Whole => Ok(()),
        }
    }

    /// Comes right after a call, where what follows allocates, with such an error.
    pub fn end(self) -> Result<()> {
        match self {
            Stage::After => bail!("after"),
            Stage::Before | Stage::Whole => Ok(()),
        }
    }
}

/// The error with this text, where a call doesn't take what it would be given.
pub fn unfit<T>(why: &'static str) -> Result<T>
    ensures { IsErr result }
{
    bail!(why)
}

/// What is told of a call, in memory of its own.
pub type Told = InlineText<128>;

/// What is printed of a call that returned this.
pub fn told<T: Display + Drop>(value: T) -> Told {
    Told::of(format_args!("Ok {value}"))
}

/// What is printed of a result: that, or the text of the refusal.
pub fn shown<T: Display + Drop>(answer: Result<T>) -> Told {
    match answer {
        Ok(value) => told(value),
        Err(refusal) => Told::of(refusal),
    }
}

/// What is told of calls that return these numbers.
pub fn told_numbers(numbers: &[u32]) -> Told {
    let mut sum = 0;
    for number in numbers {
        sum = with_number(sum, *number);
    }
    told(sum)
}

/// The lowest 32 bits of a number.
pub fn low_bits(number: usize) -> u32 {
    (number % (1 << 32)) as u32
}

/// A number that the coefficients of elements come to, in order.
pub fn digest<F: ExtensionField<Mersenne31>>(elements: &[F]) -> u32 {
    let mut sum = 0;
    for element in elements {
        sum = with_coefficients(sum, *element);
    }
    sum
}

// The number of what came before and of an element's coefficients.
fn with_coefficients<F: ExtensionField<Mersenne31>>(sum: u32, element: F) -> u32 {
    let mut sum = sum;
    for i in 0..F::DEGREE {
        sum = with_number(sum, element.coefficient(i).value());
    }
    sum
}

/// The number that a number and one after it come to.
pub fn with_number(sum: u32, next: u32) -> u32 {
    sum.wrapping_mul(1103515245).wrapping_add(next)
}
