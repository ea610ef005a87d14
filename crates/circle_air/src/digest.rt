//! The digest of an AIR.
ghost use Rattle.std.specs.Prelude.{◌≡◌, ℕ, List, ◌∷◌, ◌++◌, map};
ghost use Rattle.std.specs.List.{flat_map};
ghost use Rattle.sha2.specs.Hashers.{Holds256};
ghost use Rattle.sha2.specs.Sha256.{sha256};
ghost use Rattle.circle_air.specs.Air.{air_of};
ghost use Rattle.circle_air.specs.Text.{air_text, be64, column_text, constraint_text, listed};
ghost use Rattle.circle_air.specs.Text.{node_text, place_byte as byte_of_place};

use crate::air::Air;
use crate::node::{Constraint, Node, Place};
use circle_field::ElementBytes;
use sha2::{Digest, Sha256};

// Adds a number to the message, in eight bytes, the greatest first.
#[tactic(auto, unfolding(crate::specs::Text::be64))]
fn absorb_number(hasher: &mut Sha256, number: usize)
    ensures { (m : List ℕ) → Holds256 hasher.old m → Holds256 hasher.new (m ++ be64 number) }
{
    hasher.update((number as u64).to_be_bytes());
}

// Adds elements to the message, after their number.
fn absorb_elements<T: ElementBytes>(hasher: &mut Sha256, elements: &[T])
    ensures { (m : List ℕ) → Holds256 hasher.old m
        → Holds256 hasher.new (m ++ listed T.bytes elements.now) }
{
    absorb_number(hasher, elements.len());
    for element in elements {
        hasher.update(element.to_bytes());
    }
}

/// What has a text in an AIR's digest.
trait HasText {
    ghost text: { Self → List ℕ };

    /// Adds the text to the message.
    fn absorb(&self, hasher: &mut Sha256)
        ensures { (m : List ℕ) → Holds256 hasher.old m → Holds256 hasher.new (m ++ text self.now) };
}

/// A column's length and its elements.
impl<T: ElementBytes> HasText for Vec<T> {
    ghost text = { λ column. listed T.bytes column.items };

    fn absorb(&self, hasher: &mut Sha256) {
        absorb_elements(hasher, self);
    }
}

/// A node's tag and its operands.
impl<T: ElementBytes> HasText for Node<T> {
    ghost text = { node_text T.bytes };

    fn absorb(&self, hasher: &mut Sha256) {
        match *self {
            Node::Local(column) => absorb_one(hasher, 0, column),
            Node::Next(column) => absorb_one(hasher, 1, column),
            Node::Periodic(column) => absorb_one(hasher, 2, column),
            Node::Public(index) => absorb_one(hasher, 3, index),
            Node::Constant(element) => {
                hasher.update([4u8]);
                hasher.update(element.to_bytes());
            }
            Node::Add(left, right) => absorb_two(hasher, 5, left, right),
            Node::Sub(left, right) => absorb_two(hasher, 6, left, right),
            Node::Mul(left, right) => absorb_two(hasher, 7, left, right),
            Node::Neg(operand) => absorb_one(hasher, 8, operand),
        }
    }
}

/// A constraint's place and its node.
impl HasText for Constraint {
    ghost text = { constraint_text };

    fn absorb(&self, hasher: &mut Sha256) {
        absorb_one(hasher, place_byte(self.place), self.node);
    }
}

// The byte of a place.
fn place_byte(place: Place) -> u8
    ensures { result ≡ byte_of_place place }
{
    match place {
        Place::Every => 0,
        Place::First => 1,
        Place::Last => 2,
        Place::Transition => 3,
    }
}

// Adds a tag and a number to the message.
fn absorb_one(hasher: &mut Sha256, tag: u8, number: usize)
    ensures { (m : List ℕ) → Holds256 hasher.old m
        → Holds256 hasher.new (m ++ tag ∷ be64 number) }
{
    hasher.update([tag]);
    absorb_number(hasher, number);
}

// Adds a tag and two numbers to the message.
fn absorb_two(hasher: &mut Sha256, tag: u8, first: usize, second: usize)
    ensures { (m : List ℕ) → Holds256 hasher.old m
        → Holds256 hasher.new (m ++ tag ∷ (be64 first ++ be64 second)) }
{
    absorb_one(hasher, tag, first);
    absorb_number(hasher, second);
}

// Adds the texts of a list to the message, after their number.
fn absorb_all<T: HasText>(hasher: &mut Sha256, items: &[T])
    ensures { (m : List ℕ) → Holds256 hasher.old m
        → Holds256 hasher.new (m ++ listed T.text items.now) }
{
    absorb_number(hasher, items.len());
    for item in items {
        item.absorb(hasher);
    }
}

impl<F: ElementBytes> Air<F> {
    /// The SHA-256 of the text that spells the AIR.
    pub fn digest(&self) -> [u8; 32]
        ensures { result ≡ sha256 (air_text F.bytes F.BYTES (air_of self.now)) }
    {
        let mut hasher = Sha256::new();
        hasher.update(b"circle-air");
        hasher.update([1u8]);
        absorb_number(&mut hasher, F::BYTES);
        absorb_number(&mut hasher, self.width());
        absorb_number(&mut hasher, self.num_public_values());
        absorb_all(&mut hasher, self.periodic_columns());
        absorb_all(&mut hasher, self.nodes());
        absorb_all(&mut hasher, self.constraints());
        hasher.finalize()
    }
}
