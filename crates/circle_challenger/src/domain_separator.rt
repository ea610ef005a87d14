//! The seed of a transcript.
ghost use Rattle.std.specs.Prelude.{◌≡◌, ◌++◌, ◌∷◌, [], OnOk, IfOk, map, length, flat_map, All};
ghost use Rattle.std.specs.Prelude.{◌<◌, ◌^◌};
ghost use Rattle.circle_challenger.specs.Step.{IsWritableStep, be64, counted, step_text};
ghost use Rattle.circle_challenger.specs.Interaction.{step_of};
ghost use Rattle.circle_challenger.specs.Separator.{labels_text, steps_text};
ghost use Rattle.circle_challenger.specs.Observing.{after_all};
ghost use Rattle.circle_field.specs.Field.{of_nat};

use crate::challenger::CanObserve;
use crate::interaction::Interaction;
use crate::pattern::InteractionPattern;
use circle_field::Field;
use std::alloc::{AllocError, Global};
use std::marker::Model;

/// What a transcript is seeded with: the protocol's version and name, the steps of the run, and
/// labels of the instance, with the text that spells them.
#[derive(Debug, Drop)]
pub struct DomainSeparator {
    version: u8,
    name: &'static str,
    pattern: InteractionPattern,
    labels: Vec<Vec<u8>>,
    // Where the labels begin in the text.
    labels_at: usize,
    text: Vec<u8>,
}

impl Model for DomainSeparator {
    ghost use Rattle.std.specs.Prelude.{map};
    ghost use Rattle.circle_challenger.specs.Separator.{Separator, separator, IsSpelled};

    ghost Value = { Separator };

    ghost view = { λ s. separator s.version s.name.now s.pattern
        (map (λ l. l.items) s.labels.items) };

    ghost invariant = { λ s. IsSpelled (separator s.version s.name.now s.pattern
        (map (λ l. l.items) s.labels.items)) s.labels_at s.text.items };
}

/// Appends a number in eight bytes, the greatest first.
#[tactic(auto, unfolding(crate::specs::Step::be64))]
fn put_number(text: &mut Vec<u8>, number: usize) -> Result<(), AllocError>
    ensures { OnOk result (text.new.items ≡ text.old.items ++ be64 number) }
{
    text.extend_from_slice(&(number as u64).to_be_bytes())
}

/// Appends bytes after their number.
fn put_counted(text: &mut Vec<u8>, bytes: &[u8]) -> Result<(), AllocError>
    ensures written { OnOk result (text.new.items ≡ text.old.items ++ counted bytes.now) }
    ensures small { length bytes.now < 2 ^ 64 }
{
    put_number(text, bytes.len())?;
    text.extend_from_slice(bytes)
}

/// Appends the text of a step.
#[tactic(auto, unfolding(crate::specs::Step::step_text))]
fn put_step(text: &mut Vec<u8>, step: &Interaction) -> Result<(), AllocError>
    ensures written { OnOk result (text.new.items ≡ text.old.items ++ step_text
        (step_of step.now)) }
    ensures writable { OnOk result (IsWritableStep (step_of step.now)) }
{
    let Interaction {
        hierarchy,
        kind,
        value_type,
        label,
        length,
    } = *step;
    text.extend_from_slice(&[hierarchy.byte(), kind.byte(), value_type.byte()])?;
    put_number(text, value_type.parameter())?;
    put_counted(text, label.as_bytes())?;
    text.push(length.byte())?;
    put_number(text, length.count())
}

/// Appends the texts of steps, in order.
fn put_each_step(text: &mut Vec<u8>, steps: &[Interaction]) -> Result<(), AllocError>
    ensures written { OnOk result (text.new.items ≡ text.old.items ++ flat_map step_text
        (map step_of steps.now)) }
    ensures writable { OnOk result (All IsWritableStep (map step_of steps.now)) }
{
    for step in steps {
        put_step(text, step)?;
    }
    Ok(())
}

/// Appends what the protocol and the steps give to a seed's text.
#[tactic(auto, unfolding(crate::specs::Separator::steps_text))]
fn put_steps(
    text: &mut Vec<u8>,
    version: u8,
    name: &str,
    steps: &[Interaction],
) -> Result<(), AllocError>
    ensures written { OnOk result (text.new.items ≡ text.old.items ++ steps_text version name.now
        (map step_of steps.now)) }
    ensures name { length name.now < 2 ^ 64 }
    ensures count { length (map step_of steps.now) < 2 ^ 64 }
    ensures each { OnOk result (All IsWritableStep (map step_of steps.now)) }
{
    text.push(version)?;
    put_counted(text, name.as_bytes())?;
    put_number(text, steps.len())?;
    put_each_step(text, steps)
}

/// Appends the labels, each after its length.
fn put_each_label(text: &mut Vec<u8>, labels: &[Vec<u8>]) -> Result<(), AllocError>
    ensures written { OnOk result (text.new.items ≡ text.old.items ++ flat_map counted
        (map (λ l. l.items) labels.now)) }
    ensures each { OnOk result (All (λ l. length l < 2 ^ 64) (map (λ l. l.items) labels.now)) }
{
    for label in labels {
        put_counted(text, label)?;
    }
    Ok(())
}

/// Appends the labels after their number.
#[tactic(auto, unfolding(crate::specs::Separator::labels_text))]
fn put_labels(text: &mut Vec<u8>, labels: &[Vec<u8>]) -> Result<(), AllocError>
    ensures written { OnOk result (text.new.items ≡ text.old.items ++ labels_text
        (map (λ l. l.items) labels.now)) }
    ensures count { length (map (λ l. l.items) labels.now) < 2 ^ 64 }
    ensures each { OnOk result (All (λ l. length l < 2 ^ 64) (map (λ l. l.items) labels.now)) }
{
    put_number(text, labels.len())?;
    put_each_label(text, labels)
}

impl DomainSeparator {
    ghost use Rattle.std.specs.Prelude.{◌≡◌, ◌++◌, ◌∷◌, [], IfOk, map};
    ghost use Rattle.circle_challenger.specs.Separator.{Separator, IsWritable, separator, seed_text};

    /// The separator of a protocol's version and name and of the steps of a run, with no labels.
    pub fn new(
        alloc: Global,
        version: u8,
        name: &'static str,
        pattern: InteractionPattern,
    ) -> Result<Self, AllocError>
        ensures { IfOk result (λ s. s ≡ separator version name.now pattern []) }
    {
        let mut text = Vec::new(alloc);
        put_steps(&mut text, version, name, pattern.steps())?;
        let labels_at = text.len();
        let labels = Vec::new(alloc);
        put_labels(&mut text, &labels)?;
        Ok(DomainSeparator {
            version,
            name,
            pattern,
            labels,
            labels_at,
            text,
        })
    }

    /// The separator with one more label of the instance, which stands last.
    pub fn instance(self, alloc: Global, label: &[u8]) -> Result<Self, AllocError>
        ensures { IfOk result (λ s. s ≡ record self { labels = self.labels ++ label.now ∷ [] }) }
    {
        let DomainSeparator {
            version,
            name,
            pattern,
            mut labels,
            labels_at,
            mut text,
        } = self;
        labels.push(Vec::from_slice(alloc, label)?)?;
        text.truncate(labels_at);
        put_labels(&mut text, &labels)?;
        Ok(DomainSeparator {
            version,
            name,
            pattern,
            labels,
            labels_at,
            text,
        })
    }

    /// The steps of the run.
    pub fn pattern(&self) -> &InteractionPattern
        ensures { result.now ≡ self.now.steps }
    {
        &self.pattern
    }

    /// The labels of the instance, in the order in which they were given.
    pub fn labels(&self) -> &[Vec<u8>]
        ensures { map (λ l. l.items) result.now ≡ self.now.labels }
    {
        &self.labels
    }

    /// The seed's text, which is that of no other separator.
    pub fn text(&self) -> &[u8]
        ensures text { result.now ≡ seed_text self.now }
        ensures writable { IsWritable self.now }
        ensures only { (other : Separator) → IsWritable other → seed_text other ≡ result.now → other
            ≡ self.now }
    {
        &self.text
    }

    /// Has the challenger absorb the text, each byte as an element of the base field, in order.
    pub fn seed<F: Field, C: CanObserve<F>>(&self, challenger: &mut C)
        ensures { C.state challenger.new ≡ after_all C.after_observe (C.state challenger.old)
            (map (of_nat F.ops) (seed_text self.now)) }
    {
        observe_bytes::<F, C>(challenger, self.text());
    }
}

/// Has the challenger absorb each byte as an element of the base field, in order.
fn observe_bytes<F: Field, C: CanObserve<F>>(challenger: &mut C, bytes: &[u8])
    ensures { C.state challenger.new ≡ after_all C.after_observe (C.state challenger.old)
        (map (of_nat F.ops) bytes.now) }
{
    for byte in bytes {
        challenger.observe(&F::from_u64(u64::from(*byte)));
    }
}
