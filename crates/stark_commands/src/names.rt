//! The names of the libraries' errors, as the program writes them.
ghost use Rattle.std.specs.Prelude.{◌≡◌};
ghost use Rattle.stark_commands.specs.Named.{air_name, prover_name, stark_name};

use circle_air::AirError;
use circle_presets::VerifierError;
use circle_stark::{StarkError, StarkProverError};

/// The name of the reason to refuse an AIR.
pub(crate) fn air_name(error: &AirError) -> &'static str
    ensures { result.now ≡ air_name error.now }
{
    match error {
        AirError::NoColumns => "NoColumns",
        AirError::PeriodicLength { .. } => "PeriodicLength",
        AirError::NodeOutOfOrder { .. } => "NodeOutOfOrder",
        AirError::ColumnOutOfRange { .. } => "ColumnOutOfRange",
        AirError::PeriodicOutOfRange { .. } => "PeriodicOutOfRange",
        AirError::PublicOutOfRange { .. } => "PublicOutOfRange",
        AirError::DegreeTooHigh { .. } => "DegreeTooHigh",
        AirError::NoConstraints => "NoConstraints",
        AirError::ConstraintOutOfRange { .. } => "ConstraintOutOfRange",
        AirError::Memory => "Memory",
    }
}

/// The name of the reason to refuse a proof; the scheme's own name where the scheme refuses it.
pub(crate) fn stark_name(error: &StarkError<VerifierError>) -> &'static str
    ensures { result.now ≡ stark_name error.now }
{
    match error {
        StarkError::PublicValuesMismatch { .. } => "PublicValuesMismatch",
        StarkError::HeightTooSmall => "HeightTooSmall",
        StarkError::HeightTooLarge => "HeightTooLarge",
        StarkError::PeriodTooLong { .. } => "PeriodTooLong",
        StarkError::TraceLocalLength { .. } => "TraceLocalLength",
        StarkError::TraceNextLength { .. } => "TraceNextLength",
        StarkError::QuotientChunkCount { .. } => "QuotientChunkCount",
        StarkError::QuotientChunkLength { .. } => "QuotientChunkLength",
        StarkError::UnfitPoint => "UnfitPoint",
        StarkError::InvalidOpening(error) => error.name(),
        StarkError::OodEvaluationMismatch => "OodEvaluationMismatch",
        StarkError::Memory => "Memory",
    }
}

/// The name of the reason to make no proof.
pub(crate) fn prover_name(error: &StarkProverError) -> &'static str
    ensures { result.now ≡ prover_name error.now }
{
    match error {
        StarkProverError::PublicValuesMismatch { .. } => "PublicValuesMismatch",
        StarkProverError::WidthMismatch { .. } => "WidthMismatch",
        StarkProverError::HeightNotPowerOfTwo => "HeightNotPowerOfTwo",
        StarkProverError::HeightTooSmall => "HeightTooSmall",
        StarkProverError::HeightTooLarge => "HeightTooLarge",
        StarkProverError::PeriodTooLong { .. } => "PeriodTooLong",
        StarkProverError::UnfitParameters => "UnfitParameters",
        StarkProverError::Unsatisfied { .. } => "Unsatisfied",
        StarkProverError::UnfitPoint => "UnfitPoint",
        StarkProverError::PointOnDomain => "PointOnDomain",
        StarkProverError::NoGrindingWitness { .. } => "NoGrindingWitness",
        StarkProverError::Memory => "Memory",
    }
}
