//! What is refused of a proof before the challenger is seeded, and once its challenges are drawn.

pub use circle_verifier::verifier::{
    validate_claims, validate_parameters, validate_points, validate_proof_shape,
};
pub use circle_verifier::{CheckedRun, DrawnRun, OpenedRun, TestedRun};
