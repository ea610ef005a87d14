//! The forms of values in JSON: what is written is read back, and nothing stands for two values.
//!
//! `JsonForm` reads counts, elements, digests and lists from JSON and writes them: `from_json` of a
//! count, an element or a digest is Ok exactly on their forms and fails by one stated error
//! elsewhere, one of a list fails only as one of its items does or for want of memory, and what
//! `to_json` wrote stands for the value that it was written of and for no other. `specs/Form` has
//! what a form is and its laws, `specs/Values` the forms of numbers, elements, digests and lists,
//! `specs/ObjectForm` that of an object with exactly the members of a list of fields (which is
//! refused for a missing key before a further one, and for a member only where it has its keys), and
//! `specs/Coefficients` that of a list of which one item stands for itself, told from a list by
//! `FlatForm`.
//!
//! So are the records of `circle_commit` and `circle_relation` read and written: a batch's opening,
//! claims and the parameters of FRI, of which `specs/Claims` has the keys of each object, and that
//! the final polynomial's length may be missing; a proof and its parts, of which `specs/Proof` has
//! the keys; the parts of an AIR (`specs/Airs`), whose nodes are objects of one member, told apart
//! by its key (`specs/Choices`, `specs/ChoiceForm`).
//!
//! Its files:
//!
//! - In `src/`, `form.rt`: the trait. `object.rt`: keys and members of an object, read and written.
//!   `claims.rt`, `proof.rt`, `airs.rt`: records.
//! - In `specs/`, `Form`, `FormFacts`: what a form is, with its laws. `Values`: numbers, elements,
//!   digests and lists. `Objects`, `ObjectForm`, `KeyRows`: objects of a list of fields, and which
//!   fault of their keys is reported, at worked examples. `Coefficients`: a
//!   list of which one item stands for itself. `Choices`, `ChoiceForm`: objects of one member, whose
//!   key says what it is. `Claims`, `Proof`, `Airs`: the keys of records. `Named`: the names of
//!   refusals.
//! - In `proofs/`: arrays item by item, objects and their keys, values written as objects of their
//!   parts, parameters.
#![tactic(auto)]

pub mod airs;
pub mod claims;
pub mod coefficients;
pub mod error;
pub mod form;
pub mod object;
pub mod proof;

pub use coefficients::{FlatForm, coefficients_from_json, coefficients_to_json};
pub use error::JsonError;
pub use form::JsonForm;
pub use object::{has_keys, member, put_member};
