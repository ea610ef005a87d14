//! Why openings are complete. Those of matrices of low degree come to an end: the codewords of an
//! opening (Circle STARKs, IACR ePrint 2024/278, sections 4 and 6), from those of the heights to
//! the last one, are the values of polynomials with few coefficients.
//!
//! What is proved, for every lawful field and extension, by calls that return nothing and carry a
//! law each:
//!
//! - Where all claims on some committed matrices are true (`IsTrue`), the codeword of each height
//!   is the values of a polynomial with few coefficients plus a multiple of the vanishing
//!   polynomial, and without its lambda those values (`height_words_are_low`, by
//!   `AreHeightWordsLow`).
//! - Its fold by y, and the codewords of the rounds with the heights that join, are the values of
//!   polynomials in x, each with half as many coefficients as the one before, so the last codeword
//!   is the values of a final polynomial (`last_word_is_low`, by `IsLastWordLow`).
//! - What an opening returns for matrices of low degree is true, so that holds of its last codeword
//!   (`honest_openings_end_low`, by `EndLow`).
//!
//! And why what an opening returns is accepted: where claims say what was returned for requests, of
//! each matrix at one point at least, under commitments of its matrices, the relation that a
//! verifier decides holds of them, the proof and the challenges that are drawn from the state that
//! the opening began in, and the run leaves the state that the opening left
//! (`openings_are_accepted`). Nothing is required there of the degree of matrices of fewer than
//! 1024 columns: it decides whether an opening comes to an end. Wider ones must be of low degree
//! (`IsReadAsIs`): codewords read the extension of their first rows, which is then their rows, and
//! what is opened of them at the queries are their own rows.
//!
//! Its files:
//!
//! - In `specs/`, `LowDegree`, `LowWords`, `Honest`: matrices of low degree, codewords and
//!   requests. `Claimed`, `Over`, `Accepted`: claims on the returned values, and their acceptance.
//!   `Rows`: an example.
//! - In `proofs/`, of low degree: `NearLow`, values of a polynomial plus a multiple of `v_n`,
//!   closed under sums, multiples and, with twice as many coefficients, products with `v_n`;
//!   `DifferenceQuotients`, quotients of differences are such values; `TrueQuotients`, `TrueWords`,
//!   `FoldedWords`, `LastWords`, `TrueAnswers`.
//! - In `proofs/`, `ReadRows`: the rows that codewords read of a matrix are its own.
//! - In `proofs/`, of acceptance: `Heights`, `Lists`, `Items`, `Gathered`, `Inputs`: rows
//!   authenticate. `Pairs` and those that begin with `First`: the first layer. Those that begin
//!   with `Round`: the rounds, to the final polynomial's value. `Drawn`: the draws. `Accepted`: all
//!   parts.
#![tactic(auto)]

pub mod acceptance;
pub mod laws;

pub use acceptance::openings_are_accepted;
