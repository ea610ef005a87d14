//! Tests of fields, points, domains, selectors, values off a domain, periodic columns and folds
//! that no case of `test_cases` can state: those over the quadratic extension, those beside a plain
//! form, and those whose conditions take a proof.
#![tactic(auto)]

#[cfg(test)]
mod domains;
#[cfg(test)]
mod extensions;
#[cfg(test)]
mod fields;
#[cfg(test)]
mod folding;
#[cfg(test)]
mod off_domain;
#[cfg(test)]
mod periodic;
#[cfg(test)]
mod points;
#[cfg(test)]
mod selectors;
#[cfg(test)]
mod transform;
#[cfg(test)]
mod walks;
#[cfg(test)]
mod words;
