//! Tests of the program over memory that no case of `test_cases` can state: arguments, readers and
//! writers that fail, bytes that are no text, texts that are cut off or changed byte after byte,
//! and the names of refusals that no input gives. They stand here so that `circle_commands` itself
//! is proved once.
#![tactic(auto)]

#[cfg(test)]
mod expect;
#[cfg(test)]
mod inputs;
#[cfg(test)]
mod names;
#[cfg(test)]
mod program;
#[cfg(test)]
mod streams;
#[cfg(test)]
mod texts;
