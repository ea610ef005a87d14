//! The field, the commitment schemes and the challenger that tests alone use, and an assertion.
#![tactic(auto)]

/// Aborts where a condition fails, as `assert!` does. The proof takes it as two calls, where
/// `assert!` is a branch: that costs less, and what follows knows the condition's value alone.
#[macro_export]
macro_rules! expect {
    ($rt:expr; $holds:expr) => {
        ($holds)
            .then_some(())
            .expect(&$rt, concat!("assertion failed: ", stringify!($holds)))
    };
}

pub mod matrix_list;
pub mod quadratic;
pub mod schemes;
pub mod stubborn;
