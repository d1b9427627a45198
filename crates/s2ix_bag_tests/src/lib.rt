//! Tests of bags and of the changes between them: what a bag is asked, lists that are shared, clones, and growths.
//!
//! In `refused_tests` each growth of a call is refused in turn: `tests/hostile` runs each test there once for each growth that it asks for.
//! The call tells so and has changed nothing, and made again it answers as it does with memory. The growths of the tests in
//! `refused_growths` are counted.
#![tactic(auto)]

#[cfg(test)]
mod bag_tests;
#[cfg(test)]
mod label_tests;
#[cfg(test)]
mod list_tests;
#[cfg(test)]
mod parts_tests;
#[cfg(test)]
mod refused_growths;
#[cfg(test)]
mod refused_tests;
#[cfg(test)]
mod same_tests;
