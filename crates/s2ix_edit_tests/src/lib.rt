//! Tests of stores: each edit done, undone and done again, what a store is asked, and what may go to another thread.
//!
//! In `refused_tests` and `refused_large_tests` each growth of a step is refused in turn: `tests/hostile` runs each
//! test there once for each growth that it asks for. The step tells so and has changed nothing, and made again it
//! answers as it does with memory.
#![tactic(auto)]

#[cfg(test)]
mod edit_tests;
#[cfg(test)]
mod history_tests;
#[cfg(test)]
mod refused_growths;
#[cfg(test)]
mod refused_large_tests;
#[cfg(test)]
mod refused_tests;
#[cfg(test)]
mod store_tests;
#[cfg(test)]
mod thread_tests;
