//! Tests of cells, squares, neighbours, borders and unions, by values from outside.
//!
//! In `refused_tests` each growth of a call is refused in turn: `tests/hostile` runs each test there once for each growth that it asks for.
//! The call tells so and has changed nothing, and made again it answers as it does with memory.
#![tactic(auto)]

#[cfg(test)]
mod cell_tests;
#[cfg(test)]
mod cube_tests;
#[cfg(test)]
mod refused_tests;
#[cfg(test)]
mod union_tests;
