//! Tests of range tables of all kinds: worked ones, a table over one face, parts of tables, tables of very many ranges, and what is read of
//! a bag for them.
//!
//! In `refused_tests` and `refused_parts_tests` each growth of a call is refused in turn: `tests/hostile` runs each test there once for each
//! growth that it asks for. The call tells so and has changed nothing, and made again it answers as it does with memory. The growths of the
//! tests in `refused_growths` are counted.
#![tactic(auto)]

#[cfg(test)]
mod chunk_tests;
#[cfg(test)]
mod heavy_tests;
#[cfg(test)]
mod many_tests;
#[cfg(test)]
mod meter_tests;
#[cfg(test)]
mod parts_tests;
#[cfg(test)]
mod reading_tests;
#[cfg(test)]
mod refused_growths;
#[cfg(test)]
mod refused_parts_tests;
#[cfg(test)]
mod refused_tests;
#[cfg(test)]
mod samples;
#[cfg(test)]
mod small_parts;
#[cfg(test)]
mod small_parts_tests;
#[cfg(test)]
mod span_tests;
#[cfg(test)]
mod table_tests;
