//! Tests of sources and sinks, of the readers of dumps and of journals, and of bags as one line of JSON.
//!
//! In `refused_reading_tests` each growth is refused in turn: `tests/hostile` runs each test there once for each growth
//! that it asks for. The call tells so, and made again it answers as it does with memory.
#![tactic(auto)]

#[cfg(test)]
mod adapter_tests;
#[cfg(test)]
mod export_tests;
#[cfg(test)]
mod reader_tests;
#[cfg(test)]
mod refused_growths;
#[cfg(test)]
mod refused_reading_tests;
#[cfg(test)]
mod sink_tests;
