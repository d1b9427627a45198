//! Runs: each line of a script carried out over a store, and its answer put into a sink.
//!
//! [`run`] reads a script from a source piece by piece, carries out each line as soon as its line feed has come, and writes the answers;
//! [`run_line`] carries out one line, and [`run_instruction`] what a line asks for. One definition says what a line comes to, as a step, and a
//! run is such steps, one after the other.
#![tactic(auto)]

mod asking;
mod coming;
mod held_line;
pub mod laws;
mod line;
mod outcome;
mod queries;
mod regions;
mod run_end;
mod script;
mod steps;

pub use asking::is_question;
pub use line::{run_instruction, run_line};
pub use outcome::LineOutcome;
pub use run_end::{RunEnd, RunOptions};
pub use script::run;
