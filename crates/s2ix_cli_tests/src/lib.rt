//! Tests of the program's calls with memory at hand: of lines, of its words, of whole texts and of runs. A run answers each piece of a
//! script before it asks for another one.
//!
//! In the modules `refused_..` each growth is refused in turn: `tests/hostile` runs each test there once for each growth that it
//! asks for. The call tells so and has changed nothing; made again, it answers as it does with memory. The store of a run is as
//! of the lines that it carried out, and the run goes on from there.
#![tactic(auto)]

#[cfg(test)]
mod in_turn_tests;
#[cfg(test)]
mod line_tests;
#[cfg(test)]
mod refused_run_tests;
#[cfg(test)]
mod refused_text_tests;
#[cfg(test)]
mod refused_words_tests;
#[cfg(test)]
mod words_tests;
