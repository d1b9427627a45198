//! The pairs of heavy cells: cells within which very many pairs lie, such as a face that a label covers.
//!
//! A range table keeps its pairs in parts, and no cell may cross a place at which two parts meet. So a single pair of a heavy cell would
//! force all parts below it into one, which each edit there would make anew. A [`HeavyTable`] holds such pairs beside the parts: the chain
//! of pairs over a leaf is the chain in its part, and after it the chain of heavy pairs.
//!
//! ```
//! let chunks = cut_into_chunks(alloc, &held, 512)?; // rising pairs, in chunks of at most 512
//! let table = HeavyTable::over(alloc, chunks)?;
//! let (first, until) = table.first_over(leaf); // all leaves from this one up to `until` lie under the same heavy pairs
//! let innermost = first.map(|place| table.held_at(place));
//! let next = first.and_then(|place| table.outer(place)); // one pair further outwards
//! ```
//!
//! The pairs lie in *chunks*: lists of pairs of one cell, one after the other, in rising order. A cell with many labels has several chunks,
//! so an edit of one label makes one chunk anew, and the others are shared. Beside the chunks the table keeps a *mark* for each: a pair
//! with the chunk's cell and, as label, the chunk's number. The ranges of leaves are those of the marks, and depend on no label. Over a
//! leaf, the pairs are those of the chunks whose marks lie over it, in the order of the marks.
//!
//! The caller says which cells are heavy, and how long a chunk is. A table holds at most 1,000,000 pairs. A chunk with other pairs of
//! its cell takes its place in O(1). To add or drop a chunk, the table is made anew over the same lists, in O(c) for c chunks.
#![tactic(auto)]

mod changed_chunk;
mod cut;
mod heavy_place;
mod heavy_table;
pub mod laws;
mod marks;

pub use changed_chunk::ChangedChunk;
pub use cut::cut_into_chunks;
pub use heavy_place::HeavyPlace;
pub use heavy_table::HeavyTable;
