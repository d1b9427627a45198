//! One face of a table: its parts, the heavy pairs over them, and what a change makes of both.
//!
//! The pairs of a face lie in *parts*: tables over neighbouring spans of leaves. Where two parts meet is a *seam*, and no cell of their pairs
//! goes over it. So each part is a table by itself, and a change makes few of them anew; the others stay, or are shared.
//!
//! A cell that goes over many parts would force them all into one. So the pairs of such a cell are *heavy*: they lie in chunks beside the
//! parts (`s2ix_table_heavy`), and all other pairs are *light*. Over all leaves of a part lie the same heavy pairs, and a [`Part`] has the
//! place of the innermost of them. The chain over a leaf is the chain in its part, and then the chain of heavy pairs from that place on.
//!
//! ```
//! let face = Face { face: 2, parts: &parts, heavy: &heavy };
//! let new = face.after(alloc, &held, entries)?; // `held`: what the entries make of the pairs of face 2
//! parts.reserve(new.parts.len())?;
//! put_between(&mut parts, new.first, new.end, new.parts); // those before `first`, and those from `end` on, stay
//! heavy = new.heavy;
//! ```
//!
//! | A change of a face | What is made anew | Call |
//! |---|---|---|
//! | All its entries fall into one chunk, which keeps a pair and doesn't get too long | that chunk | [`Face::chunk_after`] |
//! | Any other | the parts and the chunks that its entries touch, or the whole face | [`Face::after`] |
//! | It has no entries | nothing | [`Face::unchanged`] |
//! | There are no parts yet | the whole face | [`all_anew`] |
//!
//! A face has at most 1,000,000 pairs. A part has about as many as a list of the bag may have, if its pairs can be cut. No clause says where
//! parts begin, which of them stay or which cells are heavy, since only costs depend on it. This room knows neither bags nor other faces, and
//! doesn't count ranges. All this is work of `s2ix_table_faced`: it reads a bag face by face, keeps the parts of six faces in one list, and
//! numbers their ranges, of which two that meet at a seam may be one.
#![tactic(auto)]

mod change;
mod face_parts;
mod faces;
mod heavy_pairs;
pub mod laws;
mod part;
mod parts;
mod split;

pub use change::face_after::{Face, all_anew};
pub use change::new_parts::{NewFace, NewParts, put_between};
pub use change::parts_changed::changed_tables;
pub use faces::face_begin;
pub use heavy_pairs::HeavyPairs;
pub use part::{Part, begins_of};
pub use parts::parts_over;
