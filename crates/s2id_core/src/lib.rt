//! Cells of the S2 curve: their 64-bit numbers, their tokens and their paths.
//!
//! The curve runs once through the six faces of a cube. A face is a cell of level 0, and each cell is cut into four children, down to level
//! 30, whose cells are the leaves. A [`CellId`] names a cell by S2's number for it. The numbers of leaves rise along the curve, and the
//! leaves of a cell are one unbroken stretch of it. So comparing numbers tells whether a cell contains another.
//!
//! A cell comes from its number (`from_raw`), its token (`from_token(b"04")`) or its path (`from_path(0, &[0])`), and `raw`, `token` and
//! `path` give them back. No call here allocates; [`OutOfMemory`] is the error of the crates above. There are no points, angles or areas of
//! the sphere.
#![tactic(auto)]

mod cell_id;
mod display;
mod hexadecimal;
pub mod laws;
mod memory;
mod path;
mod relatives;
mod span;
mod token;

pub use cell_id::{CellId, FACE_NUMBERS, FACES, LEAF_END};
pub use hexadecimal::sixteen_digits;
pub use memory::OutOfMemory;
pub use path::PathText;
pub use token::{Token, TokenError};
