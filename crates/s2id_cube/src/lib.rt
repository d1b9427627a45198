//! Cells as squares on the faces of the cube: coordinates, neighbours over edges, borders.
//!
//! [`to_face_ij`] gives a cell's column and row in the grid of its own level on its face, and [`from_face_ij`] leads back.
//! [`edge_neighbors`] gives the four cells of a cell's own level that share an edge with it. [`border`] gives the cells of a given level,
//! outside the cell, that share an edge with it. Both work across the edges of the cube. [`curve`] has the two tables that turn squares
//! into cells and back; it is public so that laws (named proved facts) can speak of them.
//!
//! Cells that share only a corner are no neighbours here. A border is at most eight levels finer than its cell. Only [`border`] allocates.
#![tactic(auto)]

mod borders;
pub mod curve;
mod error;
mod face_ij;
pub mod laws;
mod neighbors;
mod tile;

pub use borders::border;
pub use error::BorderError;
pub use face_ij::{FaceIj, from_face_ij, to_face_ij};
pub use neighbors::edge_neighbors;
