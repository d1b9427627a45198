//! What a change makes of a face. `face_after` tries the ways in turn: `parts_changed` if there are no heavy pairs, `light_after` for entries of
//! light cells, and `layers_after` for those of both layers, with `heavy_after` and `chunks_after` for the heavy one. If none of them serves, it
//! lays the whole face anew. `one_chunk` is for entries that all fall into one chunk. `new_parts` has what they return.

pub(crate) mod chunks_after;
pub(crate) mod face_after;
mod heavy_after;
mod layers_after;
mod light_after;
pub(crate) mod new_parts;
mod one_chunk;
pub(crate) mod parts_changed;
