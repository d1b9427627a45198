//! The heavy pairs of the six faces of a table.
ghost use Rattle.std.specs.Prelude.{set, ◌≡◌, ℕ, ◌<◌, OnErr, OnOk};
ghost use Rattle.s2ix_table_heavy.specs.ChangedChunk.{FitsChunk};
ghost use Rattle.s2ix_table_heavy.specs.Chunks.{AreChunks};
ghost use Rattle.s2ix_table_faced.specs.Layout.{chunks_on};

use s2id_core::{FACES, OutOfMemory};
use s2ix_table_heavy::ChangedChunk;
use s2ix_table_parts::HeavyPairs;
use s2ix_table_parts::laws::heavy_pairs_are_in_chunks;
use std::alloc::Global;

// A law: the heavy pairs of each face are in chunks.
pub(crate) fn all_are_chunks(heavy: &[HeavyPairs; FACES])
    ensures { (face : ℕ) → face < 6 → AreChunks (chunks_on heavy.now face) }
{
    heavy_pairs_are_in_chunks(&heavy[0]);
    heavy_pairs_are_in_chunks(&heavy[1]);
    heavy_pairs_are_in_chunks(&heavy[2]);
    heavy_pairs_are_in_chunks(&heavy[3]);
    heavy_pairs_are_in_chunks(&heavy[4]);
    heavy_pairs_are_in_chunks(&heavy[5]);
}

// Puts a changed chunk of a face into its place, as `HeavyPairs::put_chunk` does it.
pub(crate) fn put_chunk_on(
    alloc: Global,
    heavy: &mut [HeavyPairs; FACES],
    face: u8,
    chunk: ChangedChunk,
) -> Result<(), OutOfMemory>
    requires six { face < 6 }
    requires fits { FitsChunk (chunks_on heavy.old face) chunk.number chunk.held }
    ensures put { OnOk result (heavy.new ≡ set heavy.old face (set (chunks_on heavy.old face) chunk.number chunk.held)) }
    ensures stay { OnErr result (heavy.new ≡ heavy.old) }
{
    heavy[usize::from(face)].put_chunk(alloc, chunk)
}

// Puts the pairs of a face in the place of those that were there.
pub(crate) fn set_face(heavy: &mut [HeavyPairs; FACES], face: u8, pairs: HeavyPairs)
    requires { face < 6 }
    ensures { heavy.new ≡ set heavy.old face pairs }
{
    heavy[usize::from(face)] = pairs;
}
