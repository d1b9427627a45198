//! The pairs of a face in two layers: light pairs in parts, and heavy ones in chunks over them.
ghost use Rattle.std.specs.Prelude.{◌≡◌, ◌↔◌, ◌*◌, ◌<◌, ◌≤◌, [], None, IfOk, IsTrue, length, take, drop, replicate};
ghost use Rattle.s2id_core.specs.Span.{leaf_end};
ghost use Rattle.s2ix_bag_lists.specs.Faces.{all_of};
ghost use Rattle.s2ix_bag_pairs.specs.Collection.{AreBelow, IsCollection, IsCollectionFrom};
ghost use Rattle.s2ix_bag_pairs.specs.Pair.{rank_of};
ghost use Rattle.s2ix_table_spans.specs.SpanTable.{IsInSpan};
ghost use Rattle.s2ix_table_heavy.specs.Chunks.{AreChunks};
ghost use Rattle.s2ix_table_parts.specs.FaceSpans.{AreOnFace, heavy_places_of, spans_of, tables_of};
ghost use Rattle.s2ix_table_parts.specs.Neighbours.{AreNeighbours, held_in};
ghost use Rattle.s2ix_table_parts.specs.Layered.{AreLightParts, IsFaceLayered, face_pairs};
ghost use Rattle.s2ix_table_parts.specs.Made.{IfOkSome};

use crate::faces::face_begin;
use crate::heavy_pairs::HeavyPairs;
use crate::part::{Part, share_under};
use crate::parts::{greatest_end, least_begin, parts_over};
use crate::split::{Layers, split};
use s2id_core::OutOfMemory;
use s2ix_bag_held::FlatHeld;
use s2ix_bag_lists::HeldParts;
use s2ix_bag_pairs::Pair;
use s2ix_table_spans::SpanTable;
use std::alloc::Global;
use std::sync::Arc;

// Both layers.
#[derive(Drop)]
pub(crate) struct FaceParts {
    pub(crate) parts: Vec<Part>,
    pub(crate) heavy: HeavyPairs,
}

// The parts of a face with these pairs. If one would have more than twice as many pairs as the list's parts have at most, the pairs are
// laid in layers: those of heavy cells go into chunks over the parts, and the parts of the others are cut anew. But this is done only if
// the cells of all light pairs lie within spans over which the heavy pairs are the same. O(n log n) for n pairs. `OutOfMemory` if a growth
// is refused.
pub(crate) fn face_parts(
    alloc: Global,
    held: &HeldParts,
    face: u8,
) -> Result<FaceParts, OutOfMemory>
    requires six { face < 6 }
    requires rises { IsCollection held.now }
    requires within_limit { length held.now ≤ 1000000 }
    requires on_face { AreOnFace face held.now }
    ensures layered { IfOk result (λ f. IsFaceLayered face f.heavy (spans_of f.parts.items) (heavy_places_of f.parts.items)) }
    ensures pairs { IfOk result (λ f. face_pairs f.parts.items f.heavy ≡ held.now) }
{
    let from = face_begin(face);
    let to = face_begin(face + 1);
    let tables = parts_over(alloc, held.parts(), from, to)?;
    let max_part_len = held.max_part_len();
    if has_large(tables.as_slice(), max_part_len) {
        let all = held.flat(alloc)?;
        let layers = split(alloc, all.as_slice(), max_part_len)?;
        if let Some(layered) = layered(alloc, layers, from, to, max_part_len)? {
            return Ok(layered);
        }
    }
    plain(alloc, tables.as_slice())
}

// Whether one of these tables is large. O(p) for p tables.
pub(crate) fn has_large(tables: &[Arc<SpanTable>], max_part_len: usize) -> bool {
    tables.iter().any(|table| is_large(table, max_part_len))
}

// Whether a table is large: it has more than twice `max_part_len` pairs. No clause says so: an edit within a smaller one is quicker. O(1).
pub(crate) fn is_large(table: &SpanTable, max_part_len: usize) -> bool {
    table.pair_count() > max_part_len && table.pair_count() - max_part_len > max_part_len
}

// All pairs are light, in parts of these tables. O(p) for p parts. `OutOfMemory` if a growth is refused, or a table is shared too often.
fn plain(alloc: Global, tables: &[Arc<SpanTable>]) -> Result<FaceParts, OutOfMemory>
    ensures parts { IfOk result (λ f. spans_of f.parts.items ≡ tables_of tables.now) }
    ensures heavy { IfOk result (λ f. f.heavy ≡ []) }
    ensures heavy_places { IfOk result (λ f. heavy_places_of f.parts.items ≡ replicate (length (tables_of tables.now)) None) }
{
    let mut parts = Vec::with_capacity(alloc, tables.len())?;
    share_under(&mut parts, tables, None)?;
    let heavy = HeavyPairs::none();
    Ok(FaceParts { parts, heavy })
}

// The two layers of a split, over the leaves from one number up to another: the light pairs in parts of at most `max_part_len`, if they can be cut.
// `None` if the cell of a light pair goes over a leaf number at which the heavy pairs change.
fn layered(
    alloc: Global,
    layers: Layers,
    from: u64,
    to: u64,
    max_part_len: usize,
) -> Result<Option<FaceParts>, OutOfMemory>
    requires rises { IsCollection layers.light.items }
    requires within_limit { length layers.light.items ≤ 1000000 }
    requires span { IsInSpan layers.light.items from to }
    requires leaves { to ≤ leaf_end }
    requires chunks { AreChunks layers.chunks.items }
    ensures heavy { IfOkSome result (λ f. f.heavy ≡ layers.chunks.items) }
    ensures parts { IfOkSome result (λ f.
        AreLightParts layers.chunks.items layers.light.items from (spans_of f.parts.items) (heavy_places_of f.parts.items) to) }
{
    let heavy = HeavyPairs::over(alloc, layers.chunks)?;
    over_spans(
        alloc,
        layers.light.as_slice(),
        heavy,
        from,
        to,
        max_part_len,
    )
}

// As `layered`, of light pairs and the heavy ones over them.
pub(crate) fn over_spans(
    alloc: Global,
    light: &[FlatHeld],
    heavy: HeavyPairs,
    from: u64,
    to: u64,
    max_part_len: usize,
) -> Result<Option<FaceParts>, OutOfMemory>
    requires rises { IsCollection light.now }
    requires within_limit { length light.now ≤ 1000000 }
    requires span { IsInSpan light.now from to }
    requires leaves { to ≤ leaf_end }
    ensures heavy { IfOkSome result (λ f. f.heavy ≡ heavy) }
    ensures parts { IfOkSome result (λ f.
        AreLightParts heavy light.now from (spans_of f.parts.items) (heavy_places_of f.parts.items) to) }
{
    let mut parts = Vec::new(alloc);
    let mut rest = light;
    let mut start = from;
    while start < to {
        let (over, until) = heavy.first_over(start);
        let end = until.min(to);
        let (own, later) = rest.split_at(count_below(rest, end));
        if least_begin(own, end) < start || greatest_end(own, start) > end {
            return Ok(None);
        }
        let tables = light_tables(alloc, own, start, end, max_part_len)?;
        share_under(&mut parts, tables.as_slice(), over)?;
        rest = later;
        start = end;
    }
    Ok(Some(FaceParts { parts, heavy }))
}

// Whether the cell of a pair has a number below this one.
fn is_before_number(pair: Pair, number: u64) -> bool
    ensures { IsTrue result ↔ (rank_of pair < number * 2147483648) }
{
    pair.cell.raw() < number
}

// How many pairs have cells with numbers below this one. O(log n) for n pairs.
fn count_below(held: &[FlatHeld], number: u64) -> usize
    requires { IsCollection held.now }
    ensures within { result ≤ length held.now }
    ensures below { AreBelow (number * 2147483648) (take result held.now) }
    ensures rest { IsCollectionFrom (number * 2147483648) (drop result held.now) }
{
    held.partition_point(|h| is_before_number(h.pair(), number))
}

// The tables of light pairs over the leaves from one number up to another, of at most `max_part_len` pairs each, if they can be cut. O(n) for n
// pairs. `OutOfMemory` if a growth is refused.
fn light_tables(
    alloc: Global,
    held: &[FlatHeld],
    from: u64,
    to: u64,
    max_part_len: usize,
) -> Result<Vec<Arc<SpanTable>>, OutOfMemory>
    requires rises { IsCollection held.now }
    requires within_limit { length held.now ≤ 1000000 }
    requires span { IsInSpan held.now from to }
    ensures neighbours { IfOk result (λ tables. AreNeighbours from (tables_of tables.items) to) }
    ensures pairs { IfOk result (λ tables. held_in (tables_of tables.items) ≡ held.now) }
{
    let lists = HeldParts::new_in_parts_of(alloc, Vec::from_slice(alloc, held)?, max_part_len)?;
    parts_over(alloc, lists.parts(), from, to)
}
