ghost use Rattle.std.specs.Prelude.{◌≡◌, ◌≤◌, ◌<◌, ◌+◌, ◌*◌, ◌++◌, IfOk, IfSome, None, OnErr, OnOk, drop, length, set, take, vec_capacity, ℕ, map, slice_index_or, ◌≢◌, ◌∷◌, false};
ghost use Rattle.s2id_core.specs.CellId.{level_of, raw_of};
ghost use Rattle.s2ix_bag_pairs.specs.Change.{changed};
ghost use Rattle.s2ix_bag_pairs.specs.Collection.{IsCollection};
ghost use Rattle.s2ix_bag_pairs.specs.OneProof.{IsCollection-prop};
ghost use Rattle.s2ix_table_spans.specs.Once.{KeepsOnce};
ghost use Rattle.s2ix_table_spans.specs.Starts.{IsLastStart};
ghost use Rattle.s2ix_table_walk.specs.FaceWindows.{face_begin};
ghost use Rattle.s2ix_table_walk.specs.Contents.{contents_at};
ghost use Rattle.s2ix_table_walk.specs.Places.{IsPlace, LeadsTo};
ghost use Rattle.s2ix_table_faced.specs.declared.part_place.FacedPlace.TheVariants.{Light, Heavy};
ghost use Rattle.s2ix_table_walk.specs.Shown.{AreBorders};
ghost use Rattle.s2ix_table_walk.specs.Table.{range_at, IsFound, IsRangeTable, leaf_end};
ghost use Rattle.s2ix_table_kept.specs.Faces.{changed_count, held_on, changed_on, faces, faces_of, has_entry_on};
ghost use Rattle.s2ix_table_faced.specs.FirstParts.{BeginFaces, parts_of_face, of_face};
ghost use Rattle.s2ix_table_parts.specs.FaceSpans.{heavy_places_of, spans_of, starts_of, table_of};
ghost use Rattle.s2ix_table_parts.specs.Made.{IfOkSome};
ghost use Rattle.s2ix_table_parts.specs.Neighbours.{held_in, AreNeighbours};
ghost use Rattle.s2ix_table_faced.specs.Layout.{AreLayered, IsLayout, chunks_on, covered, heavy_in, pairs_of, ranges_of};
ghost use Rattle.s2ix_table_parts.specs.Layered.{IsFaceLayered, IsFaceWith, face_pairs};
ghost use Rattle.s2ix_table_faced.specs.Offsets.{HasOwn, HasRange, place_on, places_of};
ghost use Rattle.s2ix_table_faced.specs.OneProof.{joined-prop, layered-prop, faced_once-prop};
ghost use Rattle.s2ix_table_faced.specs.PartPlaces.{faced_chain};
ghost use Rattle.s2ix_table_parts.specs.Parts.{with_parts};
ghost use Rattle.s2ix_table_kept.specs.Reading.{two_searches};
ghost use Rattle.s2ix_table_faced.specs.Whole.{AreJoined};
ghost use Rattle.s2ix_bag_lists.specs.Faces.{all_of};

use crate::all_faces::{AllFaces, read_all_faces};
use crate::changes::only_face;
use crate::copies::{copy_of, shared_parts};
use crate::entries_on::entries_on;
use crate::heavy_faces::{all_are_chunks, set_face};
use crate::layout::{Layout, uncounted};
use crate::offset::Offset;
use crate::part_begins::{PartBegins, begin_at, put_begins, starts_with};
use crate::part_place::{FaceHeavyPlace, FacedPlace, PartPlace};
use crate::read_faces::read_changed_lists;
use crate::shares_chains::SharesChains;
use crate::starts::last_by;
use s2id_core::{CellId, FACES, LEAF_END, OutOfMemory};
use s2ix_bag_changes::{Bag, Change};
use s2ix_bag_lists::HeldParts;
use s2ix_bag_pairs::Held;
use s2ix_table_kept::{BagReader, KeptTable, PairReader};
use s2ix_table_parts::{Face, HeavyPairs, NewFace, Part, begins_of, put_between};
use s2ix_table_queries::{BATCH, Bookmark, LeafContents, RangeTable, Stretch};
use s2ix_table_spans::SpanTable;
use s2ix_table_walk::{LeafWindow, RangeRow, Window};
use std::alloc::Global;

/// A range table in parts. Each part is a table with shared chains over some leaves of one face, and the pairs of heavy cells lie in chunks
/// over the parts. A table that [`FacedTable::rebuilt`] makes of this one shares the parts that stay. Ranges that meet where two parts do are
/// one if they have the same contents. Building takes O(n), and O(n log n) if cells are heavy. S2 builds its whole index anew after a change.
///
/// Costs are in n, the number of the table's pairs, and p, the number of its parts.
#[derive(Debug, Drop)]
pub struct FacedTable {
    // neighbours, from the first leaf of face 0 to the last of face 5; each face begins a part
    pub(crate) parts: Vec<Part>,
    // for each part the place among all of its first range, and the leaf number at which that range begins
    pub(crate) offsets: Vec<Offset>,
    // where the parts begin
    pub(crate) begins: PartBegins,
    // how many ranges there are
    count: usize,
    // the heavy pairs of each face
    pub(crate) heavy: [HeavyPairs; FACES],
    ghost joined: { AreJoined (spans_of parts.items) (heavy_in heavy) begins.starts.items offsets.items count } by { joined-prop (spans_of parts.items) (heavy_in heavy) begins.starts.items offsets.items count },
    ghost layered: { AreLayered heavy (spans_of parts.items) (heavy_places_of parts.items) } by { layered-prop heavy (spans_of parts.items) (heavy_places_of parts.items) },
    ghost rises: { IsCollection (pairs_of parts.items heavy) } by { IsCollection-prop 0 (pairs_of parts.items heavy) },
    ghost table: { IsRangeTable (pairs_of parts.items heavy) (ranges_of parts.items heavy) },
    ghost bordered: { AreBorders (ranges_of parts.items heavy) (places_of offsets.items) },
    ghost once: { KeepsOnce (faced_chain (spans_of parts.items) heavy) } by { faced_once-prop (spans_of parts.items) heavy },
}

impl RangeTable for FacedTable {
    type Place = FacedPlace;

    ghost pairs = { λ t. pairs_of t.parts.items t.heavy };

    ghost ranges = { λ t. ranges_of t.parts.items t.heavy };

    ghost chain = { λ t p. faced_chain (spans_of t.parts.items) t.heavy p };

    ghost borders = { λ t. places_of t.offsets.items };

    ghost is_collection = { λ t. t.rises };

    ghost is_table = { λ t. t.table };

    ghost are_borders = { λ t. t.bordered };

    ghost within_limit = { λ t. t.joined.within_limit };

    fn build(alloc: Global, bag: &Bag) -> Result<Self, OutOfMemory> {
        let mut reader = BagReader::new(bag);
        let all = read_all_faces(alloc, &mut reader)?;
        FacedTable::from_parts(alloc, all.parts, all.heavy)
    }

    #[inline]
    fn range_count(&self) -> usize {
        self.count
    }

    // O(log p).
    #[inline]
    fn range(&self, k: usize) -> RangeRow {
        let (part, own) = self.own_place(k);
        self.row_at(part, own)
    }

    // The ranges of a few parts, up to where the part after them begins.
    #[inline]
    fn window(&self, leaf: u64) -> LeafWindow {
        let parts = self.begins.parts_with(leaf);
        let first = self.offsets[parts.first].place;
        let last = parts.first + parts.size - 1;
        let end = self.offsets[last].place + self.span(last).range_count();
        LeafWindow {
            ranges: Window {
                first,
                size: end - first,
            },
            borders: Window {
                first: parts.first + 1,
                size: parts.size - 1,
            },
            until: self.end_of_part(last),
        }
    }

    #[inline]
    fn border(&self, m: usize) -> usize {
        self.offsets[m].place
    }

    #[inline]
    fn border_start(&self, m: usize) -> u64 {
        self.offsets[m].start
    }

    // The ranges of a part but for the first one, which may begin before it, and the last one, which may end after it.
    #[inline]
    fn stretch(&self, m: usize) -> Stretch<'_> {
        if m >= self.parts.len() {
            return Stretch::none();
        }
        let span = self.span(m);
        let starts = span.starts();
        Stretch {
            first: self.offsets[m].place + 1,
            count: starts.len().saturating_sub(2),
            starts: &starts[1..],
            sample: span.sample(),
            bookmark: Bookmark { part: m, range: 1 },
        }
    }

    // O(log p).
    #[inline]
    fn first(&self, k: usize) -> Option<FacedPlace> {
        let (part, own) = self.own_place(k);
        self.first_at(part, own)
    }

    #[inline]
    fn read_near(&self, k: usize, bookmark: Bookmark) -> (RangeRow, Option<FacedPlace>, Bookmark) {
        let part = bookmark.part;
        match self.own_near(k, part) {
            Some(range) => {
                let row = self.inner_row_at(part, range);
                (row, self.first_at(part, range), Bookmark { part, range })
            }
            None => self.read_far(k),
        }
    }

    #[inline]
    fn held_at(&self, place: FacedPlace) -> Held {
        match place {
            FacedPlace::Light(place) => self.light_at(place),
            FacedPlace::Heavy(place) => self.heavy_at(place),
        }
    }

    #[inline]
    fn outer(&self, place: FacedPlace) -> Option<FacedPlace> {
        match place {
            FacedPlace::Light(place) => self.outer_of(place),
            FacedPlace::Heavy(place) => self.outer_of_heavy(place),
        }
    }

    #[inline]
    fn find(&self, leaf: CellId) -> usize {
        let (part, found) = self.own_found(leaf);
        self.offsets[part].place + found
    }

    #[inline]
    fn first_over(&self, leaf: CellId) -> Option<FacedPlace> {
        let part = self.part_with(leaf);
        let found = self.found_in(part, leaf);
        self.first_found(leaf, part, found)
    }

    // It looks for many side by side, but not for leaves that rise closely: there it is quicker to go on from the last one.
    #[inline]
    fn look_for(&self, leaves: &[CellId], bookmarks: &mut [Bookmark]) -> bool {
        let looks = leaves.len() <= bookmarks.len().min(BATCH) && !self.rise_closely(leaves);
        if looks {
            self.look_side_by_side(leaves, bookmarks);
        }
        looks
    }

    #[inline(always)]
    fn contents_near(&self, leaf: CellId, bookmark: Bookmark) -> LeafContents<'_, FacedPlace> {
        self.contents_in(self.found_near(leaf, bookmark))
    }
}

impl SharesChains for FacedTable {
    ghost keeps_once = { λ t. t.once };
}

impl KeptTable for FacedTable {
    fn rebuild<B: PairReader>(
        &mut self,
        alloc: Global,
        bag: &mut B,
        change: &Change,
    ) -> Result<(), OutOfMemory> {
        FacedTable::rebuild(self, alloc, bag, change)
    }

    fn rebuilt<B: PairReader>(
        &self,
        alloc: Global,
        bag: &mut B,
        change: &Change,
    ) -> Result<FacedTable, OutOfMemory> {
        FacedTable::rebuilt(self, alloc, bag, change)
    }
}

impl FacedTable {
    /// The table after a change, as [`rebuild`](FacedTable::rebuild) makes it, beside this one: the two share the parts that stay.
    /// O(p) more for p parts. `OutOfMemory` if a growth is refused, or what they share is shared too often.
    pub fn rebuilt<B: PairReader>(
        &self,
        alloc: Global,
        bag: &mut B,
        change: &Change,
    ) -> Result<FacedTable, OutOfMemory>
        requires unread { B.spent bag.old ≡ 0 }
        requires made { changed (⟦<FacedTable as RangeTable>⟧.pairs self.now) change.now ≡ B.shown bag.old }
        ensures pairs { IfOk result (λ table. ⟦<FacedTable as RangeTable>⟧.pairs table ≡ B.shown bag.old) }
        ensures table { IfOk result (λ table. IsRangeTable (B.shown bag.old) (⟦<FacedTable as RangeTable>⟧.ranges table)) }
        ensures same { B.shown bag.new ≡ B.shown bag.old }
        ensures reads_all { OnOk result (changed_count change.now (B.shown bag.old) ≤ B.spent bag.new) }
        ensures reads_few { B.spent bag.new ≤ changed_count change.now (B.shown bag.old) + faces_of change.now * two_searches (B.shown bag.old) }
    {
        let mut table = self.copied(alloc)?;
        table.rebuild(alloc, bag, change)?;
        Ok(table)
    }

    /// Makes this table that of its pairs after a change: `bag` reads the pairs that the change has made of them. The parts that an entry's cell
    /// touches are made anew or, if the cell is heavy, the chunk that has the entry's pair; the others stay. With q pairs on the f faces on which
    /// the change has entries and n in all it reads q to q + 2 * f * digits(n + 1) pairs, for the binary digits of n + 1: a whole face at once,
    /// which a bag hands on as it is. Besides, it takes O(p + m log p + k) for m entries and the k pairs of what is made anew; O(log b) more for
    /// each part between the entries, if the bag's parts lie in b bundles; and O((p + m) log c + c) more under c chunks. But if all entries fall
    /// into one chunk, which keeps a pair and doesn't get too long, it takes O(log c + m + k), and O(c) more if a copy shares the heavy pairs. A
    /// face of q pairs that is laid in layers anew takes O(q log q). `OutOfMemory` if a growth is refused, or what stays is shared too often:
    /// then the table shows the same pairs, ranges and borders, with each pair at its place, and it has read at most so many.
    pub fn rebuild<B: PairReader>(
        &mut self,
        alloc: Global,
        bag: &mut B,
        change: &Change,
    ) -> Result<(), OutOfMemory>
        requires unread { B.spent bag.old ≡ 0 }
        requires made { changed (⟦<FacedTable as RangeTable>⟧.pairs self.old) change.now ≡ B.shown bag.old }
        ensures pairs { OnOk result (⟦<FacedTable as RangeTable>⟧.pairs self.new ≡ B.shown bag.old) }
        ensures table { OnOk result (IsRangeTable (B.shown bag.old) (⟦<FacedTable as RangeTable>⟧.ranges self.new)) }
        ensures stays { OnErr result (⟦<FacedTable as RangeTable>⟧.pairs self.new ≡ ⟦<FacedTable as RangeTable>⟧.pairs self.old) }
        ensures ranges_stay { OnErr result (⟦<FacedTable as RangeTable>⟧.ranges self.new ≡ ⟦<FacedTable as RangeTable>⟧.ranges self.old) }
        ensures borders_stay { OnErr result (⟦<FacedTable as RangeTable>⟧.borders self.new ≡ ⟦<FacedTable as RangeTable>⟧.borders self.old) }
        ensures places_stay { OnErr result ((place : FacedPlace)
            → ⟦<FacedTable as RangeTable>⟧.chain self.new place ≡ ⟦<FacedTable as RangeTable>⟧.chain self.old place) }
        ensures same { B.shown bag.new ≡ B.shown bag.old }
        ensures reads_all { OnOk result (changed_count change.now (B.shown bag.old) ≤ B.spent bag.new) }
        ensures reads_few { B.spent bag.new ≤ changed_count change.now (B.shown bag.old) + faces_of change.now * two_searches (B.shown bag.old) }
    {
        let lists = read_changed_lists(alloc, bag, change)?;
        self.change_faces(alloc, &lists, change)?;
        Ok(())
    }

    // Makes a change of the faces: for each face on which it has an entry, `lists` has the pairs that are there then. `OutOfMemory` if a
    // growth is refused, or a part, a list or a chunk is shared too often: then the table stays as it is.
    fn change_faces(
        &mut self,
        alloc: Global,
        lists: &[Option<HeldParts>; FACES],
        change: &Change,
    ) -> Result<(), OutOfMemory>
        requires lists { lists.now ≡ map (changed_on change.now (changed (⟦<FacedTable as RangeTable>⟧.pairs self.old) change.now)) faces }
        requires rises { IsCollection (changed (⟦<FacedTable as RangeTable>⟧.pairs self.old) change.now) }
        requires within_limit { length (changed (⟦<FacedTable as RangeTable>⟧.pairs self.old) change.now) ≤ 1000000 }
        ensures pairs { OnOk result (⟦<FacedTable as RangeTable>⟧.pairs self.new
            ≡ changed (⟦<FacedTable as RangeTable>⟧.pairs self.old) change.now) }
        ensures stays { OnErr result (⟦<FacedTable as RangeTable>⟧.pairs self.new ≡ ⟦<FacedTable as RangeTable>⟧.pairs self.old) }
        ensures ranges_stay { OnErr result (⟦<FacedTable as RangeTable>⟧.ranges self.new ≡ ⟦<FacedTable as RangeTable>⟧.ranges self.old) }
        ensures borders_stay { OnErr result (⟦<FacedTable as RangeTable>⟧.borders self.new ≡ ⟦<FacedTable as RangeTable>⟧.borders self.old) }
        ensures places_stay { OnErr result ((place : FacedPlace)
            → ⟦<FacedTable as RangeTable>⟧.chain self.new place ≡ ⟦<FacedTable as RangeTable>⟧.chain self.old place) }
    {
        match only_face(change) {
            Some(face) => self.change_face(alloc, face, lists, change),
            None => {
                let all = self.faces_after(alloc, lists, change)?;
                *self = FacedTable::from_parts(alloc, all.parts, all.heavy)?;
                Ok(())
            }
        }
    }

    // The same of a change that has entries on one face only. If they fall into one chunk, and this stays one, only the chunk is made anew.
    fn change_face(
        &mut self,
        alloc: Global,
        face: u8,
        lists: &[Option<HeldParts>; FACES],
        change: &Change,
    ) -> Result<(), OutOfMemory>
        requires six { face < 6 }
        requires only { (other : ℕ) → other < 6 → other ≢ face → has_entry_on change.now other ≡ false }
        requires lists { lists.now ≡ map (changed_on change.now (changed (⟦<FacedTable as RangeTable>⟧.pairs self.old) change.now)) faces }
        requires rises { IsCollection (changed (⟦<FacedTable as RangeTable>⟧.pairs self.old) change.now) }
        requires within_limit { length (changed (⟦<FacedTable as RangeTable>⟧.pairs self.old) change.now) ≤ 1000000 }
        ensures pairs { OnOk result (⟦<FacedTable as RangeTable>⟧.pairs self.new
            ≡ changed (⟦<FacedTable as RangeTable>⟧.pairs self.old) change.now) }
        ensures stays { OnErr result (⟦<FacedTable as RangeTable>⟧.pairs self.new ≡ ⟦<FacedTable as RangeTable>⟧.pairs self.old) }
        ensures ranges_stay { OnErr result (⟦<FacedTable as RangeTable>⟧.ranges self.new ≡ ⟦<FacedTable as RangeTable>⟧.ranges self.old) }
        ensures borders_stay { OnErr result (⟦<FacedTable as RangeTable>⟧.borders self.new ≡ ⟦<FacedTable as RangeTable>⟧.borders self.old) }
        ensures places_stay { OnErr result ((place : FacedPlace)
            → ⟦<FacedTable as RangeTable>⟧.chain self.new place ≡ ⟦<FacedTable as RangeTable>⟧.chain self.old place) }
    {
        if let Some(chunk) = self.chunk_after(alloc, face, lists, change)? {
            return self.put_chunk(alloc, face, chunk);
        }
        let new = self.face_after(alloc, face, lists, change)?;
        all_are_chunks(&self.heavy);
        let first = self.begins.faces[usize::from(face)];
        self.put(alloc, new.shifted_by(first))?;
        Ok(())
    }

    // What a change makes of all faces. O(p) for p parts, besides what each changed face takes.
    fn faces_after(
        &self,
        alloc: Global,
        lists: &[Option<HeldParts>; FACES],
        change: &Change,
    ) -> Result<AllFaces, OutOfMemory>
        requires lists { lists.now ≡ map (changed_on change.now (changed (⟦<FacedTable as RangeTable>⟧.pairs self.now) change.now)) faces }
        requires rises { IsCollection (changed (⟦<FacedTable as RangeTable>⟧.pairs self.now) change.now) }
        requires within_limit { length (changed (⟦<FacedTable as RangeTable>⟧.pairs self.now) change.now) ≤ 1000000 }
        ensures layout { IfOk result (λ all. IsLayout (spans_of all.parts.items) all.heavy (heavy_places_of all.parts.items)) }
        ensures faces { IfOk result (λ all. BeginFaces (spans_of all.parts.items)) }
        ensures pairs { IfOk result (λ all. pairs_of all.parts.items all.heavy
            ≡ changed (⟦<FacedTable as RangeTable>⟧.pairs self.now) change.now) }
    {
        let mut all = AllFaces::none(alloc, self.part_count())?;
        for face in 0..6u8 {
            let new = self.face_after(alloc, face, lists, change)?;
            let before = self.face(face);
            all.push(new, before.parts)?;
        }
        Ok(all)
    }

    // What a change makes of a face: if it has an entry there, `lists` has the face's pairs then.
    fn face_after(
        &self,
        alloc: Global,
        face: u8,
        lists: &[Option<HeldParts>; FACES],
        change: &Change,
    ) -> Result<NewFace, OutOfMemory>
        requires six { face < 6 }
        requires lists { lists.now ≡ map (changed_on change.now (changed (⟦<FacedTable as RangeTable>⟧.pairs self.now) change.now)) faces }
        requires within_limit { length (changed (⟦<FacedTable as RangeTable>⟧.pairs self.now) change.now) ≤ 1000000 }
        ensures face { IfOk result (λ new. new.face ≡ face) }
        ensures new_face { IfOk result (λ new. IsFaceWith face (held_on face (changed (⟦<FacedTable as RangeTable>⟧.pairs self.now) change.now))
            (parts_of_face (spans_of self.now.parts.items) self.now.begins.faces face)
            (of_face (heavy_places_of self.now.parts.items) self.now.begins.faces face)
            new.first new.end (spans_of new.parts.items) (heavy_places_of new.parts.items) new.heavy) }
        ensures before { IfOk result (λ new. 0 < new.first → new.heavy ≡ chunks_on self.now.heavy face) }
        ensures behind { IfOk result (λ new. new.end < length (parts_of_face (spans_of self.now.parts.items) self.now.begins.faces face)
            → new.heavy ≡ chunks_on self.now.heavy face) }
    {
        let before = self.face(face);
        match &lists[usize::from(face)] {
            Some(list) => before.after(alloc, list, entries_on(change.entries(), face)),
            None => before.unchanged(alloc),
        }
    }

    // A face: its parts and the heavy pairs over them.
    pub(crate) fn face(&self, face: u8) -> Face<'_>
        requires { face < 6 }
        ensures face { result.face ≡ face }
        ensures parts { spans_of result.parts.now ≡ parts_of_face (spans_of self.now.parts.items) self.now.begins.faces face }
        ensures heavy_places { heavy_places_of result.parts.now ≡ of_face (heavy_places_of self.now.parts.items) self.now.begins.faces face }
        ensures heavy { result.heavy.now ≡ chunks_on self.now.heavy face }
        ensures layered { IsFaceLayered face result.heavy.now (spans_of result.parts.now) (heavy_places_of result.parts.now) }
        ensures pairs { face_pairs result.parts.now result.heavy.now
            ≡ held_on face (⟦<FacedTable as RangeTable>⟧.pairs self.now) }
    {
        all_are_chunks(&self.heavy);
        let at = usize::from(face);
        Face {
            face,
            parts: self.parts_on(at),
            heavy: &self.heavy[at],
        }
    }

    // Puts what a change makes of a face into its place. O(p) for p parts. `OutOfMemory` if a growth is refused.
    fn put(&mut self, alloc: Global, new: NewFace) -> Result<(), OutOfMemory>
        requires face { new.face < 6 }
        requires order { new.first ≤ new.end }
        requires within { new.end ≤ length self.old.parts.items }
        requires layout { IsLayout
            (with_parts (spans_of self.old.parts.items) new.first new.end (spans_of new.parts.items))
            (set self.old.heavy new.face new.heavy)
            (take new.first (heavy_places_of self.old.parts.items) ++ (heavy_places_of new.parts.items ++ drop new.end (heavy_places_of self.old.parts.items))) }
        requires faces { BeginFaces (with_parts (spans_of self.old.parts.items) new.first new.end (spans_of new.parts.items)) }
        requires front { covered (heavy_in (set self.old.heavy new.face new.heavy)) (take new.first (spans_of self.old.parts.items))
            ≡ covered (heavy_in self.old.heavy) (take new.first (spans_of self.old.parts.items)) }
        requires back { covered (heavy_in (set self.old.heavy new.face new.heavy)) (drop new.end (spans_of self.old.parts.items))
            ≡ covered (heavy_in self.old.heavy) (drop new.end (spans_of self.old.parts.items)) }
        ensures put { OnOk result (spans_of self.new.parts.items
            ≡ with_parts (spans_of self.old.parts.items) new.first new.end (spans_of new.parts.items)) }
        ensures heavy { OnOk result (self.new.heavy ≡ set self.old.heavy new.face new.heavy) }
        ensures stay { OnErr result (spans_of self.new.parts.items ≡ spans_of self.old.parts.items) }
        ensures heavy_stay { OnErr result (self.new.heavy ≡ self.old.heavy) }
        ensures offsets_stay { OnErr result (self.new.offsets.items ≡ self.old.offsets.items) }
    {
        let begins = self.begins_after(alloc, &new)?;
        let NewFace {
            face,
            first,
            end,
            parts,
            heavy,
        } = new;
        let count = parts.len();
        let offsets = uncounted(alloc, count)?;
        self.make_room(count)?;
        put_between(&mut self.parts, first, end, parts);
        put_between(&mut self.offsets, first, end, offsets);
        set_face(&mut self.heavy, face, heavy);
        let layout = Layout {
            parts: &self.parts,
            heavy: &self.heavy,
        };
        self.count = layout.count_from(first, first + count, &mut self.offsets);
        put_begins(&mut self.begins, begins);
        Ok(())
    }

    // Room for so many parts more in each list. `OutOfMemory` if a growth is refused.
    fn make_room(&mut self, count: usize) -> Result<(), OutOfMemory>
        ensures parts { self.new.parts.items ≡ self.old.parts.items }
        ensures offsets { self.new.offsets.items ≡ self.old.offsets.items }
        ensures heavy { self.new.heavy ≡ self.old.heavy }
        ensures stay { self.new.begins ≡ self.old.begins }
        ensures room { OnOk result (length self.new.parts.items + count ≤ vec_capacity self.new.parts) }
        ensures offsets_room { OnOk result (length self.new.offsets.items + count ≤ vec_capacity self.new.offsets) }
    {
        self.parts.reserve(count)?;
        self.offsets.reserve(count)?;
        Ok(())
    }

    // Returns where the parts begin once `new` is in its place, or `None` if they begin at the same leaves as before. `None` takes O(k) for k
    // new parts, and any other answer O(p) for p parts. `OutOfMemory` if a growth is refused.
    fn begins_after(&self, alloc: Global, new: &NewFace) -> Result<Option<PartBegins>, OutOfMemory>
        requires order { new.now.first ≤ new.now.end }
        requires within { new.now.end ≤ length self.now.parts.items }
        requires neighbours { AreNeighbours 1
            (with_parts (spans_of self.now.parts.items) new.now.first new.now.end (spans_of new.now.parts.items)) leaf_end }
        requires faces { BeginFaces (with_parts (spans_of self.now.parts.items) new.now.first new.now.end (spans_of new.now.parts.items)) }
        ensures stay { IfOk result (λ begins. begins ≡ None
            → starts_of (with_parts (spans_of self.now.parts.items) new.now.first new.now.end (spans_of new.now.parts.items))
            ≡ self.now.begins.starts.items) }
        ensures made { IfOkSome result (λ begins. begins.starts.items
            ≡ starts_of (with_parts (spans_of self.now.parts.items) new.now.first new.now.end (spans_of new.now.parts.items))) }
    {
        let begins = &self.begins;
        if begin_at(&new.parts, &begins.starts[new.first..new.end]) {
            return Ok(None);
        }
        let starts = starts_with(alloc, &begins.starts, new.first, new.end, &new.parts)?;
        Ok(Some(PartBegins::new(alloc, starts)?))
    }

    /// A copy of the table, which shares its parts and its heavy pairs, and has room for a few parts more. O(p) for p parts, since each
    /// counts its sharers. `OutOfMemory` if a growth is refused, or what the copy shares is shared too often.
    pub fn copied(&self, alloc: Global) -> Result<FacedTable, OutOfMemory>
        ensures { IfOk result (λ table. ⟦<FacedTable as RangeTable>⟧.pairs table ≡ ⟦<FacedTable as RangeTable>⟧.pairs self.now) }
    {
        let parts = shared_parts(alloc, &self.parts)?;
        let offsets = copy_of(alloc, &self.offsets)?;
        let begins = self.begins.copied(alloc)?;
        let heavy = self.heavy.clone()?;
        Ok(FacedTable {
            parts,
            offsets,
            begins,
            count: self.count,
            heavy,
        })
    }

    // The table of these parts and heavy pairs. O(p) for p parts. `OutOfMemory` if a growth is refused.
    fn from_parts(
        alloc: Global,
        parts: Vec<Part>,
        heavy: [HeavyPairs; FACES],
    ) -> Result<FacedTable, OutOfMemory>
        requires layout { IsLayout (spans_of parts.items) heavy (heavy_places_of parts.items) }
        requires faces { BeginFaces (spans_of parts.items) }
        ensures parts { IfOk result (λ table. spans_of table.parts.items ≡ spans_of parts.items) }
        ensures heavy { IfOk result (λ table. table.heavy ≡ heavy) }
    {
        let starts = begins_of(alloc, &parts)?;
        let begins = PartBegins::new(alloc, starts)?;
        let mut offsets = uncounted(alloc, parts.len())?;
        let layout = Layout {
            parts: &parts,
            heavy: &heavy,
        };
        let count = layout.count_from(0, parts.len(), &mut offsets);
        Ok(FacedTable {
            parts,
            offsets,
            begins,
            count,
            heavy,
        })
    }

    // The parts of a face.
    pub(crate) fn parts_on(&self, face: usize) -> &[Part]
        requires { face < 6 }
        ensures neighbours { AreNeighbours (face_begin face) (spans_of result.now) (face_begin (face + 1)) }
        ensures pairs { held_in (spans_of result.now) ≡ held_on face (held_in (spans_of self.now.parts.items)) }
        ensures slice { spans_of result.now ≡ parts_of_face (spans_of self.now.parts.items) self.now.begins.faces face }
        ensures heavy_places { heavy_places_of result.now ≡ of_face (heavy_places_of self.now.parts.items) self.now.begins.faces face }
    {
        let faces = &self.begins.faces;
        &self.parts[faces[face]..faces[face + 1]]
    }

    // How many parts there are.
    pub(crate) fn part_count(&self) -> usize
        ensures { result ≡ length (spans_of self.now.parts.items) }
    {
        self.parts.len()
    }

    // The leaf number at which a part's span ends.
    #[inline]
    fn end_of_part(&self, part: usize) -> u64
        requires { part < length (spans_of self.now.parts.items) }
        ensures { result ≡ (table_of (spans_of self.now.parts.items) part).to }
    {
        let starts = &self.begins.starts;
        if part < starts.len() - 1 {
            starts[part + 1]
        } else {
            LEAF_END
        }
    }

    // The table of a part.
    #[inline]
    pub(crate) fn span(&self, part: usize) -> &SpanTable
        requires { part < length (spans_of self.now.parts.items) }
        ensures { result.now ≡ table_of (spans_of self.now.parts.items) part }
    {
        self.parts[part].table()
    }

    // The part that has a leaf, and the place in that part's table of the range that has it. O(log n): a search among the parts of the
    // leaf's block, then one in the part.
    #[inline]
    fn own_found(&self, leaf: CellId) -> (usize, usize)
        ensures range { HasRange (spans_of self.now.parts.items) result.0 result.1 }
        ensures found { IsFound
            (ranges_of self.now.parts.items self.now.heavy)
            (place_on self.now.offsets.items result.0 result.1)
            (raw_of leaf) }
    {
        let part = self.part_with(leaf);
        (part, self.found_in(part, leaf))
    }

    // The part that has a range, and the range's place in that part's table. O(log p).
    #[inline]
    fn own_place(&self, k: usize) -> (usize, usize)
        requires { k < self.now.count }
        ensures range { HasRange (spans_of self.now.parts.items) result.0 result.1 }
        ensures own { HasOwn self.now.offsets.items self.now.count result.0 result.1 }
        ensures place { place_on self.now.offsets.items result.0 result.1 ≡ k }
    {
        let size = self.offsets.len();
        let part = last_by(&self.offsets, k as u64, Window { first: 0, size });
        (part, k - self.offsets[part].place)
    }

    // The place of a range in the table of a part, if it is one of its ranges and neither the first, which may begin before the part, nor
    // the last, which may end after it: one test tells.
    #[inline]
    fn own_near(&self, k: usize, near: usize) -> Option<usize>
        ensures next { IfSome result (λ own. HasRange (spans_of self.now.parts.items) near (own + 1)) }
        ensures later { IfSome result (λ own. 0 < own) }
        ensures place { IfSome result (λ own. place_on self.now.offsets.items near own ≡ k) }
    {
        if near >= self.parts.len() {
            return None;
        }
        let past = k.wrapping_sub(self.offsets[near].place + 1);
        if past < self.span(near).range_count().saturating_sub(2) {
            Some(past + 1)
        } else {
            None
        }
    }

    // The leaves of a range, by its part and its place in that part's table.
    #[inline]
    fn row_at(&self, part: usize, own: usize) -> RangeRow
        requires { HasOwn self.now.offsets.items self.now.count part own }
        ensures start { result.start
            ≡ (range_at (ranges_of self.now.parts.items self.now.heavy) (place_on self.now.offsets.items part own)).start }
        ensures limit { result.limit
            ≡ (range_at (ranges_of self.now.parts.items self.now.heavy) (place_on self.now.offsets.items part own)).limit }
    {
        let row = self.span(part).range(own);
        let start = if own == 0 {
            self.offsets[part].start
        } else {
            row.start
        };
        RangeRow {
            start,
            limit: row.limit,
        }
    }

    // The leaves of a range that is neither the first nor the last one of its part: both bounds are loads of starts.
    #[inline]
    fn inner_row_at(&self, part: usize, own: usize) -> RangeRow
        requires next { HasRange (spans_of self.now.parts.items) part (own + 1) }
        requires later { 0 < own }
        ensures start { result.start
            ≡ (range_at (ranges_of self.now.parts.items self.now.heavy) (place_on self.now.offsets.items part own)).start }
        ensures limit { result.limit
            ≡ (range_at (ranges_of self.now.parts.items self.now.heavy) (place_on self.now.offsets.items part own)).limit }
    {
        let span = self.span(part);
        RangeRow {
            start: span.start(own),
            limit: span.start(own + 1),
        }
    }

    // The place of a range's innermost pair, by the range's part and its place in that part's table.
    #[inline]
    pub(crate) fn first_at(&self, part: usize, own: usize) -> Option<FacedPlace>
        requires { HasRange (spans_of self.now.parts.items) part own }
        ensures { LeadsTo (faced_chain (spans_of self.now.parts.items) self.now.heavy)
            result
            (range_at (ranges_of self.now.parts.items self.now.heavy) (place_on self.now.offsets.items part own)).contents }
    {
        match self.span(part).first(own) {
            Some(node) => Some(FacedPlace::Light(PartPlace { part, node })),
            None => self.over(part),
        }
    }

    // The light pair at a place, with its count.
    #[inline]
    fn light_at(&self, place: PartPlace) -> Held
        requires { IsPlace (faced_chain (spans_of self.now.parts.items) self.now.heavy) (Light place) }
        ensures { faced_chain (spans_of self.now.parts.items) self.now.heavy (Light place)
            ≡ result ∷ drop 1 (faced_chain (spans_of self.now.parts.items) self.now.heavy (Light place)) }
    {
        self.span(place.part).held_at(place.node)
    }

    // The heavy pair at a place, with its count.
    #[inline]
    fn heavy_at(&self, place: FaceHeavyPlace) -> Held
        requires { IsPlace (faced_chain (spans_of self.now.parts.items) self.now.heavy) (Heavy place) }
        ensures { faced_chain (spans_of self.now.parts.items) self.now.heavy (Heavy place)
            ≡ result ∷ drop 1 (faced_chain (spans_of self.now.parts.items) self.now.heavy (Heavy place)) }
    {
        self.heavy[place.face].held_at(place.place)
    }

    // The place of the next pair outwards of a light one.
    #[inline]
    fn outer_of(&self, place: PartPlace) -> Option<FacedPlace>
        requires { IsPlace (faced_chain (spans_of self.now.parts.items) self.now.heavy) (Light place) }
        ensures { LeadsTo (faced_chain (spans_of self.now.parts.items) self.now.heavy)
            result
            (drop 1 (faced_chain (spans_of self.now.parts.items) self.now.heavy (Light place))) }
    {
        let part = place.part;
        match self.span(part).outer(place.node) {
            Some(node) => Some(FacedPlace::Light(PartPlace { part, node })),
            None => self.over(part),
        }
    }

    // The place of the next pair outwards of a heavy one.
    #[inline]
    fn outer_of_heavy(&self, place: FaceHeavyPlace) -> Option<FacedPlace>
        requires { IsPlace (faced_chain (spans_of self.now.parts.items) self.now.heavy) (Heavy place) }
        ensures { LeadsTo (faced_chain (spans_of self.now.parts.items) self.now.heavy)
            result
            (drop 1 (faced_chain (spans_of self.now.parts.items) self.now.heavy (Heavy place))) }
    {
        let face = place.face;
        match self.heavy[face].outer(place.place) {
            Some(place) => Some(FacedPlace::Heavy(FaceHeavyPlace { face, place })),
            None => None,
        }
    }

    // The place of the innermost heavy pair over a part.
    #[inline]
    pub(crate) fn over(&self, part: usize) -> Option<FacedPlace>
        requires { part < length (spans_of self.now.parts.items) }
        ensures { LeadsTo (faced_chain (spans_of self.now.parts.items) self.now.heavy)
            result
            (contents_at (table_of (spans_of self.now.parts.items) part).from (heavy_in self.now.heavy)) }
    {
        match FaceHeavyPlace::there(self.parts[part].heavy_place(), self.begins.starts[part]) {
            Some(place) => Some(FacedPlace::Heavy(place)),
            None => None,
        }
    }

    // The leaves of a range, the place of its innermost pair and its bookmark, if no part is at hand. What reads by bookmarks comes here seldom.
    #[cold]
    #[inline(never)]
    fn read_far(&self, k: usize) -> (RangeRow, Option<FacedPlace>, Bookmark)
        requires { k < length (ranges_of self.now.parts.items self.now.heavy) }
        ensures start { result.0.start ≡ (range_at (ranges_of self.now.parts.items self.now.heavy) k).start }
        ensures limit { result.0.limit ≡ (range_at (ranges_of self.now.parts.items self.now.heavy) k).limit }
        ensures first { LeadsTo (faced_chain (spans_of self.now.parts.items) self.now.heavy)
            result.1
            (range_at (ranges_of self.now.parts.items self.now.heavy) k).contents }
    {
        let (part, range) = self.own_place(k);
        let row = self.row_at(part, range);
        (row, self.first_at(part, range), Bookmark { part, range })
    }
}
