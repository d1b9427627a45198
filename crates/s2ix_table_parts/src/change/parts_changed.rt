//! The parts of a table after a change: made anew only where it changed something.
ghost use Rattle.std.specs.Prelude.{◌≡◌, ℕ, ◌++◌, ◌<◌, ◌≤◌, ◌+◌, ◌*◌, [], IfOk, OnOk, IsTrue, IsFalse, length, take, drop};
ghost use Rattle.s2ix_bag_lists.specs.Faces.{all_of};
ghost use Rattle.s2ix_bag_lists.specs.View.{lists_in};
ghost use Rattle.s2ix_bag_pairs.specs.Change.{IsChangeList, changed};
ghost use Rattle.s2ix_bag_pairs.specs.Collection.{AreBelow, IsCollection, IsCollectionFrom};
ghost use Rattle.s2ix_table_spans.specs.SpanTable.{IsInSpan, IsSpanTable};
ghost use Rattle.s2ix_table_parts.specs.FaceSpans.{spans_of, table_of, tables_of};
ghost use Rattle.s2ix_table_parts.specs.Neighbours.{AreNeighbours, held_in};
ghost use Rattle.s2ix_table_parts.specs.Made.{IfOkSome};
ghost use Rattle.s2ix_table_parts.specs.Parts.{AreBegins, EntriesEndBy, IsChangedSpan, IsCut, with_parts};

use crate::change::new_parts::NewParts;
use crate::part::{Part, share_under};
use crate::parts::{in_one_list, next_cut, parts_over, seams_before};
use s2id_core::OutOfMemory;
use s2ix_bag_held::FlatHeld;
use s2ix_bag_lists::ListsView;
use s2ix_bag_pairs::Entry;
use s2ix_table_spans::SpanTable;
use std::alloc::Global;
use std::sync::Arc;

/// What a change makes of the neighbouring tables `before`, which together go over the leaves from the number `from` up to `to`. `held` has
/// the pairs after the change, in rising lists, each before the next one. The tables in front of all entries and those behind all entries
/// stay. Between them, a table that no entry's cell touches is shared, and the others are made anew; so is a table into which one of their
/// lists reaches. No clause says which tables stay: only the bench shows it. O(p log b + m + k) for p tables, b bundles of lists, m entries
/// and the k pairs of the tables made anew. `OutOfMemory` if a growth is refused, or a table or a list is shared too often.
pub fn changed_tables(
    alloc: Global,
    before: &[Arc<SpanTable>],
    held: ListsView<'_>,
    entries: &[Entry],
    from: u64,
    to: u64,
) -> Result<NewParts, OutOfMemory>
    requires neighbours { AreNeighbours from (tables_of before.now) to }
    requires made { changed (held_in (tables_of before.now)) entries.now ≡ all_of (lists_in held) }
    requires entries_rise { IsChangeList entries.now }
    requires rises { IsCollection (all_of (lists_in held)) }
    requires within_limit { length (all_of (lists_in held)) ≤ 1000000 }
    requires span { IsInSpan (all_of (lists_in held)) from to }
    ensures order { IfOk result (λ new. new.first ≤ new.end) }
    ensures within { IfOk result (λ new. new.end ≤ length before.now) }
    ensures neighbours { IfOk result (λ new. AreNeighbours from
        (with_parts (tables_of before.now) new.first new.end (tables_of new.parts.items))
        to) }
    ensures pairs { IfOk result (λ new. held_in (with_parts (tables_of before.now) new.first new.end (tables_of new.parts.items))
        ≡ all_of (lists_in held.entry)) }
{
    let mut parts = Vec::with_capacity(alloc, before.len())?;
    share_under(&mut parts, before, None)?;
    changed_parts(alloc, parts.as_slice(), held, entries, from, to)
}

// The same, of parts as a table keeps them, without heavy pairs. O(log p + q + m + k) if q of the p parts lie from the first entry to the last
// one, and O(log b) more for each look at a list, since lists lie in b bundles: at O(log p + q) of them.
pub(crate) fn changed_parts(
    alloc: Global,
    before: &[Part],
    held: ListsView<'_>,
    entries: &[Entry],
    from: u64,
    to: u64,
) -> Result<NewParts, OutOfMemory>
    requires neighbours { AreNeighbours from (spans_of before.now) to }
    requires made { changed (held_in (spans_of before.now)) entries.now ≡ all_of (lists_in held) }
    requires entries_rise { IsChangeList entries.now }
    requires rises { IsCollection (all_of (lists_in held)) }
    requires within_limit { length (all_of (lists_in held)) ≤ 1000000 }
    requires span { IsInSpan (all_of (lists_in held)) from to }
    ensures order { IfOk result (λ new. new.first ≤ new.end) }
    ensures within { IfOk result (λ new. new.end ≤ length before.now) }
    ensures neighbours { IfOk result (λ new. AreNeighbours from
        (with_parts (spans_of before.now) new.first new.end (tables_of new.parts.items))
        to) }
    ensures pairs { IfOk result (λ new. held_in (with_parts (spans_of before.now) new.first new.end (tables_of new.parts.items))
        ≡ all_of (lists_in held.entry)) }
{
    let all_begins = begins_from(alloc, entries)?;
    let whole = Span {
        tables: before,
        lists: held,
        entries,
        from,
        to,
    };
    let front = whole.front_cut(all_begins.as_slice());
    let (count, parts) = whole.after(front).made_anew(alloc, all_begins.as_slice())?;
    Ok(NewParts {
        first: front.tables,
        end: front.tables + count,
        parts,
    })
}

// For each entry the least leaf number at which its cell or that of a later entry begins, and one more number. O(m) for m entries.
fn begins_from(alloc: Global, entries: &[Entry]) -> Result<Vec<u64>, OutOfMemory>
    ensures { IfOk result (λ begins. AreBegins entries.now begins.items) }
{
    let mut begins = Vec::from_elem(alloc, u64::MAX, entries.len() + 1)?;
    let mut least = u64::MAX;
    let mut left = entries.len();
    while left > 0 {
        left -= 1;
        least = least.min(entries[left].pair.cell.span_start());
        begins[left] = least;
    }
    Ok(begins)
}

// The tables over neighbouring spans of leaves, from one number up to another, and the entries with cells there, after which the pairs
// are those of the lists.
#[derive(Clone, Copy)]
struct Span<'a> {
    tables: &'a [Part],
    lists: ListsView<'a>,
    entries: &'a [Entry],
    from: u64,
    to: u64,
}

// A seam, and how many tables, lists and entries are before it. The cells of those entries end by `reach`.
#[derive(Clone, Copy)]
struct Cut {
    tables: usize,
    lists: usize,
    entries: usize,
    seam: u64,
    reach: u64,
}

impl<'a> Span<'a> {
    // Whether there are no entries, so that the tables hold what they held, or no tables.
    fn is_done(self) -> bool
        requires { IsChangedSpan (spans_of self.tables.now) (lists_in self.lists) self.entries.now self.from self.to }
        ensures pairs { IsTrue result → held_in (spans_of self.entry.tables.now) ≡ all_of (lists_in self.entry.lists) }
        ensures some { IsFalse result → 0 < length self.entry.tables.now }
    {
        self.tables.is_empty() || self.entries.is_empty()
    }

    // The tables of the span after the change up to a seam behind all entries, and how many tables they take the place of. Those behind it
    // stay.
    fn made_anew(
        self,
        alloc: Global,
        all_begins: &[u64],
    ) -> Result<(usize, Vec<Arc<SpanTable>>), OutOfMemory>
        requires changed { IsChangedSpan (spans_of self.tables.now) (lists_in self.lists) self.entries.now self.from self.to }
        requires begins { AreBegins self.entries.now all_begins.now }
        ensures within { IfOk result (λ made. made.0 ≤ length self.entry.tables.now) }
        ensures neighbours { IfOk result (λ made. AreNeighbours self.entry.from
            (tables_of made.1.items ++ drop made.0 (spans_of self.entry.tables.now))
            self.entry.to) }
        ensures pairs { IfOk result (λ made. held_in (tables_of made.1.items ++ drop made.0 (spans_of self.entry.tables.now))
            ≡ all_of (lists_in self.entry.lists)) }
    {
        let mut rest = self;
        let mut count = 0;
        let mut parts = Vec::new(alloc);
        let mut begins = all_begins;
        while !rest.is_done() {
            let cut = rest.first_cut(begins);
            rest.before(cut).push_changed(alloc, &mut parts)?;
            count += cut.tables;
            let (_, later) = begins.split_at(cut.entries);
            rest = rest.after(cut);
            begins = later;
        }
        Ok((count, parts))
    }

    // The last cut before all entries, or one before all tables if there is no other. A table mostly has one list, so that the lists before a seam
    // are about as large a share of all lists as the tables before it are of all tables.
    fn front_cut(self, begins: &[u64]) -> Cut
        requires changed { IsChangedSpan (spans_of self.tables.now) (lists_in self.lists) self.entries.now self.from self.to }
        requires begins { AreBegins self.entries.now begins.now }
        ensures entries { result.entries ≡ 0 }
        ensures cut { IsCut (spans_of self.entry.tables.now) (lists_in self.entry.lists) self.entry.entries.now self.entry.from self.entry.to
            result.tables result.lists result.entries result.seam }
    {
        let mut tables = last_by(self.tables, begins[0]);
        while tables > 0 {
            let seam = self.tables[tables].table().from();
            let near = self.lists.len().saturating_mul(tables) / self.tables.len();
            let cut = Cut {
                tables,
                lists: lists_below(self.lists, seam, near),
                entries: 0,
                seam,
                reach: self.from,
            };
            if self.is_clean(cut, begins) {
                return cut;
            }
            tables -= 1;
        }
        Cut {
            tables: 0,
            lists: 0,
            entries: 0,
            seam: self.from,
            reach: self.from,
        }
    }

    // The first cut after a table or more: no entry's cell goes over its seam, and a list ends there.
    fn first_cut(self, begins: &[u64]) -> Cut
        requires some { 0 < length self.tables.now }
        requires changed { IsChangedSpan (spans_of self.tables.now) (lists_in self.lists) self.entries.now self.from self.to }
        requires begins { AreBegins self.entries.now begins.now }
        ensures some { 0 < result.tables }
        ensures cut { IsCut (spans_of self.entry.tables.now) (lists_in self.entry.lists) self.entry.entries.now self.entry.from self.entry.to
            result.tables result.lists result.entries result.seam }
    {
        let mut cut = Cut {
            tables: 0,
            lists: 0,
            entries: 0,
            seam: self.from,
            reach: self.from,
        };
        while cut.tables + 1 < self.tables.len() {
            cut = self.next_seam(cut);
            if self.is_clean(cut, begins) {
                return cut;
            }
        }
        Cut {
            tables: self.tables.len(),
            lists: self.lists.len(),
            entries: self.entries.len(),
            seam: self.to,
            reach: self.to,
        }
    }

    // The seam after one table more, with the entries and the lists whose numbers are below it.
    fn next_seam(self, cut: Cut) -> Cut
        requires some { cut.tables + 1 < length self.tables.now }
        requires changed { IsChangedSpan (spans_of self.tables.now) (lists_in self.lists) self.entries.now self.from self.to }
        requires lists { cut.lists ≤ length (lists_in self.lists) }
        requires entries { cut.entries ≤ length self.entries.now }
        requires reach { EntriesEndBy (take cut.entries self.entries.now) cut.reach }
        ensures tables { result.tables ≡ cut.tables + 1 }
        ensures lists { result.lists ≤ length (lists_in self.entry.lists) }
        ensures entries { result.entries ≤ length self.entry.entries.now }
        ensures seam { result.seam ≡ (table_of (spans_of self.entry.tables.now) result.tables).from }
        ensures reach { EntriesEndBy (take result.entries self.entry.entries.now) result.reach }
    {
        let tables = cut.tables + 1;
        let seam = self.tables[tables].table().from();
        let mut entries = cut.entries;
        let mut reach = cut.reach;
        while entries < self.entries.len() && self.entries[entries].pair.cell.raw() < seam {
            reach = reach.max(self.entries[entries].pair.cell.span_end());
            entries += 1;
        }
        let lists = lists_up_to(self.lists, cut.lists, seam);
        Cut {
            tables,
            lists,
            entries,
            seam,
            reach,
        }
    }

    // Whether no entry's cell goes over a seam, and the lists before it hold all pairs before it.
    fn is_clean(self, cut: Cut, begins: &[u64]) -> bool
        requires changed { IsChangedSpan (spans_of self.tables.now) (lists_in self.lists) self.entries.now self.from self.to }
        requires begins { AreBegins self.entries.now begins.now }
        requires tables { cut.tables < length self.tables.now }
        requires lists { cut.lists ≤ length (lists_in self.lists) }
        requires entries { cut.entries ≤ length self.entries.now }
        requires seam { cut.seam ≡ (table_of (spans_of self.tables.now) cut.tables).from }
        requires reach { EntriesEndBy (take cut.entries self.entries.now) cut.reach }
        ensures { IsTrue result → IsCut (spans_of self.entry.tables.now) (lists_in self.entry.lists) self.entry.entries.now
            self.entry.from self.entry.to cut.tables cut.lists cut.entries cut.seam }
    {
        if cut.seam < cut.reach || begins[cut.entries] < cut.seam {
            return false;
        }
        are_below(self.lists, cut.lists, cut.seam) && are_from(self.lists, cut.lists, cut.seam)
    }

    // What lies before a cut.
    fn before(self, cut: Cut) -> Span<'a>
        requires tables { cut.tables ≤ length self.tables.now }
        requires lists { cut.lists ≤ length (lists_in self.lists) }
        requires entries { cut.entries ≤ length self.entries.now }
        ensures tables { result.tables.now ≡ take cut.tables self.entry.tables.now }
        ensures lists { (lists_in result.lists) ≡ take cut.lists (lists_in self.entry.lists) }
        ensures entries { result.entries.now ≡ take cut.entries self.entry.entries.now }
        ensures from { result.from ≡ self.entry.from }
        ensures to { result.to ≡ cut.seam }
    {
        let (tables, _) = self.tables.split_at(cut.tables);
        let (lists, _) = self.lists.split_at(cut.lists);
        let (entries, _) = self.entries.split_at(cut.entries);
        Span {
            tables,
            lists,
            entries,
            from: self.from,
            to: cut.seam,
        }
    }

    // What lies after a cut.
    fn after(self, cut: Cut) -> Span<'a>
        requires tables { cut.tables ≤ length self.tables.now }
        requires lists { cut.lists ≤ length (lists_in self.lists) }
        requires entries { cut.entries ≤ length self.entries.now }
        ensures tables { result.tables.now ≡ drop cut.tables self.entry.tables.now }
        ensures lists { (lists_in result.lists) ≡ drop cut.lists (lists_in self.entry.lists) }
        ensures entries { result.entries.now ≡ drop cut.entries self.entry.entries.now }
        ensures from { result.from ≡ cut.seam }
        ensures to { result.to ≡ self.entry.to }
    {
        let (_, tables) = self.tables.split_at(cut.tables);
        let (_, lists) = self.lists.split_at(cut.lists);
        let (_, entries) = self.entries.split_at(cut.entries);
        Span {
            tables,
            lists,
            entries,
            from: cut.seam,
            to: self.to,
        }
    }

    // Appends the tables of the span after the change.
    fn push_changed(self, alloc: Global, parts: &mut Vec<Arc<SpanTable>>) -> Result<(), OutOfMemory>
        requires some { 0 < length self.tables.now }
        requires changed { IsChangedSpan (spans_of self.tables.now) (lists_in self.lists) self.entries.now self.from self.to }
        ensures neighbours { OnOk result ((first : ℕ) → AreNeighbours first (tables_of parts.old.items) self.entry.from
            → AreNeighbours first (tables_of parts.new.items) self.entry.to) }
        ensures pairs { OnOk result (held_in (tables_of parts.new.items)
            ≡ held_in (tables_of parts.old.items) ++ all_of (lists_in self.entry.lists)) }
    {
        if let Some(part) = self.one_part(alloc)? {
            parts.push(part)?;
            return Ok(());
        }
        let mut made = parts_over(alloc, self.lists, self.from, self.to)?;
        parts.append(&mut made)?;
        Ok(())
    }

    // The table of the span after the change, if the span has one table and keeps one. If there is no entry, this table is shared.
    fn one_part(self, alloc: Global) -> Result<Option<Arc<SpanTable>>, OutOfMemory>
        requires { IsChangedSpan (spans_of self.tables.now) (lists_in self.lists) self.entries.now self.from self.to }
        ensures pairs { IfOkSome result (λ own. own.value.held ≡ all_of (lists_in self.entry.lists)) }
        ensures begins { IfOkSome result (λ own. own.value.from ≡ self.entry.from) }
        ensures ends { IfOkSome result (λ own. own.value.to ≡ self.entry.to) }
        ensures table { IfOkSome result (λ own. IsSpanTable own.value) }
    {
        if self.tables.len() != 1 {
            return Ok(None);
        }
        if self.entries.is_empty() {
            let shared = self.tables[0].shared_table()?;
            return Ok(Some(shared));
        }
        if !self.stays_whole(alloc)? {
            return Ok(None);
        }
        let list = in_one_list(alloc, self.lists)?;
        let table = self.tables[0].table().after(alloc, list)?;
        let shared = Arc::new(alloc, table)?;
        Ok(Some(shared))
    }

    // Whether the span can't be cut between its lists. O(k) for k pairs.
    fn stays_whole(self, alloc: Global) -> Result<bool, OutOfMemory>
        requires { IsInSpan (all_of (lists_in self.lists)) self.from self.to }
    {
        if self.lists.len() < 2 {
            return Ok(true);
        }
        let seams = seams_before(alloc, self.lists, self.to)?;
        Ok(next_cut(self.lists, seams.as_slice(), self.from, self.to) == self.lists.len())
    }
}

// The number of the last part that begins by a leaf number, or 0 if only the first one may. O(log p) for p parts.
pub(crate) fn last_by(parts: &[Part], leaf: u64) -> usize
    ensures { 0 < result → result < length parts.now }
{
    let mut low = 0;
    let mut high = parts.len();
    while low < high {
        let middle = low + (high - low) / 2;
        if parts[middle].table().from() <= leaf {
            low = middle + 1;
        } else {
            high = middle;
        }
    }
    low.saturating_sub(1)
}

// How many lists have only cells with numbers below a seam. It looks first at the place `near`, and then farther and farther away: at O(log d)
// lists, if the answer is d lists away from there, each found among b bundles in O(log b). Any place is accepted.
fn lists_below(lists: ListsView<'_>, seam: u64, near: usize) -> usize
    ensures { result ≤ length (lists_in lists.entry) }
{
    let (mut low, mut high) = around(lists, seam, near);
    while low < high {
        let middle = low + (high - low) / 2;
        if is_below(lists.at(middle).as_slice(), seam) {
            low = middle + 1;
        } else {
            high = middle;
        }
    }
    low
}

// Two numbers of lists between which `lists_below` is.
fn around(lists: ListsView<'_>, seam: u64, near: usize) -> (usize, usize)
    ensures order { result.0 ≤ result.1 }
    ensures within { result.1 ≤ length (lists_in lists.entry) }
{
    if near < lists.len() && is_below(lists.at(near).as_slice(), seam) {
        ahead_of(lists, seam, near + 1)
    } else {
        behind_of(lists, seam, near.min(lists.len()))
    }
}

// The same, if it is at least `low`.
fn ahead_of(lists: ListsView<'_>, seam: u64, low: usize) -> (usize, usize)
    requires { low ≤ length (lists_in lists) }
    ensures order { result.0 ≤ result.1 }
    ensures within { result.1 ≤ length (lists_in lists.entry) }
{
    let mut first = low;
    let mut step = 1;
    while step <= lists.len() - first {
        let last = first + step - 1;
        if !is_below(lists.at(last).as_slice(), seam) {
            return (first, last);
        }
        first = last + 1;
        step *= 2;
    }
    (first, lists.len())
}

// The same, if it is at most `high`.
fn behind_of(lists: ListsView<'_>, seam: u64, high: usize) -> (usize, usize)
    requires within { high ≤ length (lists_in lists) }
    requires within_limit { high ≤ 1000000 }
    ensures order { result.0 ≤ result.1 }
    ensures within { result.1 ≤ length (lists_in lists.entry) }
{
    let mut end = high;
    let mut step = 1;
    while step <= end {
        let last = end - step;
        if is_below(lists.at(last).as_slice(), seam) {
            return (last + 1, end);
        }
        end = last;
        step *= 2;
    }
    (0, end)
}

// The place of the first list, from a place on, that has a cell with a number from a seam on.
fn lists_up_to(lists: ListsView<'_>, from: usize, seam: u64) -> usize
    requires { from ≤ length (lists_in lists) }
    ensures { result ≤ length (lists_in lists.entry) }
{
    let mut place = from;
    while place < lists.len() && is_below(lists.at(place).as_slice(), seam) {
        place += 1;
    }
    place
}

// Whether the numbers of all cells of a list are below a seam.
fn is_below(list: &[FlatHeld], seam: u64) -> bool
    ensures { IsTrue result → IsCollection list.now → AreBelow (seam * 2147483648) list.now }
{
    match list.last() {
        Some(last) => last.cell().raw() < seam,
        None => true,
    }
}

// Whether a list has pairs, and the numbers of all cells are from a seam on.
fn is_from(list: &[FlatHeld], seam: u64) -> bool
    ensures some { IsTrue result → 0 < length list.now }
    ensures from { IsTrue result → IsCollection list.now → IsCollectionFrom (seam * 2147483648) list.now }
{
    match list.first() {
        Some(first) => first.cell().raw() >= seam,
        None => false,
    }
}

// Whether the numbers of all cells in the lists before a place are below a seam.
fn are_below(lists: ListsView<'_>, place: usize, seam: u64) -> bool
    requires within { place ≤ length (lists_in lists) }
    requires rises { IsCollection (all_of (lists_in lists)) }
    ensures { IsTrue result → AreBelow (seam * 2147483648) (all_of (take place (lists_in lists.entry))) }
{
    if place == 0 {
        return true;
    }
    let last = lists.at(place - 1).as_slice();
    !last.is_empty() && is_below(last, seam)
}

// Whether the numbers of all cells in the lists from a place on are from a seam on.
fn are_from(lists: ListsView<'_>, place: usize, seam: u64) -> bool
    requires within { place ≤ length (lists_in lists) }
    requires rises { IsCollection (all_of (lists_in lists)) }
    ensures { IsTrue result → IsCollectionFrom (seam * 2147483648) (all_of (drop place (lists_in lists.entry))) }
{
    place == lists.len() || is_from(lists.at(place).as_slice(), seam)
}
