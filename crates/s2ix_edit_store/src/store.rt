ghost use Rattle.std.specs.Prelude.{◌≡◌, ◌≢◌, ◌↔◌, ◌+◌, ◌-◌, ◌<◌, ◌≤◌, true, false, [], ◌∷◌, length, reverse, take, None, IfOk, IfErr, IsErr, OnOk, OnErr, All, map};
ghost use Rattle.s2id_union.specs.Region.{HaveSameRegion, IsNormal};
ghost use Rattle.s2ix_bag_lists.specs.Apply.{apply_refusal, first_mismatch};
ghost use Rattle.s2ix_bag_pairs.specs.declared.pair.Pair.{Pair};
ghost use Rattle.s2ix_bag_pairs.specs.Change.{changed, counts_at, difference_of};
ghost use Rattle.s2ix_bag_pairs.specs.Collection.{IsBag, copies_in, count_in};
ghost use Rattle.s2ix_bag_pairs.specs.Limits.{changes_limit, count_limit, pairs_limit};
ghost use Rattle.s2ix_bag_pairs.specs.OfLabel.{held_of};
ghost use Rattle.s2ix_bag_pairs.specs.Pair.{rank_of};
ghost use Rattle.s2ix_edit_plan.specs.Errors.{IsEditRefusal};
ghost use Rattle.s2ix_edit_plan.specs.Edit.{edited};
ghost use Rattle.s2ix_edit_plan.specs.History.{alone, cursor_alone, one_back, one_on, with_next};
ghost use Rattle.s2ix_edit_plan.specs.Plan.{entries_refusal};
ghost use Rattle.s2ix_edit_plan.specs.Refusals.{asks_no_copies, asks_too_fine, edit_refusal, goes_below_zero, has_count_above, lacks_change, lacks_label, reverts, takes_too_many};
ghost use Rattle.s2ix_edit_plan.specs.Removals.{IsRemoveRefusal, removal_change, removal_refusal, without_rows};
ghost use Rattle.s2ix_edit_plan.specs.Rows.{copies_at, rows_change, rows_refusal, with_rows};
ghost use Rattle.s2ix_edit_plan.specs.Region.{cells_of, region_of as region_in};
ghost use Rattle.s2ix_edit_plan.specs.State.{State, change_of, history_of, starting_at};
ghost use Rattle.s2ix_bag.specs.Replay.{first_refusal, way_back, with_numbers};
ghost use Rattle.s2ix_edit_store.specs.Given.{IsHistoryError, after_apply, apply_size, given_refusal, history_refusal, led_by, record_refusal, with_changes};
ghost use Rattle.s2ix_edit_store.specs.HeldLabels.{held_labels, name_of};
ghost use Rattle.s2ix_edit_store.specs.OneChange.{IsRecordRefusal, change_refusal};
ghost use Rattle.s2ix_edit_store.specs.Recorded.{IsRecorded};
ghost use Rattle.s2ix_edit_store.specs.Shortened.{with_joined, with_newest};
ghost use Rattle.s2ix_edit_store.specs.Steps.{after_edit, after_forget, after_forget_older, after_join, after_record, after_redo, after_removal, after_rows, after_undo, joined_last, redo_size, undo_size, with_held};
ghost use Rattle.s2ix_edit_store.specs.Store.{CanGoBack, CanGoOn, HasRoom, IsStore};
ghost use Rattle.s2ix_table_walk.specs.LabelList.{label_list};
ghost use Rattle.s2ix_table_walk.specs.Table.{IsRangeTable};

use crate::given::{append_reserved, replace_from, test_history, test_recordable};
use crate::held_labels::{HeldLabel, held_labels_of};
use crate::history_error::HistoryError;
use crate::join_error::JoinError;
use crate::joining::{first_size, joined_change};
use crate::record_error::RecordError;
use crate::shared_table::SharedTable;
use crate::steps::{
    apply_planned, apply_recorded, keep_newest, make_room, rebuild_for, shift_last,
};
use s2id_core::OutOfMemory;
use s2id_union::CellUnion;
use s2ix_bag::replay;
use s2ix_bag_changes::{Bag, Change};
use s2ix_bag_pairs::{Held, Label, Limits};
use s2ix_edit_plan::{
    Edit, EditError, RedoError, RemoveError, UndoError, plan, plan_removals, plan_rows, region_of,
};
use s2ix_table_kept::{KeptTable, changed_face_count};
use std::alloc::Global;
use std::marker::Model;

/// A collection with its history and its range table. Contracts see a store as its bag, the changes that were done and undone, and how
/// many faces its last step rebuilt. The table is always the bag's.
#[derive(Debug, Drop)]
pub struct Store<T: KeptTable> {
    alloc: Global,
    bag: Bag,
    table: SharedTable<T>,
    done: Vec<Change>,
    undone: Vec<Change>,
    faces_rebuilt: u8,
}

impl<T: KeptTable> Model for Store<T> {
    ghost use Rattle.std.specs.Prelude.{◌≡◌};
    ghost use Rattle.s2ix_edit_plan.specs.State.{State};
    ghost use Rattle.s2ix_edit_store.specs.Store.{IsStore};

    ghost Value = { State };

    ghost view = { λ s. record {
      bag = s.bag;
      done = s.done.items;
      undone = s.undone.items;
      faces_rebuilt = s.faces_rebuilt;
    } };

    ghost invariant = { λ s.
        IsStore (record { bag = s.bag; done = s.done.items; undone = s.undone.items; faces_rebuilt = s.faces_rebuilt })
        × (s.table ≡ s.bag.held) };
}

impl<T: KeptTable> Store<T> {
    /// A store of the empty collection, with nothing to undo or redo. `OutOfMemory` if a growth of its table is refused. O(1).
    pub fn new(alloc: Global, limits: Limits) -> Result<Store<T>, OutOfMemory>
        ensures state { IfOk result (λ store.
            store ≡ starting_at (record { limits = limits; held = [] })) }
        ensures history { IfOk result (λ store. history_of store ≡ alone []) }
    {
        Store::from_bag(alloc, Bag::empty(alloc, limits))
    }

    /// A store that starts from its bag, with the bag's limits and nothing to undo or redo. `OutOfMemory` if a growth of its table is refused;
    /// then the bag is dropped. It costs what the table's `build` does: a `FacedTable` of n pairs takes O(n), or O(n log n) if cells are heavy.
    pub fn from_bag(alloc: Global, bag: Bag) -> Result<Store<T>, OutOfMemory>
        ensures state { IfOk result (λ store. store ≡ starting_at bag) }
        ensures history { IfOk result (λ store. history_of store ≡ alone bag.held) }
    {
        let table = SharedTable::build(alloc, &bag)?;
        Ok(Store::starting(alloc, bag, table))
    }

    /// A store that goes on from a history: it starts from its bag, with the bag's limits, and `changes`, the oldest first, can be undone as if
    /// it had done them. The last of them led to the bag. Nothing can be redone. So a store comes back from its bag and what
    /// [`done`](Store::done) gives. [`HistoryError`] says when the changes are refused: they are tested from the last on, as
    /// [`rewind`](s2ix_bag::rewind) does. `OutOfMemory` if a growth is refused; it comes in place of no refusal but that of a change before the
    /// last. After a refusal bag and changes are dropped. O(n + m log n) for n pairs and m entries in all changes, besides what the table takes,
    /// as for [`from_bag`](Store::from_bag). This project's own.
    pub fn with_history(
        alloc: Global,
        bag: Bag,
        changes: Vec<Change>,
    ) -> Result<Store<T>, HistoryError>
        ensures state { IfOk result (λ store. store ≡ led_by bag changes.items) }
        ensures accepted { OnOk result (history_refusal bag changes.items ≡ None) }
        ensures refused { IfErr result (λ error. IsHistoryError error (history_refusal bag changes.items)) }
        ensures recordable { result ≡ Err HistoryError.OutOfMemory → record_refusal (changes_limit bag.limits) changes.items ≡ None }
        ensures last { result ≡ Err HistoryError.OutOfMemory
            → first_refusal bag (take 1 (way_back (with_numbers changes.items))) ≡ None }
    {
        test_history(alloc, &bag, changes.as_slice())?;
        let table = SharedTable::build(alloc, &bag)?;
        Ok(Store {
            alloc,
            bag,
            table,
            done: changes,
            undone: Vec::new(alloc),
            faces_rebuilt: 0,
        })
    }

    // The store of a bag and its table, with nothing to undo or redo.
    fn starting(alloc: Global, bag: Bag, table: SharedTable<T>) -> Store<T>
        requires { table ≡ bag.held }
        ensures { result ≡ starting_at bag }
    {
        Store {
            alloc,
            bag,
            table,
            done: Vec::new(alloc),
            undone: Vec::new(alloc),
            faces_rebuilt: 0,
        }
    }

    /// A store that starts from this one's collection, with the same limits and nothing to undo or redo. The two share pairs and table, and each
    /// is edited by itself, on any thread. It does not allocate. O(1). The first of the two to take a step then makes a table of its own by
    /// [`KeptTable::rebuilt`], and leaves the shared one to the other store. A `FacedTable` of p parts takes O(p) more for that than for a change
    /// in place, since the two tables share the parts that stay. `OutOfMemory` if pairs or table are shared too often.
    pub fn copied(&self) -> Result<Store<T>, OutOfMemory>
        ensures state { IfOk result (λ store. store ≡ starting_at self.now.bag) }
        ensures history { IfOk result (λ store. history_of store ≡ alone self.now.bag.held) }
    {
        let bag = self.bag.copied(self.alloc)?;
        let table = self.table.copied()?;
        Ok(Store::starting(self.alloc, bag, table))
    }

    /// Carries an edit out, and returns how many pairs changed their counts. An accepted edit records the change at the end of `done` and empties
    /// `undone`; a refused one changes nothing. [`EditError`] says when each refusal is due. If the journal has room, an `Add` or a `Remove` of
    /// no copies, or an `AddUnion` of no cells, is `NoChange` and does not allocate. It costs what [`plan`] does, the freeing of the undone
    /// changes, what [`Bag::applied`] takes to make the new bag, and what the table takes to follow the change by [`KeptTable::rebuild`]: a
    /// `FacedTable` makes anew only the parts and the chunks that cells of the entries touch. Besides the plan, the new bag, its table and the
    /// slot in `done` want memory.
    pub fn edit(&mut self, edit: &Edit) -> Result<usize, EditError>
        ensures state { OnOk result (self.new ≡ after_edit self.old edit.now) }
        ensures history { OnOk result (history_of self.new
            ≡ with_next (history_of self.old) (edited (history_of self.old) edit.now)) }
        ensures number { IfOk result (λ n. n ≡ length (change_of self.old edit.now)) }
        ensures records { OnOk result ((pair : Pair)
            → counts_at (change_of self.old edit.now) (rank_of pair)
            ≡ difference_of (count_in self.old.bag.held pair) (count_in self.new.bag.held pair)) }
        ensures accepted { OnOk result (edit_refusal self.old edit.now ≡ None) }
        ensures refused { IfErr result (λ error.
            IsEditRefusal error (edit_refusal self.old edit.now)) }
        ensures unchanged { OnErr result (self.new ≡ self.old) }

        // Each refusal by itself. These six come exactly if they are due.
        ensures full { (result ≡ Err EditError.JournalFull)
            ↔ (length self.old.done ≡ changes_limit self.old.bag.limits) }
        ensures no_such_label { (result ≡ Err EditError.NoSuchLabel)
            ↔ (HasRoom self.old × (lacks_label edit.now self.old.bag.held ≡ true)) }
        ensures not_held { (result ≡ Err EditError.NotHeld)
            ↔ (HasRoom self.old × (takes_too_many edit.now self.old.bag.held ≡ true)) }
        ensures too_fine { (result ≡ Err EditError.TooFine)
            ↔ (HasRoom self.old × (lacks_label edit.now self.old.bag.held ≡ false)
            × (asks_too_fine edit.now self.old.bag.held ≡ true)) }
        ensures no_such_change { (result ≡ Err EditError.NoSuchChange)
            ↔ (HasRoom self.old × (lacks_change self.old.done edit.now ≡ true)) }
        ensures below_zero { (result ≡ Err EditError.BelowZero)
            ↔ (HasRoom self.old × (goes_below_zero self.old.done edit.now self.old.bag.held ≡ true)) }

        // These three come only if they are due; `OutOfMemory` may come in their place.
        ensures no_change { result ≡ Err EditError.NoChange
            → edited (history_of self.old) edit.now ≡ self.old.bag.held }
        ensures too_many_copies { result ≡ Err EditError.TooManyCopies
            → has_count_above (count_limit self.old.bag.limits) (edited (history_of self.old) edit.now) ≡ true }
        ensures too_many_pairs { result ≡ Err EditError.TooManyPairs
            → pairs_limit self.old.bag.limits < length (edited (history_of self.old) edit.now) }

        // An edit of no copies never gives `OutOfMemory`, and a `Revert` gives it only if no other refusal is due.
        ensures nothing { asks_no_copies edit.now ≡ true
            → HasRoom self.old
            → result ≡ Err EditError.NoChange }
        ensures reverting { reverts edit.now ≡ true
            → result ≡ Err EditError.OutOfMemory
            → edit_refusal self.old edit.now ≡ None }
    {
        if self.done.len() >= self.bag.limits().changes() as usize {
            return Err(EditError::JournalFull);
        }
        let change = plan(self.alloc, &self.bag, self.done.as_slice(), edit)?;
        self.record_change(change)
    }

    /// Adds the copies of each row to the count of the row's pair, as one change, and returns how many pairs gained copies. Rows come in
    /// any order, and the copies of a pair that comes more than once are added up. The change is recorded as that of an edit is: it can be
    /// undone, done again and reverted. A refusal changes nothing. The rows are judged as one, and the first refusal that is due is
    /// returned: `JournalFull`, then `NoChange` if no row has copies, then `TooManyCopies`, then `TooManyPairs`. `OutOfMemory` may replace
    /// the last two; there is no other refusal. For m rows it costs O(m log m) more than an edit of m entries does. This
    /// project's own.
    pub fn add_all(&mut self, rows: &[Held]) -> Result<usize, EditError>
        ensures state { OnOk result (self.new ≡ after_rows self.old rows.now) }
        ensures history { OnOk result (history_of self.new
            ≡ with_next (history_of self.old) (with_rows rows.now self.old.bag.held)) }
        ensures counts { OnOk result ((pair : Pair)
            → count_in self.new.bag.held pair ≡ count_in self.old.bag.held pair + copies_at rows.now (rank_of pair)) }
        ensures number { IfOk result (λ n. n ≡ length (rows_change self.old.bag.held rows.now)) }
        ensures accepted { OnOk result (rows_refusal self.old rows.now ≡ None) }
        ensures refused { IfErr result (λ error. IsEditRefusal error (rows_refusal self.old rows.now)) }
        ensures full { (result ≡ Err EditError.JournalFull)
            ↔ (length self.old.done ≡ changes_limit self.old.bag.limits) }
        ensures no_change { (result ≡ Err EditError.NoChange)
            ↔ (HasRoom self.old × (copies_in rows.now ≡ 0)) }
        ensures unchanged { OnErr result (self.new ≡ self.old) }
    {
        let changes_limit = self.bag.limits().changes() as usize;
        if self.done.len() >= changes_limit {
            Err(EditError::JournalFull)
        } else {
            let gains = plan_rows(self.alloc, &self.bag, rows)?;
            self.record_change(gains)
        }
    }

    /// Takes the copies of each row from the count of the row's pair, as one change, and returns how many pairs lost copies. Rows come in
    /// any order, and the copies of a pair that comes more than once are added up. The change is recorded as that of an edit is: it can be
    /// undone, done again and reverted. A refusal changes nothing. [`RemoveError`] says when each refusal is due: all rows are removed or
    /// none, and no limit is ever passed. For m rows it costs O(m log m) more than an edit of m entries does, and O(log m) times that if a
    /// row is `NotHeld`. This project's own.
    pub fn remove_all(&mut self, rows: &[Held]) -> Result<usize, RemoveError>
        ensures state { OnOk result (self.new ≡ after_removal self.old rows.now) }
        ensures history { OnOk result (history_of self.new
            ≡ with_next (history_of self.old) (without_rows rows.now self.old.bag.held)) }
        ensures counts { OnOk result ((pair : Pair)
            → count_in self.old.bag.held pair ≡ count_in self.new.bag.held pair + copies_at rows.now (rank_of pair)) }
        ensures number { IfOk result (λ n. n ≡ length (removal_change self.old.bag.held rows.now)) }
        ensures accepted { OnOk result (removal_refusal self.old rows.now ≡ None) }
        ensures refused { IfErr result (λ error. IsRemoveRefusal error (removal_refusal self.old rows.now)) }
        ensures unchanged { OnErr result (self.new ≡ self.old) }
    {
        let changes_limit = self.bag.limits().changes() as usize;
        if self.done.len() >= changes_limit {
            return Err(RemoveError::JournalFull);
        }
        let losses = plan_removals(self.alloc, &self.bag, rows)?;
        let bag = apply_recorded(self.alloc, &self.bag, &losses)?;
        Ok(self.go_to(bag, losses)?)
    }

    /// Does a change that is given, and returns how many pairs it has. It is recorded as that of an edit is, and empties `undone`. So a change
    /// between two bags, or one that another store did, becomes one step. A refusal changes nothing, and the change is dropped.
    /// [`RecordError`] says when each refusal is due; `OutOfMemory` comes in place of no other. It costs what an edit with this change does
    /// beside its plan. This project's own.
    pub fn record(&mut self, change: Change) -> Result<usize, RecordError>
        ensures state { OnOk result (self.new ≡ after_record self.old change) }
        ensures history { OnOk result (history_of self.new
            ≡ with_next (history_of self.old) (changed self.old.bag.held change)) }
        ensures number { IfOk result (λ n. n ≡ length change) }
        ensures accepted { OnOk result (change_refusal self.old change ≡ None) }
        ensures refused { IfErr result (λ error. IsRecordRefusal error (change_refusal self.old change)) }
        ensures unchanged { OnErr result (self.new ≡ self.old) }
    {
        let changes_limit = self.bag.limits().changes() as usize;
        if self.done.len() >= changes_limit {
            return Err(RecordError::JournalFull);
        }
        if change.entries().is_empty() {
            return Err(RecordError::NoChange);
        }
        let next = self.bag.applied(self.alloc, &change)?;
        Ok(self.go_to(next, change)?)
    }

    // Carries planned entries out, whatever edit they come from.
    fn record_change(&mut self, change: Change) -> Result<usize, EditError>
        requires room { HasRoom self.old }
        requires matches { first_mismatch self.old.bag change ≡ None }
        ensures state { OnOk result (self.new ≡ after_record self.old change) }
        ensures number { IfOk result (λ n. n ≡ length change) }
        ensures accepted { OnOk result (entries_refusal self.old.bag change ≡ None) }
        ensures refused { IfErr result (λ error.
            IsEditRefusal error (entries_refusal self.old.bag change)) }
        ensures memory { result ≡ Err EditError.OutOfMemory → entries_refusal self.old.bag change ≡ None }
        ensures unchanged { OnErr result (self.new ≡ self.old) }
    {
        let bag = apply_planned(self.alloc, &self.bag, &change)?;
        Ok(self.go_to(bag, change)?)
    }

    // Goes on to the bag that a change makes, and records the change. It can fail only for want of memory.
    fn go_to(&mut self, bag: Bag, change: Change) -> Result<usize, OutOfMemory>
        requires room { HasRoom self.old }
        requires some { 0 < length change }
        requires fits { apply_refusal self.old.bag change ≡ None }
        requires made { bag ≡ with_held self.old.bag (changed self.old.bag.held change) }
        requires within { IsBag bag }
        ensures state { OnOk result (self.new ≡ after_record self.old change) }
        ensures number { IfOk result (λ n. n ≡ length change) }
        ensures unchanged { OnErr result (self.new ≡ self.old) }
    {
        let number = change.entries().len();
        let faces = changed_face_count(&change);
        make_room(&mut self.done, 1)?;
        rebuild_for(self.alloc, &mut self.table, &bag, &change)?;
        self.done.push_reserved(change);
        self.undone.clear();
        self.bag = bag;
        self.faces_rebuilt = faces;
        Ok(number)
    }

    /// Takes the last change back, and returns how many pairs it had. The change goes to the end of `undone`. `NothingToUndo` is tested
    /// first; then `OutOfMemory` if a growth is refused. It costs what an edit with
    /// this change does beside its plan.
    pub fn undo(&mut self) -> Result<usize, UndoError>
        ensures state { OnOk result (self.new ≡ after_undo self.old) }
        ensures history { OnOk result (history_of self.new ≡ one_back (history_of self.old)) }
        ensures number { IfOk result (λ n. n ≡ undo_size self.old) }
        ensures restores { OnOk result ((s : State) (edit : Edit)
            → IsStore s
            → self.old ≡ after_edit s edit
            → (self.new.bag ≡ s.bag) × (self.new.done ≡ s.done)
            × (self.new.undone ≡ change_of s edit ∷ [])) }
        ensures nothing { (result ≡ Err UndoError.NothingToUndo) ↔ (self.old.done ≡ []) }
        ensures unchanged { OnErr result (self.new ≡ self.old) }
    {
        let Some(last) = self.done.last() else {
            return Err(UndoError::NothingToUndo);
        };
        let faces = changed_face_count(last);
        let inverse = last.inverse(self.alloc)?;
        let bag = apply_recorded(self.alloc, &self.bag, &inverse)?;
        make_room(&mut self.undone, 1)?;
        rebuild_for(self.alloc, &mut self.table, &bag, &inverse)?;
        let number = shift_last(&mut self.done, &mut self.undone);
        self.bag = bag;
        self.faces_rebuilt = faces;
        Ok(number)
    }

    /// Does the last undone change again, and returns how many pairs it has. The change goes back to the end of `done`. `NothingToRedo` is
    /// tested first; then `OutOfMemory` if a growth is refused. It never finds the journal full, since an undo keeps the room of its
    /// change. It costs what `undo` does.
    pub fn redo(&mut self) -> Result<usize, RedoError>
        ensures state { OnOk result (self.new ≡ after_redo self.old) }
        ensures history { OnOk result (history_of self.new ≡ one_on (history_of self.old)) }
        ensures number { IfOk result (λ n. n ≡ redo_size self.old) }
        ensures restores { OnOk result ((s : State)
            → IsStore s
            → s.done ≢ []
            → self.old ≡ after_undo s
            → (self.new.bag ≡ s.bag) × (self.new.done ≡ s.done) × (self.new.undone ≡ s.undone)) }
        ensures nothing { (result ≡ Err RedoError.NothingToRedo) ↔ (self.old.undone ≡ []) }
        ensures unchanged { OnErr result (self.new ≡ self.old) }
    {
        let Some(last) = self.undone.last() else {
            return Err(RedoError::NothingToRedo);
        };
        let faces = changed_face_count(last);
        let bag = apply_recorded(self.alloc, &self.bag, last)?;
        make_room(&mut self.done, 1)?;
        rebuild_for(self.alloc, &mut self.table, &bag, last)?;
        let number = shift_last(&mut self.undone, &mut self.done);
        self.bag = bag;
        self.faces_rebuilt = faces;
        Ok(number)
    }

    /// Makes one change of the newest ones that can be undone, `last` of them. One undo then takes them back together. Its entries are the
    /// pairs whose counts differ between the collection before them and now; if none differ, the changes are gone. Returns how many pairs
    /// differ. With `last` 0 or 1 nothing changes, and it does not allocate. Collection and table stay, and so does what can be redone.
    /// `TooFewChanges` is tested first; then `OutOfMemory` if a growth is refused. O(m log k) for m entries in k changes: it reads no pair of
    /// the collection. This project's own.
    pub fn join(&mut self, last: usize) -> Result<usize, JoinError>
        ensures state { OnOk result (self.new ≡ after_join self.old last) }
        ensures history { OnOk result (history_of self.new ≡ with_joined last (history_of self.old)) }
        ensures number { IfOk result (λ n. n ≡ length (joined_last self.old last)) }
        ensures too_few { (result ≡ Err JoinError.TooFewChanges) ↔ (length self.old.done < last) }
        ensures nothing { last ≤ 1 → result ≢ Err JoinError.OutOfMemory }
        ensures same { last ≤ 1 → self.new ≡ self.old }
        ensures unchanged { OnErr result (self.new ≡ self.old) }
    {
        let number = self.done.len();
        if number < last {
            return Err(JoinError::TooFewChanges);
        }
        if last < 2 {
            return Ok(first_size(&self.done[number - last..]));
        }
        let change = joined_change(self.alloc, &self.done[number - last..])?;
        let pairs = change.entries().len();
        replace_from(&mut self.done, number - last, change);
        Ok(pairs)
    }

    /// Does changes in their order, as [`replay`](s2ix_bag::replay) does: what another store did, from an equal bag on. Each can be undone by
    /// itself, and what could be redone is gone. Returns how many pairs have another count than before. If there are no changes, nothing happens.
    /// [`HistoryError`] says when they are refused; then nothing changes, and they are dropped. `OutOfMemory` if a growth is refused; it comes in
    /// place of no refusal but that of a change after the first. It costs about what [`record`](Store::record) does for one change with the
    /// entries of all of them, since the table follows them as one change. This project's own.
    pub fn apply(&mut self, changes: Vec<Change>) -> Result<usize, HistoryError>
        ensures state { OnOk result (self.new ≡ after_apply self.old changes.items) }
        ensures history { OnOk result (history_of self.new ≡ with_changes changes.items (history_of self.old)) }
        ensures number { IfOk result (λ n. n ≡ apply_size self.old changes.items) }
        ensures accepted { OnOk result (given_refusal self.old changes.items ≡ None) }
        ensures refused { IfErr result (λ error. IsHistoryError error (given_refusal self.old changes.items)) }
        ensures recordable { result ≡ Err HistoryError.OutOfMemory
            → record_refusal (changes_limit self.old.bag.limits - length self.old.done) changes.items ≡ None }
        ensures first { result ≡ Err HistoryError.OutOfMemory
            → first_refusal self.old.bag (take 1 (with_numbers changes.items)) ≡ None }
        ensures nothing { changes.items ≡ [] → result ≢ Err HistoryError.OutOfMemory }
        ensures unchanged { OnErr result (self.new ≡ self.old) }
    {
        if changes.is_empty() {
            return Ok(0);
        }
        let room = self.bag.limits().changes() as usize - self.done.len();
        test_recordable(changes.as_slice(), room)?;
        let bag = replay(self.alloc, &self.bag, changes.as_slice())?;
        let whole = joined_change(self.alloc, changes.as_slice())?;
        make_room(&mut self.done, changes.len())?;
        rebuild_for(self.alloc, &mut self.table, &bag, &whole)?;
        append_reserved(&mut self.done, changes);
        self.undone.clear();
        self.bag = bag;
        self.faces_rebuilt = changed_face_count(&whole);
        Ok(whole.entries().len())
    }

    /// Keeps the collection and drops all changes: nothing is left to undo or redo. It does not allocate. O(k) for the k changes that are
    /// dropped.
    pub fn forget(&mut self)
        ensures state { self.new ≡ after_forget self.old }
        ensures history { history_of self.new ≡ cursor_alone (history_of self.old) }
    {
        self.done.clear();
        self.undone.clear();
    }

    /// Keeps the newest of the changes that can be undone, at most so many of them, and drops those before them: so a full journal gets room
    /// and undo still takes the last steps back. The collection stays, and so does what can be redone. If no more changes can be undone than
    /// are kept, nothing is dropped. With `newest` 0 nothing is left to undo. It does not allocate. O(k) for the k changes that can be
    /// undone. This project's own.
    pub fn forget_older(&mut self, newest: usize)
        ensures state { self.new ≡ after_forget_older self.old newest }
        ensures history { history_of self.new ≡ with_newest newest (history_of self.old) }
    {
        keep_newest(&mut self.done, newest);
    }

    /// The collection that the store has come to.
    pub fn bag(&self) -> &Bag
        ensures bag { result.now ≡ self.now.bag }
        ensures within { IsBag result.now }
    {
        &self.bag
    }

    /// The range table of the store's collection: what queries read.
    pub fn table(&self) -> &T
        ensures pairs { T.pairs result.now ≡ self.now.bag.held }
        ensures table { IsRangeTable self.now.bag.held (T.ranges result.now) }
    {
        self.table.table()
    }

    /// On how many faces, 0 to 6, the last accepted edit, list of rows, undo, redo, `record` or `apply` changed pairs. The table makes anew
    /// only what the change touches on each of them. The number is 0 before the first step, and a refused step leaves it as it was. O(1).
    pub fn faces_rebuilt(&self) -> u8
        ensures { result ≡ self.now.faces_rebuilt }
    {
        self.faces_rebuilt
    }

    /// The region of a label: the normal union of the cells that are held with it, which is empty if none is. `OutOfMemory` if a growth is
    /// refused. O(m log m) for m pairs with the label, besides what [`Bag::of_label`] takes to find them.
    pub fn region(&self, label: Label) -> Result<CellUnion, OutOfMemory>
        ensures region { IfOk result (λ union.
            HaveSameRegion union (cells_of label self.now.bag.held)) }
        ensures form { IfOk result (λ union. union ≡ region_in label self.now.bag.held) }
        ensures normal { IfOk result IsNormal }
    {
        region_of(self.alloc, &self.bag, label)
    }

    /// The labels of the held pairs, rising, each once: with how many pairs have it, and the sum of their counts. `OutOfMemory` if a growth
    /// is refused; none is asked for if no pair is held. O(n log n) for n pairs. This project's own.
    pub fn held_labels(&self) -> Result<Vec<HeldLabel>, OutOfMemory>
        ensures labels { IfOk result (λ list. map name_of list.items ≡ label_list self.now.bag.held) }
        ensures pairs { IfOk result (λ list.
            All (λ total. total.pairs ≡ length (held_of total.label self.now.bag.held)) list.items) }
        ensures copies { IfOk result (λ list.
            All (λ total. total.copies ≡ copies_in (held_of total.label self.now.bag.held)) list.items) }
        ensures list { IfOk result (λ list. list.items ≡ held_labels self.now.bag.held) }
        ensures within_limit { IfOk result (λ list. All (λ total. total.pairs ≤ pairs_limit self.now.bag.limits) list.items) }
        ensures memory { IsErr result → self.now.bag.held ≢ [] }
    {
        held_labels_of(self.alloc, &self.bag)
    }

    /// The changes that can be undone, the oldest first. They lead to the store's collection: from the last on, each can
    /// be taken back.
    pub fn done(&self) -> &[Change]
        ensures done { result.now ≡ self.now.done }
        ensures led { CanGoBack self.now.bag (reverse result.now) }
        ensures store { IsStore self.now }
        ensures within { All (IsRecorded self.now.bag.limits) result.now }
        ensures within_limit { length result.now ≤ changes_limit self.now.bag.limits }
    {
        self.done.as_slice()
    }

    /// The changes that can be redone. The one that was undone last is the last of them, and is redone first; they lead on from the store's
    /// collection.
    pub fn undone(&self) -> &[Change]
        ensures undone { result.now ≡ self.now.undone }
        ensures led { CanGoOn self.now.bag (reverse result.now) }
        ensures within { All (IsRecorded self.now.bag.limits) result.now }
        ensures within_limit { length result.now ≤ changes_limit self.now.bag.limits }
    {
        self.undone.as_slice()
    }
}
