//! What is asked of the cells of a target. They are used as they are if they follow one another and a list on the stack has room for them,
//! else as a union.

ghost use Rattle.std.specs.Prelude.{◌≡◌, ◌⊎◌, ◌≤◌, None, IfSome, List, length};
ghost use Rattle.s2id_core.specs.declared.cell_id.CellId.{CellId};
ghost use Rattle.s2ix_c_calls.specs.Asked.{AreCells, AreFollowing, AreTarget, LacksUnion, NeedUnion};
ghost use Rattle.s2ix_c_calls.specs.Status.{out_of_memory};

use crate::following::write_following;
use crate::unions::normal_of;
use s2id_core::CellId;
use s2ix_edit::Store;
use std::alloc::Global;

// How many cells the lists on the stack have room for. The whole of a list is filled, so a short one does for few cells, and only a call with
// many cells takes 8 KB of its caller's stack.
const SHORT_ROOM: usize = 16;

const ROOM: usize = 128;

const LONG_ROOM: usize = 1024;

/// A question about the cells of a target, whose answer is a list in a buffer of the caller.
pub(crate) trait Question {
    ghost use Rattle.std.specs.Prelude.{ℕ, List};
    ghost use Rattle.s2id_core.specs.declared.cell_id.CellId.{CellId};
    ghost use Rattle.s2id_union.specs.Covers.{FollowOneAnother};
    ghost use Rattle.s2ix_bag_pairs.specs.Collection.{Collection};

    /// An item of the list.
    type Item: Copy;

    // the question is asked of these cells and these pairs, and a status, a number and a buffer answer it
    ghost answers: { Self → List CellId → Collection → ℕ → ℕ → List Self.Item → List Self.Item → Type 0 };

    /// Answers it for these cells.
    fn answer(
        &self,
        alloc: Global,
        store: &Store,
        cells: &[CellId],
        out: &mut [Self::Item],
        number: &mut usize,
    ) -> u32
        requires { FollowOneAnother cells.now }
        ensures { answers self.now cells.now store.now.bag.held result number.new out.old out.new };
}

// Asks a question of the cells of at most `N` numbers, if they follow one another, else answers nothing.
// (not inlined, so that no other call takes so much of the stack)
#[inline(never)]
fn ask_following<const N: usize, Q: Question>(
    question: &Q,
    alloc: Global,
    store: &Store,
    ids: &[u64],
    out: &mut [Q::Item],
    number: &mut usize,
) -> Option<u32>
    requires room { length ids.now ≤ N }
    requires short { N ≤ 1024 }
    ensures answer { IfSome result (λ status. (cells : List CellId)
        × AreCells ids.now cells
        × Q.answers question.now cells store.now.bag.held status number.new out.old out.new) }
    ensures none { result ≡ None → AreFollowing ids.now → ⊥ }
    ensures same { result ≡ None → out.new ≡ out.old }
{
    let mut room = [CellId::at_place(0, 0); N];
    if !write_following(ids, &mut room) {
        return None;
    }
    Some(question.answer(alloc, store, &room[..ids.len()], out, number))
}

// Asks a question of the cells of some numbers, if they follow one another and there is room for them on the stack.
fn ask_as_given<Q: Question>(
    question: &Q,
    alloc: Global,
    store: &Store,
    ids: &[u64],
    out: &mut [Q::Item],
    number: &mut usize,
) -> Option<u32>
    ensures answer { IfSome result (λ status. (cells : List CellId)
        × AreCells ids.now cells
        × Q.answers question.now cells store.now.bag.held status number.new out.old out.new) }
    ensures none { result ≡ None → AreFollowing ids.now → ⊥ }
    ensures same { result ≡ None → out.new ≡ out.old }
{
    if ids.len() <= SHORT_ROOM {
        return ask_following::<SHORT_ROOM, Q>(question, alloc, store, ids, out, number);
    }
    if ids.len() <= ROOM {
        return ask_following::<ROOM, Q>(question, alloc, store, ids, out, number);
    }
    if ids.len() <= LONG_ROOM {
        return ask_following::<LONG_ROOM, Q>(question, alloc, store, ids, out, number);
    }
    None
}

/// Asks a question of the cells of some numbers, or says why there is no union of them: the first number that is no cell's, with its place,
/// counted from 0, in `number`; or want of memory, if each number is a cell's, and they need a union. O(n log n) for n numbers
/// beside the answer, or O(n) if the cells follow one another.
pub(crate) fn ask<Q: Question>(
    question: &Q,
    alloc: Global,
    store: &Store,
    ids: &[u64],
    out: &mut [Q::Item],
    number: &mut usize,
) -> u32
    ensures { ((cells : List CellId)
        × AreTarget ids.now cells
        × Q.answers question.now cells store.now.bag.held result number.new out.old out.new)
        ⊎ (LacksUnion ids.now result number.new × (result ≡ out_of_memory → NeedUnion ids.now) × (out.new ≡ out.old)) }
{
    if let Some(status) = ask_as_given(question, alloc, store, ids, out, number) {
        return status;
    }
    match normal_of(alloc, ids, number) {
        Ok(union) => question.answer(alloc, store, union.cells(), out, number),
        Err(why) => why,
    }
}
