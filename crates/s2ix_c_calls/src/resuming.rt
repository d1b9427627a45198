//! Stores that go on from a dump and a journal, and a journal's changes done by a store.

ghost use Rattle.std.specs.Prelude.{◌≡◌, IfErr, IfOk, OnErr};
ghost use Rattle.s2ix_c_calls.specs.Resuming.{Applies, IsApplyError, IsResumeError, Resumes};

use crate::replaying::LedError;
use s2ix_bag_pairs::Limits;
use s2ix_edit::Store;
use s2ix_text::{read_dump, read_journal};
use std::alloc::Global;

/// The store that stands at a dump's collection and can undo a journal's changes, the last of which led there; or what is refused first in
/// the two texts. The dump is read first, then the journal, and then the changes are tested from the last on.
pub fn texts_resumed(
    alloc: Global,
    dump: &[u8],
    journal: &[u8],
    limits: Limits,
) -> Result<Store, LedError>
    ensures store { IfOk result (Resumes limits dump.now journal.now) }
    ensures refused { IfErr result (IsResumeError limits dump.now journal.now) }
{
    let bag = read_dump(alloc, dump, limits)?;
    let changes = read_journal(alloc, journal, limits)?;
    Ok(Store::with_history(alloc, bag, changes)?)
}

/// Does a journal's changes on a store, each a change of its own, and returns how many pairs have another count than before; or tells what
/// is refused first, and the store is as it was. The journal is read first, under the store's limits.
pub fn apply_text(alloc: Global, store: &mut Store, journal: &[u8]) -> Result<usize, LedError>
    ensures applied { IfOk result (λ number. Applies journal.now number store.old store.new) }
    ensures refused { IfErr result (IsApplyError store.old journal.now) }
    ensures unchanged { OnErr result (store.new ≡ store.old) }
{
    let limits = store.bag().limits();
    let changes = read_journal(alloc, journal, limits)?;
    match store.apply(changes) {
        Ok(number) => Ok(number),
        Err(error) => Err(LedError::History(error)),
    }
}
