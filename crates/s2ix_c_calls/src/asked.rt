//! What the numbers of a call ask for: cells, labels, pairs and edits, or the status of what is wrong.

ghost use Rattle.std.specs.Prelude.{◌≡◌};
ghost use Rattle.s2ix_c_calls.specs.Asked.{asked_add, asked_drop, asked_grow, asked_normalise, asked_relabel, asked_remove, pair_numbered};

use crate::status::{NO_CELL, NO_LABEL};
use s2ix_bag_pairs::{Label, Pair};
use s2ix_edit_plan::Edit;
use s2ix_table_queries::cell_of;

// The pair of two numbers.
pub(crate) fn pair_of(cell: u64, label: u32) -> Result<Pair, u32>
    ensures { result ≡ pair_numbered cell label }
{
    match (cell_of(cell), Label::new(label)) {
        (Some(cell), Some(label)) => Ok(Pair { cell, label }),
        (Some(_), None) => Err(NO_LABEL),
        (None, _) => Err(NO_CELL),
    }
}

/// The edit that adds copies of the pair of two numbers.
pub fn add_of(cell: u64, label: u32, copies: u32) -> Result<Edit, u32>
    ensures { result ≡ asked_add cell label copies }
{
    match pair_of(cell, label) {
        Ok(pair) => Ok(Edit::Add { pair, copies }),
        Err(why) => Err(why),
    }
}

/// The edit that takes copies of the pair of two numbers.
pub fn remove_of(cell: u64, label: u32, copies: u32) -> Result<Edit, u32>
    ensures { result ≡ asked_remove cell label copies }
{
    match pair_of(cell, label) {
        Ok(pair) => Ok(Edit::Remove { pair, copies }),
        Err(why) => Err(why),
    }
}

/// The edit that takes away a label's pairs.
pub fn drop_of(label: u32) -> Result<Edit, u32>
    ensures { result ≡ asked_drop label }
{
    match Label::new(label) {
        Some(label) => Ok(Edit::DropLabel { label }),
        None => Err(NO_LABEL),
    }
}

/// The edit that moves all copies of one label to another.
pub fn relabel_of(source: u32, target: u32) -> Result<Edit, u32>
    ensures { result ≡ asked_relabel source target }
{
    match (Label::new(source), Label::new(target)) {
        (Some(source), Some(target)) => Ok(Edit::Relabel { source, target }),
        _ => Err(NO_LABEL),
    }
}

/// The edit that grows a label by a level.
pub fn grow_of(label: u32, level: u8) -> Result<Edit, u32>
    ensures { result ≡ asked_grow label level }
{
    match Label::new(label) {
        Some(label) => Ok(Edit::Grow { label, level }),
        None => Err(NO_LABEL),
    }
}

/// The edit that replaces a label's pairs by its region.
pub fn normalise_of(label: u32) -> Result<Edit, u32>
    ensures { result ≡ asked_normalise label }
{
    match Label::new(label) {
        Some(label) => Ok(Edit::Normalise { label }),
        None => Err(NO_LABEL),
    }
}
