ghost use Rattle.std.specs.Prelude.{◌≡◌, IfOk, map, string_bytes};
ghost use Rattle.serde_json.specs.View.{items_view, view};
ghost use Rattle.s2ix_text_write.specs.Export.{export_text};
ghost use Rattle.s2ix_text_write.specs.Values.{export_value, pair_value};

use s2id_core::OutOfMemory;
use s2ix_bag_changes::Bag;
use s2ix_bag_pairs::Held;
use serde_json::{Value, json};
use std::alloc::{AllocError, Global};
use std::str;

// A held pair as a list of its token, its label and its count.
fn pair_list(alloc: Global, held: Held) -> Result<Value, AllocError>
    ensures { IfOk result (λ list. view list ≡ pair_value held) }
{
    let token = held.pair.cell.token();
    match str::from_utf8(token.as_bytes()) {
        Ok(text) => json!(in alloc; [text, held.pair.label.get(), held.count]),
        Err(_) => unreachable!(),
    }
}

// The lists of all held pairs, in rising order of pairs.
fn pair_lists(alloc: Global, bag: &Bag) -> Result<Vec<Value>, AllocError>
    ensures { IfOk result (λ lists. map view lists.items ≡ map pair_value bag.now.held) }
{
    let mut lists = Vec::with_capacity(alloc, bag.len())?;
    for held in bag.iter() {
        lists.push(pair_list(alloc, held)?)?;
    }
    Ok(lists)
}

// The whole object.
fn whole(alloc: Global, pairs: Vec<Value>) -> Result<Value, AllocError>
    ensures { IfOk result (λ whole. view whole ≡ export_value (items_view pairs.items)) }
{
    json!(in alloc; {"pairs": pairs, "version": 1u32})
}

/// The export of a bag: one line of compact JSON, an object with the keys `pairs` and `version` in this order. `pairs` is a list with one
/// list of token, label and count for each held pair, in rising order; `version` is 1. There is no line feed. O(n) time and memory for n
/// pairs, some 200 bytes a pair beside the text; `OutOfMemory` if a growth is refused.
pub fn export(alloc: Global, bag: &Bag) -> Result<String, OutOfMemory>
    ensures { IfOk result (λ text. string_bytes text ≡ export_text bag.now.held) }
{
    let pairs = pair_lists(alloc, bag)?;
    Ok(whole(alloc, pairs)?.to_string(alloc)?)
}
