//! README's six lines as a program: it keeps one labelled cell, asks which pairs meet that cell, and takes the edit back.
#![tactic(auto)]

mod names;

use s2id_core::CellId;
use s2id_union::CellUnion;
use s2ix_bag::{Held, Label, Limits, Pair};
use s2ix_edit::{Edit, Store};
use s2ix_table::RangeTable;
use std::alloc::Global;
use std::process::ExitCode;

// The pairs that meet a cell under which one pair is kept; none if memory is short.
fn six_lines(alloc: Global) -> Option<Vec<Held>> {
    let pair = Pair {
        cell: CellId::from_token(b"04").ok()?,
        label: Label::new(9)?,
    };
    let mut store = Store::new(alloc, Limits::default()).ok()?;
    store.edit(&Edit::Add { pair, copies: 1 }).ok()?;
    let target = CellUnion::normalise(alloc, &[pair.cell]).ok()?;
    let met = store.table().meeting(alloc, &target).ok()?; // the pairs that share a leaf with the target
    store.undo().ok()?;
    Some(met)
}

fn main(rt: HostRuntime) -> ExitCode {
    let Some(met) = six_lines(rt.alloc()) else {
        return ExitCode::FAILURE;
    };
    for held in met.as_slice() {
        let _ = println!(rt;
            "{} {} {}",
            held.pair.cell,
            held.pair.label.get(),
            held.count
        );
    }
    ExitCode::SUCCESS
}
