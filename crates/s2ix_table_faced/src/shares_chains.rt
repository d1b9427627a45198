ghost use Rattle.s2ix_table_spans.specs.Once.{KeepsOnce};

use s2ix_table_queries::RangeTable;

/// A range table in which a pair has one place, so that chains which hold the same pairs outwards share them.
pub trait SharesChains: RangeTable {
    // each chain that holds a pair holds it at a place, and two chains of the table hold it at the same one
    ghost keeps_once: { (table : Self) → KeepsOnce (Self.chain table) };
}
