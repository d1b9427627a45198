ghost use Rattle.std.specs.Prelude.{◌≡◌, IfSome};
ghost use Rattle.s2id_core.specs.CellId.{level_of, raw_of};
ghost use Rattle.s2id_core.specs.Spelled.{cell_numbered};
ghost use Rattle.s2ix_table_queries.specs.Leaf.{leaf_numbered};

use s2id_core::CellId;

/// The cell of a number, or `None` if it is no cell's, as [`CellId::from_raw`] gives it: its contract names that cell. O(1).
#[inline]
pub fn cell_of(number: u64) -> Option<CellId>
    ensures cell { result ≡ cell_numbered number }
    ensures raw { IfSome result (λ cell. raw_of cell ≡ number) }
{
    CellId::from_raw(number)
}

/// The leaf of a number, or `None` if it is no leaf's. O(1).
#[inline]
pub fn leaf_of(number: u64) -> Option<CellId>
    ensures leaf { result ≡ leaf_numbered number }
    ensures level { IfSome result (λ leaf. level_of leaf ≡ 30) }
    ensures raw { IfSome result (λ leaf. raw_of leaf ≡ number) }
{
    // It tests the last digit first: of an odd number the compiler knows most of what `from_raw` tests.
    if number % 2 == 0 {
        return None;
    }
    match cell_of(number) {
        Some(cell) if cell.is_leaf() => Some(cell),
        _ => None,
    }
}
