//! The number of leaves of a normal list.

ghost use Rattle.std.specs.Prelude.{◌≡◌, List, length};
ghost use Rattle.s2id_core.specs.Path.{Path};
ghost use Rattle.s2id_union.specs.Region.{IsNormal, IsLeafList};

use s2id_core::CellId;

// How many leaves are in the region. O(n).
pub(crate) fn count_leaves(cells: &[CellId]) -> u64
    requires { IsNormal cells.now }
    ensures { (leaves : List Path) × IsLeafList cells.now leaves × (length leaves ≡ result) }
{
    let mut count = 0;
    for cell in cells {
        let end = cell.span_end();
        let first = cell.span_start();
        count += (end - first) / 2;
    }
    count
}
