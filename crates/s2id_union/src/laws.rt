//! Laws: functions that do nothing; their contracts state facts about definitions.

ghost use Rattle.std.specs.Prelude.{◌≡◌, ◌↔◌, ℕ, ◌+◌, ◌≤◌, ◌&&◌, nat_le, nat_lt, Bool, IsTrue, List, length};
ghost use Rattle.s2id_core.specs.declared.cell_id.CellId.{CellId};
ghost use Rattle.s2id_core.specs.Leaves.{IsLeafPath};
ghost use Rattle.s2id_core.specs.Path.{Path, number_of};
ghost use Rattle.s2id_union.specs.declared.error.RangeError.{RangeError};
ghost use Rattle.s2id_union.specs.NormalForm.{normal_form, cells_where};
ghost use Rattle.s2id_union.specs.Range.{IsLeafRange};
ghost use Rattle.s2id_union.specs.Region.{InRegion, IsNormal, HaveSameRegion};

use crate::cell_union::CellUnion;
use crate::error::RangeError;

/// Two normal lists with the same region are equal.
pub fn one_normal_list()
    ensures { (xs ys : List CellId) → IsNormal xs → IsNormal ys → HaveSameRegion xs ys → xs ≡ ys }
{}

/// A normal list is the shortest with its region: no list of cells that has the same leaves is shorter.
pub fn normal_list_is_shortest()
    ensures { (xs ys : List CellId) → IsNormal xs → HaveSameRegion xs ys → length xs ≤ length ys }
{}

/// The normal form of any cells is normal, has their region and is not longer, a normal list is its own normal form, and lists with the
/// same region have the same normal form.
pub fn normal_form_is_normal()
    ensures normal { (cells : List CellId) → IsNormal (normal_form cells) }
    ensures region { (cells : List CellId) → HaveSameRegion (normal_form cells) cells }
    ensures at_most { (cells : List CellId) → length (normal_form cells) ≤ length cells }
    ensures itself { (cells : List CellId) → IsNormal cells → normal_form cells ≡ cells }
    ensures same { (xs ys : List CellId) → HaveSameRegion xs ys → normal_form xs ≡ normal_form ys }
{}

/// The largest cells whose numbers all pass a test are a normal list. It has exactly the leaves whose own number and the next one pass.
pub fn cells_where_is_normal()
    ensures normal { (passes : ℕ → Bool) → IsNormal (cells_where passes) }
    ensures leaves { (passes : ℕ → Bool) (leaf : Path)
        → IsLeafPath leaf
        → InRegion (cells_where passes) leaf
        ↔ (IsTrue (passes (number_of leaf)) × IsTrue (passes (number_of leaf + 1))) }
{}

/// The normal list of a span of leaves has at most 184 cells: three of each level 1 to 30 at either end, and four whole faces between.
pub fn spans_have_few_cells()
    ensures { (start limit : ℕ)
        → IsLeafRange start limit
        → length (cells_where (λ q. nat_le start q && nat_lt q limit)) ≤ 184 }
{}

/// Two unions are equal exactly if they have the same cells, or the same leaves.
pub fn equal_unions_are_one()
    ensures cells { (xs ys : List CellId) → IsTrue (⟦<CellUnion as PartialEq>⟧.eq xs ys) ↔ (xs ≡ ys) }
    ensures leaves { (xs ys : List CellId)
        → IsNormal xs
        → IsNormal ys
        → IsTrue (⟦<CellUnion as PartialEq>⟧.eq xs ys) ↔ HaveSameRegion xs ys }
{}

/// A clone of a union is the same.
pub fn cloned_unions_are_the_same()
    ensures { (a copy : List CellId) → ⟦<CellUnion as Clone>⟧.is_clone a copy ↔ (copy ≡ a) }
{}

/// Two refusals of a span are equal exactly if they are the same.
pub fn equal_range_errors_are_one()
    ensures { (a b : RangeError) → IsTrue (⟦<RangeError as PartialEq>⟧.eq a b) ↔ (a ≡ b) }
{}

/// A clone of a refusal of a span is the same, and cloning never fails.
pub fn cloned_range_errors_are_the_same()
    ensures same { (a copy : RangeError) → ⟦<RangeError as Clone>⟧.is_clone a copy ↔ (copy ≡ a) }
    ensures never_fails { (a : RangeError) → ⟦<RangeError as Clone>⟧.is_infallible a }
{}
