//! When two unions are the same.

ghost use Rattle.std.specs.Prelude.{nat_eq};
ghost use Rattle.std.specs.Ordering.{on};
ghost use Rattle.std.specs.Cmp.{nat_eq_equiv, on_equiv, partial_equiv_from_equiv};
ghost use Rattle.std.specs.Cmp.Lexicographic.{lists_equiv, pointwise};
ghost use Rattle.s2id_core.specs.CellId.{raw_of};

use crate::cell_union::CellUnion;

/// Equal if the cells are the same, which is so exactly if the leaves are.
impl PartialEq for CellUnion {
    ghost eq = { pointwise (on raw_of nat_eq) };

    ghost laws = { partial_equiv_from_equiv (lists_equiv (on_equiv raw_of nat_eq_equiv)) };

    fn eq(&self, other: &CellUnion) -> bool {
        self.cells() == other.cells()
    }
}

impl Eq for CellUnion {
    ghost laws = { lists_equiv (on_equiv raw_of nat_eq_equiv) };
}
