use s2id_core::CellId;
use s2id_union::CellUnion;
use s2ix_bag_pairs::Label;
use s2ix_edit_plan::Edit;

/// What a line of a script asks for.
#[derive(Clone, Debug, Drop, PartialEq, Eq)]
pub enum Instruction {
    /// `add`, `addunion`, `remove`, `drop`, `relabel`, `grow`, `normal` and `revert`.
    Edit(Edit),
    /// `undo`.
    Undo,
    /// `redo`.
    Redo,
    /// `forget`.
    Forget,
    /// `at`: the pairs over a leaf. The cell may be any; if it is no leaf, it is refused when it is carried out.
    At(CellId),
    /// `meet`: the pairs that meet the normal union of the cells.
    Meet(CellUnion),
    /// `labels`: the labels of these pairs.
    Labels(CellUnion),
    /// `region`: the cells of the label's region.
    Region(Label),
    /// `common`: the cells of what the regions of both labels share.
    Common(Label, Label),
    /// `only`: the cells of the first label's region less the second's.
    Only(Label, Label),
    /// `ranges`.
    Ranges,
    /// `path`.
    Path(CellId),
    /// `neighbors`.
    Neighbors(CellId),
    /// `face`.
    Face(CellId),
    /// `dump`.
    Dump,
    /// `journal`.
    Journal,
    /// `export`.
    Export,
}
