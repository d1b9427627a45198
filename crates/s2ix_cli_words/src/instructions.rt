//! The instructions of a script, a row each.

/// Calls `row_macro` with what else it is given, and then a row for each instruction: its name in `Word`, its word, its fields with spaces
/// up to one column, and what it does. The help of `run` lists the rows, and `s2ix_cli_script` finds a line's word among them. The rows have
/// the order of `words` (`specs/Meaning.antt` of `s2ix_cli_script`).
#[macro_export]
macro_rules! each_instruction {
    ($row_macro:ident $($given:tt)*) => {
        $row_macro! {
            $($given)*
            Add       "add" " TOKEN LABEL [COPIES]     " "Adds copies of a pair, 1 if COPIES is left out",
            Remove    "remove" " TOKEN LABEL [COPIES]  " "Takes copies of a pair away, 1 if COPIES is left out",
            AddUnion  "addunion" " LABEL TOKEN..       " "Adds a copy for each cell of the normal union of the cells",
            Drop      "drop" " LABEL                   " "Takes the label's pairs away",
            Relabel   "relabel" " SOURCE TARGET        " "Moves each count of one label to the other",
            Grow      "grow" " LABEL LEVEL             " "Adds a copy for each cell of the level next to the label's cells",
            Normal    "normal" " LABEL                 " "Makes the label's pairs the fewest cells with the same leaves",
            Revert    "revert" " NUMBER                " "Takes one change back, and keeps those that followed it",
            Undo      "undo" "                         " "Takes the last change back",
            Redo      "redo" "                         " "Does the last undone change again",
            Forget    "forget" "                       " "Drops the history: nothing can be undone or redone",
            At        "at" " TOKEN                     " "Prints the pairs over a leaf",
            Meet      "meet" " TOKEN..                 " "Prints the pairs that share a leaf with the cells",
            Labels    "labels" " TOKEN..               " "Prints the labels of these pairs",
            Ranges    "ranges" "                       " "Prints each range of leaves that have the same pairs",
            Region    "region" " LABEL                 " "Prints the normal union of the label's cells",
            Common    "common" " A B                   " "Prints the cells of the leaves that the labels A and B both have",
            Only      "only" " A B                     " "Prints the cells of the leaves that label A has and label B hasn't",
            Path      "path" " TOKEN                   " "Prints the face and the child positions of the cell",
            Neighbors "neighbors" " TOKEN              " "Prints the four neighbors over the cell's sides",
            Face      "face" " TOKEN                   " "Prints the square of the cell on its face",
            Dump      "dump" "                         " "Prints the dump of the collection",
            Journal   "journal" "                      " "Prints the journal of the changes that can be undone",
            Export    "export" "                       " "Prints the collection as JSON",
        }
    };
}
