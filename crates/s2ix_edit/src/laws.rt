//! Laws: functions that do nothing; their contracts state facts about definitions.
pub use s2ix_edit_store::laws::{
    cloned_errors_are_the_same, cloned_held_labels_are_the_same, counts_are_first_and_standing,
    dropped_labels_change_something, edit_records_differences, edits_read_what_stands,
    equal_errors_are_one, equal_held_labels_are_one, histories_come_back,
    kept_changes_are_not_forgotten, lesser_edits_pass_no_limit, one_change_is_applied,
    one_row_is_a_remove, one_row_is_an_add, recorded_changes_are_within_the_limits,
    revert_leaves_a_change_out, reverts_have_refusals_of_their_own,
    standing_changes_can_be_taken_back, steps_follow_the_history, steps_keep_limits,
    steps_keep_the_first_collection, steps_lead_to_stores, store_stands_in_history,
    stores_follow_each_other, undo_and_redo_lead_back, undo_restores_the_table,
    undo_takes_edit_back, undo_takes_joined_changes_back, undo_takes_removed_rows_back,
    undo_takes_rows_back,
};
