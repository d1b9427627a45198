//! Laws: functions that do nothing; their contracts state facts about definitions.
ghost use Rattle.std.specs.Prelude.{◌+◌, ◌*◌};
ghost use Rattle.s2ix_table_spans.specs.SpanTable.{IsSpanTable};

use crate::span_table::SpanTable;

/// The ranges of a span's table are those of its pairs over the span, at most 2 * n + 1 for n pairs. A pair has one place in it: each chain
/// that holds it holds it at a place, and two chains hold it at the same one.
pub fn ranges_are_those_of_the_span(table: &SpanTable)
    ensures { IsSpanTable table.now }
{
    let _ = &table.held;
}
