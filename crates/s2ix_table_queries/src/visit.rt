use s2ix_table_walk::Cost;

/// What [`visit_counted`](crate::RangeTable::visit_counted) returns.
#[derive(Clone, Copy, Debug, PartialEq, Eq, Hash)]
pub struct Visit {
    /// Whether every call answered true.
    pub whole: bool,
    /// How much it read of the table.
    pub cost: Cost,
}
