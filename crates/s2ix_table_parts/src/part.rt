//! One part of a table, and lists of parts.
ghost use Rattle.std.specs.Prelude.{◌≡◌, ◌<◌, ◌+◌, ◌++◌, IfOk, OnOk, length, replicate};
ghost use Rattle.s2ix_table_parts.specs.FaceSpans.{heavy_places_of, spans_of, starts_of, table_of, tables_of};

use s2id_core::OutOfMemory;
use s2ix_table_heavy::HeavyPlace;
use s2ix_table_spans::SpanTable;
use std::alloc::{AllocError, Global};
use std::marker::Model;
use std::sync::Arc;

/// A part of a face: a table over some of its leaves, which copies share, and the place of the innermost heavy pair over them. Contracts see
/// what the table shows, and that place.
#[derive(Debug, Drop)]
pub struct Part {
    table: Arc<SpanTable>,
    heavy_place: Option<HeavyPlace>,
}

impl Model for Part {
    ghost use Rattle.s2ix_table_parts.specs.FaceSpans.{TablePart};

    ghost Value = { TablePart };

    ghost view = { λ part. record { table = part.table.value; heavy_place = part.heavy_place } };
}

impl Part {
    /// The part's table. O(1).
    #[inline]
    pub fn table(&self) -> &SpanTable
        ensures { result.now ≡ self.now.table }
    {
        &self.table
    }

    /// The place of the innermost heavy pair over the part, or `None` if there is none. The chain over each of its leaves goes on there. O(1).
    #[inline]
    pub fn heavy_place(&self) -> Option<HeavyPlace>
        ensures { result ≡ self.now.heavy_place }
    {
        self.heavy_place
    }

    // A part with the same table, shared once more, and another place of the innermost heavy pair over it. O(1).
    pub(crate) fn with_heavy_place(
        &self,
        heavy_place: Option<HeavyPlace>,
    ) -> Result<Part, AllocError>
        ensures table { IfOk result (λ part. part.table ≡ self.now.table) }
        ensures heavy_place { IfOk result (λ part. part.heavy_place ≡ heavy_place) }
    {
        let table = self.table.clone()?;
        Ok(Part { table, heavy_place })
    }

    // Its table, shared once more. O(1).
    pub(crate) fn shared_table(&self) -> Result<Arc<SpanTable>, AllocError>
        ensures { IfOk result (λ table. table.value ≡ self.now.table) }
    {
        let table = self.table.clone()?;
        Ok(table)
    }
}

/// The same part: its table is shared once more. O(1).
impl Clone for Part {
    ghost is_clone = { λ part copy. copy ≡ part };

    fn clone(&self) -> Result<Part, AllocError> {
        let table = self.table.clone()?;
        Ok(Part {
            table,
            heavy_place: self.heavy_place,
        })
    }
}

// Puts parts of these tables, each shared once more, behind others. They all have the same place of the innermost heavy pair over them. O(p)
// for p tables.
pub(crate) fn share_under(
    parts: &mut Vec<Part>,
    tables: &[Arc<SpanTable>],
    heavy_place: Option<HeavyPlace>,
) -> Result<(), AllocError>
    ensures tables { OnOk result (spans_of parts.new.items ≡ spans_of parts.old.items ++ tables_of tables.now) }
    ensures heavy_places { OnOk result (heavy_places_of parts.new.items ≡ heavy_places_of parts.old.items ++ replicate (length (tables_of tables.now)) heavy_place) }
{
    for table in tables {
        let table = table.clone()?;
        parts.push(Part { table, heavy_place })?;
    }
    Ok(())
}

/// The leaf number at which each part's span begins. O(p) for p parts. `OutOfMemory` if a growth is refused.
pub fn begins_of(alloc: Global, parts: &[Part]) -> Result<Vec<u64>, OutOfMemory>
    ensures { IfOk result (λ begins. begins.items ≡ starts_of (spans_of parts.now)) }
{
    let mut begins = Vec::with_capacity(alloc, parts.len())?;
    for part in parts {
        begins.push(part.table().from())?;
    }
    Ok(begins)
}

// Where a part ends, of parts of which the last one ends at `to`.
pub(crate) fn end_of(parts: &[Part], part: usize, to: u64) -> u64
    requires { part < length parts.now }
    ensures next { part + 1 < length (spans_of parts.now) → result ≡ (table_of (spans_of parts.now) (part + 1)).from }
    ensures last { part + 1 ≡ length (spans_of parts.now) → result ≡ to }
{
    if part + 1 < parts.len() {
        parts[part + 1].table().from()
    } else {
        to
    }
}
