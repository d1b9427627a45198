//! What the fields after a word name.
ghost use Rattle.std.specs.Prelude.{◌≡◌, Ok, Err, MatchResult};
ghost use Rattle.s2id_core.specs.Spelled.{cell_spelled};
ghost use Rattle.s2ix_cli_words.specs.Fields.{label_spelled};
ghost use Rattle.s2ix_cli_script.specs.Named.{cell_named, cell_with, label_named, label_with, labels_named, one_field, pair_named, two_fields};

use crate::line_fault::LineFault;
use s2id_core::CellId;
use s2ix_bag_pairs::{Label, Pair};
use s2ix_cli_words::{Fields, copies_spelled, label_spelled};

// The one field that there is.
pub(crate) fn one_field<'a>(fields: &mut Fields<'a>) -> Result<&'a [u8], LineFault>
    ensures { MatchResult result (λ field. one_field fields.old ≡ Ok field.now) (λ fault. one_field fields.old ≡ Err fault) }
{
    match (fields.next(), fields.next()) {
        (Some(field), None) => Ok(field),
        _ => Err(LineFault::BadArguments),
    }
}

// The two fields that there are.
pub(crate) fn two_fields<'a>(fields: &mut Fields<'a>) -> Result<(&'a [u8], &'a [u8]), LineFault>
    ensures { MatchResult result
        (λ both. two_fields fields.old ≡ Ok (both.0.now, both.1.now))
        (λ fault. two_fields fields.old ≡ Err fault) }
{
    match (fields.next(), fields.next(), fields.next()) {
        (Some(first), Some(second), None) => Ok((first, second)),
        _ => Err(LineFault::BadArguments),
    }
}

// The cell that a field names.
pub(crate) fn cell_from_field(field: &[u8]) -> Result<CellId, LineFault>
    ensures { result ≡ cell_with (cell_spelled field.now) }
{
    Ok(CellId::from_token(field)?)
}

// The label that a field names.
pub(crate) fn label_from_field(field: &[u8]) -> Result<Label, LineFault>
    ensures { result ≡ label_with (label_spelled field.now) }
{
    label_spelled(field).ok_or(LineFault::BadLabel)
}

/// The cell that the one field TOKEN names.
///
/// Errors, the first that applies: `BadArguments` for another number of fields, `BadToken`.
pub fn cell_named(fields: &mut Fields<'_>) -> Result<CellId, LineFault>
    ensures { result ≡ cell_named fields.old }
{
    cell_from_field(one_field(fields)?)
}

/// The label that the one field LABEL names.
///
/// Errors, the first that applies: `BadArguments` for another number of fields, `BadLabel`.
pub fn label_named(fields: &mut Fields<'_>) -> Result<Label, LineFault>
    ensures { result ≡ label_named fields.old }
{
    label_from_field(one_field(fields)?)
}

/// The labels that the two fields LABEL LABEL name.
///
/// Errors, the first that applies: `BadArguments` for another number of fields, `BadLabel`.
pub fn labels_named(fields: &mut Fields<'_>) -> Result<(Label, Label), LineFault>
    ensures { result ≡ labels_named fields.old }
{
    let (first, second) = two_fields(fields)?;
    Ok((label_from_field(first)?, label_from_field(second)?))
}

/// The pair and the copies that the fields TOKEN LABEL or TOKEN LABEL COPIES name; one copy if none are named.
///
/// Errors, the first that applies: `BadArguments` for another number of fields, `BadToken`, `BadLabel`, `BadCount`.
pub fn pair_named(fields: &mut Fields<'_>) -> Result<(Pair, u32), LineFault>
    ensures { result ≡ pair_named fields.old }
{
    let (Some(token), Some(label)) = (fields.next(), fields.next()) else {
        return Err(LineFault::BadArguments);
    };
    let copies = fields.next();
    if fields.next().is_some() {
        return Err(LineFault::BadArguments);
    }
    let cell = cell_from_field(token)?;
    let label = label_from_field(label)?;
    let copies = match copies {
        None => 1,
        Some(copies) => copies_spelled(copies).ok_or(LineFault::BadCount)?,
    };
    Ok((Pair { cell, label }, copies))
}
