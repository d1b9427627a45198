//! The edits that fields name, but for that of a union of cells.
ghost use Rattle.std.specs.Prelude.{◌≡◌};
ghost use Rattle.s2ix_cli_script.specs.Named.{add_named, drop_named, grow_named, normal_named, relabel_named, remove_named, revert_named};

use crate::fields::{
    label_from_field, label_named, labels_named, one_field, pair_named, two_fields,
};
use crate::line_fault::LineFault;
use s2ix_cli_words::{Fields, change_number_spelled, level_spelled};
use s2ix_edit_plan::Edit;

// The edit of `add`, whose pair and copies the fields TOKEN LABEL or TOKEN LABEL COPIES name.
pub(crate) fn add_named(fields: &mut Fields<'_>) -> Result<Edit, LineFault>
    ensures { result ≡ add_named fields.old }
{
    let (pair, copies) = pair_named(fields)?;
    Ok(Edit::Add { pair, copies })
}

// The edit of `remove`, whose pair and copies the same fields name.
pub(crate) fn remove_named(fields: &mut Fields<'_>) -> Result<Edit, LineFault>
    ensures { result ≡ remove_named fields.old }
{
    let (pair, copies) = pair_named(fields)?;
    Ok(Edit::Remove { pair, copies })
}

/// The edit of `drop`, whose label the one field LABEL names.
///
/// Errors, the first that applies: `BadArguments` for another number of fields, `BadLabel`.
pub fn drop_named(fields: &mut Fields<'_>) -> Result<Edit, LineFault>
    ensures { result ≡ drop_named fields.old }
{
    let label = label_named(fields)?;
    Ok(Edit::DropLabel { label })
}

/// The edit of `relabel`, whose labels the two fields SOURCE TARGET name.
///
/// Errors, the first that applies: `BadArguments` for another number of fields, `BadLabel`.
pub fn relabel_named(fields: &mut Fields<'_>) -> Result<Edit, LineFault>
    ensures { result ≡ relabel_named fields.old }
{
    let (source, target) = labels_named(fields)?;
    Ok(Edit::Relabel { source, target })
}

/// The edit of `grow`, whose label and level the two fields LABEL LEVEL name.
///
/// Errors, the first that applies: `BadArguments` for another number of fields, `BadLabel`, `BadLevel`.
pub fn grow_named(fields: &mut Fields<'_>) -> Result<Edit, LineFault>
    ensures { result ≡ grow_named fields.old }
{
    let (label, level) = two_fields(fields)?;
    let label = label_from_field(label)?;
    let level = level_spelled(level).ok_or(LineFault::BadLevel)?;
    Ok(Edit::Grow { label, level })
}

/// The edit of `normal`, whose label the one field LABEL names.
///
/// Errors, the first that applies: `BadArguments` for another number of fields, `BadLabel`.
pub fn normal_named(fields: &mut Fields<'_>) -> Result<Edit, LineFault>
    ensures { result ≡ normal_named fields.old }
{
    let label = label_named(fields)?;
    Ok(Edit::Normalise { label })
}

/// The edit of `revert`, whose change the one field NUMBER names.
///
/// Errors, the first that applies: `BadArguments` for another number of fields, `BadNumber`.
pub fn revert_named(fields: &mut Fields<'_>) -> Result<Edit, LineFault>
    ensures { result ≡ revert_named fields.old }
{
    let number = change_number_spelled(one_field(fields)?).ok_or(LineFault::BadNumber)?;
    Ok(Edit::Revert { number })
}
