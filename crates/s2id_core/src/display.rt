//! Cells in formats.

ghost use Rattle.std.specs.Prelude.{◌++◌, Some, codes};
ghost use Rattle.std.specs.Fmt.{padded};

use crate::cell_id::CellId;
use std::{fmt, str};

/// `{}` prints the cell's token; a width and a precision count its bytes.
impl fmt::Display for CellId {
    ghost use Rattle.s2id_core.specs.CellId.{raw_of};
    ghost use Rattle.s2id_core.specs.Token.{canonical_token};

    ghost output = { λ cell. Some (canonical_token (raw_of cell)) };

    ghost styled_output = { λ cell spec. Some (padded spec (canonical_token (raw_of cell))) };

    fn fmt<W: fmt::Write>(&self, f: &mut fmt::Formatter<W>) -> fmt::Result {
        let token = self.token();
        match str::from_utf8(token.as_bytes()) {
            Ok(text) => f.pad(text),
            Err(_) => unreachable!(),
        }
    }
}

/// `{:?}` prints the cell's token between `CellId(` and `)`.
impl fmt::Debug for CellId {
    ghost use Rattle.s2id_core.specs.CellId.{raw_of};
    ghost use Rattle.s2id_core.specs.Token.{canonical_token};

    ghost debug_output = { λ cell. Some (codes "CellId(" ++ (canonical_token (raw_of cell) ++ codes ")")) };

    fn fmt<W: fmt::Write>(&self, f: &mut fmt::Formatter<W>) -> fmt::Result {
        write!(f, "CellId({self})")
    }
}
