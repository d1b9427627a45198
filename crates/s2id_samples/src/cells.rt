use s2id_core::CellId;
use std::alloc::Global;

/// The cell that a token names.
pub fn cell_of(token: &str) -> Option<CellId> {
    CellId::from_token(token.as_bytes()).ok()
}

/// The cells that some tokens name, with white space between them. `None` if one names no cell, or memory was wanted.
pub fn cells_of(alloc: Global, tokens: &str) -> Option<Vec<CellId>> {
    let mut cells = Vec::new(alloc);
    for token in tokens.split_ascii_whitespace() {
        cells.push(cell_of(token)?).ok()?;
    }
    Some(cells)
}

/// Whether some cells are those that the tokens name, in their order.
pub fn are_cells(cells: &[CellId], tokens: &str) -> bool {
    let mut left = cells.iter();
    for token in tokens.split_ascii_whitespace() {
        match left.next() {
            Some(&cell) if cell_of(token) == Some(cell) => {}
            _ => return false,
        }
    }
    left.next().is_none()
}
