//! Laws: functions that do nothing; their contracts state facts about definitions.

ghost use Rattle.std.specs.Prelude.{◌≡◌, ◌↔◌, IsTrue, ℕ, ◌==◌, ◌+◌, ◌-◌, ◌*◌, ◌^◌, ◌<◌, ◌≤◌, List, [], length};
ghost use Rattle.std.specs.Ordering.{nat_cmp};
ghost use Rattle.s2id_core.specs.declared.cell_id.CellId.{CellId};
ghost use Rattle.s2id_core.specs.declared.memory.OutOfMemory.{OutOfMemory};
ghost use Rattle.s2id_core.specs.declared.path.PathText.{PathText};
ghost use Rattle.s2id_core.specs.declared.token.Token.{Token};
ghost use Rattle.s2id_core.specs.declared.token.TokenError.{TokenError};
ghost use Rattle.s2id_core.specs.CellId.{raw_of};
ghost use Rattle.s2id_core.specs.Path.{Path, IsPath, number_of, path_at, digits_from, last_leaf};
ghost use Rattle.s2id_core.specs.Cell.{IsCellNumber};
ghost use Rattle.s2id_core.specs.Token.{Spells, canonical_token, IsCanonicalText};

use crate::cell_id::{CellId, LEAF_END};
use crate::memory::OutOfMemory;
use crate::path::PathText;
use crate::token::{Token, TokenError};

/// A number is a cell's exactly if it is the number of some path.
pub fn cells_are_paths()
    ensures { (n : ℕ) → IsCellNumber n ↔ ((p : Path) × IsPath p × (number_of p ≡ n)) }
{}

/// A path's number is `face * 2^61 + d1 * 2^59 + d2 * 2^57 + .. + dn * 2^(61 - 2 * n) + 4^(30 - n)`, over its
/// digits `d1 .. dn`; `digits_from 59` is their part of the sum.
pub fn number_is_sum()
    ensures { (p : Path)
        → number_of p
        ≡ p.face * 2 ^ 61 + digits_from 59 p.digits + 4 ^ (30 - length p.digits) }
{}

/// Paths with one number are equal: `path_at` reads the path from it.
pub fn number_tells_path()
    ensures { (p : Path) → IsPath p → path_at (number_of p) ≡ p }
{}

/// The token that is printed for a cell spells it: reading a token back gives the cell.
pub fn token_reads_back()
    ensures { (n : ℕ) → IsCellNumber n → Spells (canonical_token n) n }
{}

/// A text spells at most one number.
pub fn text_spells_one_number()
    ensures { (text : List ℕ) (m n : ℕ) → Spells text m → Spells text n → m ≡ n }
{}

/// Of the texts that spell a cell, only the printed token has no capital letter and no zero at its end.
pub fn one_canonical_text()
    ensures { (text : List ℕ) (n : ℕ)
        → IsCellNumber n
        → Spells text n
        → (IsCanonicalText text ↔ (text ≡ canonical_token n)) }
{}

/// `cmp`, `partial_cmp` (which `<` and the like call) and `==` compare cells by their numbers.
pub fn cells_compare_by_number()
    ensures order { (a b : CellId) → ⟦<CellId as Ord>⟧.cmp a b ≡ nat_cmp (raw_of a) (raw_of b) }
    ensures less { (a b : CellId)
        → ⟦<CellId as PartialOrd>⟧.partial_cmp a b ≡ Some (nat_cmp (raw_of a) (raw_of b)) }
    ensures equal { (a b : CellId) → ⟦<CellId as PartialEq>⟧.eq a b ≡ (raw_of a == raw_of b) }
{}

/// `LEAF_END` is the leaf number that would come next after that of the last leaf, which is the last of face 5. No cell has it.
pub fn leaf_end_follows_last_leaf()
    ensures next { LEAF_END ≡ number_of (last_leaf (record { face = 5; digits = [] })) + 2 }
    ensures value { LEAF_END ≡ 6 * 2 ^ 61 + 1 }
    ensures none { IsCellNumber LEAF_END → ⊥ }
{}

/// Two cells are equal exactly if they are the same.
pub fn equal_cells_are_one()
    ensures { (a b : CellId) → IsTrue (⟦<CellId as PartialEq>⟧.eq a b) ↔ (a ≡ b) }
{}

/// A clone of a cell is the same, and cloning never fails.
pub fn cloned_cells_are_the_same()
    ensures same { (a copy : CellId) → ⟦<CellId as Clone>⟧.is_clone a copy ↔ (copy ≡ a) }
    ensures never_fails { (a : CellId) → ⟦<CellId as Clone>⟧.is_infallible a }
{}

/// Two faults of a token are equal exactly if they are the same.
pub fn equal_token_errors_are_one()
    ensures { (a b : TokenError) → IsTrue (⟦<TokenError as PartialEq>⟧.eq a b) ↔ (a ≡ b) }
{}

/// A clone of a fault of a token is the same, and cloning never fails.
pub fn cloned_token_errors_are_the_same()
    ensures same { (a copy : TokenError) → ⟦<TokenError as Clone>⟧.is_clone a copy ↔ (copy ≡ a) }
    ensures never_fails { (a : TokenError) → ⟦<TokenError as Clone>⟧.is_infallible a }
{}

/// Two refusals of memory are equal exactly if they are the same.
pub fn equal_memory_errors_are_one()
    ensures { (a b : OutOfMemory) → IsTrue (⟦<OutOfMemory as PartialEq>⟧.eq a b) ↔ (a ≡ b) }
{}

/// A clone of a refusal of memory is the same, and cloning never fails.
pub fn cloned_memory_errors_are_the_same()
    ensures same { (a copy : OutOfMemory) → ⟦<OutOfMemory as Clone>⟧.is_clone a copy ↔ (copy ≡ a) }
    ensures never_fails { (a : OutOfMemory) → ⟦<OutOfMemory as Clone>⟧.is_infallible a }
{}

/// A clone of a token is the same, and cloning never fails.
pub fn cloned_tokens_are_the_same()
    ensures same { (a copy : Token) → ⟦<Token as Clone>⟧.is_clone a copy ↔ (copy ≡ a) }
    ensures never_fails { (a : Token) → ⟦<Token as Clone>⟧.is_infallible a }
{}

/// A clone of a path's text is the same, and cloning never fails.
pub fn cloned_path_texts_are_the_same()
    ensures same { (a copy : PathText) → ⟦<PathText as Clone>⟧.is_clone a copy ↔ (copy ≡ a) }
    ensures never_fails { (a : PathText) → ⟦<PathText as Clone>⟧.is_infallible a }
{}
