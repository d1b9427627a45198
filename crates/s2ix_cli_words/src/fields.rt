//! The fields of a line, one after the other.
//!
//! What has no byte above 127 is cut here, by looks at bytes alone. From the first field on that has such a byte, `bstr` cuts the line.
ghost use Rattle.std.specs.Prelude.{◌≡◌, ◌≤◌, ◌∷◌, ℕ, List, IfNone, IfSome, ⊤, length, take, true};
ghost use Rattle.std.specs.List.{list_all};
ghost use Rattle.std.specs.Iterator.{item_count};
ghost use Rattle.bstr.specs.Text.{TakesFirstRef};
ghost use Rattle.s2id_core.specs.CellId.{raw_of};
ghost use Rattle.s2id_core.specs.Token.{canonical_token};
ghost use Rattle.s2ix_cli_words.specs.Fields.{fields_left, fields_of, is_blank, is_plain};

use bstr::ByteSlice;
use s2id_core::CellId;
use s2ix_text_parts::token_in_front;
use std::alloc::AllocError;
use std::marker::Model;

/// The fields of a line that are still to come. Contracts see them as a list.
#[derive(Debug, Drop)]
pub struct Fields<'a> {
    text: &'a [u8],
    wide: Option<bstr::Fields<'a>>,
}

impl<'a> Model for Fields<'a> {
    ghost Value = { List (List ℕ) };

    ghost view = { λ s. fields_left s.text.now s.wide };
}

impl<'a> Clone for Fields<'a> {
    ghost is_clone = { λ it copy. copy ≡ it };

    ghost is_infallible = { λ _. ⊤ };

    fn clone(&self) -> Result<Self, AllocError> {
        Ok(Fields {
            text: self.text,
            wide: self.wide.clone()?,
        })
    }
}

impl<'a> Fields<'a> {
    /// The fields of a line.
    pub fn new(line: &'a [u8]) -> Fields<'a>
        ensures { result ≡ fields_of line.now }
    {
        Fields {
            text: line,
            wide: None,
        }
    }

    /// The cell whose canonical token the next field is, if one pass shows it; else nothing, and no field is taken.
    ///
    /// It is seen if a space is after the token, at least 17 bytes of the line are left, and no byte above 127 came so far. O(n) for n
    /// bytes of white space in front.
    #[inline]
    pub fn next_cell(&mut self) -> Option<CellId>
        ensures cell { IfSome result (λ cell. self.old ≡ canonical_token (raw_of cell) ∷ self.new) }
        ensures none { IfNone result (self.new ≡ self.old) }
    {
        if self.wide.is_some() {
            return None;
        }
        let (cell, after) = token_in_front(after_blank(self.text))?;
        self.text = after;
        Some(cell)
    }

    // The next field of a text which has a byte above 127 in it, and all after it.
    #[inline(never)]
    fn next_wide(&mut self, text: &'a [u8]) -> Option<&'a [u8]>
        ensures { TakesFirstRef (fields_of text.now) result self.new }
    {
        let mut fields = text.fields();
        let first = fields.next();
        self.wide = Some(fields);
        first
    }
}

impl<'a> Iterator for Fields<'a> {
    type Item = &'a [u8];

    ghost next_gives = { TakesFirstRef };

    ghost remaining = { item_count (λ rest. rest) };

    #[inline(always)]
    fn next(&mut self) -> Option<&'a [u8]> {
        if let Some(fields) = &mut self.wide {
            return fields.next();
        }
        let text = after_blank(self.text);
        if text.is_empty() {
            return None;
        }
        let Some((field, rest)) = cut_plain(text) else {
            return self.next_wide(text);
        };
        self.text = rest;
        Some(field)
    }
}

// A text from its first byte on that is no white space below 128.
#[inline(always)]
fn after_blank(text: &[u8]) -> &[u8]
    ensures { fields_of result.now ≡ fields_of text.now }
{
    let mut start = 0;
    while start < text.len() && is_blank(text[start]) {
        start += 1;
    }
    &text[start..]
}

// The field that a text begins with, and what is after it; nothing if a byte above 127 is in the field or right after it.
#[inline(always)]
fn cut_plain(text: &[u8]) -> Option<(&[u8], &[u8])>
    ensures { IfSome result (λ cut. fields_of text.now ≡ cut.0.now ∷ fields_of cut.1.now) }
{
    let end = plain_len(text);
    if end == 0 || end < text.len() && !is_blank(text[end]) {
        return None;
    }
    Some(text.split_at(end))
}

// How many plain bytes stand in front.
#[inline(never)]
fn plain_len(text: &[u8]) -> usize
    ensures within { result ≤ length text.now }
    ensures plain { list_all is_plain (take result text.now) ≡ true }
{
    let mut end = 0;
    while text.len() - end >= 16 && are_plain(&text[end..end + 16]) {
        end += 16;
    }
    end = after_block(text, end, 8);
    end = after_block(text, end, 4);
    while end < text.len() && is_plain(text[end]) {
        end += 1;
    }
    end
}

// The place after one more block of plain bytes, or the same place if there is none.
fn after_block(text: &[u8], end: usize, size: usize) -> usize
    requires inside { end ≤ length text.now }
    requires front { list_all is_plain (take end text.now) ≡ true }
    ensures within { result ≤ length text.now }
    ensures plain { list_all is_plain (take result text.now) ≡ true }
{
    if text.len() - end >= size && are_plain(&text[end..end + size]) {
        end + size
    } else {
        end
    }
}

// Whether a block of bytes is of the plain bytes after the space. Each is looked at, so that the compiler looks at all at once.
fn are_plain(block: &[u8]) -> bool
    ensures { result ≡ true → list_all is_plain block.now ≡ true }
{
    let mut all = true;
    for byte in block {
        all &= byte.wrapping_sub(33) < 95;
    }
    all
}

// Whether a byte belongs to a field, whatever stands around it: it is below 128, and no white space.
fn is_plain(byte: u8) -> bool
    ensures { result ≡ is_plain byte }
{
    byte < 128 && !is_blank(byte)
}

// Whether a byte below 128 is white space.
fn is_blank(byte: u8) -> bool
    ensures { result ≡ is_blank byte }
{
    byte == b' ' || byte.wrapping_sub(b'\t') < 5
}
