//! Words as they are printed on a terminal: with escapes for their control characters.
ghost use Rattle.std.specs.Prelude.{◌≡◌, IfOk, OnOk, string_bytes};
ghost use Rattle.s2ix_cli_words.specs.Shown.{ArePlain, escaped};

use crate::limits::LimitHelp;
use crate::tree::program;
use clap::Error;
use clap::error::ErrorKind;
use std::alloc::{AllocError, Global};

/// What clap says of words, with an escape for each control character of a word.
pub(crate) fn words_text(
    alloc: Global,
    words: &[String],
    error: &Error,
) -> Result<String, AllocError>
    ensures { IfOk result (λ text. ArePlain (string_bytes text)) }
{
    if !words.iter().any(|word| word.contains('\n')) {
        return error_text(alloc, error);
    }
    let words = on_one_line_each(alloc, words)?;
    let limits = LimitHelp::new(alloc)?;
    text_with_limits(alloc, &limits, words.as_slice(), error)
}

// What clap says of words that have no line feed, with this help on limits; what it said before if it refuses them no more.
fn text_with_limits<'a>(
    alloc: Global,
    limits: &'a LimitHelp,
    words: &'a [String],
    error: &Error,
) -> Result<String, AllocError>
    ensures { IfOk result (λ text. ArePlain (string_bytes text)) }
{
    match program(alloc, limits)?.try_get_matches_from(words) {
        Ok(_matches) => error_text(alloc, error),
        Err(again) => text_again(alloc, &again),
    }
}

// What clap says, unless that is want of memory.
fn text_again(alloc: Global, error: &Error) -> Result<String, AllocError>
    ensures { IfOk result (λ text. ArePlain (string_bytes text)) }
{
    match error.kind() {
        ErrorKind::OutOfMemory => Err(AllocError),
        _ => error_text(alloc, error),
    }
}

/// What clap says, with an escape for each control character but its line feeds.
pub(crate) fn error_text(alloc: Global, error: &Error) -> Result<String, AllocError>
    ensures { IfOk result (λ text. ArePlain (string_bytes text)) }
{
    let text = format!(in alloc; "{error}")?;
    plain_text(alloc, text.as_str())
}

/// A text with an escape for each of its control characters but line feeds.
pub(crate) fn plain_text(alloc: Global, text: &str) -> Result<String, AllocError>
    ensures { IfOk result (λ plain. ArePlain (string_bytes plain)) }
{
    let mut plain = String::new(alloc);
    for c in text.chars() {
        push_plain(&mut plain, c)?;
    }
    Ok(plain)
}

// Adds a character, or its escape if it is a control character but no line feed.
fn push_plain(text: &mut String, c: char) -> Result<(), AllocError>
    requires plain { ArePlain (string_bytes text.old) }
    ensures plain { OnOk result (ArePlain (string_bytes text.new)) }
{
    if c == '\n' || !c.is_control() {
        return text.push(c);
    }
    for shown in c.escape_default() {
        text.push(shown)?;
    }
    Ok(())
}

/// The bytes of a word, with an escape for each that doesn't print as ASCII.
pub(crate) fn escaped_word(alloc: Global, word: &[u8]) -> Result<String, AllocError>
    ensures { IfOk result (λ text. string_bytes text ≡ escaped word.now) }
{
    let mut text = String::new(alloc);
    for shown in word.escape_ascii() {
        text.push(shown as char)?;
    }
    Ok(text)
}

/// A word with an escape for each of its line feeds.
pub(crate) fn on_one_line(alloc: Global, word: &str) -> Result<String, AllocError> {
    word.replace(alloc, "\n", "\\n")
}

// The words, each as [`on_one_line`].
fn on_one_line_each(alloc: Global, words: &[String]) -> Result<Vec<String>, AllocError> {
    let mut lines = Vec::new(alloc);
    for word in words {
        lines.push(on_one_line(alloc, word.as_str())?)?;
    }
    Ok(lines)
}
