//! What is told if the words ask for no command.
ghost use Rattle.std.specs.Prelude.{◌≡◌, IfOk, string_bytes};
ghost use Rattle.s2ix_cli_words.specs.Shown.{ArePlain, Says, as_usage, not_utf8_text};
ghost use Rattle.s2ix_cli_words.specs.Words.{IsUsage};

use crate::shown::{error_text, escaped_word, on_one_line, plain_text};
use crate::tree::{limit_error, lone_journal_error};
use crate::words_fault::WordsFault;
use std::alloc::{AllocError, Global};

/// Usage with this text.
pub(crate) fn usage(alloc: Global, text: &str) -> WordsFault
    ensures usage { IsUsage result }
    ensures plain { Says ArePlain result }
{
    as_usage(plain_text(alloc, text))
}

/// The usage of a value that is no number in the range of its option, a limit.
pub(crate) fn limit_usage(alloc: Global, option: &str, value: &str, greatest: u32) -> WordsFault
    ensures usage { IsUsage result }
    ensures plain { Says ArePlain result }
{
    as_usage(limit_text(alloc, option, value, greatest))
}

// What clap says of a value that is no number in the range of its option.
fn limit_text(alloc: Global, option: &str, value: &str, greatest: u32) -> Result<String, AllocError>
    ensures { IfOk result (λ text. ArePlain (string_bytes text)) }
{
    let value = on_one_line(alloc, value)?;
    error_text(
        alloc,
        &limit_error(alloc, option, value.as_str(), greatest)?,
    )
}

/// The usage of a journal for a run that is given no dump.
pub(crate) fn lone_journal_usage(alloc: Global) -> WordsFault
    ensures usage { IsUsage result }
    ensures plain { Says ArePlain result }
{
    as_usage(lone_journal_text(alloc))
}

// What clap says of a journal for a run that is given no dump.
fn lone_journal_text(alloc: Global) -> Result<String, AllocError>
    ensures { IfOk result (λ text. ArePlain (string_bytes text)) }
{
    error_text(alloc, &lone_journal_error(alloc)?)
}

/// What is printed for a word that is no UTF-8: usage that names it, with escapes for its bytes, or `OutOfMemory`. O(n) for a word of n
/// bytes.
pub fn not_utf8(alloc: Global, word: &[u8]) -> WordsFault
    ensures usage { IsUsage result }
    ensures text { Says (λ text. text ≡ not_utf8_text word.now) result }
{
    as_usage(strange_text(alloc, word))
}

// What is told of a word that is no UTF-8.
fn strange_text(alloc: Global, word: &[u8]) -> Result<String, AllocError>
    ensures { IfOk result (λ text. string_bytes text ≡ not_utf8_text word.now) }
{
    let word = escaped_word(alloc, word)?;
    format!(in alloc;
        "error: the word '{word}' is no UTF-8\n\nFor more information, try '--help'.\n"
    )
}

// Usage with this text, if there was room for it.
fn as_usage(text: Result<String, AllocError>) -> WordsFault
    ensures usage { IsUsage result }
    ensures text { result ≡ as_usage text }
{
    match text {
        Ok(text) => WordsFault::Usage(text),
        Err(_) => WordsFault::OutOfMemory,
    }
}
