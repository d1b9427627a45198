//! What the program's words ask for.
use s2ix_cli_words::{Command, WordsFault, command_of, not_utf8};
use std::alloc::AllocError;
use std::env;
use std::env::Env;
use std::io::ErrorKind;

// How many bytes a word has at most on Linux: 32 pages of 4 KiB.
const LONGEST_WORD: usize = 131_072;

// The command that the words ask for.
pub(crate) fn asked(rt: &HostRuntime) -> Result<Command, WordsFault> {
    let words = match env::args(rt) {
        Ok(mut all) => {
            let _program = all.next();
            all.collect::<Vec<String>>(rt.alloc())?
        }
        Err(error) if error.kind() == ErrorKind::OutOfMemory => return Err(WordsFault::OutOfMemory),
        Err(_) => return Err(strange_word(rt)?),
    };
    command_of(rt.alloc(), words.as_slice())
}

// What is printed of the first word that is no UTF-8, the program's own name among them.
fn strange_word(rt: &HostRuntime) -> Result<WordsFault, AllocError> {
    let mut room = vec![in rt.alloc(); 0; LONGEST_WORD]?;
    for i in 0..usize::MAX {
        let Ok(length) = rt.arg(i, room.as_mut_slice()) else {
            break;
        };
        let word = &room[..length];
        if str::from_utf8(word).is_err() {
            return Ok(not_utf8(rt.alloc(), word));
        }
    }
    Ok(WordsFault::Usage(String::from_str(
        rt.alloc(),
        "error: a word is no UTF-8\n\nFor more information, try '--help'.\n",
    )?))
}
