//! What help prints besides the words themselves.

use crate::each_instruction;

/// The version of the program, as `--version` prints it.
pub(crate) const VERSION: &str = "1.1.0";

/// What the help of the program prints after its commands: where the instructions are, what names a file, and each exit status.
pub(crate) const AFTER_PROGRAM: &str = "'s2ix run --help' lists the instructions of a script.
FILE, DUMP, JOURNAL, FIRST and SECOND name files: '-' is one like any other, and standard input is /dev/stdin.

Exit status:
  0  All was accepted, or help or version was printed
  1  A refusal was printed
  2  Bad usage
  3  A device failed, a file can't be opened, or an input is too long
  4  Out of memory";

/// What help prints of a dump that is to be read.
pub(crate) const DUMP: &str = "The dump: a file, or /dev/stdin for standard input";

/// What help prints of a journal that is to be read.
pub(crate) const JOURNAL: &str = "The journal: a file, or /dev/stdin for standard input";

/// What help prints of the dump before a change.
pub(crate) const FIRST: &str = "The dump before: a file, or /dev/stdin for standard input";

/// What help prints of the dump after a change.
pub(crate) const SECOND: &str = "The dump after: a file, or /dev/stdin for standard input";

// What the help of `run` prints, with a line for each row.
macro_rules! run_help {
    ($($name:ident $word:literal $fields:literal $meaning:literal,)*) => {
        concat!(
            "Instructions, one on a line:\n",
            $("  ", $word, $fields, $meaning, "\n",)*
            "
A line whose first word begins with '#' is a comment. An instruction that changes pairs prints 'ok'
and how many; one that is refused prints 'no' and the reason, and changes nothing.
's2ix run < FILE' runs the script in FILE."
        )
    };
}

/// What the help of `run` prints after its options: each instruction of a script.
pub(crate) const AFTER_RUN: &str = each_instruction!(run_help);
