ghost use Rattle.std.specs.Prelude.{◌≡◌, ◌↔◌, ℕ, if◌then◌else◌, Some, None, List, [], IfSome, IfNone, IsTrue};
ghost use Rattle.std.specs.declared.option.Option.{Option};
ghost use Rattle.s2ix_cli_run.specs.Coming.{held_more};

use arrayvec::ArrayVec;
use s2ix_cli_script::LONGEST_LINE;
use std::marker::Model;

// What is held of a line of a script until its line feed comes: its bytes, or no more than that it is too long. It never grows.
#[derive(Drop)]
pub(crate) struct HeldLine {
    bytes: ArrayVec<u8, LONGEST_LINE>,
    is_too_long: bool,
}

impl Model for HeldLine {
    ghost Value = { Option (List ℕ) };

    ghost view = { λ s. if s.is_too_long then None else Some s.bytes.items };
}

impl HeldLine {
    // No byte of a line.
    pub(crate) fn new() -> HeldLine
        ensures { result ≡ Some [] }
    {
        HeldLine {
            bytes: ArrayVec::new(),
            is_too_long: false,
        }
    }

    // Whether nothing of a line has come.
    pub(crate) fn is_empty(&self) -> bool
        ensures { IsTrue result ↔ (self.now ≡ Some []) }
    {
        !self.is_too_long && self.bytes.is_empty()
    }

    // Holds the next bytes of the line too.
    pub(crate) fn push(&mut self, bytes: &[u8])
        ensures { self.new ≡ held_more self.old bytes.now }
    {
        if !self.is_too_long && self.bytes.try_extend_from_slice(bytes).is_err() {
            self.is_too_long = true;
        }
    }

    // Lets go of the line.
    pub(crate) fn clear(&mut self)
        ensures { self.new ≡ Some [] }
    {
        self.bytes.clear();
        self.is_too_long = false;
    }

    // The line, or `None` if it is too long.
    pub(crate) fn line(&self) -> Option<&[u8]>
        ensures some { IfSome result (λ line. self.now ≡ Some line.now) }
        ensures none { IfNone result (self.now ≡ None) }
    {
        if self.is_too_long {
            None
        } else {
            Some(self.bytes.as_slice())
        }
    }
}
