//! Laws: functions that do nothing; their contracts state facts about definitions.
ghost use Rattle.std.specs.Prelude.{◌≡◌, ◌↔◌, IsTrue};
ghost use Rattle.s2ix_text_parts.specs.declared.run_fault.RunFault.{RunFault};
ghost use Rattle.s2ix_text_parts.specs.declared.sink.WriteFault.{WriteFault};
ghost use Rattle.s2ix_text_parts.specs.declared.source.ReadFault.{ReadFault};

use crate::run_fault::RunFault;
use crate::sink::WriteFault;
use crate::source::ReadFault;

/// Two faults of runs are equal exactly if they are the same.
pub fn equal_run_faults_are_one()
    ensures { (a b : RunFault) → IsTrue (⟦<RunFault as PartialEq>⟧.eq a b) ↔ (a ≡ b) }
{}

/// A clone of a run's fault is the same, and cloning never fails.
pub fn cloned_run_faults_are_the_same()
    ensures same { (a copy : RunFault) → ⟦<RunFault as Clone>⟧.is_clone a copy ↔ (copy ≡ a) }
    ensures never_fails { (a : RunFault) → ⟦<RunFault as Clone>⟧.is_infallible a }
{}

/// Two read faults are equal exactly if they are the same.
pub fn equal_read_faults_are_one()
    ensures { (a b : ReadFault) → IsTrue (⟦<ReadFault as PartialEq>⟧.eq a b) ↔ (a ≡ b) }
{}

/// A clone of a read fault is the same, and cloning never fails.
pub fn cloned_read_faults_are_the_same()
    ensures same { (a copy : ReadFault) → ⟦<ReadFault as Clone>⟧.is_clone a copy ↔ (copy ≡ a) }
    ensures never_fails { (a : ReadFault) → ⟦<ReadFault as Clone>⟧.is_infallible a }
{}

/// Two write faults are equal exactly if they are the same.
pub fn equal_write_faults_are_one()
    ensures { (a b : WriteFault) → IsTrue (⟦<WriteFault as PartialEq>⟧.eq a b) ↔ (a ≡ b) }
{}

/// A clone of a write fault is the same, and cloning never fails.
pub fn cloned_write_faults_are_the_same()
    ensures same { (a copy : WriteFault) → ⟦<WriteFault as Clone>⟧.is_clone a copy ↔ (copy ≡ a) }
    ensures never_fails { (a : WriteFault) → ⟦<WriteFault as Clone>⟧.is_infallible a }
{}
