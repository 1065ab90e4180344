//! The faults of a script: why it ended, the names that the program prints, and how one kind of fault becomes another.

ghost use Rattle.std.specs.Prelude.{◌≡◌};
ghost use Rattle.droid_script.specs.Scripts.{script_fault_name};

use droid_frame::{InputFault, WriteFault};
use std::alloc::AllocError;

/// Why a script ended before its last line.
#[derive(Debug, Drop)]
pub enum ScriptFault {
    /// The script has more than 67,108,864 bytes. No line was handled.
    TooLong,
    /// The script could not be read. No line was handled.
    Read,
    /// Out of memory, for the script, and no line was handled, or at a line, and those before it were: that line too if
    /// memory ran out for what it prints. If memory runs out inside the service, the reply says so, and the script goes
    /// on.
    Memory,
    /// What a line prints could not be written, or not all of it. The line was handled all the same.
    Write,
}

impl ScriptFault {
    /// Returns the name that the program prints.
    pub fn name(&self) -> &'static str
        ensures { result.now ≡ script_fault_name self.now }
    {
        match self {
            ScriptFault::TooLong => "TooLong",
            ScriptFault::Read => "Read",
            ScriptFault::Memory => "Memory",
            ScriptFault::Write => "Write",
        }
    }
}

impl From<AllocError> for ScriptFault {
    ghost use Rattle.droid_script.specs.declared.script_fault.ScriptFault.TheVariants.{Memory};

    ghost from_gives = { λ _ fault. fault ≡ Memory };

    /// Memory ran out.
    fn from(_error: AllocError) -> ScriptFault {
        ScriptFault::Memory
    }
}

impl From<InputFault> for ScriptFault {
    ghost use Rattle.droid_script.specs.Scripts.{reading_fault};

    ghost from_gives = { λ input fault. fault ≡ reading_fault input };

    /// Keeps the name of a fault that the script had when it was read.
    fn from(fault: InputFault) -> ScriptFault {
        match fault {
            InputFault::TooLong => ScriptFault::TooLong,
            InputFault::Memory => ScriptFault::Memory,
            InputFault::Read => ScriptFault::Read,
        }
    }
}

impl From<WriteFault> for ScriptFault {
    ghost use Rattle.droid_script.specs.declared.script_fault.ScriptFault.TheVariants.{Write};

    ghost from_gives = { λ _ fault. fault ≡ Write };

    /// A reply could not be written. How many bytes of it were, which the fault says, is dropped.
    fn from(_fault: WriteFault) -> ScriptFault {
        ScriptFault::Write
    }
}
