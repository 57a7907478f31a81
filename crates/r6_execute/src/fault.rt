//! Why the program ends with a status other than good, and the line that says so.
ghost use Rattle.std.specs.Prelude.{◌≡◌};

use r6_dev::Fault as DeviceFault;
use r6_engine::EngineError;
use r6_run::RunFault;
use r6_script::ScriptFault;
use r6_settings::SettingsFault;
use r6_simulate::SimulationFault;
use std::alloc::{AllocError, AllocFailed};
use std::fmt;

/// A file that a command reads.
#[derive(Clone, Copy, Debug, PartialEq, Eq)]
pub enum Input {
    Settings,
    Script,
}

impl Input {
    ghost use Rattle.r6_execute.specs.Faults.{name_of};

    fn name(self) -> &'static str
        ensures { result.now ≡ name_of self }
    {
        match self {
            Input::Settings => "settings",
            Input::Script => "script",
        }
    }
}

/// Why the program ends before its command is done. `Display` writes the line for standard error.
#[derive(Clone, Copy, Debug, PartialEq, Eq)]
pub enum Fault {
    /// The command line is not UTF-8.
    NotText,
    /// The file can't be read, or isn't UTF-8.
    Unreadable(Input),
    /// The settings are refused.
    Settings(SettingsFault),
    /// The script is refused.
    Script(ScriptFault),
    /// The device of this slot did not do what it was told.
    Device(usize, DeviceFault),
    /// Standard output refused a write.
    Output,
    /// An allocation failed.
    Memory,
    /// The system started no thread.
    Thread,
}

impl Fault {
    ghost use Rattle.r6_execute.specs.Status.{status_of};

    /// The status with which the program ends: 2 for a command line that is no text, 3 for settings and scripts,
    /// 4 for output and devices, and 5 for memory and threads.
    pub fn status(&self) -> u8
        ensures { result ≡ status_of self.now }
    {
        match self {
            Fault::NotText => 2,
            Fault::Unreadable(_) => 3,
            Fault::Settings(SettingsFault::Memory) => 5,
            Fault::Settings(_) => 3,
            Fault::Script(ScriptFault::Memory) => 5,
            Fault::Script(_) => 3,
            Fault::Device(..) => 4,
            Fault::Output => 4,
            Fault::Memory | Fault::Thread => 5,
        }
    }
}

impl fmt::Display for Fault {
    ghost use Rattle.std.specs.Prelude.{Some};
    ghost use Rattle.r6_execute.specs.Faults.{fault_text};

    ghost output = { λ fault. Some (fault_text fault) };

    fn fmt<W: fmt::Write>(&self, f: &mut fmt::Formatter<W>) -> fmt::Result {
        match self {
            Fault::NotText => f.write_str("raid6: the command line is not UTF-8"),
            Fault::Unreadable(input) => write!(f, "{}: unreadable", input.name()),
            Fault::Settings(fault) => fmt::Display::fmt(fault, f),
            Fault::Script(fault) => fmt::Display::fmt(fault, f),
            Fault::Device(slot, fault) => write!(f, "device {slot} fault {}", fault.number()),
            Fault::Output => f.write_str("output"),
            Fault::Memory => f.write_str("memory"),
            Fault::Thread => f.write_str("thread"),
        }
    }
}

impl From<SettingsFault> for Fault {
    ghost use Rattle.r6_execute.specs.declared.fault.Fault.TheVariants.{Settings};

    ghost from_gives = { λ fault told. told ≡ Settings fault };

    fn from(fault: SettingsFault) -> Fault {
        Fault::Settings(fault)
    }
}

impl From<ScriptFault> for Fault {
    ghost use Rattle.r6_execute.specs.declared.fault.Fault.TheVariants.{Script};

    ghost from_gives = { λ fault told. told ≡ Script fault };

    fn from(fault: ScriptFault) -> Fault {
        Fault::Script(fault)
    }
}

impl From<SimulationFault> for Fault {
    ghost use Rattle.r6_execute.specs.Faults.{fault_of};

    ghost from_gives = { λ fault told. told ≡ fault_of fault };

    fn from(fault: SimulationFault) -> Fault {
        match fault {
            SimulationFault::Output => Fault::Output,
            SimulationFault::Memory => Fault::Memory,
        }
    }
}

impl From<EngineError> for Fault {
    ghost use Rattle.r6_execute.specs.Faults.{fault_of_pass};

    ghost from_gives = { λ error told. told ≡ fault_of_pass error };

    fn from(error: EngineError) -> Fault {
        match error {
            EngineError::Device { slot, fault } => Fault::Device(slot, fault),
            EngineError::NoMemory => Fault::Memory,
            EngineError::ThreadRefused => Fault::Thread,
        }
    }
}

impl From<RunFault> for Fault {
    ghost use Rattle.r6_execute.specs.Faults.{fault_of_run};

    ghost from_gives = { λ fault told. told ≡ fault_of_run fault };

    fn from(fault: RunFault) -> Fault {
        match fault {
            RunFault::Device(slot, fault) => Fault::Device(slot, fault),
            RunFault::Output => Fault::Output,
            RunFault::Memory => Fault::Memory,
            RunFault::Thread => Fault::Thread,
        }
    }
}

impl<T: Drop> From<AllocFailed<T>> for Fault {
    ghost use Rattle.r6_execute.specs.declared.fault.Fault.TheVariants.{Memory};

    ghost from_gives = { λ _ told. told ≡ Memory };

    fn from(_refused: AllocFailed<T>) -> Fault {
        Fault::Memory
    }
}

impl From<AllocError> for Fault {
    ghost use Rattle.r6_execute.specs.declared.fault.Fault.TheVariants.{Memory};

    ghost from_gives = { λ _ told. told ≡ Memory };

    fn from(_refused: AllocError) -> Fault {
        Fault::Memory
    }
}
