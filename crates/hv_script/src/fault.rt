// Why there is no script.
use hv_model::ScriptFault;
use std::alloc::AllocError;

/// Why bytes give no script.
#[derive(Debug, Clone, Copy, PartialEq, Eq)]
pub enum BytesFault {
    /// They are no script: their first fault.
    Found(ScriptFault),
    /// There was no memory.
    Memory,
}

/// Why a source gives no script.
#[derive(Debug, Clone, Copy, PartialEq, Eq)]
pub enum ReadScriptFault {
    /// Its bytes are no script: their first fault.
    Found(ScriptFault),
    /// A read failed.
    Source,
    /// There was no memory.
    Memory,
}

impl From<AllocError> for BytesFault {
    ghost use Rattle.std.specs.Prelude.{◌≡◌};
    ghost use Rattle.hv_script.specs.declared.fault.BytesFault.TheVariants.{Memory};

    ghost from_gives = { λ _ e. e ≡ Memory };

    fn from(_error: AllocError) -> BytesFault {
        BytesFault::Memory
    }
}

impl From<AllocError> for ReadScriptFault {
    ghost use Rattle.std.specs.Prelude.{◌≡◌};
    ghost use Rattle.hv_script.specs.declared.fault.ReadScriptFault.TheVariants.{Memory};

    ghost from_gives = { λ _ e. e ≡ Memory };

    fn from(_error: AllocError) -> ReadScriptFault {
        ReadScriptFault::Memory
    }
}

impl From<BytesFault> for ReadScriptFault {
    ghost use Rattle.std.specs.Prelude.{◌≡◌};
    ghost use Rattle.hv_script.specs.Fault.{as_read};

    ghost from_gives = { λ fault e. e ≡ as_read fault };

    fn from(fault: BytesFault) -> ReadScriptFault {
        match fault {
            BytesFault::Found(found) => ReadScriptFault::Found(found),
            BytesFault::Memory => ReadScriptFault::Memory,
        }
    }
}
