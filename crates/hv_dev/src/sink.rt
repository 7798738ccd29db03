// Where files are written.
ghost use Rattle.std.specs.Prelude.{◌≡◌, ℕ, Option, Some, None, List, [], ◌∷◌, ◌++◌, length, true, IsSome, IfOk, IfErr, OnOk, OnErr};
ghost use Rattle.std.specs.Arc.{arc_value};
ghost use Rattle.hv_dev.specs.Reading.{Reading};
ghost use Rattle.hv_dev.specs.Fault.{IsCaused};

use crate::PageFile;
use std::alloc::Global;
use std::sync::Arc;

/// Why a page was not written, or a file not sealed.
#[derive(Clone, Copy, Debug, PartialEq, Eq)]
pub enum PutFault {
    Failed,
    Memory,
}

/// Where files are written, page by page, one open file at a time.
pub trait PageSink: Drop {
    type File: PageFile;

    /// What a port has under way and what it has read: writing keeps it. It is empty for a sink that is no port.
    ghost reading: { Self → Reading Self.File };

    /// How often a write or a seal has failed, up to `MAX_COUNT`.
    ghost write_faults: { Self → ℕ };

    /// The pages written since the last seal or abandon; `None` after a fault, when only `abandon` may follow.
    ghost written: { Self → Option (List (List ℕ)) };

    /// Puts a page behind those of the open file.
    fn write(&mut self, alloc: Global, page: &[u8]) -> Result<(), PutFault>
        requires page { length page.now ≡ 4096 }
        requires good { IsSome (written self.old) }
        ensures more { OnOk result ((pages : List (List ℕ)) → written self.old ≡ Some pages → written self.new ≡ Some (pages ++ page.now ∷ [])) }
        ensures given_up { OnErr result (written self.new ≡ None) }
        ensures calm { OnOk result (write_faults self.new ≡ write_faults self.old) }
        ensures cause { IfErr result (λ fault. IsCaused fault (write_faults self.old) (write_faults self.new)) }
        ensures kept { reading self.new ≡ reading self.old };

    /// Ends the open file and gives it.
    fn seal(&mut self, alloc: Global) -> Result<Arc<Self::File, Global>, PutFault>
        requires good { IsSome (written self.old) }
        ensures pages { IfOk result (λ file. Self.File.tells ≡ true → written self.old ≡ Some (Self.File.pages (arc_value file))) }
        ensures next { OnOk result (written self.new ≡ Some []) }
        ensures given_up { OnErr result (written self.new ≡ None) }
        ensures calm { OnOk result (write_faults self.new ≡ write_faults self.old) }
        ensures cause { IfErr result (λ fault. IsCaused fault (write_faults self.old) (write_faults self.new)) }
        ensures kept { reading self.new ≡ reading self.old };

    /// Gives up the open file. Takes no memory.
    fn abandon(&mut self)
        ensures next { written self.new ≡ Some [] }
        ensures calm { write_faults self.new ≡ write_faults self.old }
        ensures kept { reading self.new ≡ reading self.old };
}

/// A page as an array, in place.
pub fn as_page(page: &[u8]) -> &[u8; 4096]
    requires { length page.now ≡ 4096 }
    ensures { result.now ≡ page.now }
{
    <&[u8; 4096]>::try_from(page).unwrap()
}
