// The name of a session, which what belongs to the session shares.
ghost use Rattle.std.specs.Prelude.{◌≡◌, IfOk};

use hv_row::{Bytes, Copied};
use std::alloc::{AllocError, Global};
use std::marker::Model;
use std::sync::Arc;

/// The name of a session. Its copies share its bytes; contracts see the list of them.
#[derive(Debug, Drop)]
pub struct SessionName {
    bytes: Arc<Bytes, Global>,
}

impl Model for SessionName {
    ghost use Rattle.std.specs.Prelude.{List, ℕ};
    ghost use Rattle.std.specs.Arc.{arc_value};

    ghost Value = { List ℕ };

    ghost view = { λ it. arc_value it.bytes };
}

impl SessionName {
    /// The name of these bytes.
    pub fn new(alloc: Global, bytes: Bytes) -> Result<SessionName, AllocError>
        ensures { IfOk result (λ name. name ≡ bytes) }
    {
        match Arc::new(alloc, bytes) {
            Ok(bytes) => Ok(SessionName { bytes }),
            Err(_) => Err(AllocError),
        }
    }

    /// The bytes.
    pub fn as_slice(&self) -> &[u8]
        ensures { result.now ≡ self.now }
    {
        self.bytes.as_slice()
    }
}

impl Copied for SessionName {
    fn copy(&self, _alloc: Global) -> Result<SessionName, AllocError> {
        Ok(SessionName {
            bytes: Arc::try_clone(&self.bytes)?,
        })
    }
}
