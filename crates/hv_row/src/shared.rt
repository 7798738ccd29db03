// A value that its copies share.
ghost use Rattle.std.specs.Prelude.{◌≡◌, IfOk};

use crate::Copied;
use std::alloc::{AllocError, Global};
use std::marker::Model;
use std::sync::Arc;

/// A value whose copies share it; contracts see the value.
#[derive(Debug, Drop)]
pub struct Shared<T> {
    value: Arc<T, Global>,
}

impl<T> Model for Shared<T> {
    ghost use Rattle.std.specs.Arc.{arc_value};

    ghost Value = { T };

    ghost view = { λ it. arc_value it.value };
}

impl<T: Drop> Shared<T> {
    /// The value, for copies to share. `Err` only for want of memory; the value is dropped then.
    pub fn new(alloc: Global, value: T) -> Result<Shared<T>, AllocError>
        ensures { IfOk result (λ shared. shared ≡ value) }
    {
        match Arc::new(alloc, value) {
            Ok(value) => Ok(Shared { value }),
            Err(_) => Err(AllocError),
        }
    }

    /// The value.
    pub fn get(&self) -> &T
        ensures { result.now ≡ self.now }
    {
        &self.value
    }
}

impl<T: Drop> Copied for Shared<T> {
    fn copy(&self, _alloc: Global) -> Result<Shared<T>, AllocError> {
        Ok(Shared {
            value: Arc::try_clone(&self.value)?,
        })
    }
}
