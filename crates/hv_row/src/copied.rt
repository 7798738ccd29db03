// Copies that equal their source.
ghost use Rattle.std.specs.Prelude.{◌≡◌, IfOk};

use std::alloc::{AllocError, Global};

/// A value of which a copy is made that contracts see as the same value.
pub trait Copied: Drop {
    /// A copy; `Err` only for want of memory.
    fn copy(&self, alloc: Global) -> Result<Self, AllocError>
        ensures { IfOk result (λ c. c ≡ self.now) };

    /// A copy of each item in order. A type whose bytes can be moved at once overrides it.
    fn copy_all(alloc: Global, items: &[Self]) -> Result<Vec<Self>, AllocError>
        ensures { IfOk result (λ v. v.items ≡ items.now) }
    {
        let mut copies = Vec::with_capacity(alloc, items.len())?;
        for item in items {
            copies.push(item.copy(alloc)?)?;
        }
        Ok(copies)
    }
}

impl Copied for u8 {
    fn copy(&self, _alloc: Global) -> Result<u8, AllocError> {
        Ok(*self)
    }

    fn copy_all(alloc: Global, items: &[u8]) -> Result<Vec<u8>, AllocError> {
        Vec::from_slice(alloc, items)
    }
}
