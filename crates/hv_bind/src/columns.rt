// Lists of columns: of references, and of all places.
ghost use Rattle.std.specs.Prelude.{◌≡◌, ◌++◌, ◌<◌, ◌≤◌, length, map, IfOk, OnOk};
ghost use Rattle.hv_model.specs.Scope as spec;
ghost use Rattle.hv_model.specs.Bound.{ref_of};

use crate::scope::{Scope, column_at};
use hv_model::{ColRef, ColRefs, RefAst};
use hv_row::{Column, Listed};
use std::alloc::{AllocError, Global};

/// Adds the columns of a place.
fn add_columns(place: usize, columns: &[Column], all: &mut ColRefs) -> Result<(), AllocError>
    requires place { place < 256 }
    requires short { length columns.now ≤ 32 }
    ensures { OnOk result (all.new ≡ all.old ++ spec.columns_from place 0 columns.now) }
{
    for column in 0..columns.len() {
        all.push(column_at(place, column))?;
    }
    Ok(())
}

impl Scope<'_> {
    /// The column of a reference; of one that is refused, the first of the first place.
    pub fn column_of(&self, reference: &RefAst) -> ColRef
        ensures { result ≡ ref_of self.now.places.now self.now.heads.now reference.now }
    {
        self.resolve(reference).unwrap_or(column_at(0, 0))
    }

    /// The columns of references.
    pub fn columns_of(&self, alloc: Global, references: &[RefAst]) -> Result<ColRefs, AllocError>
        ensures { IfOk result (λ columns. columns ≡ map (ref_of self.now.places.now self.now.heads.now) references.now) }
    {
        let mut columns = Listed::with_capacity(alloc, references.len())?;
        for reference in references {
            columns.push(self.column_of(reference))?;
        }
        Ok(columns)
    }

    /// The columns of all places, in order.
    pub fn all_columns(&self, alloc: Global) -> Result<ColRefs, AllocError>
        ensures { IfOk result (λ columns. columns ≡ spec.all_columns self.now.heads.now) }
    {
        let mut columns = Listed::new(alloc);
        for (place, head) in self.heads.iter().enumerate() {
            add_columns(place, head.schema.columns(), &mut columns)?;
        }
        Ok(columns)
    }
}
