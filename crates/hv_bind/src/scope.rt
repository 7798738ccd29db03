// The names that stand in a select's FROM places, and the columns that they mean.
ghost use Rattle.std.specs.Prelude.{◌≡◌, ◌<◌, ◌≤◌, length};
ghost use Rattle.std.specs.Option.{option_map, option_and_then};
ghost use Rattle.hv_model.specs.Scope as spec;
ghost use Rattle.hv_model.specs.Fits as fits;
ghost use Rattle.hv_model.specs.Bound.{schemas_of};

use crate::place::alias_of;
use hv_model::{ColRef, PlaceAst, RefAst, Refusal, TableHead};
use hv_row::{Bytes, ColType, Column};

/// The FROM places of a select, and the heads of their tables.
#[derive(Clone, Copy)]
pub struct Scope<'a> {
    pub places: &'a [PlaceAst],
    pub heads: &'a [TableHead],
    ghost few: { length heads.now ≤ 4 },
}

/// The column of a number in the place of a number; both count from 0.
pub fn column_at(place: usize, column: usize) -> ColRef
    requires place { place < 256 }
    requires column { column < 256 }
    ensures { result ≡ spec.column_at place column }
{
    ColRef {
        place: place as u8,
        column: column as u8,
    }
}

/// The number of the column of a name.
fn column_number(columns: &[Column], name: &Bytes) -> Option<usize>
    ensures { result ≡ spec.column_number columns.now name.now }
{
    columns.iter().position(|column| column.name.equals(name))
}

/// The number of the place of an alias.
fn place_number(places: &[PlaceAst], alias: &Bytes) -> Option<usize>
    ensures { result ≡ spec.place_number places.now alias.now }
{
    places
        .iter()
        .position(|place| alias_of(place).name.equals(alias))
}

/// The column of a name in the place of a number, whose table has this head.
fn column_of_head(head: &TableHead, place: usize, name: &Bytes) -> Option<ColRef>
    requires { place < 256 }
    ensures { result ≡ option_map (spec.column_at place) (spec.column_number head.now.schema name.now) }
{
    let column = column_number(head.schema.columns(), name)?;
    Some(column_at(place, column))
}

impl Scope<'_> {
    /// The column of a name behind an alias.
    fn column_behind(&self, alias: &Bytes, name: &Bytes) -> Option<ColRef>
        ensures { result ≡ option_and_then (spec.column_in self.now.heads.now name.now) (spec.place_number self.now.places.now alias.now) }
    {
        let place = place_number(self.places, alias)?;
        let head = self.heads.get(place)?;
        column_of_head(head, place, name)
    }

    /// The one column of a name among those of all places.
    fn only_column(&self, name: &Bytes, byte: u32) -> Result<ColRef, Refusal>
        ensures { result ≡ spec.the_one (spec.columns_named 0 self.now.heads.now name.now) byte }
    {
        let mut found = None;
        for (place, head) in self.heads.iter().enumerate() {
            if let Some(column) = column_of_head(head, place, name) {
                if found.is_some() {
                    return Err(Refusal::Ambiguous { byte });
                }
                found = Some(column);
            }
        }
        found.ok_or(Refusal::NoColumn { byte })
    }

    /// The column that a reference names, or its refusal.
    pub fn resolve(&self, reference: &RefAst) -> Result<ColRef, Refusal>
        ensures { result ≡ spec.resolved self.now.places.now self.now.heads.now reference.now }
    {
        let byte = reference.byte;
        match &reference.alias {
            Some(alias) => self
                .column_behind(alias, &reference.column)
                .ok_or(Refusal::NoColumn { byte }),
            None => self.only_column(&reference.column, byte),
        }
    }

    /// The type of a column, where it stands.
    pub fn kind(&self, column: ColRef) -> Option<ColType>
        ensures { result ≡ fits.kind_of (schemas_of self.now.heads.now) column }
    {
        let head = self.heads.get(usize::from(column.place))?;
        let column = head.schema.columns().get(usize::from(column.column))?;
        Some(column.kind)
    }
}
