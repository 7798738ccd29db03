// The query of a select over the tables of the catalogue.
ghost use Rattle.std.specs.Prelude.{◌≡◌, ◌≤◌, length, map, take, true, Some, IfOk, IfErr};
ghost use Rattle.std.specs.List.{All};
ghost use Rattle.hv_model.specs.Bound.{is_grouped};
ghost use Rattle.hv_model.specs.Scope.{places_refusal};
ghost use Rattle.hv_model.specs.Selected as spec;
ghost use Rattle.hv_bind.specs.Cause.{IsFirstRefusal};
ghost use Rattle.hv_world.specs.Answer.{HoldsOn, TableStands};
ghost use Rattle.hv_world.specs.Stored.{database_of, IsSound};

use hv_bind::{BindFault, MAX_PLACES, bind, places};
use hv_catalogue::{Catalogue, SnapFault};
use hv_chunk::Chunk;
use hv_dev::PageFile;
use hv_model::{BoundQuery, PlaceAst, SelectAst};
use hv_row::{Bytes, Copied};
use hv_view::Snapshot;
use std::alloc::{AllocError, Global};

/// A select's query, and the chunks of the table of each of its places.
#[derive(Drop)]
pub struct Selected<F> {
    pub query: BoundQuery,
    pub view: Snapshot<Chunk<F>>,
}

/// The query that a select means over the catalogue's tables with these, or its first refusal but for what its rows decide.
pub fn select_tables<F: PageFile>(
    alloc: Global,
    select: &SelectAst,
    catalogue: &Catalogue<Chunk<F>>,
) -> Result<Selected<F>, BindFault>
    requires one_place { is_grouped select.now ≡ true → length select.now.places ≡ 1 }
    requires sound { IsSound F.tells F.pages catalogue.now }
    ensures bound { IfOk result (λ selected. spec.select_query select.now (database_of catalogue.now) ≡ Some selected.query) }
    ensures paired { IfOk result (λ selected. length selected.view.tables ≡ length selected.query.places) }
    ensures holds { IfOk result (λ selected. HoldsOn F.tells F.pages catalogue.now selected.query.places selected.view) }
    ensures stands { IfOk result (λ selected. All (TableStands F.tells F.pages) selected.view.tables) }
    ensures few { IfOk result (λ selected. length selected.view.tables ≤ 4) }
    ensures short { IfOk result (λ selected. All (λ t. length t.chunks ≤ 1024) selected.view.tables) }
    ensures refused { IfErr result (λ fault. IsFirstRefusal (spec.select_refusal select.now (database_of catalogue.now)) fault) }
{
    let names = first_names(alloc, select.places.as_slice())?;
    // A table has few chunks.
    let _length = catalogue.length();
    let taken = match catalogue.snapshot(alloc, names.as_slice()) {
        Ok(taken) => taken,
        Err(SnapFault::NoTable { place, .. }) => return Err(absent_fault(select, place)),
        Err(SnapFault::Memory) => return Err(BindFault::Memory),
    };
    if let Some(cause) = places(select, None) {
        return Err(BindFault::Refused(cause));
    }
    let query = bind(alloc, select, taken.heads.as_slice())?;
    Ok(Selected {
        query,
        view: taken.view,
    })
}

// The names of the tables of the first places, as many as a select may have.
fn first_names(alloc: Global, places: &[PlaceAst]) -> Result<Vec<Bytes>, AllocError>
    ensures names { IfOk result (λ names. names.items ≡ map (λ p. p.table.name) (take 4 places.now)) }
    ensures few { IfOk result (λ names. length names.items ≤ 4) }
{
    let first = &places[..places.len().min(MAX_PLACES)];
    let mut names = Vec::with_capacity(alloc, first.len())?;
    for place in first {
        names.push(place.table.name.copy(alloc)?)?;
    }
    Ok(names)
}

// Why a select has no query whose place of this number, from 0, is the first of which no table stands.
fn absent_fault(select: &SelectAst, place: u8) -> BindFault
    ensures { IsFirstRefusal (places_refusal select.now.places (Some place)) result }
{
    match places(select, Some(place)) {
        Some(cause) => BindFault::Refused(cause),
        None => BindFault::Memory,
    }
}
