// Tables as the catalogue keeps them.
ghost use Rattle.std.specs.Prelude.{◌≡◌, ◌<◌, [], ◌∷◌, ◌++◌, length, position, slice_get, slice_set, Some, None, false, map, IfOk, IfSome, OnOk, OnErr};
ghost use Rattle.hv_row.specs.Schema.{same_name};
ghost use Rattle.hv_model.specs.declared.catalogue.Table.{Table};
ghost use Rattle.hv_model.specs.Database.{has_chunk, with_last_chunk, without_chunk};
ghost use Rattle.hv_model.specs.Selected.{head_of};
ghost use Rattle.hv_catalogue.specs.Holding.{held_table};
ghost use Rattle.hv_catalogue.specs.Stored.{tables_of};

use hv_model::TableHead;
use hv_row::{Bytes, Copied, Schema, Shared};
use hv_view::{HeldChunk, HeldChunks, HeldTable};
use indexmap::IndexMap;
use std::alloc::{AllocError, Global};

// A table: its schema, and its chunks by their numbers, in order.
#[derive(Drop)]
pub(crate) struct Stored<C> {
    pub(crate) schema: Schema,
    pub(crate) chunks: IndexMap<u32, Shared<C>>,
}

// The number of the table of a name.
pub(crate) fn number_of<C>(tables: &IndexMap<Bytes, Stored<C>>, name: &Bytes) -> Option<usize>
    ensures number { result ≡ position (λ t. same_name t.name name.now) (tables_of tables.now.entries) }
    ensures within { IfSome result (λ at. at < length tables.now.entries) }
{
    tables.get_index_of(name)
}

// The schema of the table of a number.
pub(crate) fn schema_at<C>(tables: &IndexMap<Bytes, Stored<C>>, at: usize) -> &Schema
    requires { at < length tables.now.entries }
    ensures { (t : Table C) → slice_get (tables_of tables.now.entries) at ≡ Some t → result.now ≡ t.schema }
{
    &tables[at].schema
}

// How many chunks the table of a number has.
pub(crate) fn chunk_count<C>(tables: &IndexMap<Bytes, Stored<C>>, at: usize) -> usize
    requires { at < length tables.now.entries }
    ensures { (t : Table C) → slice_get (tables_of tables.now.entries) at ≡ Some t → result ≡ length t.chunks }
{
    tables[at].chunks.len()
}

// Whether the table of a number has this chunk.
pub(crate) fn holds_chunk<C>(tables: &IndexMap<Bytes, Stored<C>>, at: usize, number: u32) -> bool
    requires { at < length tables.now.entries }
    ensures { (t : Table C) → slice_get (tables_of tables.now.entries) at ≡ Some t → result ≡ has_chunk number t }
{
    tables[at].chunks.contains_key(&number)
}

// Puts a table of a new name last.
pub(crate) fn add_table<C: Drop>(
    tables: &mut IndexMap<Bytes, Stored<C>>,
    alloc: Global,
    name: Bytes,
    schema: Schema,
) -> Result<(), AllocError>
    requires { position (λ t. same_name t.name name) (tables_of tables.old.entries) ≡ None }
    ensures ok { OnOk result (tables_of tables.new.entries ≡ tables_of tables.old.entries ++ (record { name = name; schema = schema; chunks = [] }) ∷ []) }
    ensures err { OnErr result (tables.new.entries ≡ tables.old.entries) }
{
    let chunks = IndexMap::new(alloc);
    match tables.insert(name, Stored { schema, chunks }) {
        Ok(_) => Ok(()),
        Err(_) => Err(AllocError),
    }
}

// Puts a chunk of a new number last in the table of a number.
pub(crate) fn add_chunk<C: Drop>(
    tables: &mut IndexMap<Bytes, Stored<C>>,
    at: usize,
    number: u32,
    chunk: Shared<C>,
) -> Result<(), AllocError>
    requires within { at < length tables.old.entries }
    requires fresh { (t : Table C) → slice_get (tables_of tables.old.entries) at ≡ Some t → has_chunk number t ≡ false }
    ensures ok { OnOk result ((t : Table C) → slice_get (tables_of tables.old.entries) at ≡ Some t → tables_of tables.new.entries ≡ slice_set (tables_of tables.old.entries) at (with_last_chunk t number chunk)) }
    ensures err { OnErr result (tables_of tables.new.entries ≡ tables_of tables.old.entries) }
{
    match tables[at].chunks.insert(number, chunk) {
        Ok(_) => Ok(()),
        Err(_) => Err(AllocError),
    }
}

// Takes the chunk of this number out of the table of a number; the others stay in order.
pub(crate) fn remove_chunk<C: Drop>(tables: &mut IndexMap<Bytes, Stored<C>>, at: usize, number: u32)
    requires { at < length tables.old.entries }
    ensures { (t : Table C) → slice_get (tables_of tables.old.entries) at ≡ Some t → tables_of tables.new.entries ≡ slice_set (tables_of tables.old.entries) at (without_chunk t number) }
{
    let chunks = &mut tables[at].chunks;
    // The length is what says that no two chunks have one number.
    let _count = chunks.len();
    chunks.shift_remove(&number);
}

// What has to be known of the table of a number, at most 64 of them.
pub(crate) fn head_at<C>(
    alloc: Global,
    tables: &IndexMap<Bytes, Stored<C>>,
    at: usize,
) -> Result<TableHead, AllocError>
    requires within { at < length tables.now.entries }
    requires few { at < 64 }
    ensures { IfOk result (λ head. (t : Table C) → slice_get (tables_of tables.now.entries) at ≡ Some t → head ≡ head_of at t) }
{
    let (name, table) = tables.get_index(at).unwrap();
    Ok(TableHead {
        number: at as u32,
        name: name.copy(alloc)?,
        schema: table.schema.copy(alloc)?,
    })
}

// The table of a number, as a query holds it.
pub(crate) fn held_at<C: Drop>(
    alloc: Global,
    tables: &IndexMap<Bytes, Stored<C>>,
    at: usize,
) -> Result<HeldTable<C>, AllocError>
    requires { at < length tables.now.entries }
    ensures { IfOk result (λ held. (t : Table C) → slice_get (tables_of tables.now.entries) at ≡ Some t → held ≡ held_table t) }
{
    let table = &tables[at];
    let mut chunks = HeldChunks::with_capacity(alloc, table.chunks.len())?;
    for place in 0..table.chunks.len() {
        let (number, chunk) = table.chunks.get_index(place).unwrap();
        chunks.push(HeldChunk {
            chunk: *number,
            view: chunk.copy(alloc)?,
        })?;
    }
    Ok(HeldTable { chunks })
}
