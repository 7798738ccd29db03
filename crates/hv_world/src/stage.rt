// A statement under way, and what one step makes of it.
use crate::select::SelectJob;
use hv_catalogue::Catalogue;
use hv_chunk::Chunk;
use hv_import::ImportJob;
use hv_model::{Reply, Word};
use std::snapshot::Snapshot;

/// What a statement read of the catalogue when it last looked: the length of the history, and, for clauses alone, all that
/// the catalogue held.
#[derive(Drop)]
pub struct Look<F> {
    pub at: u32,
    pub held: Snapshot<Catalogue<Chunk<F>>>,
}

/// A statement between two of its steps.
#[derive(Drop)]
pub enum Stage<F> {
    /// No step was taken yet.
    Unbegun,
    /// An import whose table stood when it was looked up; its rows are read next.
    Rows {
        table: Word,
        look: Look<F>,
    },
    /// An import whose rows go to pages.
    Building {
        table: Word,
        look: Look<F>,
        job: ImportJob,
    },
    /// An import whose chunk is sealed; it is committed next.
    Made {
        table: Word,
        look: Look<F>,
        chunk: Chunk<F>,
    },
    /// A query that reads its tables.
    Reading {
        job: SelectJob<F>,
    },
}

/// What one step makes of a statement: it goes on, or it is answered.
#[derive(Drop)]
pub enum Step<F> {
    Goes(Stage<F>),
    Answered(Reply),
}
