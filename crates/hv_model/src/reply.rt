// What a statement is answered.
ghost use Rattle.std.specs.Prelude.{◌≡◌};
ghost use Rattle.hv_model.specs.declared.reply.Failure.TheVariants.{Memory};

use crate::{Detail, OutRows};
use hv_row::{Digest, Listed};
use std::alloc::AllocError;

/// Why a statement is refused; nothing has changed then.
#[derive(Debug, Clone, Copy, PartialEq, Eq)]
pub enum Refusal {
    /// The statement isn't built yet.
    Unbuilt,
    /// The token at this byte, or the text's end, is the first with which no statement goes on.
    Syntax { byte: u32 },
    /// More than 32 columns.
    TooManyColumns,
    /// A column of a name that stood before, by its number, from 1.
    DuplicateColumn { column: u8 },
    /// A table of this name stands.
    TableExists,
    /// 64 tables stand.
    TooManyTables,
    /// A table that doesn't stand, where its name begins.
    NoTable { byte: u32 },
    /// The first record of an import that is no row of the table's schema, by its number, from 1; and the number of the first column, from 1,
    /// whose field is no value of it. The column is 0 where the record has another number of fields than the schema has columns, or is one
    /// past the most that an import has.
    BadRow { row: u32, column: u8 },
    /// The first record of an import that is no row of the table's schema: its row bytes are more than 2,000.
    LongRow { row: u32 },
    /// The table has 1,024 chunks.
    TooManyChunks,
    /// The table has no chunk of this number.
    NoChunk { chunk: u64 },
    /// The history has 65,536 entries.
    HistoryFull,
    /// A fifth FROM place, where its table's name begins.
    TooManyPlaces { byte: u32 },
    /// A second FROM place of this alias, where the alias begins.
    DuplicateAlias { byte: u32 },
    /// A reference to no column, where it begins.
    NoColumn { byte: u32 },
    /// A reference without an alias to columns of two places, where it begins.
    Ambiguous { byte: u32 },
    /// A comparison of a number with a text, at its symbol; or the sum of a column of texts, at the reference.
    TypeMismatch { byte: u32 },
    /// A column that isn't a group column, at the reference or at the `*`.
    NotGrouped { byte: u32 },
    /// An order key that names no item, where the key begins.
    NoOutput { byte: u32 },
    /// SUM, MIN or MAX over no combination, without GROUP BY.
    EmptyAggregate,
}

/// Why a page of a chunk does not serve.
#[derive(Debug, Clone, Copy, PartialEq, Eq)]
pub enum Why {
    /// Its digest is another than the one recorded for it.
    Digest { recorded: Digest, found: Digest },
    /// It has the recorded digest, and no form: the first byte that fails.
    Form { byte: u16 },
}

/// Why a statement failed; nothing has changed then, and it gives no row.
#[derive(Debug, Clone, Copy, PartialEq, Eq)]
pub enum Failure {
    /// A read failed: of a query alone.
    Read,
    /// A write or a seal failed: of an import alone.
    Write,
    /// A page that was read is not the one that was written: of a query alone.
    Damaged { chunk: u32, page: u32, why: Why },
    /// Want of memory.
    Memory,
}

impl From<AllocError> for Failure {
    ghost from_gives = { λ _ failure. failure ≡ Memory };

    fn from(_error: AllocError) -> Failure {
        Failure::Memory
    }
}

/// The reply to a statement; `at` is a length of the history.
#[derive(Debug, Drop)]
pub enum Reply {
    /// The command was accepted; `at` is the length after it.
    Done { at: u32, what: Detail },
    /// The query's rows over the database after `at` entries.
    Rows { at: u32, rows: OutRows },
    /// Refused over the database after `at` entries.
    Refused { at: u32, cause: Refusal },
    /// Failed; `at` is the length that the statement last read.
    Failed { at: u32, cause: Failure },
}

/// The replies of a session, by the numbers of its statements.
pub type Replies = Listed<Reply>;
