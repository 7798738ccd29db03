// The job that makes a chunk of an import's rows.
ghost use Rattle.std.specs.Prelude.{◌≡◌, ℕ, ◌<◌, ◌≤◌, Bool, false, List, Some, [], length, IfOk, IfErr, OnErr, OnOk};
ghost use Rattle.hv_row.specs.Packed.{Packed};
ghost use Rattle.hv_chunk.specs.Building.{IsBuildFault};
ghost use Rattle.hv_import.specs.Rows.{AreShort};
ghost use Rattle.hv_import.specs.Job.{HasPushed, Importing, IsOver, IsPagePushed, IsTurn};

use hv_chunk::{BuildFault, ChunkBuilder, JobTurn};
use hv_dev::PageSink;
use hv_row::{Copied, PackedRows};
use std::alloc::{AllocError, Global};
use std::marker::Model;

/// Makes a chunk of rows, page by page: each turn but the last pushes rows until one page was written or no row is left,
/// and the last one finishes the chunk.
#[derive(Drop)]
pub struct ImportJob {
    rows: PackedRows,
    // How many of the rows are pushed.
    pushed: usize,
    // `None` once the job is over.
    builder: Option<ChunkBuilder>,
}

impl Model for ImportJob {
    ghost use Rattle.std.specs.Prelude.{is_none};
    ghost use Rattle.hv_import.specs.Job.{Importing, IsImporting, pages_of};

    ghost Value = { Importing };

    ghost view = { λ j. record { schema = j.rows.schema; rows = j.rows.rows; pushed = j.pushed; pages = pages_of j.builder; over = is_none j.builder } };

    ghost invariant = { λ j. IsImporting j.rows j.pushed j.builder };
}

impl ImportJob {
    /// A job of these rows, at most 1,000,000 of at most 2,000 row bytes each, of which none is pushed. `Err` only for
    /// want of memory.
    pub fn new(alloc: Global, rows: PackedRows) -> Result<ImportJob, AllocError>
        requires few { length rows.rows ≤ 1000000 }
        requires short { AreShort rows.schema rows.rows }
        ensures { IfOk result (λ job. job ≡ record { schema = rows.schema; rows = rows.rows; pushed = 0; pages = []; over = false }) }
    {
        let builder = ChunkBuilder::new(alloc, rows.schema().copy(alloc)?)?;
        Ok(ImportJob {
            rows,
            pushed: 0,
            builder: Some(builder),
        })
    }

    /// One turn. It goes on exactly where a row was left and nothing failed, and then fewer are left; else the job is
    /// over. It never waits and reads nothing. After a fault the open file is abandoned.
    pub fn turn<P: PageSink>(&mut self, alloc: Global, port: &mut P) -> JobTurn<P::File>
        requires going { self.old.over ≡ false }
        // The pages written since the last seal or abandon are this job's.
        requires mine { P.written port.old ≡ Some self.old.pages }
        ensures turn { IsTurn P.File.tells P.File.pages self.old self.new (P.write_faults port.old) (P.write_faults port.new) result }
        ensures mine_still { P.written port.new ≡ Some self.new.pages }
        ensures rows { self.new.rows ≡ self.old.rows }
        ensures schema { self.new.schema ≡ self.old.schema }
        ensures kept { P.reading port.new ≡ P.reading port.old }
    {
        let mut builder = self.builder.take().unwrap();
        if self.pushed == self.rows.len() {
            return match builder.finish(alloc, port) {
                Ok(chunk) => JobTurn::Made(chunk),
                Err(fault) => failed(fault),
            };
        }
        match push_page(&mut builder, &self.rows, self.pushed, alloc, port) {
            Ok(pushed) => {
                self.pushed = pushed;
                self.builder = Some(builder);
                JobTurn::Went
            }
            Err(fault) => failed(fault),
        }
    }
}

// Pushes the rows from a place on until a page was written or none is left, and gives how many are pushed then.
fn push_page<P: PageSink>(
    builder: &mut ChunkBuilder,
    rows: &PackedRows,
    from: usize,
    alloc: Global,
    port: &mut P,
) -> Result<usize, BuildFault>
    requires few { length rows.now.rows ≤ 1000000 }
    requires short { AreShort rows.now.schema rows.now.rows }
    requires left { from < length rows.now.rows }
    requires has { HasPushed rows.now from builder.old }
    requires mine { P.written port.old ≡ Some builder.old.pages }
    ensures has { IfOk result (λ pushed. HasPushed rows.now pushed builder.new) }
    ensures some { IfOk result (λ pushed. (from < pushed) × (pushed ≤ length rows.now.rows)) }
    ensures page { IfOk result (λ pushed. IsPagePushed rows.now builder.old.pages builder.new.pages pushed) }
    ensures mine_still { OnOk result (P.written port.new ≡ Some builder.new.pages) }
    ensures calm { OnOk result (P.write_faults port.new ≡ P.write_faults port.old) }
    ensures cause { IfErr result (λ fault. IsBuildFault fault 0 (P.write_faults port.old) (P.write_faults port.new)) }
    ensures abandoned { OnErr result (P.written port.new ≡ Some []) }
    ensures kept { P.reading port.new ≡ P.reading port.old }
{
    let before = builder.pages_written();
    for at in from..rows.len() {
        builder.push_spelled(alloc, rows.row(at), port)?;
        if builder.pages_written() > before {
            return Ok(at + 1);
        }
    }
    Ok(rows.len())
}

// The turn that this fault ends.
fn failed<F>(fault: BuildFault) -> JobTurn<F>
    ensures { (tells : Bool) (pages : F → List (List ℕ)) (before after : Importing) (faults now : ℕ) → IsBuildFault fault 0 faults now → IsOver after → IsTurn tells pages before after faults now result }
{
    match fault {
        BuildFault::Write => JobTurn::WriteFault,
        // No row is too long.
        BuildFault::Memory | BuildFault::TooLong => JobTurn::Memory,
    }
}
