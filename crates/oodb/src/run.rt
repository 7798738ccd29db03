// The top call.
ghost use Rattle.std.specs.List.{list_any};
ghost use Rattle.std.specs.Prelude.{◌≡◌, false, ◌⊎◌, ℕ, List, Ok, IsOk, IfSome, IfErr};
ghost use Rattle.hv_io.specs.Bytes.{Seen};
ghost use Rattle.hv_io.specs.Seen.{seen};
ghost use Rattle.hv_script.specs.Words.{options};
ghost use Rattle.hv_model.specs.Script.{IsScript};
ghost use Rattle.hv_report.specs.Law.{InRange};
ghost use Rattle.hv_report.specs.Text.{replies_of, text_of};
ghost use Rattle.hv_world.specs.Unused.{IsUnused};
ghost use Rattle.hv_world.specs.World.{IsDone};
ghost use Rattle.oodb.specs.Lines.{Written};
ghost use Rattle.oodb.specs.Causes.{DeviceKept, IsCalm};
ghost use Rattle.oodb.specs.Outcome.{source_seen, around, IsRun, TookReport, TookWordLine, TookFaultLine, SourceFailed, CutShort, NoMemory, ReportsOn, WholeOrCut, IsReported, status_of, is_failed};
ghost use Rattle.oodb.specs.Statuses.{TellsFault, IsNoScript, SinkRose, SinkKept, SinkCalm, IsAnswered};
ghost use Rattle.oodb.specs.declared.status.Status.TheVariants as status;

use crate::lines::{put_fault_line, put_word_line};
use crate::picks::Picks;
use crate::status::Status;
use hv_dev::{Device, Order};
use hv_io::{PutAll, Sink, Source};
use hv_model::{Reply, Script};
use hv_report::{Report, SessionReport, write_report};
use hv_row::Bytes;
use hv_script::{Options, ReadScriptFault, read_script, read_words};
use hv_world::World;
use std::alloc::Global;

/// Reads the words and the script, lets the script's sessions take their steps over files of the device, and writes the report.
/// Each session has one port with room for one read, and one frame; the ports come back.
pub fn run<S: Source, K: Sink, D: Device>(
    alloc: Global,
    words: &[Bytes],
    script: &mut S,
    out: &mut K,
    dev: &mut D,
) -> Status
    ensures outcome { IsRun D.Port.File.tells (options false words.now) result (around S.Source K.Sink D.Device script.old out.old dev.old) (around S.Source K.Sink D.Device script.new out.new dev.new) }
    ensures report { IsReported result → TookReport D.Port.File.tells (options false words.now) result (around S.Source K.Sink D.Device script.old out.old dev.old) (around S.Source K.Sink D.Device script.new out.new dev.new) }
    ensures words_line { result ≡ status.Words → TookWordLine (options false words.now) (around S.Source K.Sink D.Device script.old out.old dev.old) (around S.Source K.Sink D.Device script.new out.new dev.new) }
    ensures words { IfErr (options false words.now) (λ i. (source_seen S.Source script.new ≡ source_seen S.Source script.old) × ((result ≡ status.Words) ⊎ (result ≡ status.SinkFault))) }
    ensures script_line { result ≡ status.Script → TookFaultLine (options false words.now) (around S.Source K.Sink D.Device script.old out.old dev.old) (around S.Source K.Sink D.Device script.new out.new dev.new) }
    ensures script { IsOk (options false words.now) → TellsFault (options false words.now) result (around S.Source K.Sink D.Device script.old out.old dev.old) (around S.Source K.Sink D.Device script.new out.new dev.new) }
    ensures no_script { result ≡ status.Script → IfSome (S.left script.old) (λ bytes. IsNoScript bytes) }
    ensures source { result ≡ status.SourceFault → SourceFailed (options false words.now) (around S.Source K.Sink D.Device script.old out.old dev.old) (around S.Source K.Sink D.Device script.new out.new dev.new) }
    ensures calm { ¬ (result ≡ status.SourceFault) → S.faults script.new ≡ S.faults script.old }
    ensures sink { result ≡ status.SinkFault → SinkRose (seen K.Sink out.old) (seen K.Sink out.new) × CutShort D.Port.File.tells (options false words.now) (around S.Source K.Sink D.Device script.old out.old dev.old) (around S.Source K.Sink D.Device script.new out.new dev.new) }
    ensures sink_calm { ¬ (result ≡ status.SinkFault) → SinkKept (seen K.Sink out.old) (seen K.Sink out.new) }
    ensures memory { result ≡ status.Memory → NoMemory (options false words.now) (around S.Source K.Sink D.Device script.old out.old dev.old) (around S.Source K.Sink D.Device script.new out.new dev.new) }
    ensures device { ¬ (IsReported result) → ¬ (result ≡ status.SinkFault) → ¬ (result ≡ status.Memory) → D.returned dev.new ≡ D.returned dev.old }
    ensures unused { result ≡ status.Memory → IsUnused (D.returned dev.old) (D.returned dev.new) }
    ensures ports { DeviceKept (D.returned dev.old) (D.returned dev.new) }
    ensures complete { IsOk (options false words.now) → IsCalm (S.faults script.old) (S.faults script.new) → SinkCalm (seen K.Sink out.old) (seen K.Sink out.new) → IfSome (S.left script.old) (λ bytes. IsAnswered bytes result) }
{
    run_words(alloc, words, script, out, dev)
}

// Reads the words, and then the script.
fn run_words<S: Source, K: Sink, D: Device>(
    alloc: Global,
    words: &[Bytes],
    script: &mut S,
    out: &mut K,
    dev: &mut D,
) -> Status
    ensures { IsRun D.Port.File.tells (options false words.now) result (around S.Source K.Sink D.Device script.old out.old dev.old) (around S.Source K.Sink D.Device script.new out.new dev.new) }
{
    match read_words(false, words) {
        Err(word) => written_status(put_word_line(out, word), Status::Words),
        Ok(options) => run_script(alloc, options, script, out, dev),
    }
}

// Reads the script, and answers it.
fn run_script<S: Source, K: Sink, D: Device>(
    alloc: Global,
    options: Options,
    source: &mut S,
    out: &mut K,
    dev: &mut D,
) -> Status
    ensures { IsRun D.Port.File.tells (Ok options) result (around S.Source K.Sink D.Device source.old out.old dev.old) (around S.Source K.Sink D.Device source.new out.new dev.new) }
{
    match read_script(alloc, source) {
        Ok(script) => report(alloc, options.order, script, out, dev),
        Err(ReadScriptFault::Found(fault)) => written_status(
            put_fault_line(out, fault),
            Status::Script,
        ),
        Err(ReadScriptFault::Source) => Status::SourceFault,
        Err(ReadScriptFault::Memory) => Status::Memory,
    }
}

// Lets a script's sessions take their steps and writes the report. All memory for the history, the replies and the report is taken before the
// first step.
fn report<K: Sink, D: Device>(
    alloc: Global,
    order: Order,
    script: Script,
    out: &mut K,
    dev: &mut D,
) -> Status
    requires { (bytes : List ℕ) × IsScript bytes script }
    ensures { ReportsOn D.Port.File.tells script result (seen K.Sink out.old) (seen K.Sink out.new) (D.returned dev.old) (D.returned dev.new) }
{
    let Ok(world) = World::new(alloc, script, order, dev) else {
        return Status::Memory;
    };
    let done = take_turns(alloc, order, world);
    let report = done.report(dev);
    write_whole(&report, out)
}

// Lets one session after another take a step, until each statement has its reply.
fn take_turns<D: Device>(alloc: Global, order: Order, world: World<D>) -> World<D>
    ensures done { IsDone result }
    ensures script { result.script ≡ world.script }
{
    let mut picks = Picks::new(order);
    let mut world = world;
    while !world.done() {
        let k = picks.next(&world);
        world.pick(alloc, k);
    }
    world
}

// Writes a report; the status is that of its replies where it is taken whole.
fn write_whole<K: Sink>(report: &Report, out: &mut K) -> Status
    ensures over { WholeOrCut (text_of report.now) (status_of (replies_of report.now.sessions)) result (seen K.Sink out.old) (seen K.Sink out.new) }
    ensures in_range { InRange report.now }
{
    let full = full_status(report.sessions.as_slice());
    written_status(write_report(out, report), full)
}

// The status of a report that is taken whole.
fn full_status(sessions: &[SessionReport]) -> Status
    ensures { result ≡ status_of (replies_of sessions.now) }
{
    if any_failed(sessions) {
        Status::SomeFailed
    } else {
        Status::Fine
    }
}

fn any_failed(sessions: &[SessionReport]) -> bool
    ensures { result ≡ list_any (λ session. list_any is_failed session.replies) sessions.now }
{
    sessions.iter().any(some_failed)
}

fn some_failed(session: &SessionReport) -> bool
    ensures { result ≡ list_any is_failed session.now.replies }
{
    session.replies.as_slice().iter().any(is_failed)
}

fn is_failed(reply: &Reply) -> bool
    ensures { result ≡ is_failed reply.now }
{
    matches!(reply, Reply::Failed { .. })
}

// The status of a text that was written: the full one where all of it was taken.
fn written_status(outcome: Result<(), PutAll>, full: Status) -> Status
    ensures { (text : List ℕ) (before after : Seen) → Written outcome before text after → WholeOrCut text full result before after }
{
    match outcome {
        Ok(()) => full,
        Err(_) => Status::SinkFault,
    }
}
