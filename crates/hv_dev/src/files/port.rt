// A port over files in a folder.
ghost use Rattle.std.specs.Prelude.{◌≡◌, ◌<◌, [], length, IfOk, false};
ghost use Rattle.hv_dev.specs.Fault.{IsCaused};

use super::file::StoredFile;
use super::writer::Writer;
use crate::reads::{Landed, Queue};
use crate::{PageSink, Past, Port, PutFault, Reaped, as_page};
use hv_frames::Frame;
use std::alloc::{AllocError, Global};
use std::rt::Files;
use std::sync::Arc;

/// A port over files in a folder: what writes them, the reads under way, and the counts.
#[derive(Drop)]
pub struct FilePort<R: Files> {
    writer: Writer<R>,
    pages: Past<[u8; 4096]>,
    is_given_up: bool,
    pub(super) write_faults: u64,
    pub(super) read_faults: u64,
    pub(super) queue: Queue<StoredFile>,
    pub(super) landings: Past<Landed<StoredFile>>,
}

impl<R: Files + Drop> FilePort<R> {
    /// A port with that room, whose files are written so.
    pub fn new(alloc: Global, writer: Writer<R>, room: u32) -> Result<FilePort<R>, AllocError>
        ensures writer { IfOk result (λ port. port.writer ≡ writer) }
        ensures room { IfOk result (λ port. port.queue.room ≡ room) }
        ensures open { IfOk result (λ port. (port.is_given_up ≡ false) × (port.pages ≡ []) × (port.write_faults ≡ 0)) }
        ensures unread { IfOk result (λ port. (port.queue.held.items ≡ []) × (port.queue.submits ≡ 0) × (port.queue.most ≡ 0) × (port.read_faults ≡ 0) × (port.landings ≡ [])) }
    {
        let queue = Queue::new(alloc, room)?;
        Ok(FilePort {
            writer,
            pages: Past::new(),
            is_given_up: false,
            write_faults: 0,
            read_faults: 0,
            queue,
            landings: Past::new(),
        })
    }
}

impl<R: Files + Drop> PageSink for FilePort<R> {
    type File = StoredFile;

    ghost use Rattle.hv_dev.specs.Reads.{open_pages};

    ghost reading = { λ it. record { in_flight = it.queue.held.items; room = it.queue.room; submits = it.queue.submits; most = it.queue.most; read_faults = it.read_faults; landings = it.landings } };

    ghost write_faults = { λ it. it.write_faults };

    ghost written = { λ it. open_pages it.is_given_up it.pages };

    fn write(&mut self, alloc: Global, page: &[u8]) -> Result<(), PutFault> {
        if let Err(fault) = self.writer.append(alloc, page) {
            self.is_given_up = true;
            count(fault, &mut self.write_faults);
            return Err(fault);
        }
        self.pages.note(as_page(page));
        Ok(())
    }

    fn seal(&mut self, alloc: Global) -> Result<Arc<StoredFile, Global>, PutFault> {
        match self.writer.finish(alloc) {
            Ok(file) => {
                self.pages = Past::new();
                Ok(file)
            }
            Err(fault) => {
                self.is_given_up = true;
                count(fault, &mut self.write_faults);
                Err(fault)
            }
        }
    }

    fn abandon(&mut self) {
        self.writer.abandon();
        self.pages = Past::new();
        self.is_given_up = false;
    }
}

impl<R: Files + Drop> Port for FilePort<R> {
    ghost use Rattle.std.specs.Arc.{arc_value};
    ghost use Rattle.hv_dev.specs.Reading.{submitted};

    fn submit(&mut self, file: Arc<StoredFile, Global>, number: u32, frame: Frame, tag: u64)
        requires room { length (⟦<FilePort<R> as PageSink>⟧.reading self.old).in_flight < (⟦<FilePort<R> as PageSink>⟧.reading self.old).room }
        ensures under_way { ⟦<FilePort<R> as PageSink>⟧.reading self.new ≡ submitted (⟦<FilePort<R> as PageSink>⟧.reading self.old) (record { tag = tag; file = arc_value file; page = number; owner = frame.owner; frame = frame.number }) }
        ensures faults { ⟦<FilePort<R> as PageSink>⟧.write_faults self.new ≡ ⟦<FilePort<R> as PageSink>⟧.write_faults self.old }
        ensures kept { ⟦<FilePort<R> as PageSink>⟧.written self.new ≡ ⟦<FilePort<R> as PageSink>⟧.written self.old }
    {
        self.queue.submit(file, number, frame, tag);
    }

    fn reap(&mut self) -> Reaped {
        let held = self.queue.take(0);
        held.fetch(&self.writer.rt, &mut self.read_faults, &mut self.landings)
    }

    fn count_submits(&self) -> u64 {
        self.queue.submits
    }

    fn count_most(&self) -> u32 {
        self.queue.most
    }
}

// Counts a fault, and want of memory not.
fn count(fault: PutFault, faults: &mut u64)
    ensures { IsCaused fault faults.old faults.new }
{
    match fault {
        PutFault::Failed => *faults = faults.saturating_add(1),
        PutFault::Memory => {}
    }
}
