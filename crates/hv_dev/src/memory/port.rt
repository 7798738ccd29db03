// A port in memory.
ghost use Rattle.std.specs.Prelude.{◌≡◌, ◌<◌, [], length, IfOk, false};

use super::draw::Draw;
use super::file::MemFile;
use super::plan::Plan;
use crate::reads::{Landed, Queue};
use crate::{Order, PageSink, Past, Port, PutFault, Reaped, as_page};
use hv_frames::Frame;
use std::alloc::{AllocError, Global};
use std::mem;
use std::sync::Arc;

/// A port in memory: the open file's pages, the reads under way, and the counts.
#[derive(Drop)]
pub struct MemPort<P> {
    pub(super) plan: P,
    pages: Vec<[u8; 4096]>,
    is_given_up: bool,
    pub(super) queue: Queue<MemFile<P>>,
    pub(super) landings: Past<Landed<MemFile<P>>>,
    draw: Draw,
}

impl<P: Plan> MemPort<P> {
    /// A port with that plan, number and room.
    pub fn new(
        plan: P,
        alloc: Global,
        order: Order,
        number: u64,
        room: u32,
    ) -> Result<MemPort<P>, AllocError>
        ensures plan { IfOk result (λ port. port.plan ≡ plan) }
        ensures room { IfOk result (λ port. port.queue.room ≡ room) }
        ensures open { IfOk result (λ port. (port.is_given_up ≡ false) × (port.pages.items ≡ [])) }
        ensures unread { IfOk result (λ port. (port.queue.held.items ≡ []) × (port.queue.submits ≡ 0) × (port.queue.most ≡ 0) × (port.landings ≡ [])) }
    {
        let queue = Queue::new(alloc, room)?;
        Ok(MemPort {
            plan,
            pages: Vec::new(alloc),
            is_given_up: false,
            queue,
            landings: Past::new(),
            draw: Draw::new(order, number),
        })
    }
}

impl<P: Plan> PageSink for MemPort<P> {
    type File = MemFile<P>;

    ghost use Rattle.hv_dev.specs.Reads.{open_pages};

    ghost reading = { λ it. record { in_flight = it.queue.held.items; room = it.queue.room; submits = it.queue.submits; most = it.queue.most; read_faults = P.read_faults it.plan; landings = it.landings } };

    ghost write_faults = { λ it. P.write_faults it.plan };

    ghost written = { λ it. open_pages it.is_given_up it.pages.items };

    fn write(&mut self, _: Global, page: &[u8]) -> Result<(), PutFault> {
        if self.plan.fails_write() {
            self.is_given_up = true;
            return Err(PutFault::Failed);
        }
        match self.pages.push(*as_page(page)) {
            Ok(()) => Ok(()),
            Err(_) => {
                self.is_given_up = true;
                Err(PutFault::Memory)
            }
        }
    }

    fn seal(&mut self, alloc: Global) -> Result<Arc<MemFile<P>, Global>, PutFault> {
        if self.plan.fails_seal() {
            self.is_given_up = true;
            return Err(PutFault::Failed);
        }
        let pages = mem::replace(&mut self.pages, Vec::new(alloc));
        match Arc::new(alloc, MemFile::new(pages)) {
            Ok(file) => Ok(file),
            Err(_) => {
                self.is_given_up = true;
                Err(PutFault::Memory)
            }
        }
    }

    fn abandon(&mut self) {
        self.pages.clear();
        self.is_given_up = false;
    }
}

impl<P: Plan> Port for MemPort<P> {
    ghost use Rattle.std.specs.Arc.{arc_value};
    ghost use Rattle.hv_dev.specs.Reading.{submitted};

    fn submit(&mut self, file: Arc<MemFile<P>, Global>, number: u32, frame: Frame, tag: u64)
        requires room { length (⟦<MemPort<P> as PageSink>⟧.reading self.old).in_flight < (⟦<MemPort<P> as PageSink>⟧.reading self.old).room }
        ensures under_way { ⟦<MemPort<P> as PageSink>⟧.reading self.new ≡ submitted (⟦<MemPort<P> as PageSink>⟧.reading self.old) (record { tag = tag; file = arc_value file; page = number; owner = frame.owner; frame = frame.number }) }
        ensures faults { ⟦<MemPort<P> as PageSink>⟧.write_faults self.new ≡ ⟦<MemPort<P> as PageSink>⟧.write_faults self.old }
        ensures kept { ⟦<MemPort<P> as PageSink>⟧.written self.new ≡ ⟦<MemPort<P> as PageSink>⟧.written self.old }
    {
        self.queue.submit(file, number, frame, tag);
    }

    fn reap(&mut self) -> Reaped {
        let at = self.draw.pick(self.queue.len());
        let held = self.queue.take(at);
        held.land(&mut self.plan, &mut self.landings)
    }

    fn count_submits(&self) -> u64 {
        self.queue.submits
    }

    fn count_most(&self) -> u32 {
        self.queue.most
    }
}
