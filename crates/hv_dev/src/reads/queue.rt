// The reads of a port that are under way.
ghost use Rattle.std.specs.Prelude.{◌≡◌, ◌+◌, ◌<◌, ◌≤◌, [], ◌∷◌, ◌++◌, length, max, IfOk};
ghost use Rattle.std.specs.Arc.{arc_value};
ghost use Rattle.std.specs.VecDeque.{deque_capacity};
ghost use Rattle.hv_dev.specs.Reading.{counted};
ghost use Rattle.hv_dev.specs.Reads.{Taken};

use super::held::Held;
use hv_frames::Frame;
use std::alloc::{AllocError, Global};
use std::collections::VecDeque;
use std::sync::Arc;

/// The reads of a port that are under way, in the order of their submits, with room for so many; and the counts of them.
#[derive(Drop)]
pub struct Queue<F> {
    held: VecDeque<Held<F>>,
    room: u32,
    /// How many reads were submitted.
    pub submits: u64,
    /// The most that were under way at one time.
    pub most: u32,
    ghost has_room: { room ≤ deque_capacity held },
}

impl<F> Queue<F> {
    pub fn new(alloc: Global, room: u32) -> Result<Queue<F>, AllocError>
        ensures { IfOk result (λ queue. (queue.held.items ≡ []) × (queue.room ≡ room) × (queue.submits ≡ 0) × (queue.most ≡ 0)) }
    {
        Ok(Queue {
            held: VecDeque::with_capacity(alloc, room as usize)?,
            room,
            submits: 0,
            most: 0,
        })
    }

    /// Puts a read behind the others. Takes no memory.
    pub fn submit(&mut self, file: Arc<F, Global>, number: u32, frame: Frame, tag: u64)
        requires { length self.old.held.items < self.old.room }
        ensures under_way { self.new.held.items ≡ self.old.held.items ++ (record { tag = tag; file = arc_value file; page = number; owner = frame.owner; frame = frame.number }) ∷ [] }
        ensures room { self.new.room ≡ self.old.room }
        ensures submits { self.new.submits ≡ counted self.old.submits }
        ensures most { self.new.most ≡ max self.old.most (length self.old.held.items + 1) }
    {
        prove!(self.held.len() < self.room as usize);
        let held = Held::new(file, number, frame, tag);
        self.held.push_back_reserved(held);
        self.submits = self.submits.saturating_add(1);
        self.most = self.most.max(self.held.len() as u32);
    }

    /// How many reads are under way.
    pub fn len(&self) -> usize
        ensures { result ≡ length self.now.held.items }
    {
        self.held.len()
    }

    /// Takes out the read of that place, counted from 0 in the order of the submits.
    pub fn take(&mut self, at: usize) -> Held<F>
        requires { at < length self.old.held.items }
        ensures taken { Taken self.old.held.items self.new.held.items result }
        ensures room { self.new.room ≡ self.old.room }
        ensures submits { self.new.submits ≡ self.old.submits }
        ensures most { self.new.most ≡ self.old.most }
    {
        self.held.remove(at).unwrap()
    }
}
