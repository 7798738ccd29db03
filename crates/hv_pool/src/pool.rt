// The pool.
ghost use Rattle.std.specs.Prelude.{◌≡◌, ℕ, ◌+◌, ◌<◌, ◌≤◌, ◌^◌, List, [], map, length, IfSome, IfNone, IfOk, IfErr, IsSome, Some, None, get_or, true, false, if◌then◌else◌, IsPermutation, vec_capacity};
ghost use Rattle.std.specs.List.{count_by, All, range_with_len};
ghost use Rattle.hv_frames.specs.Frames.{AreAll};
ghost use Rattle.hv_pool.specs.Made.{AreOfOne, IsMade, IsFilled, empty_slot, here};
ghost use Rattle.hv_pool.specs.Shape.{HasRoom};
ghost use Rattle.hv_pool.specs.Order.{IsOrdered};
ghost use Rattle.sha2.specs.Sha256.{sha256};
ghost use Rattle.hv_pool.specs.Slots.{seen_at, under, is_open, is_reading, is_in_hand, is_cached, is_gone, stands, IsPool, IsAway};
ghost use Rattle.hv_pool.specs.Moves.{Asks, answer_of, ComesBack, IsLost, Forgets, Takes, Arrives, brings, notes, returned, started_by, cached_as, freed, moved, forgotten};
ghost use Rattle.hv_pool.specs.declared.slot.Held.{Held};

use crate::index::{empty_chains, find_under, reindex};
use crate::key::same;
use crate::order::{Node, find_open, find_waited, first_tree, reorder};
use crate::slot::{Arrival, wait_less, wait_more};
use crate::{Ask, Held, PageKey, Seen, Slot};
use hv_frames::Frame;
use hv_row::Digest;
use std::alloc::{AllocError, Global};
use std::marker::Model;
use std::snapshot::Snapshot;

/// Frames that several sessions share, each standing once.
#[must_use]
pub struct Pool {
    // By the numbers of their frames.
    slots: Vec<Slot>,
    // Where they are found by their keys.
    links: Vec<u32>,
    // Which of them may be taken first, and where sessions wait.
    tree: Vec<Node>,
    // How many of them have a frame that may be taken.
    openings: u32,
    // How many pages came back, and one more.
    came: u64,
    // The room for the list that `end` gives.
    room: Vec<Frame>,
    // The frames of `new`.
    mark: Snapshot<Vec<Frame>>,
}

/// Want of memory, with the frames that a pool was to have.
#[must_use]
pub struct Unpooled {
    pub frames: Vec<Frame>,
}

impl Model for Pool {
    ghost use Rattle.hv_pool.specs.Slots.{Pooled};

    ghost Value = { Pooled };

    ghost use Rattle.hv_pool.specs.Shape.{IsInOrder, HasRoom};
    ghost use Rattle.hv_pool.specs.Index.{IsIndexed};
    ghost use Rattle.hv_pool.specs.Order.{IsOrdered};
    ghost use Rattle.hv_pool.specs.Made.{owner_of};
    ghost use Rattle.std.specs.Prelude.{vec_capacity};

    ghost view = { λ p. record { owner = owner_of p.mark.value.items; slots = p.slots.items; came = p.came } };

    ghost invariant = { λ p. IsInOrder (owner_of p.mark.value.items) p.slots.items p.came p.openings × HasRoom p.slots.items p.room.items (vec_capacity p.room) × IsIndexed p.links.items p.slots.items × IsOrdered p.tree.items p.slots.items };
}

// A frame that stands under a key is asked for, for a session.
fn take_standing(slot: &mut Slot, who: u32) -> Ask
    requires who { who < 64 }
    requires stands { stands slot.old.held ≡ true }
    requires here { is_cached slot.old.held ≡ true → IsSome slot.old.frame }
    ensures { Takes slot.old who result slot.new }
{
    match slot.held {
        Held::Free => unreachable!(),
        Held::Cached => {
            let Some(frame) = slot.frame.take() else {
                unreachable!();
            };
            slot.held = Held::InHand { who };
            forget_at(slot, who);
            Ask::Hit {
                frame,
                formed: slot.formed,
            }
        }
        Held::Reading { who: other } => {
            slot.waits = wait_more(slot.waits, who);
            Ask::Reading { who: other }
        }
        Held::InHand { who: other } => Ask::Busy { who: other },
    }
}

// The frame of a place, into which the page of the key is to be read for a session.
fn start_in(slot: &mut Slot, key: &PageKey, who: u32) -> Frame
    requires who { who < 64 }
    requires here { IsSome slot.old.frame }
    ensures frame { slot.old.frame ≡ Some result }
    ensures started { slot.new ≡ started_by who key.now slot.old }
{
    let Some(frame) = slot.frame.take() else {
        unreachable!();
    };
    slot.key = *key;
    slot.held = Held::Reading { who };
    slot.came = 0;
    slot.waits = wait_more(0, who);
    slot.formed = false;
    frame
}

// The frame of a place comes back.
fn put_back(slot: &mut Slot, way: Arrival, key: &PageKey, frame: Frame, came: u64)
    requires { slot.old.frame ≡ None }
    ensures { slot.new ≡ returned (brings way) (notes way) key.now frame came slot.old }
{
    if way.brings(slot.held) && same(key, &slot.key) {
        return cache_at(slot, frame, came, way.notes());
    }
    free_at(slot, frame);
}

fn cache_at(slot: &mut Slot, frame: Frame, came: u64, formed: bool)
    requires { slot.old.frame ≡ None }
    ensures { slot.new ≡ cached_as came formed frame slot.old }
{
    fill(slot, frame);
    slot.held = Held::Cached;
    slot.came = came;
    slot.formed = formed;
}

fn free_at(slot: &mut Slot, frame: Frame)
    requires { slot.old.frame ≡ None }
    ensures { slot.new ≡ freed frame slot.old }
{
    fill(slot, frame);
    slot.held = Held::Free;
    slot.came = 0;
    slot.waits = 0;
    slot.formed = false;
}

fn fill(slot: &mut Slot, frame: Frame)
    requires { slot.old.frame ≡ None }
    ensures { slot.new ≡ moved slot.old slot.old.key slot.old.held slot.old.came slot.old.waits slot.old.formed (Some frame) }
{
    let none = slot.frame.replace(frame);
    let None = none else {
        unreachable!();
    };
}

// How many frames of this place may be taken.
fn openings_of(slot: &Slot) -> u32
    ensures { result ≡ (if is_open slot.now then 1 else 0) }
{
    u32::from(slot.is_open())
}

impl Pool {
    /// A pool of these frames, none of which has a page yet.
    /// It takes all the memory that it ever needs; where memory is wanting, the frames come back.
    pub fn new(alloc: Global, frames: Vec<Frame>) -> Result<Pool, Unpooled>
        requires { AreOfOne frames.items }
        ensures made { IfOk result (λ pool. IsMade frames.items pool) }
        ensures pool { IfOk result (λ pool. IsPool pool) }
        ensures given_back { IfErr result (λ unpooled. unpooled.frames ≡ frames) }
    {
        let mark = Snapshot::of(&frames);
        let Ok(links) = empty_chains(alloc, frames.len()) else {
            return Err(Unpooled { frames });
        };
        let Ok(tree) = first_tree(alloc, frames.len()) else {
            return Err(Unpooled { frames });
        };
        let Ok(mut slots) = empty_slots(alloc, frames.len()) else {
            return Err(Unpooled { frames });
        };
        let mut room = frames;
        fill_all(slots.as_mut_slice(), &mut room);
        Ok(Pool {
            openings: slots.len() as u32,
            slots,
            links,
            tree,
            came: 1,
            room,
            mark,
        })
    }

    /// What an ask for the page would answer.
    pub fn look(&self, key: &PageKey) -> Seen
        ensures told { result ≡ seen_at self.now key.now }
        ensures pool { IsPool self.now }
    {
        match find_under(self.slots.as_slice(), self.links.as_slice(), key) {
            Some(n) => match self.slots[n].held {
                Held::Free | Held::Cached => Seen::Hit,
                Held::Reading { .. } => Seen::Reading,
                Held::InHand { .. } => Seen::Busy,
            },
            None if self.openings > 0 => Seen::Start,
            None => Seen::Full,
        }
    }

    /// Asks for a page, for a session.
    pub fn ask(&mut self, key: &PageKey, who: u32) -> Ask
        requires { who < 64 }
        ensures told { answer_of result ≡ seen_at self.old key.now }
        ensures change { Asks self.old key.now who result self.new }
        ensures pool { IsPool self.old }
    {
        if let Some(n) = find_under(self.slots.as_slice(), self.links.as_slice(), key) {
            self.openings -= openings_of(&self.slots[n]);
            let taken = take_standing(&mut self.slots[n], who);
            reorder(self.tree.as_mut_slice(), self.slots.as_slice(), n);
            return taken;
        }
        match find_open(self.slots.as_slice(), self.tree.as_slice(), self.openings) {
            Some(n) => {
                self.openings -= 1;
                reindex(self.links.as_mut_slice(), self.slots.as_slice(), n, key);
                let frame = start_in(&mut self.slots[n], key, who);
                reorder(self.tree.as_mut_slice(), self.slots.as_slice(), n);
                Ask::Start(frame)
            }
            None => Ask::Full {
                frames: self.slots.len() as u32,
            },
        }
    }

    /// The page of the key landed in the frame. Nothing is noted of its form yet.
    pub fn landed(&mut self, key: &PageKey, frame: Frame)
        requires away { IsAway self.old frame }
        requires digest { sha256 frame.bytes ≡ key.now.digest }
        ensures change { ComesBack is_reading false self.old key.now frame self.new }
        ensures pool { IsPool self.old }
    {
        self.arrive(Arrival::Landed, key, frame);
    }

    /// The frame of a page comes back from a hand. `formed` says that the page was found to have its form, by now or before; a Hit tells it again.
    pub fn back(&mut self, key: &PageKey, frame: Frame, formed: bool)
        requires away { IsAway self.old frame }
        requires digest { sha256 frame.bytes ≡ key.now.digest }
        ensures change { ComesBack is_in_hand formed self.old key.now frame self.new }
        ensures pool { IsPool self.old }
    {
        self.arrive(Arrival::Back { formed }, key, frame);
    }

    /// The frame comes back without a page; whoever waits for its key waits no more.
    pub fn lost(&mut self, key: &PageKey, frame: Frame)
        requires away { IsAway self.old frame }
        ensures change { IsLost self.old frame self.new }
        ensures pool { IsPool self.old }
    {
        self.arrive(Arrival::Lost, key, frame);
    }

    // A frame that is away comes back to its place.
    fn arrive(&mut self, way: Arrival, key: &PageKey, frame: Frame)
        requires away { IsAway self.old frame }
        requires digest { (h : Held) → brings way h ≡ true → sha256 frame.bytes ≡ key.now.digest }
        ensures change { Arrives way self.old key.now frame self.new }
        ensures pool { IsPool self.old }
    {
        let n = frame.number() as usize;
        put_back(&mut self.slots[n], way, key, frame, self.came);
        self.openings += openings_of(&self.slots[n]);
        reorder(self.tree.as_mut_slice(), self.slots.as_slice(), n);
        self.came = way.came_after(self.came);
    }

    /// Ends all waits of a session.
    pub fn forget(&mut self, who: u32)
        requires { who < 64 }
        ensures change { Forgets self.old who self.new }
        ensures pool { IsPool self.old }
    {
        let openings = self.openings;
        self.openings = forget_all(
            self.slots.as_mut_slice(),
            self.tree.as_mut_slice(),
            openings,
            who,
        );
    }

    /// Gives all frames, where none is away.
    pub fn end(self) -> Vec<Frame>
        requires { count_by is_gone self.slots ≡ 0 }
        ensures here { IsPermutation (here self.slots) result.items }
        ensures all { AreAll (record { name = self.owner; count = length self.slots }) result.items }
        ensures pool { IsPool self }
    {
        let Pool {
            slots,
            links: _,
            tree: _,
            openings: _,
            came: _,
            room,
            mark,
        } = self;
        drop(mark);
        frames_of(slots, room)
    }
}

// Places without a frame, numbered from 0.
fn empty_slots(alloc: Global, count: usize) -> Result<Vec<Slot>, AllocError>
    requires { count < 2 ^ 32 }
    ensures { IfOk result (λ slots. slots.items ≡ map empty_slot (range_with_len 0 count)) }
{
    let mut slots = Vec::with_capacity(alloc, count)?;
    for number in 0..count as u32 {
        slots.push_reserved(empty_slot(number));
    }
    Ok(slots)
}

// A place without a frame.
fn empty_slot(number: u32) -> Slot
    ensures { result ≡ empty_slot number }
{
    Slot {
        number,
        key: PageKey {
            chunk: 0,
            page: 0,
            digest: Digest::new([0; 32]),
        },
        held: Held::Free,
        came: 0,
        waits: 0,
        formed: false,
        frame: None,
    }
}

// Puts each frame into the place with its number.
fn fill_all(slots: &mut [Slot], frames: &mut Vec<Frame>)
    requires all { AreOfOne frames.old.items }
    requires slots { slots.old ≡ map empty_slot (range_with_len 0 (length frames.old.items)) }
    ensures filled { IsFilled frames.old.items slots.new }
    ensures none { frames.new.items ≡ [] }
    ensures room { vec_capacity frames.new ≡ vec_capacity frames.old }
{
    while let Some(frame) = frames.pop() {
        let n = frame.number() as usize;
        fill(&mut slots[n], frame);
    }
}

// Ends all waits of a session, one after the other, and counts the frames that may be taken then.
fn forget_all(slots: &mut [Slot], tree: &mut [Node], openings: u32, who: u32) -> u32
    requires who { who < 64 }
    requires short { length slots.old < 2 ^ 32 }
    requires openings { openings ≡ count_by is_open slots.old }
    requires ordered { IsOrdered tree.old slots.old }
    ensures slots { slots.new ≡ map (forgotten who) slots.old }
    ensures openings { result ≡ count_by is_open slots.new }
    ensures length { length tree.new ≡ length tree.old }
    ensures ordered { IsOrdered tree.new slots.new }
{
    let mut left = openings;
    while let Some(n) = find_waited(slots, tree, who) {
        let before = openings_of(&slots[n]);
        forget_at(&mut slots[n], who);
        let after = openings_of(&slots[n]);
        left = left - before + after;
        reorder(tree, slots, n);
    }
    left
}

// Ends the wait of a session for the page of a place.
fn forget_at(slot: &mut Slot, who: u32)
    requires { who < 64 }
    ensures { slot.new ≡ forgotten who slot.old }
{
    slot.waits = wait_less(slot.waits, who);
}

// The frames of places that all have one, put into a list with room for them.
fn frames_of(mut slots: Vec<Slot>, mut room: Vec<Frame>) -> Vec<Frame>
    requires home { All (λ s. IsSome s.frame) slots.items }
    requires room { HasRoom slots.items room.items (vec_capacity room) }
    ensures { IsPermutation (here slots.items) result.items }
{
    while let Some(slot) = slots.pop() {
        room.push_reserved(frame_of(slot));
    }
    slots.destroy_empty();
    room
}

// The frame of a place.
fn frame_of(slot: Slot) -> Frame
    requires { IsSome slot.frame }
    ensures { slot.frame ≡ Some result }
{
    let Slot {
        number: _,
        key: _,
        held: _,
        came: _,
        waits: _,
        formed: _,
        frame,
    } = slot;
    match frame {
        Some(frame) => frame,
        None => unreachable!(),
    }
}
