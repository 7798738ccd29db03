// A frame's place in a pool.
ghost use Rattle.std.specs.Prelude.{◌≡◌, ◌<◌, ◌≤◌};
ghost use Rattle.hv_pool.specs.Slots.{under, is_open, waits_bit, with_wait, without_wait};
ghost use Rattle.hv_pool.specs.Moves.{brings, notes, came_after};

use crate::PageKey;
use crate::key::same;
use hv_frames::Frame;

/// Where a frame is.
#[derive(Clone, Copy, Debug)]
pub enum Held {
    /// It has no page.
    Free,
    /// It has the page of its key.
    Cached,
    /// The page of its key is being read into it, for that session.
    Reading { who: u32 },
    /// It has the page of its key, and that session has it in hand.
    InHand { who: u32 },
}

/// How a frame that is away comes back.
#[derive(Clone, Copy, Debug)]
pub enum Arrival {
    /// With the page that was to be read into it.
    Landed,
    /// With the page that a session had in hand, found to have its form or not.
    Back { formed: bool },
    /// Without a page.
    Lost,
}

/// A frame's place, under the number of the frame.
pub struct Slot {
    pub number: u32,
    pub key: PageKey,
    pub held: Held,
    /// When its page came back, counted in pages that came back.
    pub came: u64,
    /// The sessions that wait for its key, a bit each.
    pub waits: u64,
    /// Whether its page was found to have its form. What this means is kept by those who call.
    pub formed: bool,
    pub frame: Option<Frame>,
}

impl Slot {
    /// Whether it stands under the key.
    pub fn is_under(&self, key: &PageKey) -> bool
        ensures { result ≡ under key.now self.now }
    {
        match self.held {
            Held::Free => false,
            Held::Cached | Held::Reading { .. } | Held::InHand { .. } => same(key, &self.key),
        }
    }

    /// Whether its frame may be taken.
    pub fn is_open(&self) -> bool
        ensures { result ≡ is_open self.now }
    {
        match self.held {
            Held::Free => true,
            Held::Cached => self.waits == 0,
            Held::Reading { .. } | Held::InHand { .. } => false,
        }
    }
}

impl Arrival {
    /// Whether a frame that is away so comes back with a page.
    pub fn brings(self, held: Held) -> bool
        ensures { result ≡ brings self held }
    {
        match self {
            Arrival::Landed => matches!(held, Held::Reading { .. }),
            Arrival::Back { .. } => matches!(held, Held::InHand { .. }),
            Arrival::Lost => false,
        }
    }

    /// Whether a page that comes back so was found to have its form.
    pub fn notes(self) -> bool
        ensures { result ≡ notes self }
    {
        match self {
            Arrival::Landed | Arrival::Lost => false,
            Arrival::Back { formed } => formed,
        }
    }

    /// The count of pages that came back, after this.
    pub fn came_after(self, came: u64) -> u64
        ensures { result ≡ came_after self came }
    {
        match self {
            Arrival::Landed | Arrival::Back { .. } => came.saturating_add(1),
            Arrival::Lost => came,
        }
    }
}

/// Whether a session is one of those that wait.
pub fn has_wait(waits: u64, who: u32) -> bool
    requires { who < 64 }
    ensures { result ≡ waits_bit who waits }
{
    waits >> who & 1 == 1
}

/// The waits with one more session's.
pub fn wait_more(waits: u64, who: u32) -> u64
    requires { who < 64 }
    ensures { result ≡ with_wait who waits }
{
    waits | 1 << who
}

/// The waits without a session's.
pub fn wait_less(waits: u64, who: u32) -> u64
    requires { who < 64 }
    ensures { result ≡ without_wait who waits }
{
    waits & !(1 << who)
}
