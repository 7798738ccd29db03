// A pool of some frames, with those of them that are away.
ghost use Rattle.std.specs.Prelude.{◌≡◌, ◌<◌, ◌≤◌};
ghost use Rattle.hv_pool_tests.specs.Out.{AreOut};

use hv_frames::{FRAME_BYTES, Frame, Owner, make};
use hv_pool::{Ask, PageKey, Pool, Seen, Unpooled};
use hv_row::Digest;
use sha2::Sha256;
use std::alloc::{AllocError, Global};
use std::marker::Model;

/// How a frame comes back.
#[derive(Clone, Copy, Debug, PartialEq, Eq)]
pub enum Way {
    Landed,
    /// From a hand, with its page found to have its form or not.
    Back { formed: bool },
    Lost,
}

/// What is answered to an ask, with the number of the frame that is given, or else of the session that has it, or else of the frames that there are.
/// `formed` is what a Hit tells of the page's form, and else false.
#[derive(Clone, Copy, Debug, PartialEq, Eq)]
pub struct Answer {
    pub seen: Seen,
    pub number: u32,
    pub formed: bool,
}

/// A pool of some frames, with those of them that are away.
#[must_use]
pub struct Fixture {
    owner: Owner,
    pool: Pool,
    // The one that comes back next is the last.
    away: Vec<Frame>,
    // All pages have the bytes of a fresh frame, so that their digest is taken once, and no frame is written to.
    digest: Digest,
}

impl Model for Fixture {
    ghost use Rattle.hv_pool.specs.Slots.{Pooled};

    ghost Value = { Pooled };

    ghost use Rattle.std.specs.Prelude.{◌≤◌, vec_capacity};
    ghost use Rattle.hv_pool_tests.specs.Out.{AreOut};

    ghost view = { λ f. f.pool };

    ghost invariant = { λ f. AreOut f.owner f.digest f.pool f.away.items × (f.owner.count ≤ vec_capacity f.away) };
}

// The key of a page by its number.
fn key_of(page: u32, digest: &Digest) -> PageKey
    ensures { result.digest ≡ digest.now }
{
    PageKey {
        chunk: 7,
        page,
        digest: *digest,
    }
}

impl Fixture {
    /// So many frames in a pool, none of them away.
    pub fn new(alloc: Global, count: u32) -> Result<Fixture, AllocError>
        requires { 1 ≤ count }
    {
        let page = [0; FRAME_BYTES];
        let digest = Digest::new(<Sha256 as sha2::Digest>::digest(&page));
        let (owner, frames) = make(alloc, count)?;
        let Ok(away) = Vec::with_capacity(alloc, count as usize) else {
            owner.end(frames);
            return Err(AllocError);
        };
        match Pool::new(alloc, frames) {
            Ok(pool) => Ok(Fixture {
                owner,
                pool,
                away,
                digest,
            }),
            Err(Unpooled { frames }) => {
                away.destroy_empty();
                owner.end(frames);
                Err(AllocError)
            }
        }
    }

    /// What an ask for the page would answer.
    pub fn look(&self, page: u32) -> Seen {
        self.pool.look(&key_of(page, &self.digest))
    }

    /// A session asks for the page, and the frame that it is given goes away.
    pub fn ask(&mut self, page: u32, session: u32) -> Answer
        requires { session < 64 }
    {
        let key = key_of(page, &self.digest);
        match self.pool.ask(&key, session) {
            Ask::Hit { frame, formed } => {
                let number = frame.number();
                self.away.push_reserved(frame);
                Answer {
                    seen: Seen::Hit,
                    number,
                    formed,
                }
            }
            Ask::Start(frame) => {
                let number = frame.number();
                self.away.push_reserved(frame);
                Answer {
                    seen: Seen::Start,
                    number,
                    formed: false,
                }
            }
            Ask::Reading { who } => Answer {
                seen: Seen::Reading,
                number: who,
                formed: false,
            },
            Ask::Busy { who } => Answer {
                seen: Seen::Busy,
                number: who,
                formed: false,
            },
            Ask::Full { frames } => Answer {
                seen: Seen::Full,
                number: frames,
                formed: false,
            },
        }
    }

    /// Chooses which frame comes back next, of those that are away, and gives its number.
    pub fn choose(&mut self, which: u32) -> Option<u32> {
        let count = self.away.len();
        if count == 0 {
            return None;
        }
        self.away.swap(which as usize % count, count - 1);
        Some(self.away[count - 1].number())
    }

    /// The last frame that is away comes back so, with the page. False where none is away.
    pub fn give(&mut self, way: Way, page: u32) -> bool {
        match way {
            Way::Landed => self.land(page),
            Way::Back { formed } => self.give_back(page, formed),
            Way::Lost => self.lose(page),
        }
    }

    fn land(&mut self, page: u32) -> bool {
        if self.away.is_empty() {
            return false;
        }
        let Some(frame) = self.away.pop() else {
            unreachable!();
        };
        let key = key_of(page, &self.digest);
        self.pool.landed(&key, frame);
        true
    }

    fn give_back(&mut self, page: u32, formed: bool) -> bool {
        if self.away.is_empty() {
            return false;
        }
        let Some(frame) = self.away.pop() else {
            unreachable!();
        };
        let key = key_of(page, &self.digest);
        self.pool.back(&key, frame, formed);
        true
    }

    fn lose(&mut self, page: u32) -> bool {
        if self.away.is_empty() {
            return false;
        }
        let Some(frame) = self.away.pop() else {
            unreachable!();
        };
        self.pool.lost(&key_of(page, &self.digest), frame);
        true
    }

    /// A session waits for nothing more.
    pub fn forget(&mut self, session: u32)
        requires { session < 64 }
    {
        self.pool.forget(session);
    }

    /// All frames come back, and the pool ends.
    pub fn end(self) {
        let Fixture {
            owner,
            pool,
            away,
            digest,
        } = self;
        end_all(owner, pool, away, &key_of(0, &digest));
    }
}

// All frames come back, and the pool ends.
fn end_all(owner: Owner, mut pool: Pool, mut away: Vec<Frame>, key: &PageKey)
    requires { AreOut owner key.now.digest pool away.items }
{
    while let Some(frame) = away.pop() {
        pool.lost(key, frame);
    }
    away.destroy_empty();
    owner.end(pool.end());
}
