// A plain pool of three frames, written from the rules: what the proved one is held against.
ghost use Rattle.std.specs.Prelude.{◌<◌, IfSome};

use crate::fixture::{Answer, Way};
use hv_pool::Seen;

/// How many frames it has.
pub const FRAMES: usize = 3;

// Where a frame is.
#[derive(Clone, Copy, PartialEq, Eq)]
enum State {
    Free,
    Cached,
    Reading,
    InHand,
}

// A frame: the page under which it stands, for which session it is away, when its page came back, who waits for it, a bit each, and what is noted of its form.
#[derive(Clone, Copy)]
struct Place {
    state: State,
    page: u8,
    session: u32,
    came: u64,
    waits: u64,
    formed: bool,
}

// A frame without a page.
const EMPTY: Place = Place {
    state: State::Free,
    page: 0,
    session: 0,
    came: 0,
    waits: 0,
    formed: false,
};

impl Place {
    // Whether the frame stands under the page.
    fn has(&self, page: u8) -> bool {
        self.state != State::Free && self.page == page
    }

    // Whether the frame may be taken.
    fn is_open(&self) -> bool {
        self.state == State::Free || (self.state == State::Cached && self.waits == 0)
    }
}

/// Frames by their numbers, and how many pages came back, and one more.
#[derive(Drop)]
pub struct Plain {
    places: [Place; FRAMES],
    clock: u64,
}

impl Plain {
    pub fn new() -> Plain {
        Plain {
            places: [EMPTY; FRAMES],
            clock: 1,
        }
    }

    // The frame that stands under the page.
    fn place_of(&self, page: u8) -> Option<usize>
        ensures { IfSome result (λ n. n < 3) }
    {
        for n in 0..FRAMES {
            if self.places[n].has(page) {
                return Some(n);
            }
        }
        None
    }

    // Whether no frame may be taken.
    fn is_shut(&self) -> bool {
        for n in 0..FRAMES {
            if self.places[n].is_open() {
                return false;
            }
        }
        true
    }

    // Whether the frame may be taken, and of all that may came back longest ago.
    fn is_oldest(&self, number: usize) -> bool
        requires { number < 3 }
    {
        let came = self.places[number].came;
        for n in 0..FRAMES {
            if self.places[n].is_open() && self.places[n].came < came {
                return false;
            }
        }
        self.places[number].is_open()
    }

    /// What is seen of the page.
    pub fn look(&self, page: u8) -> Seen {
        match self.place_of(page) {
            Some(n) => match self.places[n].state {
                State::Free | State::Cached => Seen::Hit,
                State::Reading => Seen::Reading,
                State::InHand => Seen::Busy,
            },
            None if self.is_shut() => Seen::Full,
            None => Seen::Start,
        }
    }

    /// The page of a frame.
    pub fn page_of(&self, number: u32) -> u8 {
        match self.places.get(number as usize) {
            Some(place) => place.page,
            None => 0,
        }
    }

    /// A session asks for the page. False where this isn't the answer.
    pub fn ask(&mut self, page: u8, session: u32, answer: &Answer) -> bool
        requires { session < 64 }
    {
        if answer.seen != self.look(page) {
            return false;
        }
        match self.place_of(page) {
            Some(n) => self.ask_standing(n, session, answer),
            None if answer.seen == Seen::Start => self.start(page, session, answer.number),
            None => answer.number == 3,
        }
    }

    // A session asks for the page of a frame. False where the frame, the note on its page or the session isn't what was answered.
    fn ask_standing(&mut self, n: usize, session: u32, answer: &Answer) -> bool
        requires { (n < 3) × (session < 64) }
    {
        let place = &mut self.places[n];
        match place.state {
            State::Free | State::Cached => {
                place.state = State::InHand;
                place.session = session;
                place.waits &= !(1 << session);
                answer.number as usize == n && answer.formed == place.formed
            }
            State::Reading => {
                place.waits |= 1 << session;
                answer.number == place.session
            }
            State::InHand => answer.number == place.session,
        }
    }

    // The frame is taken for the page. False where it may not be, or another came back longer ago.
    fn start(&mut self, page: u8, session: u32, number: u32) -> bool
        requires { session < 64 }
    {
        let n = number as usize;
        if n >= FRAMES || !self.is_oldest(n) {
            return false;
        }
        self.places[n] = Place {
            state: State::Reading,
            page,
            session,
            came: 0,
            waits: 1 << session,
            formed: false,
        };
        true
    }

    /// The frame comes back so, with the page.
    pub fn give(&mut self, number: u32, way: Way, page: u8) {
        let clock = self.clock;
        if way != Way::Lost {
            self.clock = clock.saturating_add(1);
        }
        let Some(place) = self.places.get_mut(number as usize) else {
            return;
        };
        let wanted = if way == Way::Landed {
            State::Reading
        } else {
            State::InHand
        };
        if way != Way::Lost && place.state == wanted && place.page == page {
            place.state = State::Cached;
            place.came = clock;
            place.formed = matches!(way, Way::Back { formed: true });
        } else {
            *place = EMPTY;
        }
    }

    /// A session waits for nothing more.
    pub fn forget(&mut self, session: u32)
        requires { session < 64 }
    {
        for n in 0..FRAMES {
            self.places[n].waits &= !(1 << session);
        }
    }
}
