// What a pool answers.
use hv_frames::Frame;

/// Which answer an ask would give.
#[derive(Clone, Copy, Debug, PartialEq, Eq)]
pub enum Seen {
    Hit,
    Start,
    Reading,
    Busy,
    Full,
}

/// What an ask for a page gives.
pub enum Ask {
    /// The page is here, and its frame is now in the asker's hand. `formed` is what was noted when it came back: that it was found to have its form.
    Hit { frame: Frame, formed: bool },
    /// The page is to be read into this frame.
    Start(Frame),
    /// The page is being read for that session.
    Reading { who: u32 },
    /// The page is in the hand of that session.
    Busy { who: u32 },
    /// No frame can be taken, of so many.
    Full { frames: u32 },
}
