// The laws of pools, which callers cite by this contract.
ghost use Rattle.std.specs.Prelude.{◌≡◌, ℕ, ◌+◌, ◌<◌, ◌≤◌, Bool, true, false, ◌&&◌, nat_eq, if◌then◌else◌, length};
ghost use Rattle.std.specs.List.{sum_by, count_by};
ghost use Rattle.hv_frames.specs.Frames.{Framed};
ghost use Rattle.hv_pool.specs.Key.{same_key};
ghost use Rattle.hv_pool.specs.Slots.{Pooled, IsPool, IsAway, seen_at, is_free, is_cached, is_reading, is_in_hand, under, cached_at, is_gone, is_owed, owed_at, is_held_by, waits_at, waits_bit};
ghost use Rattle.hv_pool.specs.Moves.{Moves, Asks, is_hit, Arrives, brings, brings_owed, Forgets, joined_by, forgotten};
ghost use Rattle.hv_pool.specs.declared.slot.Arrival.{Arrival};
ghost use Rattle.hv_pool.specs.declared.seen.Ask.{Ask};
ghost use Rattle.hv_pool.specs.declared.key.PageKey.{PageKey};
ghost use Rattle.hv_pool.specs.declared.seen.Seen.TheVariants as seen;
ghost use Rattle.hv_pool.specs.declared.slot.Slot.{Slot};

/// The frames that are free, that have a page, whose page is read and that are in a hand are all frames, and no call changes how many they are.
/// Where one key finds no frame, none does, and each frame is away or owed. Where no frame is away and a key finds none, a session waits for a page that is here.
/// Whatever is counted of the places changes by the place that a call changes, and by no other. So what passed there and still passes is counted
/// as often at least: a wait or a cached page is lost only where the call ends it. Where a session's waits end, all that hangs on no wait stays,
/// the session waits for no page, and each other one for those for which it waited.
/// This project's own. It does nothing: its contract is these laws.
pub fn pool_laws()
    ensures frames { (p : Pooled) → count_by (λ s. is_free s.held) p.slots + count_by (λ s. is_cached s.held) p.slots + count_by (λ s. is_reading s.held) p.slots + count_by (λ s. is_in_hand s.held) p.slots ≡ length p.slots }
    ensures stay { (old new : Pooled) (before after : Slot) → Moves old new before after → length new.slots ≡ length old.slots }
    ensures full { (p : Pooled) (key other : PageKey) → seen_at p key ≡ seen.Full → ¬ (seen_at p other ≡ seen.Start) }
    ensures shut { (p : Pooled) (key : PageKey) → seen_at p key ≡ seen.Full → count_by is_gone p.slots + count_by is_owed p.slots ≡ length p.slots }
    ensures owed { (p : Pooled) (key : PageKey) → 0 < length p.slots → count_by is_gone p.slots ≡ 0 → seen_at p key ≡ seen.Full → 0 < count_by is_owed p.slots }
    ensures moved { (old new : Pooled) (before after : Slot) → Moves old new before after → (weight : Slot → ℕ) → sum_by weight new.slots + weight before ≡ sum_by weight old.slots + weight after }
    ensures kept { (old new : Pooled) (before after : Slot) → Moves old new before after → (test : Slot → Bool) → (test before ≡ true → test after ≡ true) → count_by test old.slots ≤ count_by test new.slots }
    ensures forgets { (old new : Pooled) (who : ℕ) → Forgets old who new → (test : Slot → Bool) → ((s : Slot) → test (forgotten who s) ≡ test s) → count_by test new.slots ≡ count_by test old.slots }
    ensures waits_end { (old new : Pooled) (who : ℕ) → who < 64 → Forgets old who new → (key : PageKey) → count_by (waits_at who key) new.slots ≡ 0 }
    ensures waits_stay { (old new : Pooled) (who other : ℕ) → who < 64 → other < 64 → ¬ (other ≡ who) → Forgets old who new → (key : PageKey) → count_by (waits_at other key) new.slots ≡ count_by (waits_at other key) old.slots }
{}

/// Which pages are owed. One is where it is here and a session waits for it, which is one of the 64. After an ask the same pages are owed, but for the page
/// that the ask gets. Where a frame comes back, its page is owed too, if it was away for that page and sessions wait for it; and no other ceases to be.
/// Where a session's waits end, those pages are owed yet for which another waits.
/// This project's own. It does nothing: its contract is these laws.
pub fn owed_laws()
    ensures owed_to { (p : Pooled) (key : PageKey) → IsPool p → 0 < count_by (owed_at key) p.slots → (who : ℕ) × (who < 64) × (0 < count_by (λ s. cached_at key s && waits_bit who s.waits) p.slots) }
    ensures waited { (p : Pooled) (key : PageKey) (who : ℕ) → 0 < count_by (λ s. cached_at key s && waits_bit who s.waits) p.slots → 0 < count_by (owed_at key) p.slots }
    ensures asks { (old new : Pooled) (key : PageKey) (who : ℕ) (answer : Ask) → IsPool old → Asks old key who answer new → (k : PageKey) → count_by (owed_at k) new.slots ≡ (if is_hit answer && same_key k key then 0 else count_by (owed_at k) old.slots) }
    ensures arrives { (way : Arrival) (old new : Pooled) (key : PageKey) (frame : Framed) → IsPool old → IsAway old frame → Arrives way old key frame new → (k : PageKey) → count_by (owed_at k) new.slots ≡ count_by (owed_at k) old.slots + count_by (brings_owed way key frame k) old.slots }
    ensures forgets { (old new : Pooled) (who : ℕ) → Forgets old who new → (k : PageKey) → count_by (owed_at k) new.slots ≡ count_by (λ s. owed_at k (forgotten who s)) old.slots }
{}

/// What the calls of one session leave of another's. Its waits stay at an ask, for each page. So do the frames that are read for it or that it has in
/// hand, in whatever is counted of them but for who waits for their pages too; and at the coming back of a frame that it doesn't have.
/// Where a frame comes back with the page for which it was away, all waits of all sessions stay; else all but those for the page under which it stood.
/// This project's own. It does nothing: its contract is these laws.
pub fn session_laws()
    ensures asks_leave_waits { (old new : Pooled) (key : PageKey) (who : ℕ) (answer : Ask) (other : ℕ) → who < 64 → other < 64 → ¬ (other ≡ who) → Asks old key who answer new → (k : PageKey) → count_by (waits_at other k) new.slots ≡ count_by (waits_at other k) old.slots }
    ensures asks_leave_frames { (old new : Pooled) (key : PageKey) (who : ℕ) (answer : Ask) (other : ℕ) → ¬ (other ≡ who) → Asks old key who answer new → (weight : Slot → ℕ) → ((s : Slot) → is_held_by other s ≡ false → weight s ≡ 0) → ((s : Slot) → weight (joined_by who s) ≡ weight s) → sum_by weight new.slots ≡ sum_by weight old.slots }
    ensures arrivals_leave_frames { (way : Arrival) (old new : Pooled) (key : PageKey) (frame : Framed) (who other : ℕ) → IsPool old → Arrives way old key frame new → ¬ (other ≡ who) → 0 < count_by (λ s. nat_eq s.number frame.number && is_held_by who s) old.slots → (weight : Slot → ℕ) → ((s : Slot) → is_held_by other s ≡ false → weight s ≡ 0) → sum_by weight new.slots ≡ sum_by weight old.slots }
    ensures arrivals_keep_waits { (way : Arrival) (old new : Pooled) (key : PageKey) (frame : Framed) → IsPool old → Arrives way old key frame new → 0 < count_by (λ s. nat_eq s.number frame.number && (brings way s.held && same_key key s.key)) old.slots → (who : ℕ) (k : PageKey) → count_by (waits_at who k) new.slots ≡ count_by (waits_at who k) old.slots }
    ensures arrivals_leave_waits { (way : Arrival) (old new : Pooled) (key : PageKey) (frame : Framed) → Arrives way old key frame new → (who : ℕ) (k : PageKey) → count_by (λ s. nat_eq s.number frame.number && under k s) old.slots ≡ 0 → count_by (waits_at who k) new.slots ≡ count_by (waits_at who k) old.slots }
{}
