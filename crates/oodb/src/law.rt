// Laws of legal outcomes and of their reports.
ghost use Rattle.std.specs.Prelude.{ℕ, false};
ghost use Rattle.hv_model.specs.Legal.{Legal};
ghost use Rattle.hv_world.specs.Known.{Known};
ghost use Rattle.oodb.specs.Told.{OneHistory};
ghost use Rattle.oodb.specs.FirstScript.{script, history, replies_at, replies_with, other_rows, page_read};

/// What `run` promises can be met and can be missed: the replies to a first script are legal, and they are not where the
/// query is answered over a database that is older than its own session's import. The body does nothing.
pub fn legal_is_met_and_missed()
    ensures met { (max : ℕ) → Legal script max (Unit {0}) history (replies_at 2) }
    ensures missed { (max : ℕ) → Legal script max (Unit {0}) history (replies_at 1) → ⊥ }
{}

/// The premise of content can be met over files that don't tell what they hold: it holds where the one page of the first script's chunk
/// was read as it was written. Under it the same replies are legal, and with another row they are not. The body does nothing.
pub fn content_is_met_and_missed()
    ensures known { Known false script history page_read }
    ensures met { (max : ℕ) → Legal script max (Known false script history page_read) history (replies_at 2) }
    ensures missed { (max : ℕ) → Legal script max (Known false script history page_read) history (replies_with 2 other_rows) → ⊥ }
{}

/// A report tells one history and the replies of each session: two outcomes of a script whose reports are the same bytes have the same history
/// and the same replies, but for why a page did not serve, which isn't printed. The body does nothing.
pub fn one_report_one_history()
    ensures { OneHistory }
{}
