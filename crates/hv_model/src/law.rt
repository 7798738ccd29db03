// Laws of the definitions, which callers cite by these contracts: of databases whatever their chunks carry, and of many sessions.
ghost use Rattle.std.specs.Prelude.{◌≡◌, ℕ};
ghost use Rattle.std.specs.Result.{result_map_both};
ghost use Rattle.hv_model.specs.declared.catalogue.Database.{Database};
ghost use Rattle.hv_model.specs.declared.catalogue.Command.{Command};
ghost use Rattle.hv_model.specs.Database.{step, map_database, map_command};
ghost use Rattle.hv_model.specs.Command.{told_of};
ghost use Rattle.hv_model.specs.Legal.{Legal};
ghost use Rattle.hv_model.specs.ThreeSessions.{script, history, replies_at};

/// What a chunk carries decides nothing of a step: with another content of all chunks a command is accepted where it was, or refused for the same
/// cause, and gives the same database with the other content. What is told of it is the same where both contents count the same rows.
/// This project's own. It does nothing: its contract is these laws.
pub fn content_decides_nothing<C, D>()
    ensures steps { (change : C → D) (s : Database C) (c : Command C) → step (map_database change s) (map_command change c) ≡ result_map_both (map_database change) (λ cause. cause) (step s c) }
    ensures told { (change : C → D) (count : C → ℕ) (recount : D → ℕ) → ((content : C) → recount (change content) ≡ count content) → (s : Database C) (c : Command C) → told_of recount (map_database change s) (map_command change c) ≡ told_of count s c }
{}

/// What is promised of many sessions can be met and can be missed: the outcome of a script of three sessions, of which the second is served first,
/// is legal, and it isn't where the third, which speaks behind a barrier, tells a length of the history from before it.
/// This project's own. It does nothing: its contract is this law.
pub fn barrier_is_met_and_missed()
    ensures met { (max : ℕ) → Legal script max (Unit {0}) history (replies_at 1) }
    ensures missed { (max : ℕ) → Legal script max (Unit {0}) history (replies_at 0) → ⊥ }
{}
