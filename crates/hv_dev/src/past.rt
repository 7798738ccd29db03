// A list that only clauses read: it takes no memory, however long it is.
ghost use Rattle.std.specs.Prelude.{◌≡◌, [], ◌∷◌, ◌++◌};

use std::marker::Model;
use std::snapshot::Snapshot;

#[cycle(log)]
#[derive(Drop)]
enum Log<E> {
    Empty,
    More(Snapshot<Log<E>>, Snapshot<E>),
    Both(Snapshot<Log<E>>, Snapshot<Log<E>>),
}

/// What was noted, in order. It has no bytes for its entries: clauses alone see them.
#[derive(Drop)]
pub struct Past<E> {
    log: Log<E>,
}

impl<E> Model for Past<E> {
    ghost use Rattle.std.specs.Prelude.{List};
    ghost use Rattle.std.specs.Coded.{coded_list};
    ghost use Rattle.hv_dev.specs.Past.{entries};

    ghost Value = { List E };

    ghost coded = { coded_list E.code };

    ghost view = { λ p. entries p.log };
}

impl<E> Past<E> {
    /// Nothing is noted yet.
    pub fn new() -> Past<E>
        ensures { result ≡ [] }
    {
        Past { log: Log::Empty }
    }

    /// Notes an entry behind the others. Takes no memory.
    pub fn note(&mut self, entry: &E)
        ensures { self.new ≡ self.old ++ entry.now ∷ [] }
    {
        let before = Snapshot::of(&self.log);
        self.log = Log::More(before, Snapshot::of(entry));
    }

    /// Notes the entries of another behind its own. Takes no memory.
    pub fn extend(&mut self, more: &Past<E>)
        ensures { self.new ≡ self.old ++ more.now }
    {
        let before = Snapshot::of(&self.log);
        self.log = Log::Both(before, Snapshot::of(&more.log));
    }
}
