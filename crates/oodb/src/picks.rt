// Which session takes the next step.
ghost use Rattle.std.specs.Prelude.{◌≡◌, ◌<◌, length};
ghost use Rattle.hv_world.specs.World.{ready_places};
ghost use Rattle.oodb.specs.Picks.{picked, picks_of};

use hv_dev::{Device, Order};
use hv_world::World;
use rand_core::SeedableRng;
use rand_core::utils::NextWord;
use rand_pcg::Pcg32;

/// What picks the session of each step, by the word `order`: sessions that can take a step count in order of naming.
#[derive(Drop)]
pub enum Picks {
    /// Goes round: the next one behind the session that was picked last.
    Round,
    /// The last one.
    Last,
    /// The one at a generator's next word, modulo how many there are.
    Drawn(Pcg32),
}

impl Picks {
    /// Those of an order; the seed is the generator's.
    pub fn new(order: Order) -> Picks
        ensures { result ≡ picks_of order }
    {
        match order {
            Order::Fifo => Picks::Round,
            Order::Lifo => Picks::Last,
            Order::Seed(seed) => Picks::Drawn(Pcg32::seed_from_u64(seed)),
        }
    }

    /// The next pick over a world in which a session can take a step.
    pub fn next<D: Device>(&mut self, world: &World<D>) -> u32
        requires { 0 < length (ready_places world.now) }
        ensures { (result, self.new) ≡ picked self.old world.now }
    {
        match self {
            Picks::Round => world.next_round(),
            Picks::Last => world.ready() - 1,
            Picks::Drawn(words) => words.next_word(),
        }
    }
}
