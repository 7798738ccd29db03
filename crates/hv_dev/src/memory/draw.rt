// Which of the reads under way lands next.
ghost use Rattle.std.specs.Prelude.{◌<◌};

use crate::Order;
use rand_core::SeedableRng;
use rand_core::utils::NextWord;
use rand_pcg::Pcg32;

/// Which of the reads under way lands next.
#[derive(Drop)]
pub enum Draw {
    First,
    Last,
    Any(Pcg32),
}

impl Draw {
    /// The draw of the port of that number: its seed is the order's and that number, modulo 2^64.
    pub fn new(order: Order, port: u64) -> Draw {
        match order {
            Order::Fifo => Draw::First,
            Order::Lifo => Draw::Last,
            Order::Seed(seed) => Draw::Any(Pcg32::seed_from_u64(seed.wrapping_add(port))),
        }
    }

    /// Picks one of so many reads, counted from 0 in the order of their submits.
    pub fn pick(&mut self, count: usize) -> usize
        requires { 0 < count }
        ensures { result < count }
    {
        match self {
            Draw::First => 0,
            Draw::Last => count - 1,
            Draw::Any(words) => words.next_word() as usize % count,
        }
    }
}
