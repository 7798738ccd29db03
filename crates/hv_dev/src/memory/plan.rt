// What goes wrong on a device in memory, and what is counted of it.
ghost use Rattle.std.specs.Prelude.{◌≡◌, ◌+◌, true, false, length, IfOk};
ghost use Rattle.hv_io.specs.Counts.{Rose};
ghost use Rattle.hv_dev.specs.Reading.{counted_more};

use std::alloc::{AllocError, Global};

/// What goes wrong on a device in memory, or on one of its ports: nothing, where a plan does not say it.
pub trait Plan: Drop {
    ghost use Rattle.std.specs.Prelude.{Bool, ℕ};

    /// Whether each read that lands brings the file's page: one fact of the type.
    ghost is_true: { Bool };

    /// How many reads of the port have failed.
    ghost read_faults: { Self → ℕ };

    /// How many writes and seals of the port have failed.
    ghost write_faults: { Self → ℕ };

    /// How many calls have failed on the device's ports that came back.
    ghost back_faults: { Self → ℕ };

    /// The device's plan for the port of that number.
    fn for_port(&self, alloc: Global, port: u64) -> Result<Self, AllocError>
    where
        Self: Sized,
        ensures reads { IfOk result (λ plan. read_faults plan ≡ 0) }
        ensures writes { IfOk result (λ plan. write_faults plan ≡ 0) };

    /// Whether the next write fails.
    fn fails_write(&mut self) -> bool
        ensures rose { result ≡ true → Rose (write_faults self.old) (write_faults self.new) }
        ensures calm { result ≡ false → write_faults self.new ≡ write_faults self.old }
        ensures kept { read_faults self.new ≡ read_faults self.old }
    {
        false
    }

    /// Whether the next seal fails.
    fn fails_seal(&mut self) -> bool
        ensures rose { result ≡ true → Rose (write_faults self.old) (write_faults self.new) }
        ensures calm { result ≡ false → write_faults self.new ≡ write_faults self.old }
        ensures kept { read_faults self.new ≡ read_faults self.old }
    {
        false
    }

    /// Whether the next read fails.
    fn fails_read(&mut self) -> bool
        ensures rose { result ≡ true → Rose (read_faults self.old) (read_faults self.new) }
        ensures calm { result ≡ false → read_faults self.new ≡ read_faults self.old }
        ensures kept { write_faults self.new ≡ write_faults self.old }
    {
        false
    }

    /// What the next read that lands makes of the page that it brings.
    fn spoil(&mut self, page: &mut [u8])
        requires page { length page.old ≡ 4096 }
        ensures same { is_true ≡ true → page.new ≡ page.old }
        ensures reads { read_faults self.new ≡ read_faults self.old }
        ensures writes { write_faults self.new ≡ write_faults self.old }
    {}

    /// Counts the faults of a port that came back.
    fn add(&mut self, port: &Self)
        ensures { back_faults self.new ≡ counted_more (back_faults self.old) (read_faults port.now + write_faults port.now) };
}
