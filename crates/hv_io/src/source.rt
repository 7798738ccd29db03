// Where bytes come from.
ghost use Rattle.std.specs.Prelude.{◌≡◌, ℕ, ◌<◌, ◌≤◌, List, [], length, Option, IfSome, IfOk, OnOk, OnErr};
ghost use Rattle.hv_io.specs.Bytes.{Gives};
ghost use Rattle.hv_io.specs.Counts.{Rose};

/// A read or a write failed, and the count of faults rose.
#[derive(Debug, Clone, Copy, PartialEq, Eq)]
pub struct Failed;

/// Where bytes come from. The rules are this project's own.
pub trait Source {
    /// The bytes that are still to be read, where the source tells them.
    ghost left: { Self → Option (List ℕ) };

    /// How often it has failed, up to `MAX_COUNT`.
    ghost faults: { Self → ℕ };

    /// Puts the next bytes at the beginning of the piece and answers how many they are: 0 at the end, or for an empty piece.
    fn read(&mut self, piece: &mut [u8]) -> Result<usize, Failed>
        ensures within { IfOk result (λ n. n ≤ length piece.old) }
        ensures gives { IfOk result (λ n. Gives (left self.old) (left self.new) n piece.new) }
        ensures end { IfOk result (λ n. n ≡ 0 → 0 < length piece.old → IfSome (left self.old) (λ bytes. bytes ≡ [])) }
        ensures kept { OnOk result (faults self.new ≡ faults self.old) }
        ensures failed { OnErr result (left self.new ≡ left self.old) }
        ensures rose { OnErr result (Rose (faults self.old) (faults self.new)) };
}
