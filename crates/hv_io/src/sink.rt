// Where bytes go.
ghost use Rattle.std.specs.Prelude.{◌≡◌, ℕ, ◌<◌, ◌≤◌, List, [], length, take, Option, IfOk, OnOk, OnErr};
ghost use Rattle.hv_io.specs.Bytes.{Takes};
ghost use Rattle.hv_io.specs.Counts.{Rose};

use crate::source::Failed;

/// Where bytes go. The rules are this project's own.
pub trait Sink {
    /// The bytes that it has taken, where the sink tells them.
    ghost taken: { Self → Option (List ℕ) };

    /// How often it has failed, up to `MAX_COUNT`.
    ghost faults: { Self → ℕ };

    /// How often it took nothing of a piece that was not empty, up to `MAX_COUNT`.
    ghost zeros: { Self → ℕ };

    /// Takes the first bytes of the piece and answers how many they are.
    fn write(&mut self, piece: &[u8]) -> Result<usize, Failed>
        ensures within { IfOk result (λ n. n ≤ length piece.now) }
        ensures takes { IfOk result (λ n. Takes (taken self.old) (taken self.new) (take n piece.now)) }
        ensures kept { OnOk result (faults self.new ≡ faults self.old) }
        ensures failed { OnErr result (taken self.new ≡ taken self.old) }
        ensures rose { OnErr result (Rose (faults self.old) (faults self.new)) }
        ensures zero { IfOk result (λ n. n ≡ 0 → 0 < length piece.now → Rose (zeros self.old) (zeros self.new)) }
        ensures some { IfOk result (λ n. 0 < n → zeros self.new ≡ zeros self.old) }
        ensures empty { piece.now ≡ [] → zeros self.new ≡ zeros self.old }
        ensures no_zero { OnErr result (zeros self.new ≡ zeros self.old) };
}
