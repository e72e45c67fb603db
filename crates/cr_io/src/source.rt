ghost use Rattle.std.specs.Prelude.{◌≡◌, ◌<◌, ◌≤◌, [], List, ℕ, Bool, length, IfOk, OnOk, IfSome, Option};
ghost use Rattle.cr_io.specs.Faults.{HasCause};
ghost use Rattle.cr_io.specs.Source.{Moves, is_end};

/// The outside did not do what was asked of it.
#[derive(Clone, Copy, Debug, PartialEq, Eq)]
pub struct Failed;

/// Where bytes come from, in order, until their end.
pub trait Source {
    /// The bytes that are left, where it tells them.
    ghost left: { Self → Option (List ℕ) };

    /// Whether its last read into a buffer with room met the end.
    ghost met_end: { Self → Bool };

    /// How often it has failed. Only a call that fails raises it, and nothing lowers it.
    ghost faults: { Self → ℕ };

    /// Moves the next bytes to the front of the buffer, and says how many. 0 of them, with room in the buffer,
    /// is the end.
    fn read(&mut self, buf: &mut [u8]) -> Result<usize, Failed>
        ensures within { IfOk result (λ count. count ≤ length buf.old) }
        ensures moves { IfOk result (λ count. IfSome (left self.old) (λ bytes. Moves bytes count buf.new (left self.new))) }
        ensures end { 0 < length buf.old → met_end self.new ≡ is_end result }
        ensures no_room { length buf.old ≡ 0 → met_end self.new ≡ met_end self.old }
        ensures at_end { 0 < length buf.old → result ≡ Ok 0 → IfSome (left self.old) (λ bytes. bytes ≡ []) }
        ensures cause { HasCause (faults self.old) (faults self.new) result }
        ensures steady { OnOk result (faults self.new ≡ faults self.old) };
}
