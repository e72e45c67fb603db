ghost use Rattle.std.specs.Prelude.{◌≡◌, ◌<◌, ◌≤◌, ◌++◌, List, ℕ, length, take, drop, IfOk, OnOk, OnErr, Option};
ghost use Rattle.cr_io.specs.Faults.{HasCause};
ghost use Rattle.cr_io.specs.Sink.{Appends, AppendsFront};

use crate::source::Failed;

/// Where bytes go, in order.
pub trait Sink {
    /// The bytes written so far, where it tells them.
    ghost written: { Self → Option (List ℕ) };

    /// How often it has failed. Only a call that fails raises it, and nothing lowers it.
    ghost faults: { Self → ℕ };

    /// Whether it has room for a text. True of every text, but for a sink with a fixed room that cannot fail.
    ghost fits: { Self → List ℕ → Type 0 };

    /// Takes a front of the bytes, and says how many: at least one, where there is one.
    fn write(&mut self, bytes: &[u8]) -> Result<usize, Failed>
        requires { fits self.old bytes.now }
        ensures within { IfOk result (λ count. count ≤ length bytes.now) }
        ensures some { 0 < length bytes.now → IfOk result (λ count. 0 < count) }
        ensures appends { IfOk result (λ count. Appends (written self.old) (take count bytes.now) (written self.new)) }
        ensures err { OnErr result (AppendsFront (written self.old) bytes.now (written self.new)) }
        ensures room { (more : List ℕ) → fits self.old (bytes.now ++ more) → IfOk result (λ count. fits self.new (drop count bytes.now ++ more)) }
        ensures cause { HasCause (faults self.old) (faults self.new) result }
        ensures steady { OnOk result (faults self.new ≡ faults self.old) };

    /// A front of a text that fits does fit.
    ghost front_fits: { (sink : Self) (text more : List ℕ) → fits sink (text ++ more) → fits sink text };
}

/// Writes all the bytes. After `Failed` the sink has its old bytes and a front of these; nothing was written to it
/// after the fault. Takes no memory.
pub fn put_all<K: Sink>(sink: &mut K, bytes: &[u8]) -> Result<(), Failed>
    requires { K.fits sink.old bytes.now }
    ensures ok { OnOk result (Appends (K.written sink.old) bytes.now (K.written sink.new)) }
    ensures err { OnErr result (AppendsFront (K.written sink.old) bytes.now (K.written sink.new)) }
    ensures room { (more : List ℕ) → K.fits sink.old (bytes.now ++ more) → OnOk result (K.fits sink.new more) }
    ensures cause { HasCause (K.faults sink.old) (K.faults sink.new) result }
    ensures steady { OnOk result (K.faults sink.new ≡ K.faults sink.old) }
{
    let mut rest = bytes;
    while !rest.is_empty() {
        let count = sink.write(rest)?;
        rest = &rest[count..];
    }
    Ok(())
}
