/// What each worker passes before it looks for a fiber to run. It has no meaning and gives nothing back: a test
/// holds workers up with it.
pub trait Gate: Sync {
    /// `worker` counts workers from 0, `slice` this worker's earlier passes.
    fn pass(&self, worker: u32, slice: u64);
}

/// A gate that holds nobody up.
#[derive(Clone, Copy, Debug, PartialEq, Eq)]
pub struct OpenGate;

impl Gate for OpenGate {
    fn pass(&self, _worker: u32, _slice: u64) {}
}
