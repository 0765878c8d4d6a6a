/// Called round each slice of a process. Nothing is claimed of it.
pub trait Gate: Sync {
    fn enter(&self, pid: u64);

    fn leave(&self, pid: u64);
}

/// A gate that is always open.
#[derive(Clone, Copy, Debug, PartialEq, Eq)]
pub struct OpenGate;

impl Gate for OpenGate {
    fn enter(&self, _pid: u64) {}

    fn leave(&self, _pid: u64) {}
}
