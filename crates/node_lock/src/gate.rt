//! What a pool's workers pass through at each job.

/// What a pool's workers pass through at each job. It must return, and can change no receipt.
pub trait Gate: Sync {
    /// A worker has the job, and its call has not yet taken the lock.
    fn enter(&self, worker: u8, job: u32);

    /// The receipt of the job's call is there.
    fn leave(&self, worker: u8, job: u32);
}

/// The gate that lets every worker through.
#[derive(Clone, Copy, Debug, PartialEq, Eq)]
pub struct NoGate;

impl Gate for NoGate {
    fn enter(&self, _worker: u8, _job: u32) {}

    fn leave(&self, _worker: u8, _job: u32) {}
}
