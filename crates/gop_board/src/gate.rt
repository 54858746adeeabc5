/// Is told when a worker begins and ends a job. A caller may hold workers back there, or look on.
pub trait Gate {
    /// A worker is about to run this job.
    fn before(&self, job: u64);

    /// A worker has deposited this job's result.
    fn after(&self, job: u64);
}

/// Holds nobody back.
#[derive(Clone, Copy, Debug)]
pub struct OpenGate;

impl Gate for OpenGate {
    fn before(&self, _job: u64) {}

    fn after(&self, _job: u64) {}
}
