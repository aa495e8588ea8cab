/// How a run goes: the rows of a batch, from 1 to 65,536; the number of workers, from 1 to 64; how many batches may wait
/// on an edge before it is paused, from 1 to 1,024; and at how many it goes on, from 0 to less than that.
#[derive(Debug, Clone, Copy, PartialEq, Eq)]
pub struct Setting {
    pub batch: u32,
    pub workers: u32,
    pub pause: u32,
    pub resume: u32,
}

/// Whether a run goes on, has ended, or has failed.
#[derive(Debug, Clone, Copy, PartialEq, Eq)]
pub enum Ending {
    Running,
    Ended,
    Failed,
}
