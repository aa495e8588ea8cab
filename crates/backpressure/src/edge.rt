ghost use Rattle.std.specs.Prelude.{◌≡◌, ◌<◌, ◌≤◌, ◌↔◌, ◌^◌, ◌-◌, IsTrue, false, true};
ghost use Rattle.backpressure.specs.Edges.{EdgeValue, quiet, with_one_more, with_one_less, emptied};

use std::marker::Model;

/// The counts of one edge: the batches that wait on it, whether it is paused, and how many waited at most.
/// No more wait than the peak says.
#[derive(Debug, Clone, Copy, PartialEq, Eq)]
pub struct Edge {
    pub waiting: u32,
    pub paused: bool,
    pub peak: u32,
}

impl Model for Edge {
    ghost use Rattle.std.specs.Prelude.{◌≤◌};
    ghost use Rattle.backpressure.specs.Edges.{EdgeValue};

    ghost Value = { EdgeValue };

    ghost view = { λ e. record { waiting = e.waiting; paused = e.paused; peak = e.peak } };

    ghost invariant = { λ e. e.waiting ≤ e.peak };

    ghost inverse = { λ e. record { waiting = e.waiting; paused = e.paused; peak = e.peak } };
}

impl Edge {
    /// An edge on which nothing has waited yet.
    pub fn new() -> Edge
        ensures { result ≡ quiet }
    {
        Edge {
            waiting: 0,
            paused: false,
            peak: 0,
        }
    }

    /// Whether more than `pause` batches wait and the edge isn't paused: then it has to be.
    pub fn over(&self, pause: u32) -> bool
        ensures { IsTrue result ↔ ((pause < self.now.waiting) × (self.now.paused ≡ false)) }
    {
        self.waiting > pause && !self.paused
    }

    /// Whether the edge is paused and at most `resume` batches wait: then it may go on.
    pub fn may_resume(&self, resume: u32) -> bool
        ensures { IsTrue result ↔ ((self.now.paused ≡ true) × (self.now.waiting ≤ resume)) }
    {
        self.paused && self.waiting <= resume
    }

    /// One batch more waits, which the peak counts.
    pub fn came(&mut self)
        requires { self.old.waiting < 2 ^ 32 - 1 }
        ensures { self.new ≡ with_one_more self.old }
    {
        self.waiting += 1;
        self.peak = self.peak.max(self.waiting);
    }

    /// One batch less waits.
    pub fn went(&mut self)
        requires { 0 < self.old.waiting }
        ensures { self.new ≡ with_one_less self.old }
    {
        self.waiting -= 1;
    }

    /// The edge is paused from now on.
    pub fn pause(&mut self)
        ensures { self.new ≡ record self.old { paused = true } }
    {
        self.paused = true;
    }

    /// The edge goes on.
    pub fn resume(&mut self)
        ensures { self.new ≡ record self.old { paused = false } }
    {
        self.paused = false;
    }

    /// Nothing waits any more and the edge isn't paused; its peak stays.
    pub fn clear(&mut self)
        ensures { self.new ≡ emptied self.old }
    {
        self.waiting = 0;
        self.paused = false;
    }
}

#[cfg(test)]
mod tests {
    use super::*;

    #[test]
    fn counts_follow_batches(rt: HostRuntime) {
        let mut edge = Edge::new();
        assert!(rt; !edge.over(0));
        edge.came();
        let waiting = edge.waiting;
        assert_eq!(rt; waiting, 1);
        assert!(rt; edge.over(0) && !edge.over(1));
        edge.pause();
        assert!(rt; !edge.over(0) && edge.may_resume(1) && !edge.may_resume(0));
        edge.resume();
        assert!(rt; !edge.may_resume(1));
        edge.went();
        assert_eq!(rt; edge.waiting, 0);
        assert_eq!(rt; edge.peak, 1);
        edge.clear();
        assert_eq!(rt; edge.peak, 1);
    }
}
