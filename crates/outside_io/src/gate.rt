use std::marker::{Send, Sync};
use std::sync::Wait;
use std::thread::Threads;

/// What each worker passes before it runs a task of a node. It may wait there. A pass has no meaning and no answer:
/// a gate is for tests, which hold a worker back by it.
pub trait Gate: Send + Sync {
    fn pass<R: Threads + Wait + Sync>(&self, rt: &R, worker: u32, node: u32);
}

/// A gate that holds nobody back.
#[derive(Debug, Clone, Copy, PartialEq, Eq)]
pub struct OpenGate;

impl Gate for OpenGate {
    fn pass<R: Threads + Wait + Sync>(&self, _rt: &R, _worker: u32, _node: u32) {}
}
