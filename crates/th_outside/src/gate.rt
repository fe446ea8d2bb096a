// What is told of the tests that workers make.
use th_base::EdgeId;

/// Is told of each test of an edge before it is made: between a worker's claim and its test, and
/// before each test of the finishing loop.
pub trait Gate {
    /// Worker number `worker` is about to test this edge.
    fn before(&self, worker: u32, edge: EdgeId);
}

/// A gate that does nothing.
#[derive(Clone, Copy, Debug)]
pub struct NoGate;

impl Gate for NoGate {
    fn before(&self, _worker: u32, _edge: EdgeId) {}
}
