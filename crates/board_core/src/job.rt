// Jobs that the board hands out.

use candidates::job::NodeJob;
use node_trees::origin::Origin;

/// What is to be done at a node, and what the node stands for. A worker does it without the board.
#[derive(Drop)]
pub struct Job {
    pub task: NodeJob,
    pub origin: Origin,
}

/// A job that is out, and others that are needed with it and stay free.
#[derive(Drop)]
pub struct Batch {
    pub first: Job,
    pub others: Vec<Job>,
}

/// What comes of handing in what a job brought.
#[derive(Clone, Copy, Debug, PartialEq, Eq)]
pub enum Post {
    /// It is kept.
    Posted,
    /// The node at which it was done is gone, or, of an expansion, is expanded already. Nothing has changed.
    Stale,
}
