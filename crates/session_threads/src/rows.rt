// Who takes part in a session.

use rule_model::wish::ClientWish;
use session::pass::Pass;
use session::work_pass::WorkPass;

/// Who takes part in a session, with its pass; and whether it has done all that it was to do, or met want of memory.
#[derive(Drop)]
pub enum Row<'w> {
    /// A client, which makes these offers in order, and leaves.
    Client {
        pass: Pass,
        wishes: &'w [ClientWish],
        is_done: bool,
    },
    /// A worker, which does jobs until each client has left.
    Worker {
        pass: WorkPass,
        is_done: bool,
    },
}

/// A client as its thread leaves it: whether it was begun with, and whether it has done all that it was to do. Where it was begun with and
/// hasn't, it met want of memory.
#[derive(Drop)]
pub struct ServedClient {
    pub pass: Pass,
    pub is_begun: bool,
    pub is_done: bool,
}

/// A worker as its thread leaves it, likewise.
#[derive(Drop)]
pub struct ServedWorker {
    pub pass: WorkPass,
    pub is_begun: bool,
    pub is_done: bool,
}
