// Why a session has stopped.

ghost use Rattle.std.specs.Prelude.{◌≡◌, IfOk};
ghost use Rattle.rule_model.specs.Answers.{answer_of};
ghost use Rattle.rule_model.specs.Events.{ending_of};
ghost use Rattle.board_laws.specs.Stopping.{answer_by, ending_by};

use rule_model::log::End;
use rule_model::reply::{LimitKind, Reply};
use spec_core::memory::Memory;
use spec_core::term::Term;
use std::alloc::Global;

/// Why a session does no further action.
#[derive(Drop)]
pub enum StopReason {
    /// The evaluation of the term passes the budget.
    Spent(Term),
    /// The evaluation of the term meets a value of more than 65,536 symbols.
    TooLarge(Term),
    /// A limit was exceeded.
    Limit(LimitKind),
}

impl StopReason {
    /// The reply that gives the reason, after so many actions.
    pub fn reply(&self, alloc: Global, at: u64) -> Result<Reply, Memory>
        ensures { IfOk result (λ reply. answer_of reply ≡ answer_by at self.now) }
    {
        match self {
            StopReason::Spent(term) => {
                let term = term.copy(alloc)?;
                Ok(Reply::Spent { at, term })
            }
            StopReason::TooLarge(term) => {
                let term = term.copy(alloc)?;
                Ok(Reply::TooLarge { at, term })
            }
            StopReason::Limit(kind) => Ok(Reply::Limit { at, kind: *kind }),
        }
    }

    /// The end of a session that it has stopped. It takes no memory.
    pub fn into_end(self) -> End
        ensures { ending_of result ≡ ending_by self }
    {
        match self {
            StopReason::Spent(term) => End::Spent(term),
            StopReason::TooLarge(term) => End::TooLarge(term),
            StopReason::Limit(kind) => End::Limit(kind),
        }
    }
}
