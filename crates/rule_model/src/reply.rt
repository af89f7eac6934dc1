// What a client is answered.

ghost use Rattle.std.specs.Prelude.{◌≡◌, IfOk};
ghost use Rattle.rule_model.specs.Answers.{answer_of};

use crate::action::Values;
use crate::rules::Rules;
use spec_core::memory::Memory;
use spec_core::term::Term;
use std::alloc::Global;

/// Which limit was exceeded.
#[derive(Clone, Copy, Debug, PartialEq, Eq)]
pub enum LimitKind {
    /// The number of actions.
    Steps,
    /// The number of operators and actions that no action comes before.
    Spread,
    /// The number of possible agreements.
    Offers,
}

/// The reply to an offer. Each names the number of actions before it.
#[derive(Drop)]
pub enum Reply {
    /// The offer was taken, with these values.
    Taken { at: u64, values: Values },
    /// Nothing can be done any more.
    Deadlock { at: u64 },
    /// No offer that is there can be taken, and no internal step is left.
    Stalled { at: u64 },
    /// This tree would act with a value beyond the window of its sort.
    Beyond { at: u64, rules: Rules },
    /// What was asked for can't be done now.
    NotNow { at: u64 },
    /// The specification has terminated.
    Ended { at: u64 },
    /// The evaluation of the term passes the budget.
    Spent { at: u64, term: Term },
    /// The evaluation of the term meets a value of more than 65,536 symbols.
    TooLarge { at: u64, term: Term },
    /// A limit was exceeded.
    Limit { at: u64, kind: LimitKind },
}

impl Reply {
    /// An equal reply.
    pub fn copy(&self, alloc: Global) -> Result<Reply, Memory>
        ensures equal { IfOk result (λ reply. answer_of reply ≡ answer_of self.now) }
    {
        match self {
            Reply::Taken { at, values } => {
                let values = values.copy(alloc)?;
                Ok(Reply::Taken { at: *at, values })
            }
            Reply::Deadlock { at } => Ok(Reply::Deadlock { at: *at }),
            Reply::Stalled { at } => Ok(Reply::Stalled { at: *at }),
            Reply::Beyond { at, rules } => {
                let rules = rules.copy(alloc)?;
                Ok(Reply::Beyond { at: *at, rules })
            }
            Reply::NotNow { at } => Ok(Reply::NotNow { at: *at }),
            Reply::Ended { at } => Ok(Reply::Ended { at: *at }),
            Reply::Spent { at, term } => {
                let term = term.copy(alloc)?;
                Ok(Reply::Spent { at: *at, term })
            }
            Reply::TooLarge { at, term } => {
                let term = term.copy(alloc)?;
                Ok(Reply::TooLarge { at: *at, term })
            }
            Reply::Limit { at, kind } => Ok(Reply::Limit {
                at: *at,
                kind: *kind,
            }),
        }
    }
}
