// The list of the trees of rules by which the behaviour that a board has reached may act.

ghost use Rattle.std.specs.Prelude.{◌+◌, ◌≡◌, IfNone, IfOk, IfSome, None, OnErr, map, option_map};
ghost use Rattle.spec_core.specs.Lists.{Each};
ghost use Rattle.rule_model.specs.Derivations.{derivation_of};
ghost use Rattle.board_laws.specs.Lazy.{first};
ghost use Rattle.board_laws.specs.Rules.{any, any_beyond};
ghost use Rattle.board_core.specs.Views.{program, state, tree, SameLog, SameSession};
ghost use Rattle.board_lists.specs.Leaving.{IsNotStoppedBySteps, IsStoppedRightly};
ghost use Rattle.board_lists.specs.Listings.{ComesOfBoth, IsCandidate, IsListing, MayAct, tree_in};
ghost use Rattle.board_lists.specs.Looking.{AreFound};

use crate::doing::do_jobs;
use crate::looking::{Looked, first_trees};
use board_core::board::Board;
use board_core::job::Job;
use board_tree::ready::{Ready, ready_for};
use candidate_search::searches::TreeSearch;
use rule_model::action::Action;
use rule_model::rules::Rules;
use spec_core::memory::Memory;
use std::alloc::Global;

/// A tree of rules, and the action that the behaviour does by it.
#[derive(Drop)]
pub struct Candidate {
    pub rules: Rules,
    pub action: Action,
}

/// The first of the windowed trees, whether there are more, and the first beyond tree, if there is one.
#[derive(Drop)]
pub struct Listing {
    pub candidates: Vec<Candidate>,
    pub more: bool,
    pub beyond: Option<Rules>,
}

/// The first of both kinds of trees; or the jobs that are to be done before they are known.
#[derive(Drop)]
pub enum Trees {
    Known(Vec<Rules>, Vec<Rules>),
    Missing(Vec<Job>),
}

// The first windowed trees, at most so many, and the first beyond tree, as far as they are known.
fn known_trees(alloc: Global, board: &Board, most: u64) -> Result<Trees, Memory>
    ensures { IfOk result (ComesOfBoth board.now most) }
{
    match first_trees(alloc, board, TreeSearch::Any, most)? {
        Looked::Missing(jobs) => Ok(Trees::Missing(jobs)),
        Looked::Trees(windowed) => match first_trees(alloc, board, TreeSearch::AnyBeyond, 1)? {
            Looked::Missing(jobs) => Ok(Trees::Missing(jobs)),
            Looked::Trees(beyond) => Ok(Trees::Known(windowed, beyond)),
        },
    }
}

// The tree with its action.
fn with_action(alloc: Global, board: &Board, rules: &Rules) -> Result<Candidate, Memory>
    requires acts { MayAct (program board.now) (state board.now) (tree board.now) (derivation_of rules.now) }
    ensures rules { IfOk result (λ c. derivation_of c.rules ≡ derivation_of rules.now) }
    ensures candidate { IfOk result (IsCandidate (program board.now) (state board.now) (tree board.now)) }
{
    board.log_is_a_derivation();
    board.what_is_known_is_so();
    let ready = ready_for(alloc, board.checked(), board.nodes(), rules, 0)?;
    let Ready {
        change: _,
        action,
        next: _,
        gone: _,
        came: _,
    } = ready;
    let rules = rules.copy(alloc)?;
    Ok(Candidate { rules, action })
}

// The trees with their actions.
fn with_actions(alloc: Global, board: &Board, those: &[Rules]) -> Result<Vec<Candidate>, Memory>
    requires act { Each (MayAct (program board.now) (state board.now) (tree board.now)) (map derivation_of those.now) }
    ensures trees { IfOk result (λ all. map tree_in all.items ≡ map derivation_of those.now) }
    ensures candidates { IfOk result (λ all. Each (IsCandidate (program board.now) (state board.now) (tree board.now)) all.items) }
{
    let mut all = Vec::new(alloc);
    for rules in those {
        all.push(with_action(alloc, board, rules)?)?;
    }
    Ok(all)
}

// The first of some trees.
fn first_of(those: Vec<Rules>) -> Option<Rules>
    ensures { option_map derivation_of result ≡ first (map derivation_of those.items) }
{
    let mut those = those;
    those.truncate(1);
    those.pop()
}

// The listing of these trees, of which there are more than so many where one more was found.
fn listed(
    alloc: Global,
    board: &Board,
    windowed: Vec<Rules>,
    beyond: Vec<Rules>,
    most: u32,
) -> Result<Listing, Memory>
    requires windowed { AreFound board.now any (most + 1) (map derivation_of windowed.items) }
    requires beyond { AreFound board.now any_beyond 1 (map derivation_of beyond.items) }
    ensures { IfOk result (IsListing (program board.now) board.now.settings (state board.now) (tree board.now) most) }
{
    board.log_is_a_derivation();
    board.what_is_known_is_so();
    board.generations_are_sound();
    let mut windowed = windowed;
    let more = windowed.len() as u64 > most as u64;
    windowed.truncate(most as usize);
    let candidates = with_actions(alloc, board, &windowed)?;
    Ok(Listing {
        candidates,
        more,
        beyond: first_of(beyond),
    })
}

/// The first windowed trees of the behaviour that is reached, at most `most`, in the order of trees, each with its action; whether there
/// are more; and the first beyond tree. It does the jobs that this needs at once, and appends nothing to the log. None where a reason
/// stops the session instead: a term that is asked has no value within the budget, or meets a value that is too large, or the behaviour
/// is too wide or has too many possible agreements. Expansions and verdicts that were made stay, also where there is no memory.
pub fn list(alloc: Global, board: &mut Board, most: u32) -> Result<Option<Listing>, Memory>
    requires running { board.old.stop ≡ None }
    ensures listing { IfOk result (λ o. IfSome o
        (IsListing (program board.new) board.new.settings (state board.new) (tree board.new) most)) }
    ensures running { IfOk result (λ o. IfSome o (λ listing. board.new.stop ≡ None)) }
    ensures stopped { IfOk result (λ o. IfNone o (IsStoppedRightly board.new)) }
    ensures steps { IsNotStoppedBySteps board.new }
    ensures kept { OnErr result (board.new.stop ≡ None) }
    ensures log { SameLog board.old board.new }
    ensures session { SameSession board.old board.new }
{
    let count = most as u64 + 1;
    for _ in 0..u64::MAX {
        match known_trees(alloc, board, count)? {
            Trees::Known(windowed, beyond) => {
                let listing = listed(alloc, board, windowed, beyond, most)?;
                return Ok(Some(listing));
            }
            Trees::Missing(jobs) => {
                do_jobs(alloc, board, &jobs)?;
                if board.stopped() {
                    return Ok(None);
                }
            }
        }
    }
    Err(Memory)
}
