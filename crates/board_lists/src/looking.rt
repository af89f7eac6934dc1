// Looks for the first trees of rules for which a query asks, as far as what is known of a board's nodes says which they are.

ghost use Rattle.std.specs.Prelude.{◌≡◌, IfOk, None, map};
ghost use Rattle.rule_model.specs.Derivations.{derivation_of};
ghost use Rattle.candidate_search.specs.Searches.{query_of};
ghost use Rattle.candidate_verdicts.specs.Known.{known_show};
ghost use Rattle.candidates.specs.Walks.{met_of};
ghost use Rattle.board_core.specs.Views.{pieces, program, tree, windows};
ghost use Rattle.board_laws.specs.Gaps.{element};
ghost use Rattle.candidates.specs.Models.{job_of};
ghost use Rattle.candidate_composites.specs.Known.{placed_of};
ghost use Rattle.candidates.specs.Listed.{trees_sought};
ghost use Rattle.board_lists.specs.Looking.{ComesOfSearch, FindsOut, IsForAll, IsLooked, Says, looked_through};

use board_core::board::Board;
use board_core::job::Job;
use candidate_composites::known::sought_composites;
use candidate_composites::part::Part;
use candidate_composites::sought::Sought;
use candidate_search::searches::TreeSearch;
use candidate_verdicts::asked::verdict;
use candidate_verdicts::shown::first_missing;
use candidates::job::NodeJob;
use candidates::walk::{Met, Walk};
use rule_model::rules::Rules;
use spec_core::memory::Memory;
use std::alloc::Global;

/// What a search for the first trees comes to: these are they; or these jobs are to be done before, in this order.
#[derive(Drop)]
pub enum Looked {
    Trees(Vec<Rules>),
    Missing(Vec<Job>),
}

/// What a search makes of what a walk meets: no tree that is asked for; this one; or a job that is to be done before this is known.
#[derive(Drop)]
pub enum Seen {
    Absent,
    Tree(Rules),
    Missing(NodeJob),
}

// The first part of a tree of rules of which nothing is known, where it isn't known what is shown by the tree.
fn missing_part(alloc: Global, board: &Board, rules: &Rules) -> Result<NodeJob, Memory>
    requires unknown { known_show (program board.now).theory (windows board.now) (pieces board.now) (tree board.now)
        (derivation_of rules.now) ≡ None }
    ensures { IfOk result (λ job. FindsOut board.now (element (derivation_of rules.now)) (job_of job)) }
{
    match first_missing(board.pieces(), board.nodes(), rules) {
        None => unreachable!(),
        Some(part) => {
            let rules = part.rules.copy(alloc)?;
            Ok(NodeJob::Judge(part.generation, rules))
        }
    }
}

// What a query comes to at what a walk meets.
fn seen_at(alloc: Global, board: &Board, search: &TreeSearch<'_>, met: Met) -> Result<Seen, Memory>
    ensures { IfOk result (Says board.now (query_of search.now) (met_of met)) }
{
    match met {
        Met::Gap(generation) => Ok(Seen::Missing(NodeJob::Expand(generation))),
        Met::Tree(rules) => match verdict(
            alloc,
            &board.checked().algebra,
            board.windows(),
            board.pieces(),
            board.nodes(),
            search,
            &rules,
        )? {
            None => Ok(Seen::Missing(missing_part(alloc, board, &rules)?)),
            Some(true) => Ok(Seen::Tree(rules)),
            Some(false) => Ok(Seen::Absent),
        },
    }
}

// Whether the job is to expand a node: what comes behind it depends on what comes of it.
fn is_expansion(task: &NodeJob) -> bool {
    match task {
        NodeJob::Expand(_) => true,
        NodeJob::Judge(_, _) => false,
    }
}

// The trees that were found, where no job is to be done before.
fn comes_to(those: Vec<Rules>, jobs: Vec<Job>) -> Looked
    ensures { IsLooked those.items jobs.items result }
{
    if jobs.is_empty() {
        Looked::Trees(those)
    } else {
        Looked::Missing(jobs)
    }
}

// The composites of a board's nodes of which trees for which a query asks are looked for, and the gaps.
fn parts_of<'a>(
    alloc: Global,
    board: &'a Board,
    search: &TreeSearch<'_>,
) -> Result<Vec<Part<'a>>, Memory>
    requires all { IsForAll (query_of search.now) }
    ensures { IfOk result (λ all.
        trees_sought (program board.now).theory (windows board.now) (query_of search.now) (map placed_of all.items) ≡
        looked_through board.now (query_of search.now)) }
{
    sought_composites(
        alloc,
        &board.checked().algebra,
        board.nodes(),
        &Sought::Every,
    )
}

/// The first trees for which a query asks, at most so many; or the jobs that are to be done before it is known which they are: those of the
/// trees that may be among them, up to the first node that isn't expanded.
pub fn first_trees(
    alloc: Global,
    board: &Board,
    search: TreeSearch<'_>,
    most: u64,
) -> Result<Looked, Memory>
    requires all { IsForAll (query_of search) }
    ensures comes { IfOk result (ComesOfSearch board.now (query_of search.entry) most) }
{
    board.log_is_a_derivation();
    board.what_is_known_is_so();
    board.generations_are_sound();
    let algebra = &board.checked().algebra;
    let parts = parts_of(alloc, board, &search)?;
    let mut walk = Walk::new(algebra, board.windows(), search, &parts);
    let mut those = Vec::new(alloc);
    let mut jobs = Vec::new(alloc);
    let mut left = most;
    while left > 0 {
        match walk.next(alloc)? {
            None => return Ok(comes_to(those, jobs)),
            Some(met) => match seen_at(alloc, board, &search, met)? {
                Seen::Absent => {}
                Seen::Tree(tree) => {
                    those.push(tree)?;
                    left -= 1;
                }
                Seen::Missing(task) => {
                    let expands = is_expansion(&task);
                    jobs.push(board.with_origin(alloc, task)?)?;
                    if expands {
                        return Ok(Looked::Missing(jobs));
                    }
                    left -= 1;
                }
            },
        }
    }
    Ok(comes_to(those, jobs))
}
