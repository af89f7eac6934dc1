// Whether a query asks for a tree of rules, by what is shown by it.

ghost use Rattle.std.specs.Prelude.{◌≡◌, IfOk, option_map};
ghost use Rattle.spec_core.specs.Theories.{theory_of};
ghost use Rattle.rule_model.specs.Derivations.{derivation_of};
ghost use Rattle.symbolic_rules.specs.Tables.{windows_in};
ghost use Rattle.symbolic_actions.specs.Models.{show_of};
ghost use Rattle.node_trees.specs.Shapes.{shape_of};
ghost use Rattle.candidate_search.specs.Searches.{query_of};
ghost use Rattle.candidate_verdicts.specs.Known.{known_show};
ghost use Rattle.candidate_verdicts.specs.Asked.{suits, asked_by};
ghost use Rattle.candidate_verdicts.specs.Stored.{stored};

use crate::pieces::Pieces;
use crate::shown::shown_over;
use candidate_search::searches::{TreeSearch, is_unseen, is_wanted};
use node_trees::branch::Branch;
use rule_model::rules::Rules;
use spec_core::equation::DataSpec;
use spec_core::memory::Memory;
use spec_core::window::Window;
use std::alloc::Global;
use symbolic_actions::meeting::{may_meet, may_meet_any};
use symbolic_actions::shown::Shown;

// Whether what is shown is what a query asks for, the marks of the tree aside.
fn suits(algebra: &DataSpec, windows: &[Window], search: &TreeSearch<'_>, shown: &Shown) -> bool
    ensures { result ≡ suits (theory_of algebra.now) (windows_in windows.now) (query_of search.now) (show_of shown.now) }
{
    match search {
        TreeSearch::Meeting(offer) => may_meet(algebra, windows, shown, offer),
        TreeSearch::Any => may_meet_any(algebra, windows, shown),
        TreeSearch::Unseen => may_meet_any(algebra, windows, shown) && is_unseen(shown.kind),
        TreeSearch::Beyond(offer) => may_meet(algebra, windows, shown, offer),
        TreeSearch::AnyBeyond => may_meet_any(algebra, windows, shown),
        TreeSearch::BeyondOrUnseen(offer) => {
            may_meet(algebra, windows, shown, offer)
                || (may_meet_any(algebra, windows, shown) && is_unseen(shown.kind))
        }
    }
}

/// Whether a query asks for a tree of rules, by which this is shown; None: nothing is shown. It takes no memory.
pub fn is_asked_by(
    algebra: &DataSpec,
    windows: &[Window],
    search: &TreeSearch<'_>,
    rules: &Rules,
    shown: Option<&Shown>,
) -> bool
    ensures asked { result ≡ asked_by (theory_of algebra.now) (windows_in windows.now) (query_of search.now) (derivation_of rules.now)
        (option_map (λ s. show_of s.now) shown.entry) }
{
    match shown {
        None => false,
        Some(shown) => is_wanted(search, rules) && suits(algebra, windows, search, shown),
    }
}

/// Whether a query asks for a tree of rules over a tree of nodes; None where it isn't known what is shown.
pub fn verdict(
    alloc: Global,
    algebra: &DataSpec,
    windows: &[Window],
    pieces: &Pieces,
    branch: &Branch,
    search: &TreeSearch<'_>,
    rules: &Rules,
) -> Result<Option<bool>, Memory>
    ensures verdict { IfOk result (λ o. o ≡
        option_map (asked_by (theory_of algebra.now) (windows_in windows.now) (query_of search.now) (derivation_of rules.now))
        (known_show (theory_of algebra.now) (windows_in windows.now) (stored pieces.now) (shape_of branch.now) (derivation_of rules.now))) }
{
    match branch {
        Branch::Leaf(node) => match pieces.find(node.generation, rules) {
            None => Ok(None),
            Some(shown) => Ok(Some(is_asked_by(algebra, windows, search, rules, shown))),
        },
        Branch::Ended | Branch::Over(_, _) | Branch::Between(_, _, _) => {
            match shown_over(alloc, algebra, windows, pieces, branch, rules)? {
                None => Ok(None),
                Some(shown) => Ok(Some(is_asked_by(
                    algebra,
                    windows,
                    search,
                    rules,
                    shown.as_ref(),
                ))),
            }
        }
    }
}
