// How many possible agreements there are.

ghost use Rattle.std.specs.Prelude.{ℕ, ◌≡◌, ◌+◌, ◌*◌, map};
ghost use Rattle.spec_core.specs.Code.{program_of};
ghost use Rattle.spec_core.specs.Ready.{IsReady};
ghost use Rattle.symbolic_plans.specs.OpenPlans.{kind_in, open_plan_of};
ghost use Rattle.symbolic_plans.specs.Plans.{field_of, plan_of};
ghost use Rattle.candidate_composites.specs.Known.{expanded_plans};
ghost use Rattle.node_trees.specs.Shapes.{shape_of, stands_for};
ghost use Rattle.symbolic_rules.specs.Tables.{windows_in};
ghost use Rattle.candidate_count.specs.Counts as counts;
ghost use Rattle.candidate_count.specs.Counts.{limited, ways_to_fill, tuples, turned_tuples, offers_of_plan, offers_of_tree};

use crate::trees::has_predicate;
use node_trees::branch::Branch;
use spec_core::code::Checked;
use spec_core::window::Window;
use symbolic_plans::column::Column;
use symbolic_plans::composite::{ActionKind, OpenComposite};
use symbolic_plans::scheme::Scheme;
use symbolic_rules::values_at;

/// The number of possible agreements up to which a session judges candidates.
pub const OFFERS_LIMIT: u64 = 1_048_576;

// A number as it is counted: what is above the limit isn't told apart.
fn limited(n: u64) -> u64
    ensures { result ≡ limited n }
{
    if n > OFFERS_LIMIT {
        OFFERS_LIMIT + 1
    } else {
        n
    }
}

// A sum of two numbers as they are counted.
fn plus(one: u64, other: u64) -> u64
    ensures sum { (a b : ℕ) → one ≡ limited a → other ≡ limited b → result ≡ limited (a + b) }
{
    limited(one.saturating_add(other))
}

// A product of two numbers as they are counted.
fn times(one: u64, other: u64) -> u64
    ensures product { (a b : ℕ) → one ≡ limited a → other ≡ limited b → result ≡ limited (a * b) }
{
    limited(one.saturating_mul(other))
}

// How many ways there are to fill a field with values of the window of its sort.
fn field_count(windows: &[Window], column: &Column) -> u64
    ensures { result ≡ limited (ways_to_fill (windows_in windows.now) (field_of column.now)) }
{
    match column {
        Column::Told(_, _) => 1,
        Column::Blank(sort, marked) => {
            if *marked {
                1
            } else {
                limited(values_at(windows, *sort).len() as u64)
            }
        }
    }
}

// How many ways there are to fill fields. It recurs as often as there are fields.
fn tuple_count(windows: &[Window], columns: &[Column]) -> u64
    ensures { result ≡ limited (tuples (windows_in windows.now) (map field_of columns.now)) }
{
    match columns {
        [] => 1,
        [first, rest @ ..] => times(field_count(windows, first), tuple_count(windows, rest)),
    }
}

// The same of the fields that were open until an action turned internal.
fn turned_count(windows: &[Window], scheme: &Scheme) -> u64
    ensures { result ≡ limited (turned_tuples (windows_in windows.now) (plan_of scheme.now)) }
{
    match scheme {
        Scheme::Pre(_) => 1,
        Scheme::Int => 1,
        Scheme::Exit(_) => 1,
        Scheme::Under(_, _, part) => turned_count(windows, part),
        Scheme::Hide(columns, _) => tuple_count(windows, columns),
        Scheme::Enend(columns, _) => tuple_count(windows, columns),
        Scheme::Both(_, _) => 1,
    }
}

// Whether it is an action at a gate.
fn is_visible(kind: ActionKind) -> bool
    ensures { result ≡ counts.is_visible (kind_in kind) }
{
    match kind {
        ActionKind::Inner => false,
        ActionKind::Exit => false,
        ActionKind::At(_) => true,
    }
}

// How many ways there are to fill the fields of a composite.
fn fill_count(windows: &[Window], composite: &OpenComposite) -> u64
    ensures { result ≡ limited (tuples (windows_in windows.now) (open_plan_of composite.now).fields *
        turned_tuples (windows_in windows.now) (open_plan_of composite.now).plan) }
{
    times(
        tuple_count(windows, &composite.columns),
        turned_count(windows, &composite.scheme),
    )
}

// How often a composite of the tree counts. Where there is one way to fill its fields it counts once in any case, and nothing is walked.
fn composite_count(
    checked: &Checked,
    windows: &[Window],
    tree: &Branch,
    composite: &OpenComposite,
) -> u64
    requires ready { IsReady (program_of checked.now) }
    ensures { result ≡ limited (offers_of_plan (program_of checked.now) (windows_in windows.now)
        (stands_for (program_of checked.now) (shape_of tree.now)) (open_plan_of composite.now)) }
{
    let ways = fill_count(windows, composite);
    if ways != 1 && is_visible(composite.kind) && !has_predicate(checked, tree, &composite.scheme) {
        1
    } else {
        ways
    }
}

/// How many possible agreements the tree has, of those of which every participant is an expanded node: each of its composites counts once
/// where its action is at a gate and no participant has a selection predicate, else once for each way to fill its open fields with values
/// of their windows. All above the limit comes to one more than the limit. It takes no memory, and goes once along each composite.
pub fn count_offers(
    checked: &Checked,
    windows: &[Window],
    tree: &Branch,
    composites: &[OpenComposite],
) -> u64
    requires ready { IsReady (program_of checked.now) }
    requires plans { map open_plan_of composites.now ≡ expanded_plans (program_of checked.now).theory (shape_of tree.now) }
    ensures counted { result ≡ limited (offers_of_tree (program_of checked.now) (windows_in windows.now) (shape_of tree.now)) }
{
    let mut total = 0;
    for composite in composites {
        total = plus(total, composite_count(checked, windows, tree, composite));
    }
    total
}
