// The trees of a composite that a query may ask for, one after another.

ghost use Rattle.std.specs.Prelude.{◌≡◌, ◌+◌, ◌-◌, ◌^◌, ◌<◌, ◌++◌, [], IfOk, IfSome, IsTrue, length, map, option_map, option_to_list};
ghost use Rattle.spec_core.specs.Theories.{theory_of};
ghost use Rattle.rule_model.specs.Derivations.{Derivation, derivation_of};
ghost use Rattle.symbolic_rules.specs.Trees as trees;
ghost use Rattle.decision_trees.specs.Rules.{unseen, beyond_or_unseen};
ghost use Rattle.symbolic_composites.specs.OpenFields as fields;
ghost use Rattle.candidate_laws.specs.Waiting as waiting;
ghost use Rattle.symbolic_plans.specs.Plans.{field_of, plan_of};
ghost use Rattle.symbolic_plans.specs.OpenPlans.{kind_in, open_plan_of};
ghost use Rattle.symbolic_rules.specs.Tables.{windows_in};
ghost use Rattle.symbolic_trees.specs.Numbers.{counted, trees_at_once};
ghost use Rattle.candidate_search.specs.Searches as searches;

use crate::marks::{any_mark, has_mark, may_be_marked};
use crate::meeting::all_meeting;
use rule_model::offer::Offer;
use rule_model::rules::{Rules, Slots};
use spec_core::equation::DataSpec;
use spec_core::memory::Memory;
use spec_core::window::Window;
use std::alloc::Global;
use symbolic_plans::column::Column;
use symbolic_plans::composite::{ActionKind, OpenComposite};
use symbolic_plans::kind::same_kind;
use symbolic_plans::scheme::Scheme;
use symbolic_trees::choices::choices_of;
use symbolic_trees::counts::count_at_once;
use symbolic_trees::places::nth_at_once;

/// Which trees are looked for: those without marks that meet an offer, all of them, and those that are unseen; those with marks for an
/// offer, all of them, and those that are unseen or for an offer.
#[derive(Clone, Copy)]
pub enum TreeSearch<'a> {
    Meeting(&'a Offer),
    Any,
    Unseen,
    Beyond(&'a Offer),
    AnyBeyond,
    BeyondOrUnseen(&'a Offer),
}

/// A tree that a query may ask for, with its number.
#[derive(Drop)]
pub struct AskedTree {
    pub number: u64,
    pub tree: Rules,
}

/// Whether an action of this kind meets no offer: it is internal, or the termination. It takes no memory.
pub fn is_unseen(kind: ActionKind) -> bool
    ensures decides { result ≡ waiting.is_unseen (kind_in kind) }
{
    match kind {
        ActionKind::Inner => true,
        ActionKind::Exit => true,
        ActionKind::At(_) => false,
    }
}

// The slots that the fields of a composite may have so that its action may meet the offer, if there are any.
fn slots_taking(
    alloc: Global,
    algebra: &DataSpec,
    windows: &[Window],
    composite: &OpenComposite,
    offer: &Offer,
) -> Result<Option<Vec<Slots>>, Memory>
    ensures { IfOk result (λ o. option_map (λ all. all.items) o ≡
        searches.slots_taking (theory_of algebra.now) (windows_in windows.now) offer.now (open_plan_of composite.now)) }
{
    if same_kind(composite.kind, ActionKind::At(offer.gate)) {
        let offered = offer.fields.as_slice();
        all_meeting(alloc, algebra, windows, &composite.columns, offered)
    } else {
        Ok(None)
    }
}

// The slots that the fields of a composite may have, where nothing is offered.
fn all_slots(
    alloc: Global,
    algebra: &DataSpec,
    windows: &[Window],
    composite: &OpenComposite,
) -> Result<Option<Vec<Slots>>, Memory>
    ensures { IfOk result (λ o. option_map (λ all. all.items) o ≡
        Some (fields.all_choices (theory_of algebra.now) (windows_in windows.now) [] (open_plan_of composite.now).fields)) }
{
    let choices = choices_of(alloc, algebra, windows, &[], &composite.columns)?;
    Ok(Some(choices))
}

// The same, where the action is unseen; and no slots, where it isn't.
fn unseen_slots(
    alloc: Global,
    algebra: &DataSpec,
    windows: &[Window],
    composite: &OpenComposite,
) -> Result<Option<Vec<Slots>>, Memory>
    ensures { IfOk result (λ o. option_map (λ all. all.items) o ≡
        searches.slots_asked (theory_of algebra.now) (windows_in windows.now) unseen (open_plan_of composite.now)) }
{
    if is_unseen(composite.kind) {
        all_slots(alloc, algebra, windows, composite)
    } else {
        Ok(None)
    }
}

// The slots that the fields of a composite may have so that its action is unseen, or may meet the offer, if there are any.
fn unseen_or_taking(
    alloc: Global,
    algebra: &DataSpec,
    windows: &[Window],
    composite: &OpenComposite,
    offer: &Offer,
) -> Result<Option<Vec<Slots>>, Memory>
    ensures { IfOk result (λ o. option_map (λ all. all.items) o ≡
        searches.slots_asked (theory_of algebra.now) (windows_in windows.now) (beyond_or_unseen offer.now) (open_plan_of composite.now)) }
{
    if is_unseen(composite.kind) {
        let offered = offer.fields.as_slice();
        let choices = choices_of(alloc, algebra, windows, offered, &composite.columns)?;
        Ok(Some(choices))
    } else {
        slots_taking(alloc, algebra, windows, composite, offer)
    }
}

/// The slots that the fields of a composite may have so that a query may ask for its trees, if there are any.
pub fn slots_asked(
    alloc: Global,
    algebra: &DataSpec,
    windows: &[Window],
    composite: &OpenComposite,
    search: TreeSearch<'_>,
) -> Result<Option<Vec<Slots>>, Memory>
    ensures slots { IfOk result (λ o. option_map (λ all. all.items) o ≡
        searches.slots_asked (theory_of algebra.now) (windows_in windows.now) (searches.query_of search.entry)
        (open_plan_of composite.now)) }
{
    match search {
        TreeSearch::Meeting(offer) => slots_taking(alloc, algebra, windows, composite, offer),
        TreeSearch::Any => all_slots(alloc, algebra, windows, composite),
        TreeSearch::Unseen => unseen_slots(alloc, algebra, windows, composite),
        TreeSearch::Beyond(offer) => slots_taking(alloc, algebra, windows, composite, offer),
        TreeSearch::AnyBeyond => all_slots(alloc, algebra, windows, composite),
        TreeSearch::BeyondOrUnseen(offer) => {
            unseen_or_taking(alloc, algebra, windows, composite, offer)
        }
    }
}

// Whether a query asks for trees with marks alone.
fn wants_marks(search: &TreeSearch<'_>) -> bool
    ensures { IsTrue result → (d : Derivation) → searches.is_wanted (searches.query_of search.now) d ≡ trees.has_mark d }
{
    match search {
        TreeSearch::Meeting(_) => false,
        TreeSearch::Any => false,
        TreeSearch::Unseen => false,
        TreeSearch::Beyond(_) => true,
        TreeSearch::AnyBeyond => true,
        TreeSearch::BeyondOrUnseen(_) => true,
    }
}

/// Whether a query asks for a tree, as far as its marks say. It takes no memory.
pub fn is_wanted(search: &TreeSearch<'_>, tree: &Rules) -> bool
    ensures wanted { result ≡ searches.is_wanted (searches.query_of search.now) (derivation_of tree.now) }
{
    match search {
        TreeSearch::Meeting(_) => !has_mark(tree),
        TreeSearch::Any => !has_mark(tree),
        TreeSearch::Unseen => !has_mark(tree),
        TreeSearch::Beyond(_) => has_mark(tree),
        TreeSearch::AnyBeyond => has_mark(tree),
        TreeSearch::BeyondOrUnseen(_) => has_mark(tree),
    }
}

/// How many trees a search looks through: those that have a number for it.
pub fn search_count(
    alloc: Global,
    algebra: &DataSpec,
    windows: &[Window],
    composite: &OpenComposite,
    search: TreeSearch<'_>,
) -> Result<u64, Memory>
    ensures counted { IfOk result (λ n. n ≡ counted (length
        (searches.trees_searched (theory_of algebra.now) (windows_in windows.now) (searches.query_of search.entry)
        (open_plan_of composite.now)))) }
{
    match slots_asked(alloc, algebra, windows, composite, search)? {
        None => Ok(0),
        Some(choices) => count_at_once(
            alloc,
            algebra,
            windows,
            &composite.columns,
            &composite.scheme,
            &choices,
        ),
    }
}

// The tree with this number, where it is wanted.
fn wanted_at(
    alloc: Global,
    algebra: &DataSpec,
    windows: &[Window],
    columns: &[Column],
    scheme: &Scheme,
    choices: &[Slots],
    search: &TreeSearch<'_>,
    number: u64,
) -> Result<Option<Rules>, Memory>
    requires small { number < 2 ^ 64 - 1 }
    ensures at { IfOk result (λ o.
        let trees = trees_at_once (theory_of algebra.now) (windows_in windows.now) (map field_of columns.now) (plan_of scheme.now)
        choices.now in
        searches.wanted_from (searches.is_wanted (searches.query_of search.now)) trees number ≡
        option_to_list (option_map derivation_of o) ++
        searches.wanted_from (searches.is_wanted (searches.query_of search.now)) trees (number + 1)) }
{
    match nth_at_once(alloc, algebra, windows, columns, scheme, choices, number)? {
        None => Ok(None),
        Some(tree) => {
            if is_wanted(search, &tree) {
                Ok(Some(tree))
            } else {
                Ok(None)
            }
        }
    }
}

// The first wanted tree from a number on, where there are so many trees.
fn next_wanted(
    alloc: Global,
    algebra: &DataSpec,
    windows: &[Window],
    columns: &[Column],
    scheme: &Scheme,
    choices: &[Slots],
    search: &TreeSearch<'_>,
    count: u64,
    from: u64,
) -> Result<Option<AskedTree>, Memory>
    requires counted { count ≡ length
        (trees_at_once (theory_of algebra.now) (windows_in windows.now) (map field_of columns.now) (plan_of scheme.now) choices.now) }
    requires small { count < 2 ^ 64 - 1 }
    ensures next { IfOk result (λ o. searches.IsNext (searches.is_wanted (searches.query_of search.now))
        (trees_at_once (theory_of algebra.now) (windows_in windows.now) (map field_of columns.now) (plan_of scheme.now)
        choices.now) from o) }
    ensures below { IfOk result (λ o. IfSome o (λ asked. asked.number < 2 ^ 64 - 1)) }
{
    let mut number = from;
    while number < count {
        match wanted_at(
            alloc, algebra, windows, columns, scheme, choices, search, number,
        )? {
            None => {}
            Some(tree) => return Ok(Some(AskedTree { number, tree })),
        }
        number += 1;
    }
    Ok(None)
}

/// The first tree from this number on that is wanted, among those of a composite whose fields may have these slots. Want of memory is also
/// answered where there are 2^64 - 1 trees or more, which no machine can look through.
pub fn next_among(
    alloc: Global,
    algebra: &DataSpec,
    windows: &[Window],
    composite: &OpenComposite,
    choices: &[Slots],
    search: &TreeSearch<'_>,
    from: u64,
) -> Result<Option<AskedTree>, Memory>
    ensures next { IfOk result (λ o. searches.IsNext (searches.is_wanted (searches.query_of search.now))
        (trees_at_once (theory_of algebra.now) (windows_in windows.now) (open_plan_of composite.now).fields
        (open_plan_of composite.now).plan choices.now) from o) }
    ensures small { IfOk result (λ o. IfSome o (λ asked. asked.number < 2 ^ 64 - 1)) }
{
    let columns = composite.columns.as_slice();
    let scheme = &composite.scheme;
    if wants_marks(search) && !may_be_marked(alloc, algebra, windows, scheme, any_mark(choices))? {
        return Ok(None);
    }
    let count = count_at_once(alloc, algebra, windows, columns, scheme, choices)?;
    if count == u64::MAX {
        return Err(Memory);
    }
    next_wanted(
        alloc, algebra, windows, columns, scheme, choices, search, count, from,
    )
}

/// The first tree from this number on for which a query may ask; None where there is none. A search from 0, and then each time from the
/// number after the one that was found, finds all trees of the composite for which the query may ask, in order. Who asks many times for the
/// same query keeps what `slots_asked` gives, and asks `next_among`.
pub fn next_asked(
    alloc: Global,
    algebra: &DataSpec,
    windows: &[Window],
    composite: &OpenComposite,
    search: TreeSearch<'_>,
    from: u64,
) -> Result<Option<AskedTree>, Memory>
    ensures next { IfOk result (λ o. searches.IsNext (searches.is_wanted (searches.query_of search.entry))
        (searches.trees_searched (theory_of algebra.now) (windows_in windows.now) (searches.query_of search.entry)
        (open_plan_of composite.now)) from o) }
    ensures small { IfOk result (λ o. IfSome o (λ asked. asked.number < 2 ^ 64 - 1)) }
{
    match slots_asked(alloc, algebra, windows, composite, search)? {
        None => Ok(None),
        Some(choices) => { next_among(alloc, algebra, windows, composite, &choices, &search, from) }
    }
}
