// The trees of composites and parts for which a query may ask, one after another.

ghost use Rattle.std.specs.Prelude.{◌≡◌, ◌∷◌, [], IfOk, MatchOption, Some, map};
ghost use Rattle.spec_core.specs.Theories.{theory_of};
ghost use Rattle.rule_model.specs.Derivations.{derivation_of};
ghost use Rattle.candidate_composites.specs.Tables.{windows_in};
ghost use Rattle.decision_trees.specs.Gaps.{element};
ghost use Rattle.symbolic_plans.specs.OpenPlans.{open_plan_of};
ghost use Rattle.candidate_search.specs.Searches.{asked_from, query_of};
ghost use Rattle.rule_model.specs.Actions.{inside, ends, at_gate};
ghost use Rattle.candidate_laws.specs.Sought.{these_kinds, seeks_some, sought_at};
ghost use Rattle.candidate_composites.specs.Known.{sought_in, step_of, placed_of};
ghost use Rattle.candidates.specs.Composites.{without_gaps};
ghost use Rattle.candidates.specs.Listed.{kinds_sought, trees_sought};
ghost use Rattle.candidates.specs.Walks.{met_of, trees_left, behind, ahead};

use candidate_composites::part::Part;
use candidate_composites::sought::{Sought, seeks_some_at};
use candidate_composites::step::Step;
use candidate_search::searches::{TreeSearch, next_among, slots_asked};
use node_trees::origin::Gen;
use rule_model::offer::Offer;
use rule_model::rules::{Rules, Slots};
use spec_core::equation::DataSpec;
use spec_core::memory::Memory;
use spec_core::window::Window;
use std::alloc::Global;
use symbolic_plans::composite::{ActionKind, OpenComposite};

/// The trees that are left of a composite: those with this number and higher ones, among those whose fields have these slots.
#[derive(Drop)]
pub struct TreesLeft<'a> {
    pub composite: &'a OpenComposite,
    pub choices: Vec<Slots>,
    pub number: u64,
}

/// A walk along the trees of composites and of parts for which a query may ask: what is left of the composite where it stands, the
/// composites behind it, and the parts behind these.
#[derive(Drop)]
pub struct Walk<'a, 't> {
    pub algebra: &'a DataSpec,
    pub windows: &'a [Window],
    pub search: TreeSearch<'a>,
    pub current: Option<TreesLeft<'a>>,
    pub composites: &'a [OpenComposite],
    pub parts: &'a [Part<'t>],
}

/// What a walk meets: the place of a node that isn't expanded, or a tree.
#[derive(Drop)]
pub enum Met {
    Gap(Gen),
    Tree(Rules),
}

// The trees of a composite for which the query may ask.
fn trees_of<'a>(
    alloc: Global,
    algebra: &DataSpec,
    windows: &[Window],
    search: TreeSearch<'_>,
    composite: &'a OpenComposite,
) -> Result<Option<TreesLeft<'a>>, Memory>
    ensures { IfOk result (λ all. trees_left (theory_of algebra.now) (windows_in windows.now) (query_of search.entry) all ≡
        asked_from (theory_of algebra.now) (windows_in windows.now) (query_of search.entry) (open_plan_of composite.now) 0) }
{
    match slots_asked(alloc, algebra, windows, composite, search)? {
        None => Ok(None),
        Some(choices) => Ok(Some(TreesLeft {
            composite,
            choices,
            number: 0,
        })),
    }
}

// Takes the first tree that is left of a composite.
fn take_tree(
    alloc: Global,
    algebra: &DataSpec,
    windows: &[Window],
    search: &TreeSearch<'_>,
    left: &mut TreesLeft<'_>,
) -> Result<Option<Rules>, Memory>
    ensures { IfOk result (λ o. MatchOption o
        (trees_left (theory_of algebra.now) (windows_in windows.now) (query_of search.now) (Some left.old) ≡ [])
        (λ tree. trees_left (theory_of algebra.now) (windows_in windows.now) (query_of search.now) (Some left.old) ≡
        derivation_of tree ∷ trees_left (theory_of algebra.now) (windows_in windows.now) (query_of search.now) (Some left.new))) }
{
    match next_among(
        alloc,
        algebra,
        windows,
        left.composite,
        &left.choices,
        search,
        left.number,
    )? {
        None => Ok(None),
        Some(asked) => {
            left.number = asked.number + 1;
            Ok(Some(asked.tree))
        }
    }
}

/// The kinds of the actions that a query may ask for.
pub(crate) fn kinds_sought(alloc: Global, search: &TreeSearch<'_>) -> Result<Sought, Memory>
    ensures { IfOk result (λ v. sought_in v ≡ kinds_sought (query_of search.now)) }
{
    match search {
        TreeSearch::Meeting(offer) => only(alloc, offer),
        TreeSearch::Any => Ok(Sought::Every),
        TreeSearch::Unseen => unseen(alloc),
        TreeSearch::Beyond(offer) => only(alloc, offer),
        TreeSearch::AnyBeyond => Ok(Sought::Every),
        TreeSearch::BeyondOrUnseen(offer) => unseen_or(alloc, offer),
    }
}

// The kind of the actions that may meet an offer.
fn only(alloc: Global, offer: &Offer) -> Result<Sought, Memory>
    ensures { IfOk result (λ v. sought_in v ≡ these_kinds (at_gate offer.now.gate.0 ∷ [])) }
{
    let mut kinds = Vec::new(alloc);
    kinds.push(ActionKind::At(offer.gate))?;
    Ok(Sought::These(kinds))
}

// The kinds of unseen actions.
fn unseen(alloc: Global) -> Result<Sought, Memory>
    ensures { IfOk result (λ v. sought_in v ≡ these_kinds (inside ∷ ends ∷ [])) }
{
    let mut kinds = Vec::new(alloc);
    kinds.push(ActionKind::Inner)?;
    kinds.push(ActionKind::Exit)?;
    Ok(Sought::These(kinds))
}

// The kind of the actions that may meet an offer, and those of unseen ones.
fn unseen_or(alloc: Global, offer: &Offer) -> Result<Sought, Memory>
    ensures { IfOk result (λ v. sought_in v ≡ these_kinds (at_gate offer.now.gate.0 ∷ inside ∷ ends ∷ [])) }
{
    let mut kinds = Vec::new(alloc);
    kinds.push(ActionKind::At(offer.gate))?;
    kinds.push(ActionKind::Inner)?;
    kinds.push(ActionKind::Exit)?;
    Ok(Sought::These(kinds))
}

// Whether what a query may ask for can come from below these steps.
fn is_sought_at(alloc: Global, steps: &[Step<'_>], search: &TreeSearch<'_>) -> Result<bool, Memory>
    ensures { IfOk result (λ b. b ≡ seeks_some (sought_at (map step_of steps.now) (kinds_sought (query_of search.now)))) }
{
    let whole = kinds_sought(alloc, search)?;
    seeks_some_at(alloc, steps, &whole)
}

impl<'a, 't> Walk<'a, 't> {
    /// A walk along all trees of the parts. It takes no memory.
    pub fn new(
        algebra: &'a DataSpec,
        windows: &'a [Window],
        search: TreeSearch<'a>,
        parts: &'a [Part<'t>],
    ) -> Walk<'a, 't>
        ensures starts { ahead result ≡
            trees_sought (theory_of algebra.now) (windows_in windows.now) (query_of search.entry) (map placed_of parts.now) }
    {
        Walk {
            algebra,
            windows,
            search,
            current: None,
            composites: &[],
            parts,
        }
    }

    /// A walk along all trees of the composites. It takes no memory.
    pub fn over(
        algebra: &'a DataSpec,
        windows: &'a [Window],
        search: TreeSearch<'a>,
        composites: &'a [OpenComposite],
    ) -> Walk<'a, 't>
        ensures starts { ahead result ≡
            trees_sought (theory_of algebra.now) (windows_in windows.now) (query_of search.entry) (without_gaps composites.now) }
    {
        Walk {
            algebra,
            windows,
            search,
            current: None,
            composites,
            parts: &[],
        }
    }

    // Takes the first tree of the composite where the walk stands.
    fn take(&mut self, alloc: Global) -> Result<Option<Rules>, Memory>
        ensures taken { IfOk result (λ o. MatchOption o
            (ahead self.old ≡ behind self.old)
            (λ tree. ahead self.old ≡ element (derivation_of tree) ∷ ahead self.new)) }
        ensures composites { self.new.composites ≡ self.old.composites }
        ensures parts { self.new.parts ≡ self.old.parts }
        ensures behind { behind self.new ≡ behind self.old }
    {
        match &mut self.current {
            None => Ok(None),
            Some(left) => take_tree(alloc, self.algebra, self.windows, &self.search, left),
        }
    }

    /// Takes the first of what is ahead; None where nothing is. It passes over each gap from which nothing can come that the query asks for.
    #[tactic(auto, using(crate::proofs::Walking::at_composite, crate::proofs::Walking::at_gap, crate::proofs::Walking::past_gap))]
    pub fn next(&mut self, alloc: Global) -> Result<Option<Met>, Memory>
        ensures next { IfOk result (λ o. MatchOption o
            (ahead self.old ≡ [])
            (λ met. ahead self.old ≡ met_of met ∷ ahead self.new)) }
    {
        loop {
            if let Some(tree) = self.take(alloc)? {
                return Ok(Some(Met::Tree(tree)));
            }
            self.current = None;
            match self.composites {
                [] => match self.parts {
                    [] => return Ok(None),
                    [part, rest @ ..] => {
                        self.parts = rest;
                        match part {
                            Part::Gap(generation, steps) => {
                                if is_sought_at(alloc, steps, &self.search)? {
                                    return Ok(Some(Met::Gap(*generation)));
                                }
                            }
                            Part::Composite(composite) => {
                                self.current = trees_of(
                                    alloc,
                                    self.algebra,
                                    self.windows,
                                    self.search,
                                    composite,
                                )?;
                            }
                        }
                    }
                },
                [composite, rest @ ..] => {
                    self.composites = rest;
                    self.current = trees_of(
                        alloc,
                        self.algebra,
                        self.windows,
                        self.search,
                        composite,
                    )?;
                }
            }
        }
    }
}
