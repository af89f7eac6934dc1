// What follows from the definitions: each law is the contract of a function that does nothing.

ghost use Rattle.symbolic_rules.specs.Laws.{EqualTermsHaveOneSort, EachStepIsSeen, WindowedTreesAct, CompleteWindowsHaveNoBeyond};
ghost use Rattle.symbolic_rules.specs.Laws.{NoTreeNoStep, NoTreeForTheOfferNoneMeets, NoUnseenTreeNoUnseenStep};

/// Terms that are provably equal have one sort.
#[tactic(auto, using(crate::proofs::Sorts::equal_terms_have_one_sort))]
pub fn equal_terms_have_one_sort()
    ensures { EqualTermsHaveOneSort }
{}

/// Each step is seen within the windows, by its own tree or with marks in it.
pub fn each_step_is_seen()
    ensures { EachStepIsSeen }
{}

/// By each windowed tree the behaviour acts.
pub fn windowed_trees_act()
    ensures { WindowedTreesAct }
{}

/// Where all windows are complete, no tree is beyond.
pub fn complete_windows_have_no_beyond()
    ensures { CompleteWindowsHaveNoBeyond }
{}

/// Where no tree is windowed or beyond, no rule gives a step.
pub fn no_tree_no_step()
    ensures { NoTreeNoStep }
{}

/// Where no tree for an offer is windowed or beyond, no step meets the offer.
pub fn no_tree_for_the_offer_none_meets()
    ensures { NoTreeForTheOfferNoneMeets }
{}

/// Where no tree for an unseen action is windowed or beyond, no step is unseen.
pub fn no_unseen_tree_no_unseen_step()
    ensures { NoUnseenTreeNoUnseenStep }
{}
