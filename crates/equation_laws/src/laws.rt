// Laws of the definitions: a call does nothing, and its contract is the law.

ghost use Rattle.equation_laws.specs.Laws.{ShapeHasOneAnswer, DecreaseHasOneAnswer};

/// Of data whose equations aren't as orthogonal data have them at most one refusal is the first, and orthogonal data have none.
#[tactic(auto, using(crate::proofs::Shape::shape_one))]
pub fn shape_has_one_answer()
    ensures { ShapeHasOneAnswer }
{}

/// Of data whose equations aren't all decreasing at most one refusal is the first, and decreasing data have none.
#[tactic(auto, using(crate::proofs::Decrease::decrease_one))]
pub fn decrease_has_one_answer()
    ensures { DecreaseHasOneAnswer }
{}
