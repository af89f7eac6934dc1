// Rules over trees.

ghost use Rattle.std.specs.Prelude.{◌≡◌, IfOk};
ghost use Rattle.std.specs.Fn.{iterate};
ghost use Rattle.rule_model.specs.Derivations.{derivation_of};
ghost use Rattle.symbolic_plans.specs.Plans.{put_row};

use crate::scheme::Row;
use rule_model::rules::Rules;
use spec_core::memory::Memory;
use std::alloc::Global;

/// A rule over the tree of its part.
pub fn over_part(alloc: Global, row: &Row, part: Rules) -> Result<Rules, Memory>
    ensures tree { IfOk result (λ d. derivation_of d ≡ put_row row.now (derivation_of part)) }
{
    match row {
        Row::Chl => Rules::chl(alloc, part),
        Row::Chr => Rules::chr(alloc, part),
        Row::Val(slot) => Rules::val(alloc, slot.copy(alloc)?, part),
        Row::Gate(place) => Rules::gate(alloc, *place, part),
        Row::Guard => Rules::guard(alloc, part),
        Row::Let => Rules::letting(alloc, part),
        Row::Parl => Rules::parl(alloc, part),
        Row::Parr => Rules::parr(alloc, part),
        Row::Pass => Rules::pass(alloc, part),
        Row::Enstep => Rules::enstep(alloc, part),
        Row::Disstep => Rules::disstep(alloc, part),
        Row::Disend => Rules::disend(alloc, part),
        Row::Distake => Rules::distake(alloc, part),
        Row::Call => Rules::calling(alloc, part),
        Row::Rel => Rules::rel(alloc, part),
    }
}

/// A rule over the tree of its part, and the same rule so many times more over that.
pub fn run_over_part(alloc: Global, row: &Row, more: u32, part: Rules) -> Result<Rules, Memory>
    ensures tree { IfOk result (λ d.
        derivation_of d ≡ put_row row.now (iterate (put_row row.now) more (derivation_of part))) }
{
    let mut tree = part;
    for _turn in 0..more {
        tree = over_part(alloc, row, tree)?;
    }
    over_part(alloc, row, tree)
}
