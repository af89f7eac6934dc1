// Whether two equations are apart.

ghost use Rattle.std.specs.Prelude.{◌≡◌, ◌↔◌, ◌<◌, ◌^◌, IfOk, IsTrue, length};
ghost use Rattle.spec_core.specs.Orthogonality.{IsLinear, HasNoLooseVariables, ExcludeEachOther, AreApart};
ghost use Rattle.spec_core.specs.Terms.{term_of};
ghost use Rattle.spec_core.specs.Theories.{theory_of, equation_of};

use crate::exclusion::cannot_hold;
use crate::renaming::{names_of, renamed_premises};
use equation_faults::variables::variables;
use equation_shapes::shape::{is_of_shape, meets};
use spec_core::equation::{DataSpec, Equation};
use spec_core::memory::Memory;
use std::alloc::Global;

// Whether two equations exclude each other.
fn exclude_each_other(
    alloc: Global,
    algebra: &DataSpec,
    earlier: &Equation,
    later: &Equation,
) -> Result<bool, Memory>
    requires few { length (theory_of algebra.now).operations < 2 ^ 32 }
    requires linear { IsLinear (equation_of earlier.now).left }
    requires closed { HasNoLooseVariables (equation_of earlier.now) }
    ensures { IfOk result
        (λ b. IsTrue b ↔ ExcludeEachOther (theory_of algebra.now) (equation_of earlier.now) (equation_of later.now)) }
{
    if !is_of_shape(&earlier.left, &later.left) {
        return Ok(false);
    }
    if !is_of_shape(&later.left, &earlier.left) {
        return Ok(false);
    }
    let from = variables(alloc, &earlier.left)?;
    let to = variables(alloc, &later.left)?;
    let names = names_of(alloc, &from, &to)?;
    let renamed = renamed_premises(alloc, &names, &earlier.premises)?;
    Ok(cannot_hold(algebra, &renamed, &later.premises))
}

/// Whether two equations with linear left sides are apart, of which the earlier one has no loose variables.
pub fn are_apart(
    alloc: Global,
    algebra: &DataSpec,
    earlier: &Equation,
    later: &Equation,
) -> Result<bool, Memory>
    requires few { length (theory_of algebra.now).operations < 2 ^ 32 }
    requires earlier_linear { IsLinear (equation_of earlier.now).left }
    requires later_linear { IsLinear (equation_of later.now).left }
    requires closed { HasNoLooseVariables (equation_of earlier.now) }
    ensures decides { IfOk result
        (λ b. IsTrue b ↔ AreApart (theory_of algebra.now) (equation_of earlier.now) (equation_of later.now)) }
{
    if !meets(&earlier.left, &later.left) {
        return Ok(true);
    }
    exclude_each_other(alloc, algebra, earlier, later)
}
