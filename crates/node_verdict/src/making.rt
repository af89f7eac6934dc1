// What rules make of what comes of a part.

ghost use Rattle.std.specs.Prelude.{◌≡◌, map};
ghost use Rattle.spec_core.specs.Code.{relabelling_of, synchronised_of, variable_of};
ghost use Rattle.spec_core.specs.Numbers.{gate_number};
ghost use Rattle.spec_core.specs.Theories.{Theory, theory_of};
ghost use Rattle.symbolic_rules.specs.Windows.{Windows};
ghost use Rattle.symbolic_rules.specs.Tables.{windows_in};
ghost use Rattle.symbolic_actions.specs.Shows.{over_part, left_alone, right_alone, hidden_in, seen_in, before_end, handed_to, undisabled};
ghost use Rattle.symbolic_actions.specs.Shows.{ended, renamed_by};
ghost use Rattle.node_verdict.specs.Judged.{Made};

use node_values::stop::Stop;
use spec_core::code::GateSet;
use spec_core::equation::DataSpec;
use spec_core::items::{Gate, Sort};
use spec_core::window::Window;
use std::alloc::Global;
use symbolic_actions::over;
use symbolic_actions::shown::Shown;

/// One side of a parallel composition alone.
pub fn alone(gates: &GateSet, part: Result<Option<Shown>, Stop>) -> Result<Option<Shown>, Stop>
    ensures left { (theory : Theory) (w : Windows) → Made (over_part theory w (left_alone (synchronised_of gates.now))) part result }
    ensures right { (theory : Theory) (w : Windows) → Made (over_part theory w (right_alone (synchronised_of gates.now))) part result }
{
    match part {
        Err(stop) => Err(stop),
        Ok(None) => Ok(None),
        Ok(Some(shown)) => Ok(over::alone(gates, shown)),
    }
}

/// A hiding whose body acts at a hidden gate.
pub fn hidden(
    alloc: Global,
    algebra: &DataSpec,
    windows: &[Window],
    gates: &[Gate],
    part: Result<Option<Shown>, Stop>,
) -> Result<Option<Shown>, Stop>
    ensures hidden { Made (over_part (theory_of algebra.now) (windows_in windows.now) (hidden_in (map gate_number gates.now))) part result }
{
    match part {
        Err(stop) => Err(stop),
        Ok(None) => Ok(None),
        Ok(Some(shown)) => Ok(over::hidden(alloc, algebra, windows, gates, &shown)),
    }
}

/// A hiding whose body does anything else.
pub fn seen(gates: &[Gate], part: Result<Option<Shown>, Stop>) -> Result<Option<Shown>, Stop>
    ensures seen { (theory : Theory) (w : Windows) → Made (over_part theory w (seen_in (map gate_number gates.now))) part result }
{
    match part {
        Err(stop) => Err(stop),
        Ok(None) => Ok(None),
        Ok(Some(shown)) => Ok(over::seen(gates, shown)),
    }
}

/// An enabling, and a disabling, whose left side does anything but terminate.
pub fn going_on(part: Result<Option<Shown>, Stop>) -> Result<Option<Shown>, Stop>
    ensures enabling { (theory : Theory) (w : Windows) → Made (over_part theory w before_end) part result }
    ensures disabling { (theory : Theory) (w : Windows) → Made (over_part theory w undisabled) part result }
{
    match part {
        Err(stop) => Err(stop),
        Ok(None) => Ok(None),
        Ok(Some(shown)) => Ok(over::going_on(shown)),
    }
}

/// An enabling whose left side terminates.
pub fn handed(
    alloc: Global,
    algebra: &DataSpec,
    windows: &[Window],
    vars: &[(u32, Sort)],
    part: Result<Option<Shown>, Stop>,
) -> Result<Option<Shown>, Stop>
    ensures handed { Made (over_part (theory_of algebra.now) (windows_in windows.now) (handed_to (map variable_of vars.now))) part result }
{
    match part {
        Err(stop) => Err(stop),
        Ok(None) => Ok(None),
        Ok(Some(shown)) => Ok(over::handed(alloc, algebra, windows, vars, &shown)),
    }
}

/// A disabling whose left side terminates.
pub fn terminated(part: Result<Option<Shown>, Stop>) -> Result<Option<Shown>, Stop>
    ensures ended { (theory : Theory) (w : Windows) → Made (over_part theory w ended) part result }
{
    match part {
        Err(stop) => Err(stop),
        Ok(None) => Ok(None),
        Ok(Some(shown)) => Ok(over::terminated(shown)),
    }
}

/// A relabelled behaviour.
pub fn relabelled(
    pairs: &[(Gate, Gate)],
    part: Result<Option<Shown>, Stop>,
) -> Result<Option<Shown>, Stop>
    ensures renamed { (theory : Theory) (w : Windows) → Made (over_part theory w (renamed_by (map relabelling_of pairs.now))) part result }
{
    match part {
        Err(stop) => Err(stop),
        Ok(None) => Ok(None),
        Ok(Some(shown)) => Ok(Some(over::relabelled(pairs, shown))),
    }
}
