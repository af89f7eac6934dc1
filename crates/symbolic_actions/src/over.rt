// What rules make of what the parts of operators show.

ghost use Rattle.std.specs.Prelude.{◌≡◌, IfOk, Some, map, option_map};
ghost use Rattle.spec_core.specs.Code.{relabelling_of, synchronised_of, variable_of};
ghost use Rattle.spec_core.specs.Numbers.{gate_number};
ghost use Rattle.spec_core.specs.Theories.{Theory, theory_of};
ghost use Rattle.symbolic_rules.specs.Windows.{Windows};
ghost use Rattle.symbolic_rules.specs.Tables.{windows_in};
ghost use Rattle.symbolic_actions.specs.Models.{show_of};
ghost use Rattle.symbolic_actions.specs.Shows.{over_part, over_both, left_alone, right_alone, hidden_in, seen_in, before_end, handed_to};
ghost use Rattle.symbolic_actions.specs.Shows.{undisabled, ended, renamed_by, show_where, internal_show};

use crate::field::{all_agreed, have_sorts};
use crate::meeting::all_within;
use crate::shown::Shown;
use spec_core::code::GateSet;
use spec_core::equation::DataSpec;
use spec_core::items::{Gate, Sort};
use spec_core::memory::Memory;
use spec_core::window::Window;
use std::alloc::Global;
use symbolic_plans::composite::ActionKind;
use symbolic_plans::kind::{is_alone, is_end, is_hidden, is_joint, renamed, same_kind};

// What is shown, where the test is passed.
fn shown_where(passed: bool, part: Shown) -> Option<Shown>
    ensures { option_map show_of result ≡ show_where passed (show_of part) }
{
    if passed { Some(part) } else { None }
}

// An internal action, where the test is passed.
fn internal_where(alloc: Global, passed: bool) -> Option<Shown>
    ensures { option_map show_of result ≡ show_where passed internal_show }
{
    if passed {
        Some(Shown {
            kind: ActionKind::Inner,
            fields: Vec::new(alloc),
        })
    } else {
        None
    }
}

/// What a parallel composition shows where one side acts alone. It takes no memory.
pub fn alone(gates: &GateSet, part: Shown) -> Option<Shown>
    ensures left { (theory : Theory) (w : Windows) →
        option_map show_of result ≡ over_part theory w (left_alone (synchronised_of gates.now)) (show_of part) }
    ensures right { (theory : Theory) (w : Windows) →
        option_map show_of result ≡ over_part theory w (right_alone (synchronised_of gates.now)) (show_of part) }
{
    shown_where(is_alone(gates, part.kind), part)
}

/// What a hiding shows where its body acts at a hidden gate. It takes no memory.
pub fn hidden(
    alloc: Global,
    algebra: &DataSpec,
    windows: &[Window],
    gates: &[Gate],
    part: &Shown,
) -> Option<Shown>
    ensures hidden { option_map show_of result ≡
        over_part (theory_of algebra.now) (windows_in windows.now) (hidden_in (map gate_number gates.now)) (show_of part.now) }
{
    let passed = is_hidden(gates, part.kind) && all_within(algebra, windows, &part.fields);
    internal_where(alloc, passed)
}

/// What a hiding shows where its body does anything else. It takes no memory.
pub fn seen(gates: &[Gate], part: Shown) -> Option<Shown>
    ensures seen { (theory : Theory) (w : Windows) →
        option_map show_of result ≡ over_part theory w (seen_in (map gate_number gates.now)) (show_of part) }
{
    shown_where(!is_hidden(gates, part.kind), part)
}

/// What an enabling and a disabling show where the left side does anything but terminate. It takes no memory.
pub fn going_on(part: Shown) -> Option<Shown>
    ensures enabling { (theory : Theory) (w : Windows) → option_map show_of result ≡ over_part theory w before_end (show_of part) }
    ensures disabling { (theory : Theory) (w : Windows) → option_map show_of result ≡ over_part theory w undisabled (show_of part) }
{
    shown_where(!is_end(part.kind), part)
}

/// What an enabling shows where the left side terminates. It takes no memory.
pub fn handed(
    alloc: Global,
    algebra: &DataSpec,
    windows: &[Window],
    vars: &[(u32, Sort)],
    part: &Shown,
) -> Option<Shown>
    ensures handed { option_map show_of result ≡
        over_part (theory_of algebra.now) (windows_in windows.now) (handed_to (map variable_of vars.now)) (show_of part.now) }
{
    let passed = is_end(part.kind)
        && have_sorts(algebra, vars, &part.fields)
        && all_within(algebra, windows, &part.fields);
    internal_where(alloc, passed)
}

/// What a disabling shows where the left side terminates. It takes no memory.
pub fn terminated(part: Shown) -> Option<Shown>
    ensures ended { (theory : Theory) (w : Windows) → option_map show_of result ≡ over_part theory w ended (show_of part) }
{
    shown_where(is_end(part.kind), part)
}

/// What a relabelled behaviour shows. It takes no memory.
pub fn relabelled(pairs: &[(Gate, Gate)], part: Shown) -> Shown
    ensures renamed { (theory : Theory) (w : Windows) →
        Some (show_of result) ≡ over_part theory w (renamed_by (map relabelling_of pairs.now)) (show_of part) }
{
    let Shown { kind, fields } = part;
    Shown {
        kind: renamed(pairs, kind),
        fields,
    }
}

/// What a parallel composition shows where both sides act together.
pub fn both(
    alloc: Global,
    algebra: &DataSpec,
    gates: &GateSet,
    left: &Shown,
    right: &Shown,
) -> Result<Option<Shown>, Memory>
    ensures both { IfOk result (λ o.
        option_map show_of o ≡ over_both (theory_of algebra.now) (synchronised_of gates.now) (show_of left.now) (show_of right.now)) }
{
    if same_kind(left.kind, right.kind) && is_joint(gates, left.kind) {
        match all_agreed(alloc, algebra, &left.fields, &right.fields)? {
            None => Ok(None),
            Some(fields) => Ok(Some(Shown {
                kind: left.kind,
                fields,
            })),
        }
    } else {
        Ok(None)
    }
}
