// Actions and exits.

ghost use Rattle.std.specs.Prelude.{ℕ};
ghost use Rattle.spec_core.specs.Code.{program_of};
ghost use Rattle.spec_core.specs.Lists.{Each};
ghost use Rattle.spec_core.specs.Ready.{IsReady};
ghost use Rattle.rule_model.specs.Derivations.{pre, int, exiting};
ghost use Rattle.symbolic_rules.specs.Windows.{Windows};
ghost use Rattle.symbolic_rules.specs.MarkedTerms.{MarkedAssignment};
ghost use Rattle.rule_origins.specs.Parts.{behaviour_at};
ghost use Rattle.node_values.specs.Scopes.{marks_of};
ghost use Rattle.symbolic_rules.specs.Tables.{windows_in};
ghost use Rattle.node_values.specs.Prepared.{program_in};
ghost use Rattle.node_verdict.specs.Choosing.{ChoosesValue};
ghost use Rattle.node_verdict.specs.Judged.{Judged};

use crate::choosing::{Filled, filled_exit, filled_fields, guard_may_hold};
use node_values::Prepared;
use node_values::scope::{Given, copy_scope};
use node_values::stop::Stop;
use rule_model::rules::Slot;
use rule_origins::views::{action_at, exit_at, inner_at};
use spec_core::code::Checked;
use spec_core::window::Window;
use std::alloc::Global;
use symbolic_actions::shown::Shown;
use symbolic_plans::composite::ActionKind;

/// What an action shows with these chosen values.
pub fn acts(
    alloc: Global,
    prepared: &Prepared,
    windows: &[Window],
    scope: &[(u32, Given)],
    node: u32,
    slots: &[Slot],
    budget: u64,
) -> Result<Option<Shown>, Stop>
    requires ready { IsReady (program_in prepared.now) }
    requires values { Each (ChoosesValue (program_in prepared.now).theory) slots.now }
    ensures judged { Judged (program_in prepared.now) (windows_in windows.now) budget
        (marks_of (program_in prepared.now).theory scope.now) (behaviour_at (program_in prepared.now) node) (pre slots.now) result }
{
    match action_at(prepared.checked, node) {
        None => Ok(None),
        Some((gate, fields, guard, _)) => {
            let inner = copy_scope(alloc, scope)?;
            match filled_fields(
                alloc, prepared, windows, scope, inner, fields, slots, budget,
            )? {
                None => Ok(None),
                Some(filled) => {
                    let Filled {
                        fields: shown,
                        scope: bound,
                    } = filled;
                    let holds = guard_may_hold(alloc, prepared, &bound, guard, budget)?;
                    if holds {
                        Ok(Some(Shown {
                            kind: ActionKind::At(gate),
                            fields: shown,
                        }))
                    } else {
                        Ok(None)
                    }
                }
            }
        }
    }
}

/// What an internal action shows. It takes no memory.
pub fn acts_inside(alloc: Global, checked: &Checked, node: u32) -> Result<Option<Shown>, Stop>
    requires ready { IsReady (program_of checked.now) }
    ensures judged { (w : Windows) (budget : ℕ) (m : MarkedAssignment) →
        Judged (program_of checked.now) w budget m (behaviour_at (program_of checked.now) node) int result }
{
    match inner_at(checked, node) {
        None => Ok(None),
        Some(_) => Ok(Some(Shown {
            kind: ActionKind::Inner,
            fields: Vec::new(alloc),
        })),
    }
}

/// What an exit shows with these chosen values.
pub fn terminates(
    alloc: Global,
    prepared: &Prepared,
    windows: &[Window],
    scope: &[(u32, Given)],
    node: u32,
    slots: &[Slot],
    budget: u64,
) -> Result<Option<Shown>, Stop>
    requires ready { IsReady (program_in prepared.now) }
    requires values { Each (ChoosesValue (program_in prepared.now).theory) slots.now }
    ensures judged { Judged (program_in prepared.now) (windows_in windows.now) budget
        (marks_of (program_in prepared.now).theory scope.now) (behaviour_at (program_in prepared.now) node) (exiting slots.now) result }
{
    match exit_at(prepared.checked, node) {
        None => Ok(None),
        Some(fields) => match filled_exit(alloc, prepared, windows, scope, fields, slots, budget)? {
            None => Ok(None),
            Some(shown) => Ok(Some(Shown {
                kind: ActionKind::Exit,
                fields: shown,
            })),
        },
    }
}
