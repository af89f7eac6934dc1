// Specifications over small data, and what they show by trees of rules.

ghost use Rattle.spec_core.specs.Code.{program_of};
ghost use Rattle.spec_core.specs.Ready.{IsReady};

use crate::lines::{line, put_term};
use crate::trees::tree;
use crate::values::chooses_values;
use node_trees::origin::Origin;
use node_values::stop::Stop;
use node_values::{Evaluator, Forms, Prepared};
use node_verdict::origins::shown_by;
use sort_windows::windows;
use spec_core::code::Checked;
use spec_core::items::Gate;
use spec_core::memory::Memory;
use std::alloc::Global;
use symbolic_actions::shown::Shown;
use test_programs::over_small_data;

// What is shown, or the stop with its term.
fn told(
    alloc: Global,
    checked: &Checked,
    outcome: Result<Option<Shown>, Stop>,
) -> Result<String, Memory> {
    match outcome {
        Ok(None) => Ok(String::from_str(alloc, "nothing")?),
        Ok(Some(shown)) => line(alloc, checked, &shown),
        Err(Stop::Spent(term)) => {
            let mut text = String::from_str(alloc, "spent ")?;
            put_term(&mut text, checked, &term)?;
            Ok(text)
        }
        Err(Stop::TooLarge(term)) => {
            let _large = term;
            Ok(String::from_str(alloc, "too large")?)
        }
        Err(Stop::Wide(n)) => Ok(format!(in alloc; "wide {n}")?),
        Err(Stop::Memory) => Err(Memory),
    }
}

/// What the specification's behaviour shows by the tree, under a relabelling, with the first two values of each sort, and so many uses of
/// equations.
pub fn shown_of(
    alloc: Global,
    checked: &Checked,
    relabel: Vec<(Gate, Gate)>,
    rules: &str,
    budget: u64,
) -> Result<String, Memory>
    requires ready { IsReady (program_of checked.now) }
{
    let windows = windows(alloc, &checked.algebra, 2)?;
    let rules = tree(alloc, rules)?;
    let origin = Origin {
        node: checked.start,
        values: Vec::new(alloc),
        relabel,
    };
    let forms = Forms::new(alloc, &checked.algebra)?;
    let prepared = Prepared {
        checked,
        evaluator: Evaluator::new(&checked.algebra, &forms),
    };
    if !chooses_values(alloc, &prepared, &rules)? {
        return Ok(String::from_str(alloc, "no values")?);
    }
    let outcome = shown_by(alloc, &prepared, &windows, &origin, &rules, budget);
    told(alloc, checked, outcome)
}

/// The same of the specification with this functionality and this behaviour.
pub fn shown(
    alloc: Global,
    ends: &str,
    behaviour: &str,
    relabel: Vec<(Gate, Gate)>,
    rules: &str,
    budget: u64,
) -> Result<String, Memory> {
    match over_small_data(alloc, ends, behaviour)? {
        None => Ok(String::from_str(alloc, "refused")?),
        Some(checked) => shown_of(alloc, &checked, relabel, rules, budget),
    }
}
