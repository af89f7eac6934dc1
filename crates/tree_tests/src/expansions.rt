// The two calls that expand a behaviour and that no command makes. What they give is shown by runs: conformance/operators.

use expand::expansion::{expand, expand_code};
use node_trees::origin::Origin;
use node_values::stop::Stop;
use node_values::{Evaluator, Forms, Prepared};
use run_settings::settings::{Draw, Settings};
use spec_core::code::{ActField, Checked, CodeNode};
use spec_core::items::{Gate, Op};
use spec_core::memory::Memory;
use spec_core::value::Value;
use std::alloc::Global;
use std::test::Fail;
use symbolic_plans::column::Column;
use symbolic_plans::composite::{ActionKind, OpenComposite};
use test_programs::over_small_data;

const SETTINGS: Settings = Settings {
    budget: 100,
    values: 2,
    steps: 1,
    seed: 0,
    draw: Draw::Rotation,
};

// How many composites the behaviour has; None where it is refused or stopped.
fn composites_of(alloc: Global, behaviour: &str) -> Result<Option<usize>, Memory> {
    match over_small_data(alloc, "noexit", behaviour)? {
        None => Ok(None),
        Some(checked) => {
            let forms = Forms::new(alloc, &checked.algebra)?;
            let prepared = Prepared {
                checked: &checked,
                evaluator: Evaluator::new(&checked.algebra, &forms),
            };
            match expand_code(alloc, &prepared, checked.start, &[], &SETTINGS) {
                Ok(x) => Ok(Some(x.composites.len())),
                Err(Stop::Memory) => Err(Memory),
                Err(_) => Ok(None),
            }
        }
    }
}

// What follows an action with one field, and the field's variable.
fn rest_of(checked: &Checked) -> Option<(u32, u32)> {
    match checked.code.get(checked.start as usize) {
        Some(CodeNode::Act { fields, rest, .. }) => match fields.first() {
            Some(ActField::Take(x, _)) => Some((rest.0, *x)),
            _ => None,
        },
        _ => None,
    }
}

// The node with two values for a variable, 0 and s(0), of which the later one counts; and with the third gate in the place of the second.
fn origin_of(alloc: Global, node: u32, x: u32) -> Result<Origin, Memory> {
    let first = Value::new(vec![in alloc; Op(2)]?);
    let second = Value::new(vec![in alloc; Op(3), Op(2)]?);
    Ok(Origin {
        node,
        values: vec![in alloc; (x, first), (x, second)]?,
        relabel: vec![in alloc; (Gate(1), Gate(2))]?,
    })
}

// The kind of the one composite, and how many symbols its one value has.
fn only(composites: &[OpenComposite]) -> Option<(ActionKind, usize)> {
    match composites {
        [one] => match one.columns.as_slice() {
            [Column::Told(value, _)] => Some((one.kind, value.as_slice().len())),
            _ => None,
        },
        _ => None,
    }
}

// The same of what follows an action, with two values for its variable.
fn with_values(alloc: Global, behaviour: &str) -> Result<Option<(ActionKind, usize)>, Memory> {
    let Some(checked) = over_small_data(alloc, "noexit", behaviour)? else {
        return Ok(None);
    };
    let Some((node, x)) = rest_of(&checked) else {
        return Ok(None);
    };
    let forms = Forms::new(alloc, &checked.algebra)?;
    let prepared = Prepared {
        checked: &checked,
        evaluator: Evaluator::new(&checked.algebra, &forms),
    };
    match expand(alloc, &prepared, &origin_of(alloc, node, x)?, &SETTINGS) {
        Ok(x) => Ok(only(&x.composites)),
        Err(Stop::Memory) => Err(Memory),
        Err(_) => Ok(None),
    }
}

#[test]
fn behaviours_are_expanded(rt: HostRuntime) -> Result<(), Fail> {
    let alloc = rt.alloc();
    let found = composites_of(alloc, "choice x : N [] a !x; stop")?;
    assert_eq!(rt; found, Some(3), "two values and the mark");
    let found = with_values(alloc, "a ?x : N; b !s(x); stop")?;
    assert_eq!(rt; found, Some((ActionKind::At(Gate(2)), 3)));
    Ok(())
}
