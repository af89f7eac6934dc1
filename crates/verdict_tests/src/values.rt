// Whether trees choose values.

ghost use Rattle.std.specs.Prelude.{IfOk, IsTrue};
ghost use Rattle.spec_core.specs.Lists.{Each};
ghost use Rattle.rule_model.specs.declared.rules.Slot.TheVariants.{Of};
ghost use Rattle.rule_model.specs.Derivations.{derivation_of};
ghost use Rattle.node_values.specs.Prepared.{program_in};
ghost use Rattle.node_verdict.specs.Choosing.{ChoosesValue, ChoosesValues};

use node_trees::rows::put_slots;
use node_values::Prepared;
use rule_model::rules::{Rules, Slot};
use spec_core::memory::Memory;
use spec_core::value::Value;
use std::alloc::Global;
use value_terms::{sort_of_ground, term_with};

// How many uses of equations are made to see whether a term is its own value.
const BUDGET: u64 = 100;

// Whether a list of operations spells a term that is its own value.
#[tactic(auto, using(crate::proofs::Evaluated::own_value))]
fn is_value(alloc: Global, prepared: &Prepared, value: &Value) -> Result<bool, Memory>
    ensures { IfOk result (λ is. IsTrue is → ChoosesValue (program_in prepared.now).theory (Of value.now)) }
{
    let algebra = &prepared.checked.algebra;
    match term_with(alloc, algebra, value.as_slice())? {
        None => Ok(false),
        Some(term) => match sort_of_ground(algebra, &term) {
            None => Ok(false),
            Some(_) => match prepared.value(alloc, &term, BUDGET) {
                Err(_) => Ok(false),
                Ok(own) => Ok(own.same(value)),
            },
        },
    }
}

fn has_value(alloc: Global, prepared: &Prepared, slot: &Slot) -> Result<bool, Memory>
    ensures { IfOk result (λ has. IsTrue has → ChoosesValue (program_in prepared.now).theory slot.now) }
{
    match slot {
        Slot::Of(value) => is_value(alloc, prepared, value),
        Slot::Mark => Ok(true),
        Slot::Blank => Ok(true),
    }
}

fn have_values(alloc: Global, prepared: &Prepared, slots: &[Slot]) -> Result<bool, Memory>
    ensures { IfOk result (λ have. IsTrue have → Each (ChoosesValue (program_in prepared.now).theory) slots.now) }
{
    for slot in slots {
        if !has_value(alloc, prepared, slot)? {
            return Ok(false);
        }
    }
    Ok(true)
}

/// Whether each list of operations that the tree chooses spells a value.
pub fn chooses_values(alloc: Global, prepared: &Prepared, rules: &Rules) -> Result<bool, Memory>
    ensures { IfOk result (λ chooses. IsTrue chooses → ChoosesValues (program_in prepared.now).theory (derivation_of rules.now)) }
{
    let mut slots = Vec::new(alloc);
    put_slots(alloc, rules, &mut slots)?;
    have_values(alloc, prepared, &slots)
}
