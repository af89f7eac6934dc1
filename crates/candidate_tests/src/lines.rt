// Trees as text.

use rule_model::rules::{Rules, Slot};
use spec_core::memory::Memory;
use spec_core::value::Value;
use std::alloc::Global;

fn put_number(alloc: Global, text: &mut String, n: usize) -> Result<(), Memory> {
    let digits = format!(in alloc; " {n}")?;
    Ok(text.push_str(digits.as_str())?)
}

// A truth value by its name, and a number by its digits.
fn put_value(alloc: Global, text: &mut String, value: &Value) -> Result<(), Memory> {
    match value.as_slice() {
        [] => Ok(text.push_str(" nothing")?),
        [first, rest @ ..] => {
            let op = first.0;
            if op == 2 {
                Ok(text.push_str(" t")?)
            } else if op == 3 {
                Ok(text.push_str(" f")?)
            } else {
                put_number(alloc, text, rest.len())
            }
        }
    }
}

fn put_slot(alloc: Global, text: &mut String, slot: &Slot) -> Result<(), Memory> {
    match slot {
        Slot::Of(value) => put_value(alloc, text, value),
        Slot::Mark => Ok(text.push_str(" ?")?),
        Slot::Blank => Ok(text.push_str(" _")?),
    }
}

fn put_slots(alloc: Global, text: &mut String, slots: &[Slot]) -> Result<(), Memory> {
    for slot in slots {
        put_slot(alloc, text, slot)?;
    }
    Ok(())
}

/// A tree, of which the tests have these rules.
pub fn put_tree(alloc: Global, text: &mut String, tree: &Rules) -> Result<(), Memory> {
    match tree {
        Rules::Pre(slots) => {
            text.push_str("pre")?;
            put_slots(alloc, text, slots.as_slice())
        }
        Rules::Exit(slots) => {
            text.push_str("exit")?;
            put_slots(alloc, text, slots.as_slice())
        }
        Rules::Val(slot, part) => {
            text.push_str("val")?;
            put_slot(alloc, text, slot)?;
            text.push_str(" (")?;
            put_tree(alloc, text, part)?;
            Ok(text.push_str(")")?)
        }
        Rules::Hide(part) => {
            text.push_str("hide (")?;
            put_tree(alloc, text, part)?;
            Ok(text.push_str(")")?)
        }
        Rules::Enend(part) => {
            text.push_str("enend (")?;
            put_tree(alloc, text, part)?;
            Ok(text.push_str(")")?)
        }
        Rules::Both(left, right) => {
            text.push_str("both (")?;
            put_tree(alloc, text, left)?;
            text.push_str(") (")?;
            put_tree(alloc, text, right)?;
            Ok(text.push_str(")")?)
        }
        _ => Ok(text.push_str("other")?),
    }
}
