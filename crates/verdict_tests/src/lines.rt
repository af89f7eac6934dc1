// What is shown, as text.

use spec_core::code::Checked;
use spec_core::items::{Gate, Op, Sort};
use spec_core::memory::Memory;
use spec_core::term::Term;
use spec_core::value::Value;
use std::alloc::Global;
use symbolic_actions::field::ShownField;
use symbolic_actions::shown::Shown;
use symbolic_plans::composite::ActionKind;

fn operation_name(checked: &Checked, op: Op) -> &str {
    match checked.algebra.signature.ops.get(op.0 as usize) {
        None => "unknown",
        Some(declared) => declared.name.as_str(),
    }
}

fn sort_name(checked: &Checked, sort: Sort) -> &str {
    match checked.algebra.signature.sorts.get(sort.0 as usize) {
        None => "unknown",
        Some(name) => name.as_str(),
    }
}

fn gate_name(checked: &Checked, gate: Gate) -> &str {
    match checked.gates.get(gate.0 as usize) {
        None => "inner",
        Some(name) => name.as_str(),
    }
}

// A value: its operations in preorder.
fn put_value(text: &mut String, checked: &Checked, value: &Value) -> Result<(), Memory> {
    for op in value.as_slice() {
        text.push_str(operation_name(checked, *op))?;
    }
    Ok(())
}

/// A term: its operations in preorder.
pub fn put_term(text: &mut String, checked: &Checked, term: &Term) -> Result<(), Memory> {
    match term {
        Term::Var(_) => Ok(text.push_str("variable")?),
        Term::App(op, args) => {
            text.push_str(operation_name(checked, *op))?;
            for arg in args {
                put_term(text, checked, arg)?;
            }
            Ok(())
        }
    }
}

// A field: `!` where an expression tells it, and `?` where it is only chosen; a sort is its mark.
fn put_field(text: &mut String, checked: &Checked, field: &ShownField) -> Result<(), Memory> {
    match field {
        ShownField::Told(value) => {
            text.push_str(" !")?;
            put_value(text, checked, value)
        }
        ShownField::Chosen(value) => {
            text.push_str(" ?")?;
            put_value(text, checked, value)
        }
        ShownField::Given(sort) => {
            text.push_str(" !")?;
            Ok(text.push_str(sort_name(checked, *sort))?)
        }
        ShownField::Free(sort) => {
            text.push_str(" ?")?;
            Ok(text.push_str(sort_name(checked, *sort))?)
        }
    }
}

/// The kind of an action, and its fields.
pub fn line(alloc: Global, checked: &Checked, shown: &Shown) -> Result<String, Memory> {
    let kind = match shown.kind {
        ActionKind::Inner => "i",
        ActionKind::Exit => "exit",
        ActionKind::At(gate) => gate_name(checked, gate),
    };
    let mut text = String::from_str(alloc, kind)?;
    for field in &shown.fields {
        put_field(&mut text, checked, field)?;
    }
    Ok(text)
}
