// Behaviours as text.

use rule_model::beh::Beh;
use spec_core::code::ActField;
use spec_core::items::Gate;
use spec_core::memory::Memory;
use spec_core::term::Term;

fn put_gate(out: &mut String, gate: Gate) -> Result<(), Memory> {
    match gate.0 {
        0 => out.push_str("a")?,
        1 => out.push_str("b")?,
        2 => out.push_str("c")?,
        3 => out.push_str("d")?,
        4 => out.push_str("e")?,
        _ => out.push_str("g")?,
    }
    Ok(())
}

// `!v` is a value, `!x` a variable that has none.
fn put_field(out: &mut String, field: &ActField) -> Result<(), Memory> {
    match field {
        ActField::Give(term) => match term {
            Term::Var(_) => out.push_str("!x")?,
            Term::App(_, _) => out.push_str("!v")?,
        },
        ActField::Take(_, _) => out.push_str("?")?,
    }
    Ok(())
}

// The operator between the two parts of a behaviour.
fn operator(of: &Beh) -> &'static str {
    match of {
        Beh::Choice(_, _) => "[]",
        Beh::Par(_, _, _) => "||",
        Beh::Disable(_, _) => "[>",
        _ => ">>",
    }
}

/// Appends the behaviour's text.
pub fn put_behaviour(out: &mut String, from: &Beh) -> Result<(), Memory> {
    match from {
        Beh::Stop => out.push_str("stop")?,
        Beh::Exit(_) => out.push_str("exit")?,
        Beh::Inner(rest) => {
            out.push_str("i;")?;
            put_behaviour(out, rest)?;
        }
        Beh::Act {
            gate,
            fields,
            guard: _,
            rest,
        } => {
            put_gate(out, *gate)?;
            for field in fields {
                put_field(out, field)?;
            }
            out.push_str(";")?;
            put_behaviour(out, rest)?;
        }
        Beh::Choice(left, right)
        | Beh::Par(_, left, right)
        | Beh::Disable(left, right)
        | Beh::Enable(left, _, right) => {
            out.push_str("(")?;
            put_behaviour(out, left)?;
            out.push_str(operator(from))?;
            put_behaviour(out, right)?;
            out.push_str(")")?;
        }
        Beh::Hide(_, body) => {
            out.push_str("hide ")?;
            put_behaviour(out, body)?;
        }
        Beh::Relabel(_, body) => {
            out.push_str("rel ")?;
            put_behaviour(out, body)?;
        }
        Beh::Call {
            process: _,
            gates,
            values: _,
        } => {
            out.push_str("P")?;
            for gate in gates {
                put_gate(out, *gate)?;
            }
        }
        _ => out.push_str("other")?,
    }
    Ok(())
}
