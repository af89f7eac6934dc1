// What `check` prints.

ghost use Rattle.std.specs.Prelude.{◌≡◌, ◌++◌, IfOk, OnOk, codes};
ghost use Rattle.std.specs.List.{flat_map};
ghost use Rattle.spec_core.specs.Code.{program_of};
ghost use Rattle.lotos_run.specs.CheckTexts as texts;

use lotos_ast::refusal::Refusal;
use spec_core::code::Checked;
use spec_core::memory::Memory;
use spec_core::name::Name;
use std::alloc::Global;

// Puts a text behind the others.
fn put(out: &mut Vec<u8>, text: &str) -> Result<(), Memory>
    ensures { OnOk result (out.new.items ≡ out.old.items ++ text.now) }
{
    Ok(out.extend_from_slice(text.as_bytes())?)
}

// Puts names behind a blank, with a bar between two.
fn put_names(out: &mut Vec<u8>, names: &[Name]) -> Result<(), Memory>
    ensures { OnOk result (out.new.items ≡ out.old.items ++ texts.names_text names.now) }
{
    match names {
        [] => Ok(()),
        [first, others @ ..] => {
            put(out, " ")?;
            put(out, first.as_str())?;
            put_others(out, others)
        }
    }
}

// Puts names, each behind a bar.
fn put_others(out: &mut Vec<u8>, names: &[Name]) -> Result<(), Memory>
    ensures { OnOk result (out.new.items ≡ out.old.items ++ flat_map (λ other. codes " | " ++ other) names.now) }
{
    for name in names {
        put(out, " | ")?;
        put(out, name.as_str())?;
    }
    Ok(())
}

/// A refusal as it is printed: its number and name, its place, and its names.
pub fn refusal_text(alloc: Global, refusal: &Refusal) -> Result<Vec<u8>, Memory>
    ensures { IfOk result (λ text. text.items ≡ texts.refusal_text refusal.now) }
{
    let number = refusal.number();
    let name = refusal.kind.name();
    let line = refusal.place.line;
    let column = refusal.place.column;
    let opening = format!(in alloc; "refused {number} {name} {line}:{column}")?;
    let mut text = Vec::new(alloc);
    put(&mut text, &opening)?;
    put_names(&mut text, refusal.names.as_slice())?;
    put(&mut text, "\n")?;
    Ok(text)
}

/// What an accepted specification has, as it is printed.
pub fn accepted_text(alloc: Global, checked: &Checked) -> Result<Vec<u8>, Memory>
    ensures { IfOk result (λ text. text.items ≡ texts.accepted_text (program_of checked.now)) }
{
    let sorts = checked.algebra.signature.sorts.len();
    let operations = checked.algebra.signature.ops.len();
    let equations = checked.algebra.equations.len();
    let processes = checked.processes;
    let line = format!(in alloc;
        "accepted sorts {sorts} operations {operations} equations {equations} processes {processes}\n"
    )?;
    let mut text = Vec::new(alloc);
    put(&mut text, &line)?;
    Ok(text)
}
