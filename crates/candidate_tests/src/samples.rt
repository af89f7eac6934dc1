// Composites, and what searches find among their trees.

use crate::data::{NUMBERS, TRUTHS};
use crate::lines::put_tree;
use candidate_search::searches::{TreeSearch, next_asked};
use rule_model::rules::Slot;
use spec_core::equation::DataSpec;
use spec_core::items::Gate;
use spec_core::memory::Memory;
use spec_core::window::Window;
use std::alloc::Global;
use symbolic_plans::column::Column;
use symbolic_plans::composite::{ActionKind, OpenComposite};
use symbolic_plans::scheme::{Row, Scheme};

/// The composites of the tests.
#[derive(Clone, Copy)]
pub enum Sample {
    /// Three take a number together.
    Three,
    /// One takes two truth values.
    Truths,
    /// One takes a number.
    Number,
    /// One gives a mark where another takes a number.
    Given,
    /// Two take a truth value together, at a hidden gate.
    Hidden,
    /// One ends with any number, and another goes on.
    Ended,
}

fn prefix(alloc: Global, takes: &[bool]) -> Result<Scheme, Memory> {
    Ok(Scheme::Pre(Vec::from_slice(alloc, takes)?))
}

fn both(alloc: Global, left: &[bool], right: Scheme) -> Result<Scheme, Memory> {
    let left = prefix(alloc, left)?;
    Scheme::both(alloc, left, right)
}

// At the first gate.
fn seen(columns: Vec<Column>, scheme: Scheme) -> OpenComposite {
    OpenComposite {
        kind: ActionKind::At(Gate(0)),
        columns,
        scheme,
    }
}

// Internal.
fn unseen(alloc: Global, scheme: Scheme) -> OpenComposite {
    OpenComposite {
        kind: ActionKind::Inner,
        columns: Vec::new(alloc),
        scheme,
    }
}

/// So many prefixes' fields, each of which takes a number.
pub fn numbers(alloc: Global, fields: usize) -> Result<OpenComposite, Memory> {
    let mut columns = Vec::new(alloc);
    let mut takes = Vec::new(alloc);
    for _turn in 0..fields {
        columns.push(Column::Blank(NUMBERS, false))?;
        takes.push(true)?;
    }
    Ok(seen(columns, Scheme::Pre(takes)))
}

/// A composite.
pub fn composite(alloc: Global, sample: Sample) -> Result<OpenComposite, Memory> {
    match sample {
        Sample::Three => {
            let last = prefix(alloc, &[true])?;
            let others = both(alloc, &[true], last)?;
            let scheme = both(alloc, &[true], others)?;
            Ok(seen(vec![in alloc; Column::Blank(NUMBERS, false)]?, scheme))
        }
        Sample::Truths => {
            let scheme = prefix(alloc, &[true, true])?;
            let columns = vec![in alloc;
                Column::Blank(TRUTHS, false),
                Column::Blank(TRUTHS, false),
            ]?;
            Ok(seen(columns, scheme))
        }
        Sample::Number => numbers(alloc, 1),
        Sample::Given => {
            let left = prefix(alloc, &[false])?;
            let left = Scheme::under(alloc, Row::Val(Slot::Mark), left)?;
            let right = prefix(alloc, &[true])?;
            let scheme = Scheme::both(alloc, left, right)?;
            Ok(seen(vec![in alloc; Column::Blank(NUMBERS, true)]?, scheme))
        }
        Sample::Hidden => {
            let right = prefix(alloc, &[true])?;
            let part = both(alloc, &[true], right)?;
            let columns = vec![in alloc; Column::Blank(TRUTHS, false)]?;
            Ok(unseen(alloc, Scheme::hide(alloc, columns, part)?))
        }
        Sample::Ended => {
            let part = Scheme::Exit(Vec::from_slice(alloc, &[true])?);
            let columns = vec![in alloc; Column::Blank(NUMBERS, false)]?;
            Ok(unseen(alloc, Scheme::enend(alloc, columns, part)?))
        }
    }
}

/// What is found, each tree behind its number.
pub fn found(
    alloc: Global,
    algebra: &DataSpec,
    windows: &[Window],
    composite: &OpenComposite,
    search: TreeSearch<'_>,
) -> Result<String, Memory> {
    let mut text = String::new(alloc);
    let mut from = 0;
    for _turn in 0..1000 {
        match next_asked(alloc, algebra, windows, composite, search, from)? {
            None => return Ok(text),
            Some(asked) => {
                let number = asked.number;
                let front = format!(in alloc; "{number}: ")?;
                text.push_str(front.as_str())?;
                put_tree(alloc, &mut text, &asked.tree)?;
                text.push_str("; ")?;
                from = number + 1;
            }
        }
    }
    text.push_str("and more")?;
    Ok(text)
}
