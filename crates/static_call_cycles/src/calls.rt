// Calls that are made at once.

ghost use Rattle.std.specs.Prelude.{◌≡◌, ◌++◌, IfOk, OnOk};
ghost use Rattle.static_constructs.specs.Views.{construct_of};
ghost use Rattle.static_readings.specs.Sites.{process_named};
ghost use Rattle.static_call_cycles.specs.AtOnce.{call_of, calls_at_once};

use crate::call::Call;
use lotos_ast::token::Token;
use spec_core::memory::Memory;
use static_constructs::construct::Construct;
use static_readings::site::Site;
use std::alloc::Global;

// Adds the call of a process of this name, if there is one.
fn add_call(alloc: Global, site: &Site<'_>, name: &Token, all: &mut Vec<Call>) -> Result<(), Memory>
    ensures { OnOk result (all.new.items ≡ all.old.items ++ call_of name.now.place (process_named site.now name.now)) }
{
    match site.process(alloc, name)? {
        None => Ok(()),
        Some(process) => {
            all.push(Call {
                place: name.place,
                process: process.number as usize,
            })?;
            Ok(())
        }
    }
}

// Adds the calls that a construct makes at once.
fn add_calls(
    alloc: Global,
    site: &Site<'_>,
    construct: &Construct<'_>,
    all: &mut Vec<Call>,
) -> Result<(), Memory>
    ensures { OnOk result (all.new.items ≡ all.old.items ++ calls_at_once site.now (construct_of construct.now)) }
{
    match construct {
        Construct::Stop
        | Construct::Exit { values: _ }
        | Construct::Inner { rest: _ }
        | Construct::Act {
            gate: _,
            offers: _,
            predicate: _,
            rest: _,
        } => Ok(()),
        Construct::Choice {
            place: _,
            left,
            right,
        }
        | Construct::Disable {
            place: _,
            left,
            right,
        } => {
            add_calls(alloc, site, left, all)?;
            add_calls(alloc, site, right, all)
        }
        Construct::Parallel {
            place: _,
            operator: _,
            left,
            right,
        } => {
            add_calls(alloc, site, left, all)?;
            add_calls(alloc, site, right, all)
        }
        Construct::Guard {
            condition: _,
            inner,
        } => add_calls(alloc, site, inner, all),
        Construct::Let { bindings: _, inner } => add_calls(alloc, site, inner, all),
        Construct::Values {
            declarations: _,
            inner,
        } => add_calls(alloc, site, inner, all),
        Construct::Gates { choices: _, inner } => add_calls(alloc, site, inner, all),
        Construct::Hide { gates: _, inner } => add_calls(alloc, site, inner, all),
        Construct::Par {
            gate: _,
            gates: _,
            operator: _,
            inner,
        } => add_calls(alloc, site, inner, all),
        Construct::Enable {
            place: _,
            left,
            accepts: _,
            right: _,
        } => add_calls(alloc, site, left, all),
        Construct::Call {
            name,
            gates: _,
            values: _,
        } => add_call(alloc, site, name, all),
    }
}

/// The calls that a construct makes at once: before any action, and before what stands behind a `>>`.
pub fn calls_at_once(
    alloc: Global,
    site: &Site<'_>,
    construct: &Construct<'_>,
) -> Result<Vec<Call>, Memory>
    ensures { IfOk result (λ all. all.items ≡ calls_at_once site.now (construct_of construct.now)) }
{
    let mut all = Vec::new(alloc);
    add_calls(alloc, site, construct, &mut all)?;
    Ok(all)
}
