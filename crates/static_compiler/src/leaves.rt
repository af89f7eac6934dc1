// Constructs without parts.

ghost use Rattle.std.specs.Prelude.{◌≡◌, Some, true, IfOk, map, length, option_map};
ghost use Rattle.static_constructs.specs.Constructs.{stops, exits, calls};
ghost use Rattle.spec_core.specs.Code.{node_of};
ghost use Rattle.spec_core.specs.Numbers.{gate_number};
ghost use Rattle.spec_core.specs.Terms.{term_of};
ghost use Rattle.static_readings.specs.Calls.{IsCallRead, called, has_counts};
ghost use Rattle.static_readings.specs.Joins.{single};
ghost use Rattle.static_readings.specs.Outputs.{HasRead, nodes_of};
ghost use Rattle.static_readings.specs.Readings.{ended, IsRead};
ghost use Rattle.static_readings.specs.Sites as sites;
ghost use Rattle.static_readings.specs.Views.{functionality_of, heading_of, exit_value_at, output_of};
ghost use Rattle.static_compiler.specs.Parts.{Puts};

use lotos_ast::behaviour::ExitValue;
use lotos_ast::expression::Expr;
use lotos_ast::refusal::RefusalKind;
use lotos_ast::token::Token;
use spec_core::code::{CodeNode, ExitField};
use spec_core::items::{Gate, Sort};
use spec_core::memory::Memory;
use spec_core::term::Term;
use static_readings::declarations::{add_unknown_gates, gates_named};
use static_readings::functionality::Functionality;
use static_readings::heading::Heading;
use static_readings::output::Output;
use static_readings::site::Site;
use static_readings::values::{exit_values, values};
use std::alloc::Global;

// Puts out a node, where it is known how it ends.
fn put_single(
    node: CodeNode,
    ends: Option<Functionality>,
    out: &mut Output,
) -> Result<Option<Functionality>, Memory>
    ensures { IfOk result (λ found. Puts (option_map (single (node_of node)) (option_map functionality_of ends))
        (output_of out.old) (output_of out.new) (option_map functionality_of found)) }
{
    match ends {
        None => Ok(None),
        Some(ends) => {
            out.push(node)?;
            Ok(Some(ends))
        }
    }
}

/// `stop`.
#[tactic(auto, using(crate::proofs::Whole::stop_read))]
#[inline(never)]
pub fn read_stop(out: &mut Output) -> Result<Option<Functionality>, Memory>
    ensures { IfOk result (λ found. (s : sites.Site) → HasRead (λ from. IsRead s from stops) (output_of out.old) (output_of out.new)
        (option_map functionality_of found)) }
{
    put_single(CodeNode::Stop, Some(Functionality::NoExit), out)
}

// Puts out the end with these values.
fn put_exit(
    alloc: Global,
    values: Vec<(ExitField, Sort)>,
    out: &mut Output,
) -> Result<Option<Functionality>, Memory>
    ensures { IfOk result (λ found. Puts (Some (ended (map exit_value_at values.items)))
        (output_of out.old) (output_of out.new) (option_map functionality_of found)) }
{
    let mut fields = Vec::new(alloc);
    let mut sorts = Vec::new(alloc);
    for (field, sort) in values {
        fields.push(field)?;
        sorts.push(sort)?;
    }
    put_single(
        CodeNode::Exit(fields),
        Some(Functionality::Exits(sorts)),
        out,
    )
}

// Puts out the end, where its values are read.
fn put_exit_if(
    alloc: Global,
    values: Option<Vec<(ExitField, Sort)>>,
    out: &mut Output,
) -> Result<Option<Functionality>, Memory>
    ensures { IfOk result (λ found. Puts (option_map ended (option_map (map exit_value_at) (option_map (λ v. v.items) values)))
        (output_of out.old) (output_of out.new) (option_map functionality_of found)) }
{
    match values {
        None => Ok(None),
        Some(values) => put_exit(alloc, values, out),
    }
}

/// The end with values.
#[inline(never)]
pub fn read_exit(
    alloc: Global,
    site: &Site<'_>,
    from: &[ExitValue],
    out: &mut Output,
) -> Result<Option<Functionality>, Memory>
    ensures { IfOk result (λ found. HasRead (λ at. IsRead site.now at (exits from.now)) (output_of out.old) (output_of out.new)
        (option_map functionality_of found)) }
{
    let found = exit_values(alloc, site, from, &mut out.refusals)?;
    put_exit_if(alloc, found, out)
}

// An equal functionality, if there is one.
fn copied(alloc: Global, from: &Option<Functionality>) -> Result<Option<Functionality>, Memory>
    ensures { IfOk result (λ found. option_map functionality_of found ≡ option_map functionality_of from.now) }
{
    match from {
        None => Ok(None),
        Some(functionality) => Ok(Some(functionality.copy(alloc)?)),
    }
}

// Puts out the call of a process, where its gates and values are there.
fn put_call(
    alloc: Global,
    heading: &Heading,
    gates: Option<Vec<Gate>>,
    values: Option<Vec<Term>>,
    out: &mut Output,
) -> Result<Option<Functionality>, Memory>
    ensures { IfOk result (λ found. Puts (called (heading_of heading.now) (option_map (λ v. map gate_number v.items) gates)
        (option_map (map term_of) (option_map (λ v. v.items) values))) (output_of out.old) (output_of out.new)
        (option_map functionality_of found)) }
{
    match (gates, values) {
        (Some(gates), Some(values)) => {
            let ends = copied(alloc, &heading.functionality)?;
            put_single(
                CodeNode::Call {
                    process: heading.number,
                    gates,
                    values,
                },
                ends,
                out,
            )
        }
        _ => Ok(None),
    }
}

// Whether there are as many gates and values as the process has.
fn fits(heading: &Heading, gates: &[Token], from: &[Expr]) -> bool
    ensures counts { result ≡ has_counts (heading_of heading.now) gates.now from.now }
    ensures values { result ≡ true → length heading.now.sorts.items ≡ length from.now }
{
    gates.len() == heading.gates && from.len() == heading.sorts.len()
}

// A call of this process.
fn read_call_of(
    alloc: Global,
    site: &Site<'_>,
    heading: &Heading,
    name: &Token,
    gates: &[Token],
    from: &[Expr],
    out: &mut Output,
) -> Result<Option<Functionality>, Memory>
    ensures { IfOk result (λ found. HasRead (λ at. IsCallRead site.now name.now gates.now from.now (Some (heading_of heading.now)))
        (output_of out.old) (output_of out.new) (option_map functionality_of found)) }
{
    if !fits(heading, gates, from) {
        out.refuse(alloc, RefusalKind::WrongCount, name.place)?;
        return Ok(None);
    }
    add_unknown_gates(alloc, site, gates, &mut out.refusals)?;
    let gates = gates_named(alloc, site, gates)?;
    let found = values(alloc, site, &heading.sorts, from, &mut out.refusals)?;
    put_call(alloc, heading, gates, found, out)
}

/// A process with actual gates and values.
#[inline(never)]
pub fn read_call(
    alloc: Global,
    site: &Site<'_>,
    name: &Token,
    gates: &[Token],
    from: &[Expr],
    out: &mut Output,
) -> Result<Option<Functionality>, Memory>
    ensures { IfOk result (λ found. HasRead (λ at. IsRead site.now at (calls name.now gates.now from.now))
        (output_of out.old) (output_of out.new) (option_map functionality_of found)) }
{
    match site.process(alloc, name)? {
        None => {
            out.refuse(alloc, RefusalKind::UnknownProcess, name.place)?;
            Ok(None)
        }
        Some(heading) => read_call_of(alloc, site, heading, name, gates, from, out),
    }
}
