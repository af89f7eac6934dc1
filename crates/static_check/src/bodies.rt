// The bodies of processes, read one after another.

ghost use Rattle.std.specs.List.{list_all};
ghost use Rattle.std.specs.Prelude.{◌≡◌, ◌<◌, ◌++◌, Option, IfOk, OnOk, map, length, pred, get_or, is_some, option_map};
ghost use Rattle.static_readings.specs.Joins.{Read};
ghost use Rattle.static_readings.specs.Views.{functionality_of, heading_of, output_of};
ghost use Rattle.static_call_cycles.specs.AtOnce.{calls_at_once};
ghost use Rattle.static_constructs.specs.Views.{construct_of};
ghost use Rattle.static_processes.specs.Views.{entry_of};
ghost use Rattle.spec_core.specs.Code.{node_of};
ghost use Rattle.spec_core.specs.Numbers.{sort_number};
ghost use Rattle.static_check.specs.Bodies as bodies;
ghost use Rattle.static_check.specs.Bodies.{body_site, ending_refusals, calls_from};
ghost use Rattle.static_check.specs.Steps as steps;
ghost use Rattle.static_check.specs.Steps.{HasHeadings, IsBodyRead, AreReadSoFar};
ghost use Rattle.static_check.specs.Views.{data_of, setting_of};

use crate::ending::add_ending;
use crate::entering::enter_body;
use crate::setting::Setting;
use spec_core::code::{CodeNode, Part};
use spec_core::items::Sort;
use spec_core::memory::Memory;
use static_call_cycles::call::Call;
use static_call_cycles::calls::calls_at_once;
use static_compiler::gates::numbers_from;
use static_compiler::reader::read;
use static_constructs::construct::Construct;
use static_constructs::written::behaviour;
use static_processes::entry::Entry;
use static_processes::heading::gates_in;
use static_readings::functionality::Functionality;
use static_readings::heading::Heading;
use static_readings::output::Output;
use static_readings::site::Site;
use static_readings::values::with_one;
use std::alloc::Global;

/// The body of a process that is read.
#[derive(Drop)]
pub struct Body {
    /// The node of the process, if nothing hinders it.
    pub node: Option<CodeNode>,
    /// The calls that it makes at once.
    pub calls: Vec<Call>,
}

/// The bodies of processes that are read.
#[derive(Drop)]
pub struct Bodies {
    /// The nodes of the processes, if nothing hinders it.
    pub nodes: Option<Vec<CodeNode>>,
    /// The calls that each makes at once.
    pub calls: Vec<Vec<Call>>,
}

// The node of a process whose body stands in this site, and has this node as its last.
fn process_node(
    alloc: Global,
    setting: &Setting<'_, '_>,
    entry: &Entry<'_>,
    site: &Site<'_>,
    body: Part,
) -> Result<CodeNode, Memory>
    ensures { IfOk result (λ node. node_of node ≡ steps.node_over (setting_of site.now.context setting.now) (entry_of entry.now)
        site.now.context.variables body.0) }
{
    Ok(CodeNode::Process {
        gates: numbers_from(alloc, setting.gates, gates_in(&entry.process.gates).len())?,
        vars: site.variables_from(alloc, 0)?,
        body,
    })
}

// The same, where the body is read.
fn process_node_if(
    alloc: Global,
    setting: &Setting<'_, '_>,
    entry: &Entry<'_>,
    site: &Site<'_>,
    found: &Option<Functionality>,
    out: &Output,
) -> Result<Option<CodeNode>, Memory>
    ensures { IfOk result (λ node. option_map node_of node ≡ option_map (λ _. steps.node_over (setting_of site.now.context setting.now)
        (entry_of entry.now) site.now.context.variables (pred (length (output_of out.now).code))) (option_map functionality_of found.now)) }
{
    match found {
        None => Ok(None),
        Some(_) => {
            let body = out.last()?;
            Ok(Some(process_node(alloc, setting, entry, site, body)?))
        }
    }
}

// What the body of a process is written as.
fn body_of<'a>(alloc: Global, entry: &Entry<'a>) -> Result<Construct<'a>, Memory>
    ensures { IfOk result (λ c. construct_of c ≡ (entry_of entry.now).process.body) }
{
    behaviour(alloc, &entry.process.behaviour)
}

// The heading of this number.
fn heading_at(headings: &[Heading], number: usize) -> &Heading
    requires { number < length headings.now }
    ensures { result.now ≡ get_or headings.now number result.now }
{
    &headings[number]
}

// Whether all of these sorts are known.
fn all_known(sorts: &[Option<Sort>]) -> bool
    ensures { result ≡ list_all is_some (map (λ sort. option_map sort_number sort) sorts.now) }
{
    match sorts {
        [] => true,
        [first, rest @ ..] => match first {
            None => false,
            Some(_) => all_known(rest),
        },
    }
}

// The number that stands for the sorts of parameters that aren't known, where there are such, with so many that are.
fn unknown_in(known: usize, heading: &Heading) -> Option<usize>
    ensures { result ≡ bodies.unknown_in known (heading_of heading.now).sorts }
{
    if all_known(&heading.sorts) {
        None
    } else {
        Some(known)
    }
}

// Refuses the body of a process that may end otherwise than it is declared to, at the name of the process.
fn add_body_ending(
    alloc: Global,
    known: usize,
    entry: &Entry<'_>,
    heading: &Heading,
    found: &Option<Functionality>,
    out: &mut Output,
) -> Result<(), Memory>
    ensures code { OnOk result ((output_of out.new).code ≡ (output_of out.old).code) }
    ensures refusals { OnOk result ((x : Option Read) → option_map functionality_of found.now ≡ option_map (λ r. r.functionality) x →
        (output_of out.new).refusals ≡ (output_of out.old).refusals
        ++ ending_refusals (bodies.unknown_in known (heading_of heading.now).sorts) (entry_of entry.now).process.name.place
        (option_map functionality_of heading.now.functionality) x) }
{
    add_ending(
        alloc,
        unknown_in(known, heading),
        entry.process.name.place,
        &heading.functionality,
        found,
        out,
    )
}

// The body of the process of this number.
fn read_body<'a>(
    alloc: Global,
    setting: &Setting<'a, '_>,
    number: usize,
    entry: &Entry<'a>,
    site: &mut Site<'a>,
    out: &mut Output,
) -> Result<Body, Memory>
    requires within { number < length setting.now.table.now }
    requires entry { entry.now ≡ get_or setting.now.table.now number entry.now }
    requires headings { HasHeadings (setting_of site.old.context setting.now) setting.now }
    ensures read { IfOk result (λ b. IsBodyRead (setting_of site.old.context setting.now) number (entry_of entry.now) (output_of out.old)
        (output_of out.new) (option_map node_of b.node)) }
    ensures calls { IfOk result (λ b. b.calls.items
        ≡ calls_at_once (body_site (setting_of site.old.context setting.now) number (entry_of entry.now))
        (entry_of entry.now).process.body) }
    ensures site { OnOk result (data_of site.new.context ≡ data_of site.old.context) }
{
    enter_body(alloc, setting, number, entry, site)?;
    let construct = body_of(alloc, entry)?;
    let calls = calls_at_once(alloc, site, &construct)?;
    let found = read(alloc, site, &construct, out)?;
    let heading = heading_at(setting.headings, number);
    add_body_ending(alloc, site.sorts(), entry, heading, &found, out)?;
    let node = process_node_if(alloc, setting, entry, site, &found, out)?;
    Ok(Body { node, calls })
}

/// The bodies of all processes, one after another.
pub fn read_bodies<'a>(
    alloc: Global,
    setting: &Setting<'a, '_>,
    site: &mut Site<'a>,
    out: &mut Output,
) -> Result<Bodies, Memory>
    requires headings { HasHeadings (setting_of site.old.context setting.now) setting.now }
    ensures read { IfOk result (λ b. AreReadSoFar (setting_of site.old.context setting.now) (map entry_of setting.now.table.now)
        (output_of out.old) (output_of out.new) (option_map (map node_of) (option_map (λ v. v.items) b.nodes))) }
    ensures calls { IfOk result (λ b. map (λ calls. calls.items) b.calls.items
        ≡ calls_from (setting_of site.old.context setting.now) 0 (map entry_of setting.now.table.now)) }
    ensures site { OnOk result (data_of site.new.context ≡ data_of site.old.context) }
{
    let mut nodes = Some(Vec::new(alloc));
    let mut calls = Vec::new(alloc);
    for (number, entry) in setting.table.iter().enumerate() {
        let body = read_body(alloc, setting, number, entry, site, out)?;
        nodes = with_one(nodes, body.node)?;
        calls.push(body.calls)?;
    }
    Ok(Bodies { nodes, calls })
}
