// The behaviour of the specification.

ghost use Rattle.std.specs.Prelude.{◌≡◌, IfOk, OnOk, None, length, pred, option_map};
ghost use Rattle.static_readings.specs.Views.{functionality_of, output_of};
ghost use Rattle.static_constructs.specs.Written.{behaviour_written};
ghost use Rattle.static_check.specs.Bodies.{ending_refusals};
ghost use Rattle.static_check.specs.Compiled.{start_site};
ghost use Rattle.static_check.specs.Steps.{HasHeadings, IsStartRead};
ghost use Rattle.static_check.specs.Views.{setting_of};

use crate::ending::add_ending;
use crate::setting::Setting;
use lotos_ast::spec::Spec;
use spec_core::code::Part;
use spec_core::memory::Memory;
use static_compiler::reader::read;
use static_constructs::written::behaviour;
use static_processes::heading::gates_in;
use static_readings::functionality::Functionality;
use static_readings::output::Output;
use static_readings::site::Site;
use std::alloc::Global;

// Goes to where the behaviour of the specification stands.
#[tactic(auto, using(crate::proofs::Sites::start_entered))]
fn enter<'a>(
    alloc: Global,
    setting: &Setting<'a, '_>,
    spec: &'a Spec,
    site: &mut Site<'a>,
) -> Result<(), Memory>
    requires headings { HasHeadings (setting_of site.old.context setting.now) setting.now }
    ensures { OnOk result (site.new ≡ start_site (setting_of site.old.context setting.now) spec.now) }
{
    let all = setting.parts.visible(alloc, &[])?;
    site.go(0, all);
    site.put_gates(gates_in(&spec.gates))
}

// The number of the last node, where what it belongs to is read.
fn last_if(found: &Option<Functionality>, out: &Output) -> Result<Option<Part>, Memory>
    ensures { IfOk result (λ part. option_map (λ p. p.0) part
        ≡ option_map (λ _. pred (length (output_of out.now).code)) (option_map functionality_of found.now)) }
{
    match found {
        None => Ok(None),
        Some(_) => Ok(Some(out.last()?)),
    }
}

/// The behaviour of the specification, which is declared to end in this way, if that is known.
pub fn read_start<'a>(
    alloc: Global,
    setting: &Setting<'a, '_>,
    spec: &'a Spec,
    declared: &Option<Functionality>,
    site: &mut Site<'a>,
    out: &mut Output,
) -> Result<Option<Part>, Memory>
    requires headings { HasHeadings (setting_of site.old.context setting.now) setting.now }
    ensures { IfOk result (λ start. IsStartRead (start_site (setting_of site.old.context setting.now) spec.now)
        (behaviour_written spec.now.behaviour) (output_of out.old) (output_of out.new)
        (ending_refusals None spec.now.name.place (option_map functionality_of declared.now)) (option_map (λ p. p.0) start)) }
{
    enter(alloc, setting, spec, site)?;
    let construct = behaviour(alloc, &spec.behaviour)?;
    let found = read(alloc, site, &construct, out)?;
    let start = last_if(&found, out)?;
    add_ending(alloc, None, spec.name.place, declared, &found, out)?;
    Ok(start)
}
