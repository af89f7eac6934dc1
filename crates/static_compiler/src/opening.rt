// What is read of constructs before their parts.

ghost use Rattle.std.specs.Prelude.{◌≡◌, ◌++◌, ◌∷◌, [], IfOk, OnOk, map, option_map};
ghost use Rattle.static_constructs.specs.Constructs.{acts_inside, acts, asks, binds, chooses_values, chooses_gates, hides, copies};
ghost use Rattle.spec_core.specs.Code.{guarded, bound, binding_of, guard_of, synchronised_of, variable_of};
ghost use Rattle.spec_core.specs.Numbers.{gate_number};
ghost use Rattle.sort_overloads.specs.Judged.{Adds};
ghost use Rattle.static_equations.specs.Equalities.{premise_if_read};
ghost use Rattle.static_readings.specs.Declarations.{unknown_gates, gate_numbers};
ghost use Rattle.static_readings.specs.Readings as readings;
ghost use Rattle.static_readings.specs.Sites.{next_gate, with_gates};
ghost use Rattle.static_readings.specs.Views.{fields_of, output_of};
ghost use Rattle.static_compiler.specs.Frames as frames;
ghost use Rattle.static_compiler.specs.Frames.{value_layer, in_parallel, in_enabling, layers_if, action_if, copies_if};
ghost use Rattle.static_compiler.specs.Overs.{whole_of};
ghost use Rattle.static_compiler.specs.Parts.{Opens, OpensChoices, OpensRight};
ghost use Rattle.static_compiler.specs.Views.{maker_of, frame_of, joining_of};

use crate::frame::Frame;
use crate::gates::{gates_of, numbers_from, synchronised};
use crate::joining::Joining;
use crate::layer::Layer;
use crate::mark::Mark;
use crate::names::{add_bound_twice, add_chosen_twice, add_gates_twice, add_offered_twice};
use crate::opened::{Opened, OpenedRight};
use crate::over::Over;
use lotos_ast::behaviour::{Binding, GateChoice, Offer, Operator};
use lotos_ast::declaration::Declaration;
use lotos_ast::expression::Premiss;
use lotos_ast::refusal::Refusal;
use lotos_ast::token::Token;
use spec_core::code::{ActField, GateSet};
use spec_core::items::{Gate, Sort};
use spec_core::memory::Memory;
use spec_core::term::Term;
use static_readings::declarations::{
    add_declaration_refusals, add_unknown_gate, add_unknown_gates, gates_named, put_declared,
};
use static_readings::fields::{bindings, fields, joined, predicate, put_bindings, put_offers};
use static_readings::output::Output;
use static_readings::site::Site;
use static_readings::values::with_one;
use std::alloc::Global;

// `i`.
fn open_inner(alloc: Global, site: &Site<'_>, out: &Output) -> Result<Opened, Memory>
    ensures { IfOk result (λ o. Opens site.now acts_inside (output_of out.now) (output_of out.now) site.now o) }
{
    let mark = Mark::of(site, out);
    let frame = Frame::one(alloc, Layer::Inner)?;
    Ok(Opened { mark, frame })
}

// An action, where what stands in it is there.
fn action_frame(
    alloc: Global,
    gate: Option<u32>,
    fields: Option<Vec<Vec<ActField>>>,
    guard: Option<Option<(Term, Term)>>,
) -> Result<Frame, Memory>
    ensures { IfOk result (λ frame. frame_of frame
        ≡ action_if gate (option_map (map fields_of) (option_map (λ v. v.items) fields)) (option_map guard_of guard)) }
{
    match (gate, fields, guard) {
        (Some(gate), Some(fields), Some(guard)) => {
            let fields = joined(alloc, fields)?;
            Frame::one(
                alloc,
                Layer::Act {
                    gate: Gate(gate),
                    fields,
                    guard,
                },
            )
        }
        _ => Ok(Frame::Hindered),
    }
}

// An action, whose variables what follows it sees.
fn open_action(
    alloc: Global,
    site: &mut Site<'_>,
    gate: &Token,
    offers: &[Offer],
    condition: Option<&Premiss>,
    out: &mut Output,
) -> Result<Opened, Memory>
    ensures { IfOk result (λ o. Opens site.old (acts gate.now offers.now (option_map (λ p. p.now) condition.entry))
        (output_of out.old) (output_of out.new) site.new o) }
{
    let mark = Mark::of(site, out);
    let number = site.gate(gate);
    add_unknown_gate(alloc, site, gate, &mut out.refusals)?;
    add_offered_twice(alloc, offers, &mut out.refusals)?;
    let read = fields(alloc, site, offers, &mut out.refusals)?;
    put_offers(alloc, site, offers)?;
    let guard = predicate(alloc, site, condition, &mut out.refusals)?;
    let frame = action_frame(alloc, number, read, guard)?;
    Ok(Opened { mark, frame })
}

// A condition, if it is read.
fn guard_frame(alloc: Global, found: Option<(Term, Term)>) -> Result<Frame, Memory>
    ensures { IfOk result (λ frame. frame_of frame ≡ layers_if (option_map (λ p. guarded p ∷ []) (premise_if_read found))) }
{
    match found {
        None => Ok(Frame::Hindered),
        Some((left, right)) => Frame::one(alloc, Layer::Guard(left, right)),
    }
}

// A condition.
fn open_guard(
    alloc: Global,
    site: &Site<'_>,
    condition: &Premiss,
    out: &mut Output,
) -> Result<Opened, Memory>
    ensures { IfOk result (λ o. Opens site.now (asks condition.now) (output_of out.old) (output_of out.new) site.now o) }
{
    let mark = Mark::of(site, out);
    let found = site.judge_premiss(alloc, condition, &mut out.refusals)?;
    let frame = guard_frame(alloc, found)?;
    Ok(Opened { mark, frame })
}

// Bindings, if they are read.
fn let_frame(alloc: Global, found: Option<Vec<(u32, Sort, Term)>>) -> Result<Frame, Memory>
    ensures { IfOk result (λ frame. frame_of frame
        ≡ layers_if (option_map (λ bs. bound bs ∷ []) (option_map (map binding_of) (option_map (λ v. v.items) found)))) }
{
    match found {
        None => Ok(Frame::Hindered),
        Some(all) => Frame::one(alloc, Layer::Let(all)),
    }
}

// A `let`, whose values don't see its variables.
fn open_let(
    alloc: Global,
    site: &mut Site<'_>,
    from: &[Binding],
    out: &mut Output,
) -> Result<Opened, Memory>
    ensures { IfOk result (λ o. Opens site.old (binds from.now) (output_of out.old) (output_of out.new) site.new o) }
{
    let mark = Mark::of(site, out);
    add_bound_twice(alloc, from, &mut out.refusals)?;
    let found = bindings(alloc, site, from, &mut out.refusals)?;
    put_bindings(alloc, site, from)?;
    let frame = let_frame(alloc, found)?;
    Ok(Opened { mark, frame })
}

// Choices of the values of variables, the first one's outermost.
fn value_layers(alloc: Global, vars: Vec<(u32, Sort)>) -> Result<Vec<Layer>, Memory>
    ensures { IfOk result (λ all. map maker_of all.items ≡ map value_layer (map variable_of vars.items)) }
{
    let mut all = Vec::new(alloc);
    for (variable, sort) in vars {
        all.push(Layer::Values(variable, sort))?;
    }
    Ok(all)
}

// The same, where the variables are there.
fn values_frame(alloc: Global, vars: Option<Vec<(u32, Sort)>>) -> Result<Frame, Memory>
    ensures { IfOk result (λ frame. frame_of frame
        ≡ layers_if (option_map (map value_layer) (option_map (λ vars. map variable_of vars.items) vars))) }
{
    match vars {
        None => Ok(Frame::Hindered),
        Some(vars) => Ok(Frame::Layers(value_layers(alloc, vars)?)),
    }
}

// A choice of values.
fn open_values(
    alloc: Global,
    site: &mut Site<'_>,
    declared: &[Declaration],
    out: &mut Output,
) -> Result<Opened, Memory>
    ensures { IfOk result (λ o. Opens site.old (chooses_values declared.now) (output_of out.old) (output_of out.new) site.new o) }
{
    let mark = Mark::of(site, out);
    add_declaration_refusals(alloc, site, declared, &mut out.refusals)?;
    let vars = put_declared(alloc, site, declared)?;
    let frame = values_frame(alloc, vars)?;
    Ok(Opened { mark, frame })
}

// A choice of one gate, where those among which it is chosen are in scope.
fn gate_layer(gate: Gate, among: Option<Vec<Gate>>) -> Option<Layer>
    ensures { option_map maker_of result ≡ option_map (frames.gate_layer gate.0) (option_map (λ v. map gate_number v.items) among) }
{
    match among {
        None => None,
        Some(among) => Some(Layer::Gates(gate, among)),
    }
}

// Puts a gate into scope that stands for any of some gates.
fn put_choice<'a>(
    alloc: Global,
    site: &mut Site<'a>,
    choice: &'a GateChoice,
    refusals: &mut Vec<Refusal>,
) -> Result<Option<Layer>, Memory>
    ensures layer { IfOk result (λ layer. option_map maker_of layer
        ≡ option_map (frames.gate_layer (next_gate site.old)) (gate_numbers site.old choice.now.gates.gates.items)) }
    ensures site { OnOk result (site.new ≡ with_gates site.old (choice.now.gate ∷ [])) }
    ensures refusals { OnOk result (refusals.new.items
        ≡ refusals.old.items ++ unknown_gates site.old choice.now.gates.gates.items) }
{
    add_unknown_gates(alloc, site, &choice.gates.gates, refusals)?;
    let gate = Gate(site.next_gate());
    let among = gates_named(alloc, site, &choice.gates.gates)?;
    site.put_gate(&choice.gate)?;
    Ok(gate_layer(gate, among))
}

// Puts gates into scope, each of which stands for any of some gates. A later one may stand for an earlier one.
#[tactic(auto, using(crate::proofs::Choices::all_opened, crate::proofs::Choices::gates_put))]
fn put_choices<'a>(
    alloc: Global,
    site: &mut Site<'a>,
    choices: &'a [GateChoice],
    refusals: &mut Vec<Refusal>,
) -> Result<Option<Vec<Layer>>, Memory>
    ensures layers { IfOk result (λ all. Adds (OpensChoices site.old choices.now site.new []
        (layers_if (option_map (map maker_of) (option_map (λ v. v.items) all)))) refusals.old.items refusals.new.items) }
    ensures site { OnOk result (site.new ≡ with_gates site.old (map (λ c. c.gate) choices.now)) }
{
    let mut all = Some(Vec::new(alloc));
    for choice in choices {
        let layer = put_choice(alloc, site, choice, refusals)?;
        all = with_one(all, layer)?;
    }
    Ok(all)
}

// A choice of gates.
fn open_gates<'a>(
    alloc: Global,
    site: &mut Site<'a>,
    choices: &'a [GateChoice],
    out: &mut Output,
) -> Result<Opened, Memory>
    ensures { IfOk result (λ o. Opens site.old (chooses_gates choices.now) (output_of out.old) (output_of out.new) site.new o) }
{
    let mark = Mark::of(site, out);
    add_chosen_twice(alloc, choices, &mut out.refusals)?;
    let all = put_choices(alloc, site, choices, &mut out.refusals)?;
    let frame = Frame::layers_if(all);
    Ok(Opened { mark, frame })
}

// Gates that can't be seen.
fn open_hide<'a>(
    alloc: Global,
    site: &mut Site<'a>,
    gates: &'a [Token],
    out: &mut Output,
) -> Result<Opened, Memory>
    ensures { IfOk result (λ o. Opens site.old (hides gates.now) (output_of out.old) (output_of out.new) site.new o) }
{
    let mark = Mark::of(site, out);
    add_gates_twice(alloc, gates, &mut out.refusals)?;
    let numbers = numbers_from(alloc, site.next_gate(), gates.len())?;
    site.put_gates(gates)?;
    let frame = Frame::one(alloc, Layer::Hide(numbers))?;
    Ok(Opened { mark, frame })
}

// Copies from a gate to others, where those, and the gates at which the copies synchronise, are in scope.
fn copies_frame(
    alloc: Global,
    site: &Site<'_>,
    among: &[Token],
    operator: &Operator,
) -> Result<Frame, Memory>
    ensures { IfOk result (λ frame. frame_of frame
        ≡ copies_if (next_gate site.now) (readings.synchronised site.now operator.now) (gate_numbers site.now among.now)) }
{
    let gates = synchronised(alloc, site, operator)?;
    let among = gates_named(alloc, site, among)?;
    match (gates, among) {
        (Some(gates), Some(among)) => Ok(Frame::Copies {
            gate: Gate(site.next_gate()),
            gates,
            among,
        }),
        _ => Ok(Frame::Hindered),
    }
}

// Copies of a part at several gates.
fn open_copies<'a>(
    alloc: Global,
    site: &mut Site<'a>,
    gate: &'a Token,
    among: &[Token],
    operator: &Operator,
    out: &mut Output,
) -> Result<Opened, Memory>
    ensures { IfOk result (λ o. Opens site.old (copies gate.now among.now operator.now) (output_of out.old) (output_of out.new)
        site.new o) }
{
    let mark = Mark::of(site, out);
    add_unknown_gates(alloc, site, among, &mut out.refusals)?;
    add_unknown_gates(alloc, site, gates_of(operator), &mut out.refusals)?;
    let frame = copies_frame(alloc, site, among, operator)?;
    site.put_gate(gate)?;
    Ok(Opened { mark, frame })
}

/// A construct over one part: what is read of it before the part.
#[inline(never)]
pub fn open<'a>(
    alloc: Global,
    site: &mut Site<'a>,
    over: Over<'a>,
    out: &mut Output,
) -> Result<Opened, Memory>
    ensures { IfOk result (λ o. Opens site.old (whole_of over.entry) (output_of out.old) (output_of out.new) site.new o) }
{
    match over {
        Over::Inner => open_inner(alloc, site, out),
        Over::Act {
            gate,
            offers,
            predicate,
        } => open_action(alloc, site, gate, offers, predicate, out),
        Over::Guard(condition) => open_guard(alloc, site, condition, out),
        Over::Let(bindings) => open_let(alloc, site, bindings, out),
        Over::Values(declarations) => open_values(alloc, site, declarations, out),
        Over::Gates(choices) => open_gates(alloc, site, choices, out),
        Over::Hide(gates) => open_hide(alloc, site, gates, out),
        Over::Par {
            gate,
            gates,
            operator,
        } => open_copies(alloc, site, gate, gates, operator, out),
    }
}

// What stands behind two parts side by side.
fn parallel_joining(gates: Option<GateSet>) -> Option<Joining>
    ensures { option_map joining_of result ≡ option_map in_parallel (option_map synchronised_of gates) }
{
    match gates {
        None => None,
        Some(gates) => Some(Joining::Parallel(gates)),
    }
}

/// What stands behind two parts side by side, where the gates at which they synchronise are in scope.
#[inline(never)]
pub fn open_parallel(
    alloc: Global,
    site: &Site<'_>,
    operator: &Operator,
    out: &mut Output,
) -> Result<Option<Joining>, Memory>
    ensures joining { IfOk result (λ j. option_map joining_of j
        ≡ option_map in_parallel (readings.synchronised site.now operator.now)) }
    ensures code { OnOk result ((output_of out.new).code ≡ (output_of out.old).code) }
    ensures refusals { OnOk result ((output_of out.new).refusals
        ≡ (output_of out.old).refusals ++ unknown_gates site.now (readings.gates_of operator.now)) }
{
    add_unknown_gates(alloc, site, gates_of(operator), &mut out.refusals)?;
    let gates = synchronised(alloc, site, operator)?;
    Ok(parallel_joining(gates))
}

// What stands behind the two parts of an enabling.
fn enable_joining(vars: Option<Vec<(u32, Sort)>>) -> Option<Joining>
    ensures { option_map joining_of result ≡ option_map in_enabling (option_map (λ vars. map variable_of vars.items) vars) }
{
    match vars {
        None => None,
        Some(vars) => Some(Joining::Enable(vars)),
    }
}

/// The variables that the right part of an enabling sees.
#[inline(never)]
pub fn open_right(
    alloc: Global,
    site: &mut Site<'_>,
    declared: &[Declaration],
    out: &mut Output,
) -> Result<OpenedRight, Memory>
    ensures { IfOk result (λ o. OpensRight site.old declared.now (output_of out.old) (output_of out.new) site.new o) }
{
    let mark = Mark::of(site, out);
    add_declaration_refusals(alloc, site, declared, &mut out.refusals)?;
    let vars = put_declared(alloc, site, declared)?;
    Ok(OpenedRight {
        mark,
        joining: enable_joining(vars),
    })
}
