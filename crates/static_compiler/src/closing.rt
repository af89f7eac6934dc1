// What is put around a part that is read.

ghost use Rattle.std.specs.Prelude.{◌≡◌, ◌++◌, ◌∷◌, [], List, Option, IfOk, OnOk, map, length, take, option_map};
ghost use Rattle.spec_core.specs.Code.{Node, stop, synchronised_of};
ghost use Rattle.spec_core.specs.Functionality as core;
ghost use Rattle.spec_core.specs.Numbers.{gate_number};
ghost use Rattle.static_readings.specs.Joins.{Read};
ghost use Rattle.static_readings.specs.Views.{functionality_of, output_of};
ghost use Rattle.static_compiler.specs.Frames.{under_all, hindered, layers, copies_from, framed};
ghost use Rattle.static_compiler.specs.Parts.{Stands};
ghost use Rattle.static_compiler.specs.Views.{maker_of, frame_of};

use crate::copies::put_copies;
use crate::frame::Frame;
use crate::layer::Layer;
use crate::opened::Opened;
use spec_core::code::{CodeNode, GateSet};
use spec_core::items::Gate;
use spec_core::memory::Memory;
use static_readings::functionality::Functionality;
use static_readings::output::Output;
use std::alloc::Global;

// Puts a node over what is put out.
#[tactic(auto, using(crate::proofs::Closed::layer_put))]
fn put_layer(layer: Layer, out: &mut Output) -> Result<(), Memory>
    ensures code { OnOk result ((base : List Node) (r : Read) → (output_of out.old).code ≡ base ++ r.nodes →
        (output_of out.new).code ≡ base ++ (under_all (length base) (maker_of layer ∷ []) r).nodes) }
    ensures refusals { OnOk result ((output_of out.new).refusals ≡ (output_of out.old).refusals) }
{
    let part = out.last()?;
    out.push(layer.over(part))
}

// Puts nodes over what is put out, the last one first.
fn put_layers(mut all: Vec<Layer>, out: &mut Output) -> Result<(), Memory>
    ensures code { OnOk result ((base : List Node) (r : Read) → (output_of out.old).code ≡ base ++ r.nodes →
        (output_of out.new).code ≡ base ++ (under_all (length base) (map maker_of all.items) r).nodes) }
    ensures refusals { OnOk result ((output_of out.new).refusals ≡ (output_of out.old).refusals) }
{
    while let Some(layer) = all.pop() {
        put_layer(layer, out)?;
    }
    Ok(())
}

// Leaves nothing of a part that is hindered.
#[tactic(auto, using(crate::proofs::Closed::hindered_closes))]
fn close_hindered(from: usize, out: &mut Output) -> Option<Functionality>
    ensures stands { (base : List Node) (x : Option Read) (ends : Option core.Functionality) → from ≡ length base →
        Stands base x (output_of out.old).code ends →
        Stands base (framed from hindered x) (output_of out.new).code (option_map functionality_of result) }
    ensures refusals { (output_of out.new).refusals ≡ (output_of out.old).refusals }
{
    out.truncate(from);
    None
}

// Puts nodes over a part, if it is read.
#[tactic(auto, using(crate::proofs::Closed::layers_unread, crate::proofs::Closed::layers_read))]
fn close_layers(
    from: usize,
    all: Vec<Layer>,
    found: Option<Functionality>,
    out: &mut Output,
) -> Result<Option<Functionality>, Memory>
    ensures stands { IfOk result (λ ends. (base : List Node) (x : Option Read) → from ≡ length base →
        Stands base x (output_of out.old).code (option_map functionality_of found) →
        Stands base (framed from (layers (map maker_of all.items)) x) (output_of out.new).code (option_map functionality_of ends)) }
    ensures refusals { OnOk result ((output_of out.new).refusals ≡ (output_of out.old).refusals) }
{
    match found {
        None => Ok(None),
        Some(ends) => {
            put_layers(all, out)?;
            Ok(Some(ends))
        }
    }
}

// Leaves `stop` in place of a part.
fn put_stop(from: usize, out: &mut Output) -> Result<(), Memory>
    ensures code { OnOk result ((output_of out.new).code ≡ take from (output_of out.old).code ++ stop ∷ []) }
    ensures refusals { OnOk result ((output_of out.new).refusals ≡ (output_of out.old).refusals) }
{
    out.truncate(from);
    out.push(CodeNode::Stop)
}

// Puts copies of a part behind it, if it is read.
#[tactic(auto, using(crate::proofs::Closed::copies_unread, crate::proofs::Closed::no_copies, crate::proofs::Closed::some_copies))]
fn close_copies(
    alloc: Global,
    from: usize,
    gate: Gate,
    gates: GateSet,
    among: Vec<Gate>,
    found: Option<Functionality>,
    out: &mut Output,
) -> Result<Option<Functionality>, Memory>
    ensures stands { IfOk result (λ ends. (base : List Node) (x : Option Read) → from ≡ length base →
        Stands base x (output_of out.old).code (option_map functionality_of found) →
        Stands base (framed from (copies_from gate.0 (synchronised_of gates) (map gate_number among.items)) x) (output_of out.new).code
        (option_map functionality_of ends)) }
    ensures refusals { OnOk result ((output_of out.new).refusals ≡ (output_of out.old).refusals) }
{
    match found {
        None => Ok(None),
        Some(ends) => {
            if among.is_empty() {
                put_stop(from, out)?;
                return Ok(Some(Functionality::NoExit));
            }
            let part = out.last()?;
            put_copies(alloc, &gates, part, gate, among, out)?;
            Ok(Some(ends))
        }
    }
}

/// Puts what stands around a part behind its nodes, if the part is read.
#[inline(never)]
pub fn close(
    alloc: Global,
    opened: Opened,
    found: Option<Functionality>,
    out: &mut Output,
) -> Result<Option<Functionality>, Memory>
    ensures stands { IfOk result (λ ends. (base : List Node) (x : Option Read) → opened.mark.from ≡ length base →
        Stands base x (output_of out.old).code (option_map functionality_of found) →
        Stands base (framed opened.mark.from (frame_of opened.frame) x) (output_of out.new).code (option_map functionality_of ends)) }
    ensures refusals { OnOk result ((output_of out.new).refusals ≡ (output_of out.old).refusals) }
{
    let Opened { mark, frame } = opened;
    match frame {
        Frame::Hindered => Ok(close_hindered(mark.from, out)),
        Frame::Layers(all) => close_layers(mark.from, all, found, out),
        Frame::Copies { gate, gates, among } => {
            close_copies(alloc, mark.from, gate, gates, among, found, out)
        }
    }
}
