// What stands around a part.

ghost use Rattle.std.specs.Prelude.{◌≡◌, ◌∷◌, [], IfOk, map, option_map};
ghost use Rattle.static_compiler.specs.Frames.{layers, layers_if};
ghost use Rattle.static_compiler.specs.Views.{maker_of, frame_of};

use crate::layer::Layer;
use spec_core::code::GateSet;
use spec_core::items::Gate;
use spec_core::memory::Memory;
use std::alloc::Global;

/// What stands around a part.
#[derive(Drop)]
pub enum Frame {
    /// Nothing, since something hinders it.
    Hindered,
    /// Nodes, the first outermost.
    Layers(Vec<Layer>),
    /// Copies of it from a gate to others, side by side.
    Copies {
        gate: Gate,
        gates: GateSet,
        among: Vec<Gate>,
    },
}

impl Frame {
    /// One node.
    pub fn one(alloc: Global, layer: Layer) -> Result<Frame, Memory>
        ensures { IfOk result (λ frame. frame_of frame ≡ layers (maker_of layer ∷ [])) }
    {
        let mut all = Vec::new(alloc);
        all.push(layer)?;
        Ok(Frame::Layers(all))
    }

    /// These nodes, where they are there. It takes no memory.
    pub fn layers_if(all: Option<Vec<Layer>>) -> Frame
        ensures { frame_of result ≡ layers_if (option_map (map maker_of) (option_map (λ v. v.items) all)) }
    {
        match all {
            None => Frame::Hindered,
            Some(all) => Frame::Layers(all),
        }
    }
}
