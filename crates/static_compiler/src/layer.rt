// Nodes over one part.

ghost use Rattle.std.specs.Prelude.{◌≡◌};
ghost use Rattle.spec_core.specs.Code.{node_of};
ghost use Rattle.static_compiler.specs.Views.{maker_of};

use spec_core::code::{ActField, CodeNode, Part};
use spec_core::items::{Gate, Sort};
use spec_core::term::Term;

/// A node over one part, without the part's number.
#[derive(Drop)]
pub enum Layer {
    Inner,
    Act {
        gate: Gate,
        fields: Vec<ActField>,
        guard: Option<(Term, Term)>,
    },
    Guard(Term, Term),
    Let(Vec<(u32, Sort, Term)>),
    Values(u32, Sort),
    Gates(Gate, Vec<Gate>),
    Hide(Vec<Gate>),
}

impl Layer {
    /// The node over the part of this number. It takes no memory.
    pub fn over(self, part: Part) -> CodeNode
        ensures { node_of result ≡ maker_of self part.0 }
    {
        match self {
            Layer::Inner => CodeNode::Inner(part),
            Layer::Act {
                gate,
                fields,
                guard,
            } => CodeNode::Act {
                gate,
                fields,
                guard,
                rest: part,
            },
            Layer::Guard(left, right) => CodeNode::Guard(left, right, part),
            Layer::Let(bindings) => CodeNode::Let(bindings, part),
            Layer::Values(variable, sort) => CodeNode::Values(variable, sort, part),
            Layer::Gates(gate, among) => CodeNode::Gates(gate, among, part),
            Layer::Hide(gates) => CodeNode::Hide(gates, part),
        }
    }
}
