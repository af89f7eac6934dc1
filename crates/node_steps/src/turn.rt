// What is done and left, and where a part of a behaviour stands.

use node_trees::rest::{Deed, Rest};
use spec_core::code::GateSet;
use spec_core::items::{Gate, Sort};
use spec_core::term::Term;
use spec_core::value::Value;

/// What is done, and what is left then.
#[derive(Drop)]
pub struct Turn {
    pub action: Deed,
    pub rest: Rest,
}

/// A behaviour of the code.
#[derive(Drop)]
pub enum Site {
    /// The behaviour at this number.
    At(u32),
    /// The behaviour at this number under a relabelling, as a call and a choice of a gate have it.
    Renamed(Vec<(Gate, Gate)>, u32),
    /// A call of the process with this number, with these gates and arguments, as a call under a relabelling has them.
    Called(u32, Vec<Gate>, Vec<Term>),
}

/// What stands round a part that acts. Numbers are of the code.
#[derive(Drop)]
pub enum Frame {
    /// The whole does what the part does, and becomes what it becomes.
    Same,
    /// A relabelling.
    Renamed(Vec<(Gate, Gate)>),
    /// A hiding, where the action isn't hidden.
    Hidden(Vec<Gate>),
    /// A hiding, where the action is hidden.
    Inside(Vec<Gate>),
    /// A parallel composition with its right side.
    BesideRight(GateSet, u32),
    /// A parallel composition with its left side.
    BesideLeft(GateSet, u32),
    /// An enabling whose left side goes on, with its right side.
    Enabling(Vec<(u32, Sort)>, u32),
    /// An enabling whose left side terminates, with its right side.
    Handing(Vec<(u32, Sort)>, u32),
    /// A disabling whose left side goes on, with its right side.
    Disabling(u32),
}

/// A part that acts, the values for its variables, where they aren't those of the whole, and what stands round it.
#[derive(Drop)]
pub struct Entered {
    pub site: Site,
    pub values: Option<Vec<(u32, Value)>>,
    pub frame: Frame,
}
