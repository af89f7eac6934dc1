// Where reading stands.

ghost use Rattle.static_readings.specs.Views.{output_of};
ghost use Rattle.static_compiler.specs.Parts.{IsMark};

use static_readings::output::Output;
use static_readings::site::Site;

/// How many nodes are put out, and how many variables and gates are in scope.
#[derive(Clone, Copy, Debug, PartialEq, Eq)]
pub struct Mark {
    /// The number of nodes.
    pub from: usize,
    /// The number of variables.
    pub variables: usize,
    /// The number of gates.
    pub gates: usize,
}

impl Mark {
    /// Where reading stands now. It takes no memory.
    pub fn of(site: &Site<'_>, out: &Output) -> Mark
        ensures { IsMark site.now (output_of out.now) result }
    {
        Mark {
            from: out.code.len(),
            variables: site.variables(),
            gates: site.gates(),
        }
    }
}
