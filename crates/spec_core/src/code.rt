// Checked specifications: data, and behaviour as numbered nodes.

ghost use Rattle.std.specs.Prelude.{◌≡◌, IfOk, map};
ghost use Rattle.spec_core.specs.Code.{action, guarded, call, process, variable_of, binding_of, exit_value_of, action_field_of};
ghost use Rattle.spec_core.specs.Code.{synchronised_of, guard_of, node_of, program_of};
ghost use Rattle.spec_core.specs.Numbers.{gate_number};
ghost use Rattle.spec_core.specs.Terms.{term_of};
ghost use Rattle.spec_core.specs.Theories.{premise};

use crate::equation::DataSpec;
use crate::items::{Gate, Sort};
use crate::memory::Memory;
use crate::name::Name;
use crate::names::copy_names;
use crate::term::{Term, copy_terms};
use std::alloc::Global;

/// A node's number in the code of a checked specification, from 0.
#[derive(Clone, Copy, Debug, PartialEq, Eq)]
pub struct Part(pub u32);

/// A field of `exit`.
#[derive(Drop)]
pub enum ExitField {
    /// The value of a term.
    Give(Term),
    /// Any value of a sort.
    Any(Sort),
}

/// A field of an action.
#[derive(Drop)]
pub enum ActField {
    /// `!E`: the value of a term.
    Give(Term),
    /// `?x:S`: any value of a sort, which the variable of this number then has.
    Take(u32, Sort),
}

/// The gates at which a parallel composition synchronises.
#[derive(Drop)]
pub enum GateSet {
    /// `||`: every gate.
    Every,
    /// `|[..]|` and `|||`: these gates.
    These(Vec<Gate>),
}

/// A construct of behaviour over parts, which are nodes with lower numbers. A `u32` beside a `Sort` is a variable's number; a
/// `Gate` at or above the number of the heading's gates is one that the text declares further in.
#[derive(Drop)]
pub enum CodeNode {
    Stop,
    Exit(Vec<ExitField>),
    /// `i; B`
    Inner(Part),
    /// `g d1 d2 [t = u]; B`
    Act {
        gate: Gate,
        fields: Vec<ActField>,
        guard: Option<(Term, Term)>,
        rest: Part,
    },
    /// `B1 [] B2`
    Choice(Part, Part),
    /// `[t = u] -> B`
    Guard(Term, Term, Part),
    /// `let x:S = E in B`
    Let(Vec<(u32, Sort, Term)>, Part),
    /// `choice x:S [] B`
    Values(u32, Sort, Part),
    /// `choice g in [a1, a2] [] B`
    Gates(Gate, Vec<Gate>, Part),
    Par(GateSet, Part, Part),
    /// `hide G in B`
    Hide(Vec<Gate>, Part),
    /// `B1 >> accept xs in B2`
    Enable(Part, Vec<(u32, Sort)>, Part),
    /// `B1 [> B2`
    Disable(Part, Part),
    /// `P[a1, a2](E1, E2)`, where `process` is the number of a `Process` node.
    Call {
        process: u32,
        gates: Vec<Gate>,
        values: Vec<Term>,
    },
    /// The part with its gates relabelled, each first gate of a pair to the second: the copies of `par g in [a1, a2] op B`.
    Relabel(Vec<(Gate, Gate)>, Part),
    /// `process P[g1, g2](x1:S1, x2:S2) := B`
    Process {
        gates: Vec<Gate>,
        vars: Vec<(u32, Sort)>,
        body: Part,
    },
}

/// A specification that the front end has accepted.
#[derive(Drop)]
pub struct Checked {
    /// The data types.
    pub algebra: DataSpec,
    /// The behaviour's constructs, by their numbers.
    pub code: Vec<CodeNode>,
    /// The node of the specification's behaviour.
    pub start: u32,
    /// The names of the heading's gates.
    pub gates: Vec<Name>,
    /// How many processes the text defines.
    pub processes: u32,
}

impl ExitField {
    /// An equal field.
    pub fn copy(&self, alloc: Global) -> Result<ExitField, Memory>
        ensures equal { IfOk result (λ field. exit_value_of field ≡ exit_value_of self.now) }
    {
        match self {
            ExitField::Give(term) => Ok(ExitField::Give(term.copy(alloc)?)),
            ExitField::Any(sort) => Ok(ExitField::Any(*sort)),
        }
    }
}

impl ActField {
    /// An equal field.
    pub fn copy(&self, alloc: Global) -> Result<ActField, Memory>
        ensures equal { IfOk result (λ field. action_field_of field ≡ action_field_of self.now) }
    {
        match self {
            ActField::Give(term) => Ok(ActField::Give(term.copy(alloc)?)),
            ActField::Take(variable, sort) => Ok(ActField::Take(*variable, *sort)),
        }
    }
}

impl GateSet {
    /// An equal set.
    pub fn copy(&self, alloc: Global) -> Result<GateSet, Memory>
        ensures equal { IfOk result (λ gates. synchronised_of gates ≡ synchronised_of self.now) }
    {
        match self {
            GateSet::Every => Ok(GateSet::Every),
            GateSet::These(gates) => Ok(GateSet::These(Vec::from_slice(alloc, gates)?)),
        }
    }
}

impl CodeNode {
    /// An equal construct.
    pub fn copy(&self, alloc: Global) -> Result<CodeNode, Memory>
        ensures equal { IfOk result (λ node. node_of node ≡ node_of self.now) }
    {
        match self {
            CodeNode::Stop => Ok(CodeNode::Stop),
            CodeNode::Exit(fields) => Ok(CodeNode::Exit(copy_exit_fields(alloc, fields)?)),
            CodeNode::Inner(part) => Ok(CodeNode::Inner(*part)),
            CodeNode::Act {
                gate,
                fields,
                guard,
                rest,
            } => copy_action(alloc, *gate, fields, guard, *rest),
            CodeNode::Choice(left, right) => Ok(CodeNode::Choice(*left, *right)),
            CodeNode::Guard(left, right, part) => copy_guarded(alloc, left, right, *part),
            CodeNode::Let(bindings, part) => Ok(CodeNode::Let(
                copy_bindings(alloc, bindings)?,
                *part,
            )),
            CodeNode::Values(variable, sort, part) => Ok(CodeNode::Values(*variable, *sort, *part)),
            CodeNode::Gates(gate, gates, part) => Ok(CodeNode::Gates(
                *gate,
                Vec::from_slice(alloc, gates)?,
                *part,
            )),
            CodeNode::Par(gates, left, right) => Ok(CodeNode::Par(
                gates.copy(alloc)?,
                *left,
                *right,
            )),
            CodeNode::Hide(gates, part) => Ok(CodeNode::Hide(
                Vec::from_slice(alloc, gates)?,
                *part,
            )),
            CodeNode::Enable(left, vars, right) => Ok(CodeNode::Enable(
                *left,
                Vec::from_slice(alloc, vars)?,
                *right,
            )),
            CodeNode::Disable(left, right) => Ok(CodeNode::Disable(*left, *right)),
            CodeNode::Call {
                process,
                gates,
                values,
            } => copy_call(alloc, *process, gates, values),
            CodeNode::Relabel(pairs, part) => Ok(CodeNode::Relabel(
                Vec::from_slice(alloc, pairs)?,
                *part,
            )),
            CodeNode::Process { gates, vars, body } => copy_process(alloc, gates, vars, *body),
        }
    }
}

impl Checked {
    /// A specification that is equal in every part.
    pub fn copy(&self, alloc: Global) -> Result<Checked, Memory>
        ensures equal { IfOk result (λ checked. program_of checked ≡ program_of self.now) }
    {
        Ok(Checked {
            algebra: self.algebra.copy(alloc)?,
            code: copy_code(alloc, &self.code)?,
            start: self.start,
            gates: copy_names(alloc, &self.gates)?,
            processes: self.processes,
        })
    }
}

// An equal action prefix.
fn copy_action(
    alloc: Global,
    gate: Gate,
    fields: &[ActField],
    guard: &Option<(Term, Term)>,
    rest: Part,
) -> Result<CodeNode, Memory>
    ensures { IfOk result (λ node. node_of node ≡ action gate.0 (map action_field_of fields.now) (guard_of guard.now) rest.0) }
{
    Ok(CodeNode::Act {
        gate,
        fields: copy_act_fields(alloc, fields)?,
        guard: copy_guard(alloc, guard)?,
        rest,
    })
}

// An equal guarded behaviour.
fn copy_guarded(alloc: Global, left: &Term, right: &Term, part: Part) -> Result<CodeNode, Memory>
    ensures { IfOk result (λ node. node_of node ≡ guarded (premise (term_of left.now) (term_of right.now)) part.0) }
{
    Ok(CodeNode::Guard(left.copy(alloc)?, right.copy(alloc)?, part))
}

// An equal call.
fn copy_call(
    alloc: Global,
    process: u32,
    gates: &[Gate],
    values: &[Term],
) -> Result<CodeNode, Memory>
    ensures { IfOk result (λ node. node_of node ≡ call process (map gate_number gates.now) (map term_of values.now)) }
{
    Ok(CodeNode::Call {
        process,
        gates: Vec::from_slice(alloc, gates)?,
        values: copy_terms(alloc, values)?,
    })
}

// An equal process definition.
fn copy_process(
    alloc: Global,
    gates: &[Gate],
    vars: &[(u32, Sort)],
    body: Part,
) -> Result<CodeNode, Memory>
    ensures { IfOk result (λ node. node_of node ≡ process (map gate_number gates.now) (map variable_of vars.now) body.0) }
{
    Ok(CodeNode::Process {
        gates: Vec::from_slice(alloc, gates)?,
        vars: Vec::from_slice(alloc, vars)?,
        body,
    })
}

// An equal guard.
fn copy_guard(alloc: Global, guard: &Option<(Term, Term)>) -> Result<Option<(Term, Term)>, Memory>
    ensures { IfOk result (λ copied. guard_of copied ≡ guard_of guard.now) }
{
    match guard {
        None => Ok(None),
        Some(sides) => Ok(Some((sides.0.copy(alloc)?, sides.1.copy(alloc)?))),
    }
}

// Equal fields of an exit.
fn copy_exit_fields(alloc: Global, fields: &[ExitField]) -> Result<Vec<ExitField>, Memory>
    ensures { IfOk result (λ all. map exit_value_of all.items ≡ map exit_value_of fields.now) }
{
    let mut all = Vec::new(alloc);
    for field in fields {
        all.push(field.copy(alloc)?)?;
    }
    Ok(all)
}

// Equal fields of an action.
fn copy_act_fields(alloc: Global, fields: &[ActField]) -> Result<Vec<ActField>, Memory>
    ensures { IfOk result (λ all. map action_field_of all.items ≡ map action_field_of fields.now) }
{
    let mut all = Vec::new(alloc);
    for field in fields {
        all.push(field.copy(alloc)?)?;
    }
    Ok(all)
}

// Equal bindings.
fn copy_bindings(
    alloc: Global,
    bindings: &[(u32, Sort, Term)],
) -> Result<Vec<(u32, Sort, Term)>, Memory>
    ensures { IfOk result (λ all. map binding_of all.items ≡ map binding_of bindings.now) }
{
    let mut all = Vec::new(alloc);
    for binding in bindings {
        all.push((binding.0, binding.1, binding.2.copy(alloc)?))?;
    }
    Ok(all)
}

// Equal constructs, in the same order.
fn copy_code(alloc: Global, code: &[CodeNode]) -> Result<Vec<CodeNode>, Memory>
    ensures { IfOk result (λ all. map node_of all.items ≡ map node_of code.now) }
{
    let mut all = Vec::new(alloc);
    for node in code {
        all.push(node.copy(alloc)?)?;
    }
    Ok(all)
}
