// Values of expressions, of bindings and of arguments, with values for variables.

ghost use Rattle.std.specs.Prelude.{◌≡◌, [], ◌∷◌, ◌++◌, IfOk, IfErr, IfSome, IfNone, true, false, map};
ghost use Rattle.spec_core.specs.Code.{binding_of, variable_of};
ghost use Rattle.spec_core.specs.Executable.{IsExecutable};
ghost use Rattle.spec_core.specs.Lists.{OneOf};
ghost use Rattle.spec_core.specs.Terms.{TermTree, instance, term_of};
ghost use Rattle.spec_core.specs.Values.{HasValue};
ghost use Rattle.rule_model.specs.Fields.{BindingsHave, ArgumentsHave};
ghost use Rattle.rule_model.specs.Substitution.{Assignment};
ghost use Rattle.rule_origins.specs.Values.{assignment};
ghost use Rattle.node_values.specs.Found.{Spelled};
ghost use Rattle.node_values.specs.Stops.{Stops, Never};
ghost use Rattle.symbolic_reach.specs.Asking.{binding_asks, term_asks};
ghost use Rattle.node_values.specs.Prepared.{program_in};

use node_values::Prepared;
use node_values::stop::Stop;
use node_values::value::operations_of;
use rule_origins::values::scope;
use spec_core::items::Sort;
use spec_core::memory::Memory;
use spec_core::term::Term;
use spec_core::value::Value;
use std::alloc::Global;

/// The value of an expression with values for its variables, if it has one.
pub fn told(
    alloc: Global,
    prepared: &Prepared,
    values: &[(u32, Value)],
    term: &Term,
    budget: u64,
) -> Result<Option<Value>, Stop>
    requires executable { IsExecutable (program_in prepared.now).theory }
    ensures some { IfOk result (λ o. IfSome o (λ v. Spelled (program_in prepared.now).theory
        (instance (assignment (program_in prepared.now).theory values.now) (term_of term.now)) v)) }
    ensures none { IfOk result (λ o. IfNone o ((n : TermTree) → HasValue (program_in prepared.now).theory
        (instance (assignment (program_in prepared.now).theory values.now) (term_of term.now)) n → ⊥)) }
    ensures fault { IfErr result (Stops (program_in prepared.now).theory budget
        (term_asks (assignment (program_in prepared.now).theory values.now) (term_of term.now)) Never) }
{
    let terms = scope(alloc, &prepared.checked.algebra, values)?;
    let ground = terms.put_in_term(alloc, term)?;
    operations_of(alloc, prepared, ground, budget)
}

/// One more value at the end.
pub fn with_last(
    values: Vec<(u32, Value)>,
    x: u32,
    value: Value,
) -> Result<Vec<(u32, Value)>, Memory>
    ensures { IfOk result (λ all. all.items ≡ values.items ++ (x, value) ∷ []) }
{
    let mut all = values;
    match all.push((x, value)) {
        Ok(()) => Ok(all),
        Err(_) => Err(Memory),
    }
}

/// The values with those of bindings, where these have values: the outer ones for their terms, and the inner ones before them.
pub fn bind(
    alloc: Global,
    prepared: &Prepared,
    outer: &[(u32, Value)],
    inner: Vec<(u32, Value)>,
    bindings: &[(u32, Sort, Term)],
    budget: u64,
) -> Result<Option<Vec<(u32, Value)>>, Stop>
    requires executable { IsExecutable (program_in prepared.now).theory }
    ensures some { IfOk result (λ o. IfSome o (λ s. BindingsHave (program_in prepared.now).theory
        (assignment (program_in prepared.now).theory outer.now) (assignment (program_in prepared.now).theory inner.items)
        (map binding_of bindings.now) (assignment (program_in prepared.now).theory s.items))) }
    ensures none { IfOk result (λ o. IfNone o ((u : Assignment) → BindingsHave (program_in prepared.now).theory
        (assignment (program_in prepared.now).theory outer.now) (assignment (program_in prepared.now).theory inner.items)
        (map binding_of bindings.now) u → ⊥)) }
    ensures fault { IfErr result (Stops (program_in prepared.now).theory budget (λ x. OneOf (λ b.
        binding_asks (assignment (program_in prepared.now).theory outer.now) b x) (map binding_of bindings.now)) Never) }
{
    match bindings {
        [] => Ok(Some(inner)),
        [first, rest @ ..] => {
            let (x, _, term) = first;
            match told(alloc, prepared, outer, term, budget)? {
                None => Ok(None),
                Some(value) => {
                    let more = with_last(inner, *x, value)?;
                    bind(alloc, prepared, outer, more, rest, budget)
                }
            }
        }
    }
}

/// The values with those of a call's terms for the variables of its process, where they have values and are as many.
pub fn bind_arguments(
    alloc: Global,
    prepared: &Prepared,
    outer: &[(u32, Value)],
    inner: Vec<(u32, Value)>,
    vars: &[(u32, Sort)],
    terms: &[Term],
    budget: u64,
) -> Result<Option<Vec<(u32, Value)>>, Stop>
    requires executable { IsExecutable (program_in prepared.now).theory }
    ensures some { IfOk result (λ o. IfSome o (λ s. ArgumentsHave (program_in prepared.now).theory
        (assignment (program_in prepared.now).theory outer.now) (assignment (program_in prepared.now).theory inner.items)
        (map variable_of vars.now) (map term_of terms.now) (assignment (program_in prepared.now).theory s.items))) }
    ensures none { IfOk result (λ o. IfNone o ((u : Assignment) → ArgumentsHave (program_in prepared.now).theory
        (assignment (program_in prepared.now).theory outer.now) (assignment (program_in prepared.now).theory inner.items)
        (map variable_of vars.now) (map term_of terms.now) u → ⊥)) }
    ensures fault { IfErr result (Stops (program_in prepared.now).theory budget (λ x. OneOf (λ t.
        term_asks (assignment (program_in prepared.now).theory outer.now) t x) (map term_of terms.now)) Never) }
{
    match vars {
        [] => match terms {
            [] => Ok(Some(inner)),
            [_, ..] => Ok(None),
        },
        [first, rest @ ..] => match terms {
            [] => Ok(None),
            [term, others @ ..] => match told(alloc, prepared, outer, term, budget)? {
                None => Ok(None),
                Some(value) => {
                    let (x, _) = first;
                    let more = with_last(inner, *x, value)?;
                    bind_arguments(alloc, prepared, outer, more, rest, others, budget)
                }
            },
        },
    }
}
