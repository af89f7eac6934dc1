// What is in scope.

ghost use Rattle.std.specs.Prelude.{◌≡◌, ◌<◌, ◌^◌, ◌+◌, ◌-◌, ◌++◌, [], ◌∷◌, Some, None, IfOk, OnOk, length, map, drop, option_map, vec_len};
ghost use Rattle.std.specs.Prelude.{if◌then◌else◌};
ghost use Rattle.std.specs.List.{find, list_any};
ghost use Rattle.lotos_ast.specs.declared.token.Token.{Token};
ghost use Rattle.lotos_ast.specs.ExpressionTrees.{expr_tree};
ghost use Rattle.sort_overloads.specs.Expressions.{expression};
ghost use Rattle.sort_overloads.specs.Indexes.{IsIndexOf};
ghost use Rattle.sort_overloads.specs.Judged.{Adds, typed_if_read};
ghost use Rattle.sort_overloads.specs.Listed.{is_same_name};
ghost use Rattle.sort_overloads.specs.Refused.{is_sort_known, unknowns, unknown_sort};
ghost use Rattle.sort_overloads.specs.Views.{context_of, declared_of};
ghost use Rattle.spec_core.specs.Code.{variable_of};
ghost use Rattle.spec_core.specs.Numbers.{sort_number};
ghost use Rattle.spec_core.specs.Theories.{operations_of};
ghost use Rattle.static_equations.specs.Equalities.{premise_if_read};
ghost use Rattle.static_equations.specs.Premisses.{IsPremissJudged};
ghost use Rattle.static_equations.specs.Variables.{sort_named};
ghost use Rattle.static_readings.specs.Declarations.{of_one_sort, numbered_from};
ghost use Rattle.static_readings.specs.Offers.{IsExpressionRead};
ghost use Rattle.static_readings.specs.Named.{has_small_name, one_behind_other};
ghost use Rattle.static_readings.specs.Sites as sites;
ghost use Rattle.static_readings.specs.Views.{heading_of};

use crate::heading::Heading;
use crate::named_processes::NamedProcesses;
use lotos_ast::expression::{Expr, Premiss};
use lotos_ast::refusal::Refusal;
use lotos_ast::token::Token;
use sort_overloads::judging::judge;
use sort_overloads::name_index::NameIndex;
use sort_overloads::resolution::TypedTerm;
use sort_overloads::scope::Scope;
use sort_overloads::unknowns::add_unknowns;
use sort_overloads::variables::Variable;
use spec_core::items::Sort;
use spec_core::memory::Memory;
use spec_core::term::Term;
use static_equations::condition::judge_premiss;
use static_equations::names::{has_sort, sort_named};
use static_equations::variables::add_unknown_sort;
use std::alloc::Global;
use std::marker::Model;

/// What is in scope where a construct stands.
#[derive(Drop)]
pub struct Site<'a> {
    /// Sorts, operations and variables.
    scope: Scope,
    /// The operations by name.
    index: NameIndex,
    /// The gates, of which a later one hides an earlier one of its name.
    gates: Vec<&'a Token>,
    /// The number of the first gate.
    first_gate: u32,
    /// The processes that can be called, of which an earlier one hides a later one.
    visible: Vec<&'a NamedProcesses<'a>>,
}

impl<'a> Model for Site<'a> {
    ghost use Rattle.std.specs.Prelude.{map, ◌<◌, ◌+◌, ◌-◌, ◌^◌, vec_len};
    ghost use Rattle.sort_overloads.specs.Indexes.{IsIndexOf};
    ghost use Rattle.sort_overloads.specs.Views.{context_of};
    ghost use Rattle.spec_core.specs.Theories.{operations_of};
    ghost use Rattle.static_readings.specs.Named.{one_behind_other};
    ghost use Rattle.static_readings.specs.Sites as sites;

    ghost Value = { sites.Site };

    ghost view = { λ s. record {
      context = context_of s.scope;
      gates = map (λ t. t.now.text) s.gates.items;
      first_gate = s.first_gate;
      processes = one_behind_other s.visible.items;
    } };

    ghost invariant = { λ s. (vec_len s.scope.signature.ops < 2 ^ 32) × (vec_len s.scope.signature.sorts < 2 ^ 32 - 1)
        × (s.first_gate + vec_len s.gates < 2 ^ 32)
        × IsIndexOf s.index (operations_of s.scope.signature) };
}

// The number, where the gate has the name, and else what was found before.
fn later_of(found: Option<u32>, number: u32, gate: &Token, name: &Token) -> Option<u32>
    ensures { result ≡ (if is_same_name gate.now.text name.now.text then Some number else found) }
{
    if gate.text.as_str().eq_ignore_ascii_case(name.text.as_str()) {
        Some(number)
    } else {
        found
    }
}

// The number of the last gate of this name, where the first has this number.
fn last_named(gates: &[&Token], first: u32, name: &Token) -> Option<u32>
    requires { first + length gates.now < 2 ^ 32 }
    ensures { result ≡ sites.last_named name.now.text None first (map (λ t. t.now.text) gates.now) }
{
    let mut found = None;
    for (i, gate) in gates.iter().enumerate() {
        found = later_of(found, first + i as u32, gate, name);
    }
    found
}

// The first of these processes of a name that is given in small letters.
fn process_named<'h>(visible: &[&'h NamedProcesses<'h>], name: &str) -> Option<&'h Heading>
    ensures { option_map (λ h. heading_of h.now) result ≡ find (has_small_name name.now) (one_behind_other visible.now) }
{
    match visible {
        [] => None,
        [first, others @ ..] => match first.first_of(name) {
            None => process_named(others, name),
            Some(heading) => Some(heading),
        },
    }
}

// The variables from this place on, as code has them.
#[tactic(auto, using(crate::proofs::Numbered::numbered_next, crate::proofs::Numbered::numbered_all))]
fn numbered(alloc: Global, variables: &[Variable], first: usize) -> Result<Vec<(u32, Sort)>, Memory>
    requires { length variables.now < 2 ^ 32 }
    ensures { IfOk result (λ all. map variable_of all.items ≡ numbered_from first (drop first (map declared_of variables.now))) }
{
    let mut all = Vec::new(alloc);
    for i in first..variables.len() {
        all.push((i as u32, variables[i].sort))?;
    }
    Ok(all)
}

impl<'a> Site<'a> {
    /// Where no gate is in scope, and no process. It takes no memory.
    pub fn new(alloc: Global, scope: Scope, index: NameIndex) -> Site<'a>
        requires few_operations { vec_len scope.signature.ops < 2 ^ 32 }
        requires few_sorts { vec_len scope.signature.sorts < 2 ^ 32 - 1 }
        requires index { IsIndexOf index (operations_of scope.signature) }
        ensures { result ≡ record { context = context_of scope; gates = []; first_gate = 0; processes = [] } }
    {
        Site {
            scope,
            index,
            gates: Vec::new(alloc),
            first_gate: 0,
            visible: Vec::new(alloc),
        }
    }

    /// Goes to where no variable and no gate is in scope: the next gate has this number, and these processes can be called. It takes no
    /// memory.
    pub fn go(&mut self, first_gate: u32, visible: Vec<&'a NamedProcesses<'a>>)
        ensures { self.new ≡ sites.bare self.old.context first_gate (one_behind_other visible.entry.items) }
    {
        self.scope.vars.truncate(0);
        self.gates.truncate(0);
        self.first_gate = first_gate;
        self.visible = visible;
    }

    /// The number of the gate of a name, if it is in scope. It takes no memory.
    pub fn gate(&self, name: &Token) -> Option<u32>
        ensures { result ≡ sites.gate_number self.now name.now }
    {
        last_named(&self.gates, self.first_gate, name)
    }

    /// The process of a name, if it is in scope.
    pub fn process(&self, alloc: Global, name: &Token) -> Result<Option<&'a Heading>, Memory>
        ensures { IfOk result (λ found. option_map (λ h. heading_of h.now) found ≡ sites.process_named self.now name.now) }
    {
        let name = name.text.as_str().to_ascii_lowercase(alloc)?;
        Ok(process_named(&self.visible, name.as_str()))
    }

    /// The sort of a name, if it is known. It takes no memory.
    pub fn sort(&self, name: &Token) -> Option<Sort>
        ensures { option_map sort_number result ≡ sites.sort_of self.now name.now }
    {
        if has_sort(&self.scope.signature.sorts, name.text.as_str()) {
            Some(Sort(sort_named(&self.scope.signature.sorts, name.text.as_str()) as u32))
        } else {
            None
        }
    }

    /// Whether the sort of a name is known. It takes no memory.
    pub fn knows_sort(&self, name: &Token) -> bool
        ensures { result ≡ is_sort_known self.now.context name.now.text }
    {
        has_sort(&self.scope.signature.sorts, name.text.as_str())
    }

    /// The one reading of an expression, of the wanted sort if there is one. Where it hasn't just one, its refusals are added.
    pub fn judge(
        &self,
        alloc: Global,
        expr: &Expr,
        wanted: Option<Sort>,
        refusals: &mut Vec<Refusal>,
    ) -> Result<Option<TypedTerm>, Memory>
        ensures { IfOk result (λ found. Adds (IsExpressionRead self.now wanted expr.now (typed_if_read found))
            refusals.old.items refusals.new.items) }
    {
        judge(alloc, expr, &self.scope, &self.index, wanted, refusals)
    }

    /// The two terms of a condition. Where they can't be read, their refusals are added.
    pub fn judge_premiss(
        &self,
        alloc: Global,
        premiss: &Premiss,
        refusals: &mut Vec<Refusal>,
    ) -> Result<Option<(Term, Term)>, Memory>
        ensures { IfOk result (λ found. Adds (IsPremissJudged self.now.context premiss.now (premise_if_read found))
            refusals.old.items refusals.new.items) }
    {
        judge_premiss(alloc, premiss, &self.scope, &self.index, refusals)
    }

    /// Adds a refusal for each name or sort of an expression that isn't known.
    pub fn add_unknowns(
        &self,
        alloc: Global,
        expr: &Expr,
        refusals: &mut Vec<Refusal>,
    ) -> Result<(), Memory>
        ensures { OnOk result (refusals.new.items ≡ refusals.old.items ++ unknowns self.now.context (expression (expr_tree expr.now))) }
    {
        add_unknowns(alloc, &self.scope, &self.index, expr, refusals)
    }

    /// Refuses a sort that isn't known.
    pub fn add_unknown_sort(
        &self,
        alloc: Global,
        sort: &Token,
        refusals: &mut Vec<Refusal>,
    ) -> Result<(), Memory>
        ensures { OnOk result (refusals.new.items ≡ refusals.old.items ++ unknown_sort self.now.context sort.now) }
    {
        add_unknown_sort(alloc, &self.scope, sort, refusals)
    }

    /// How many sorts there are. It takes no memory.
    pub fn sorts(&self) -> usize
        ensures { result ≡ length self.now.context.sorts }
    {
        self.scope.signature.sorts.len()
    }

    /// How many variables are in scope. It takes no memory.
    pub fn variables(&self) -> usize
        ensures count { result ≡ length self.now.context.variables }
        ensures bound { result < 2 ^ 32 }
    {
        self.scope.vars.len()
    }

    /// The variables in scope from this place on, as code has them.
    pub fn variables_from(&self, alloc: Global, first: usize) -> Result<Vec<(u32, Sort)>, Memory>
        ensures { IfOk result (λ all. map variable_of all.items ≡ numbered_from first (drop first self.now.context.variables)) }
    {
        numbered(alloc, self.scope.vars.as_slice(), first)
    }

    /// How many gates are in scope. It takes no memory.
    pub fn gates(&self) -> usize
        ensures { result ≡ length self.now.gates }
    {
        self.gates.len()
    }

    /// The number that the next gate will have. It takes no memory.
    pub fn next_gate(&self) -> u32
        ensures { result ≡ sites.next_gate self.now }
    {
        self.first_gate + self.gates.len() as u32
    }

    #[tactic(auto, using(crate::proofs::Scopes::variables_next, crate::proofs::Scopes::variables_all))]
    /// Puts variables of one sort into scope, behind those that are there. Where the sort isn't known, its number is that behind the last.
    pub fn put_variables(
        &mut self,
        alloc: Global,
        names: &[Token],
        sort: &Token,
    ) -> Result<(), Memory>
        ensures { OnOk result (self.new ≡ sites.with_variables self.old (of_one_sort self.old.context.sorts names.now sort.now)) }
    {
        let number = Sort(sort_named(&self.scope.signature.sorts, sort.text.as_str()) as u32);
        for name in names {
            self.push_variable(alloc, name, number)?;
        }
        Ok(())
    }

    /// Puts a variable into scope, behind those that are there. Where its sort isn't known, its number is that behind the last.
    pub fn put_variable(&mut self, alloc: Global, name: &Token, sort: &Token) -> Result<(), Memory>
        ensures { OnOk result (self.new ≡ sites.with_variables self.old
            (record { name = name.now.text; sort = sort_named self.old.context.sorts sort.now.text } ∷ [])) }
    {
        let number = Sort(sort_named(&self.scope.signature.sorts, sort.text.as_str()) as u32);
        self.push_variable(alloc, name, number)
    }

    // Puts a variable of this sort into scope.
    fn push_variable(&mut self, alloc: Global, name: &Token, sort: Sort) -> Result<(), Memory>
        ensures { OnOk result (self.new ≡ sites.with_variables self.old (record { name = name.now.text; sort = sort.0 } ∷ [])) }
    {
        let name = name.text.copy(alloc)?;
        self.scope.vars.push(alloc, name, sort)
    }

    /// Puts gates into scope, behind those that are there.
    #[tactic(auto, using(crate::proofs::Scopes::gates_next, crate::proofs::Scopes::gates_all))]
    pub fn put_gates(&mut self, gates: &'a [Token]) -> Result<(), Memory>
        ensures { OnOk result (self.new ≡ sites.with_gates self.old gates.now) }
    {
        for gate in gates {
            self.put_gate(gate)?;
        }
        Ok(())
    }

    /// Puts a gate into scope.
    pub fn put_gate(&mut self, gate: &'a Token) -> Result<(), Memory>
        ensures { OnOk result (self.new ≡ sites.with_gates self.old (gate.now ∷ [])) }
    {
        if self.next_gate() == u32::MAX {
            return Err(Memory);
        }
        self.gates.push(gate)?;
        Ok(())
    }

    /// Leaves the first variables and gates in scope alone. It takes no memory.
    pub fn leave(&mut self, variables: usize, gates: usize)
        ensures { self.new ≡ sites.with_first self.old variables gates }
    {
        self.scope.vars.truncate(variables);
        self.gates.truncate(gates);
    }
}
