// Ground terms as texts.

ghost use Rattle.std.specs.Prelude.{ℕ, ◌≡◌, IfOk};
ghost use Rattle.lotos_ast.specs.declared.text_kind.TextKind.{TextKind};
ghost use Rattle.spec_core.specs.Sorts.{FitsData, FitsGround, HasSort, no_variables};
ghost use Rattle.spec_core.specs.Terms.{TermTree, term_of};
ghost use Rattle.spec_core.specs.Theories.{theory_of};
ghost use Rattle.script_text.specs.Answers.{IfKind, IfLine};
ghost use Rattle.script_text.specs.Terms.{SpellsTerm, IsTermFault};

use crate::fault::{LineFault, ScriptFault};
use crate::vocabulary::Vocabulary;
use crate::whole::whole;
use crate::written::OneExpression;
use lotos_ast::text_kind::TextKind;
use sort_overloads::resolution::TypedTerm;
use spec_core::code::Checked;
use spec_core::equation::DataSpec;
use spec_core::term::Term;
use std::alloc::Global;

// The term that a text spells, with its sort.
#[tactic(auto, using(crate::proofs::Few::few_operations, crate::proofs::Rows::term_rows))]
fn term_in(alloc: Global, text: &[u8], algebra: &DataSpec) -> Result<TypedTerm, LineFault>
    requires fits { FitsData (theory_of algebra.now) }
    ensures spelled { IfOk result (λ t. SpellsTerm (theory_of algebra.now) text.now (term_of t.term) t.sort.0) }
    ensures fault { IfKind result (IsTermFault (theory_of algebra.now) text.now) }
{
    let expr = whole::<OneExpression>(alloc, text)?;
    let vocabulary = Vocabulary::new(alloc, algebra)?;
    if vocabulary.says_unknown_sort(alloc, &expr)? {
        return Err(LineFault::Kind(TextKind::Sort));
    }
    vocabulary.term(alloc, &expr)
}

// The same, with the line of a fault.
fn term_at_line(alloc: Global, text: &[u8], checked: &Checked) -> Result<TypedTerm, ScriptFault>
    requires fits { FitsData (theory_of checked.now.algebra) }
    ensures spelled { IfOk result (λ t. SpellsTerm (theory_of checked.now.algebra) text.now (term_of t.term) t.sort.0) }
    ensures line { IfLine result (λ line kind. line ≡ 1) }
    ensures fault { IfLine result (λ line kind. IsTermFault (theory_of checked.now.algebra) text.now kind) }
{
    match term_in(alloc, text, &checked.algebra) {
        Ok(found) => Ok(found),
        Err(fault) => Err(fault.at(1)),
    }
}

/// The ground term that a text spells in the names of a specification, with its sort: the one reading of an expression without variables.
///
/// The faults are told with line 1, the kinds in this order: `Form`, where the text isn't one whole expression of at most 4,194,304 bytes
/// within the limits of nesting; `Sort`, where it says of a term that it is of a sort which the specification doesn't have; `Term`, where
/// it has no reading, or more than one.
pub fn read_typed_term(
    alloc: Global,
    text: &[u8],
    checked: &Checked,
) -> Result<TypedTerm, ScriptFault>
    requires fits { FitsData (theory_of checked.now.algebra) }
    // The term, and no other.
    ensures spelled { IfOk result (λ t. SpellsTerm (theory_of checked.now.algebra) text.now (term_of t.term) t.sort.0) }
    ensures only { IfOk result (λ t. (other : TermTree) (sort : ℕ) →
        SpellsTerm (theory_of checked.now.algebra) text.now other sort → (other ≡ term_of t.term) × (sort ≡ t.sort.0)) }
    ensures sorted { IfOk result (λ t. HasSort (theory_of checked.now.algebra) no_variables (term_of t.term) t.sort.0) }
    ensures faultless { IfOk result (λ t. (kind : TextKind) → IsTermFault (theory_of checked.now.algebra) text.now kind → ⊥) }
    // Or the fault, and no other.
    ensures line { IfLine result (λ line kind. line ≡ 1) }
    ensures fault { IfLine result (λ line kind. IsTermFault (theory_of checked.now.algebra) text.now kind) }
    ensures only_fault { IfLine result (λ line kind. (other : TextKind) →
        IsTermFault (theory_of checked.now.algebra) text.now other → other ≡ kind) }
    ensures no_term { IfLine result (λ line kind. (t : TermTree) (sort : ℕ) →
        SpellsTerm (theory_of checked.now.algebra) text.now t sort → ⊥) }
{
    term_at_line(alloc, text, checked)
}

/// The same, without the sort.
pub fn read_term(alloc: Global, text: &[u8], checked: &Checked) -> Result<Term, ScriptFault>
    requires fits { FitsData (theory_of checked.now.algebra) }
    // The term, and no other.
    ensures spelled { IfOk result (λ t. (sort : ℕ) × SpellsTerm (theory_of checked.now.algebra) text.now (term_of t) sort) }
    ensures only { IfOk result (λ t. (other : TermTree) (sort : ℕ) →
        SpellsTerm (theory_of checked.now.algebra) text.now other sort → other ≡ term_of t) }
    ensures ground { IfOk result (λ t. FitsGround (theory_of checked.now.algebra) (term_of t)) }
    ensures faultless { IfOk result (λ t. (kind : TextKind) → IsTermFault (theory_of checked.now.algebra) text.now kind → ⊥) }
    // Or the fault, and no other.
    ensures line { IfLine result (λ line kind. line ≡ 1) }
    ensures fault { IfLine result (λ line kind. IsTermFault (theory_of checked.now.algebra) text.now kind) }
    ensures only_fault { IfLine result (λ line kind. (other : TextKind) →
        IsTermFault (theory_of checked.now.algebra) text.now other → other ≡ kind) }
    ensures no_term { IfLine result (λ line kind. (t : TermTree) (sort : ℕ) →
        SpellsTerm (theory_of checked.now.algebra) text.now t sort → ⊥) }
{
    match read_typed_term(alloc, text, checked) {
        Ok(found) => Ok(found.term),
        Err(fault) => Err(fault),
    }
}
