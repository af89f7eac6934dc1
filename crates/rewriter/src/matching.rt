// Whether values match patterns.

ghost use Rattle.std.specs.Prelude.{ℕ, ◌≡◌, ◌<◌, List, IsTrue, IsFalse, length, map};
ghost use Rattle.spec_core.specs.Terms.{TermTree, instance, instances, Occurs, OccursInAny, terms, term_of};
ghost use Rattle.spec_core.specs.Orthogonality.{IsLinear, AreLinear};
ghost use Rattle.spec_core.specs.Lists.{Each};
ghost use Rattle.value_nodes.specs.Nodes.{arguments, tree_at, IsNode};
ghost use Rattle.rewriter.specs.Steps.{bound_at, IsMatch, AreMatch};

use spec_core::term::Term;
use value_nodes::node::{Node, Nodes};

/// Whether a value matches a pattern; the nodes for which the pattern's variables stand are put into `bound`. It recurs as deep as the
/// pattern nests, and takes no memory.
#[cycle(matching)]
pub fn match_term(nodes: &Nodes, pattern: &Term, node: u32, bound: &mut [u32]) -> bool
    requires linear { IsLinear (term_of pattern.now) }
    requires room { (x : ℕ) → Occurs x (term_of pattern.now) → x < length bound.old }
    requires there { IsNode nodes.now node }
    ensures room { length bound.new ≡ length bound.old }
    ensures others { (x : ℕ) → (Occurs x (term_of pattern.now) → ⊥) → bound_at bound.new x ≡ bound_at bound.old x }
    ensures yes { IsTrue result → IsMatch nodes.now bound.new (term_of pattern.now) (tree_at nodes.now node) }
    ensures no { IsFalse result → (s : ℕ → TermTree) → instance s (term_of pattern.now) ≡ tree_at nodes.now node → ⊥ }
{
    match pattern {
        Term::Var(x) => {
            bound[*x as usize] = node;
            true
        }
        Term::App(op, parts) => {
            nodes.op(node).0 == op.0 && match_parts(nodes, parts, node, bound)
        }
    }
}

// Whether the arguments of a node match patterns.
#[cycle(matching)]
fn match_parts(nodes: &Nodes, patterns: &[Term], node: u32, bound: &mut [u32]) -> bool
    requires linear { AreLinear (terms (map term_of patterns.now)) }
    requires room { (x : ℕ) → OccursInAny x (terms (map term_of patterns.now)) → x < length bound.old }
    requires there { IsNode nodes.now node }
    ensures room { length bound.new ≡ length bound.old }
    ensures others { (x : ℕ) →
        (OccursInAny x (terms (map term_of patterns.now)) → ⊥) → bound_at bound.new x ≡ bound_at bound.old x }
    ensures yes { IsTrue result →
        AreMatch nodes.now bound.new (terms (map term_of patterns.now)) (arguments (tree_at nodes.now node)) }
    ensures no { IsFalse result →
        (s : ℕ → TermTree) → instances s (terms (map term_of patterns.now)) ≡ arguments (tree_at nodes.now node) → ⊥ }
{
    match patterns {
        [] => match nodes.at(node) {
            Node::Constant(..) => true,
            Node::One { .. } => false,
            Node::More { .. } => false,
        },
        [pattern, others @ ..] => match nodes.at(node) {
            Node::Constant(..) => false,
            Node::One { arg, .. } => others.is_empty() && match_term(nodes, pattern, arg, bound),
            Node::More { arg, rest, .. } => {
                match_term(nodes, pattern, arg, bound) && match_parts(nodes, others, rest, bound)
            }
        },
    }
}

/// Whether values match patterns, one by one.
pub fn match_all(nodes: &Nodes, patterns: &[Term], values: &[u32], bound: &mut [u32]) -> bool
    requires linear { AreLinear (terms (map term_of patterns.now)) }
    requires room { (x : ℕ) → OccursInAny x (terms (map term_of patterns.now)) → x < length bound.old }
    requires there { Each (IsNode nodes.now) values.now }
    ensures room { length bound.new ≡ length bound.old }
    ensures others { (x : ℕ) →
        (OccursInAny x (terms (map term_of patterns.now)) → ⊥) → bound_at bound.new x ≡ bound_at bound.old x }
    ensures yes { IsTrue result →
        AreMatch nodes.now bound.new (terms (map term_of patterns.now)) (terms (map (tree_at nodes.now) values.now)) }
    ensures no { IsFalse result →
        (s : ℕ → TermTree) → instances s (terms (map term_of patterns.now)) ≡ terms (map (tree_at nodes.now) values.now) → ⊥ }
{
    match patterns {
        [] => values.is_empty(),
        [pattern, others @ ..] => match values {
            [] => false,
            [value, rest @ ..] => {
                match_term(nodes, pattern, *value, bound) && match_all(nodes, others, rest, bound)
            }
        },
    }
}
