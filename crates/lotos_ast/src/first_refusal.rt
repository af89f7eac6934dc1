// The first of several refusals.

ghost use Rattle.std.specs.Prelude.{◌≡◌, [], IfNone, Some};
ghost use Rattle.lotos_ast.specs.FirstRefusals.{comes_before, sooner, first_refusal};

use crate::refusal::Refusal;

// Whether one refusal comes before another: at an earlier place, or at the same place with a smaller number.
fn comes_before(one: &Refusal, other: &Refusal) -> bool
    ensures { result ≡ comes_before one.now other.now }
{
    one.place.line < other.place.line
        || one.place.line == other.place.line
            && (one.place.column < other.place.column
                || one.place.column == other.place.column && one.number() < other.number())
}

/// The first of two refusals, each of which may be missing: the second only where it comes before the first. It takes no memory.
pub fn sooner(one: Option<Refusal>, other: Option<Refusal>) -> Option<Refusal>
    ensures { result ≡ sooner one other }
{
    match (one, other) {
        (None, other) => other,
        (Some(one), None) => Some(one),
        (Some(one), Some(other)) => {
            if comes_before(&other, &one) {
                Some(other)
            } else {
                Some(one)
            }
        }
    }
}

/// The first of these refusals. There is none exactly where there are no refusals. It takes no memory.
#[tactic(auto, using(crate::proofs::FirstRefusals::none_first))]
pub fn first_refusal(refusals: Vec<Refusal>) -> Option<Refusal>
    ensures first { result ≡ first_refusal refusals.items }
    ensures none { IfNone result (refusals.items ≡ []) }
{
    let mut first = None;
    for refusal in refusals {
        first = sooner(first, Some(refusal));
    }
    first
}
