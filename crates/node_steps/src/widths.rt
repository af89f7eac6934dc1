// How many values trees of rules choose.

ghost use Rattle.std.specs.Prelude.{suc, ◌≡◌, ◌+◌, ◌*◌, IfOk, length};
ghost use Rattle.symbolic_plans.specs.Plans.{plan_of};
ghost use Rattle.node_steps.specs.Blanks.{chosen_by, width};

use node_trees::blanks::taken;
use spec_core::memory::Memory;
use symbolic_plans::scheme::{Row, Scheme};

// The sum of two numbers of values. Want of memory is also answered past 2^32 values, which no machine has.
fn sum(left: u32, right: u32) -> Result<u32, Memory>
    ensures { IfOk result (λ n. n ≡ left + right) }
{
    if left > u32::MAX - right {
        Err(Memory)
    } else {
        Ok(left + right)
    }
}

// How many values a rule itself chooses: a choice of a value one, and any other none.
fn own_values(row: &Row) -> u32
    ensures { result ≡ length (chosen_by row.now) }
{
    match row {
        Row::Val(_) => 1,
        _ => 0,
    }
}

/// The place after the value that a rule itself chooses, if it chooses one.
pub fn after_row(row: &Row, from: u32) -> Result<u32, Memory>
    ensures after { IfOk result (λ n. n ≡ from + length (chosen_by row.now)) }
{
    sum(from, own_values(row))
}

// The same of a rule and the same rule so many times more.
fn run_values(row: &Row, more: u32) -> Result<u32, Memory>
    ensures { IfOk result (λ n. n ≡ suc more * length (chosen_by row.now)) }
{
    match row {
        Row::Val(_) => sum(1, more),
        _ => Ok(0),
    }
}

// How many values the trees choose.
fn values_of(scheme: &Scheme) -> Result<u32, Memory>
    ensures { IfOk result (λ n. n ≡ width (plan_of scheme.now)) }
{
    match scheme {
        Scheme::Pre(takes) => taken(takes),
        Scheme::Int => Ok(0),
        Scheme::Exit(takes) => taken(takes),
        Scheme::Under(row, more, part) => {
            let inner = values_of(part)?;
            let own = run_values(row, *more)?;
            sum(own, inner)
        }
        Scheme::Hide(_, part) => values_of(part),
        Scheme::Enend(_, part) => values_of(part),
        Scheme::Both(left, right) => {
            let first = values_of(left)?;
            let second = values_of(right)?;
            sum(first, second)
        }
    }
}

/// The place after the values that the trees choose.
pub fn after_scheme(scheme: &Scheme, from: u32) -> Result<u32, Memory>
    ensures after { IfOk result (λ n. n ≡ from + width (plan_of scheme.now)) }
{
    let values = values_of(scheme)?;
    sum(from, values)
}
