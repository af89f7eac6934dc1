// The rows that meet a pattern.

ghost use Rattle.std.specs.Prelude.{◌<◌, ◌≤◌, ◌∷◌, ◌↔◌, IfOk, OnOk, IfSome, IfNone, IsTrue, length, map};
ghost use Rattle.cover_search.specs.Candidates.{AreCandidates, AreMeeting, CoversAt, IsMeetingAdded, MeetsAt};
ghost use Rattle.cover_search.specs.Search.{arguments_of, rows_of, IsFirstMeeting};
ghost use Rattle.equation_shapes.specs.Shapes.{MeetAll};
ghost use Rattle.spec_core.specs.Lists.{Each, OneOf, IsOneOf};
ghost use Rattle.spec_core.specs.Terms.{TermTrees, term_of, terms};

use crate::arguments::Arguments;
use equation_shapes::shape::{are_of_shape, meet_all};
use spec_core::memory::Memory;
use spec_core::term::Term;
use std::alloc::Global;

// Whether a row covers the pattern.
fn covers(rows: &[Arguments], number: usize, pattern: &[Term]) -> bool
    requires { number < length rows.now }
    ensures { IsTrue result ↔ CoversAt (rows_of rows.now) (terms (map term_of pattern.now)) number }
{
    are_of_shape(&rows[number].items, pattern)
}

// Whether a row meets the pattern.
fn meets(rows: &[Arguments], number: usize, pattern: &[Term]) -> bool
    requires { number < length rows.now }
    ensures { IsTrue result ↔ MeetsAt (rows_of rows.now) (terms (map term_of pattern.now)) number }
{
    meet_all(&rows[number].items, pattern)
}

/// Whether one of these rows covers the pattern. It takes no memory.
pub fn some_covers(rows: &[Arguments], numbers: &[usize], pattern: &[Term]) -> bool
    requires { Each (λ n. n < length rows.now) numbers.now }
    ensures { IsTrue result ↔ OneOf (CoversAt (rows_of rows.now) (terms (map term_of pattern.now))) numbers.now }
{
    match numbers {
        [] => false,
        [first, others @ ..] => covers(rows, *first, pattern) || some_covers(rows, others, pattern),
    }
}

// Adds the number of a row, if it meets the pattern.
fn add_meeting(
    rows: &[Arguments],
    number: usize,
    pattern: &[Term],
    meeting: &mut Vec<usize>,
) -> Result<(), Memory>
    requires { number < length rows.now }
    ensures { OnOk result (IsMeetingAdded (rows_of rows.now) (terms (map term_of pattern.now)) number
        meeting.old.items meeting.new.items) }
{
    if !meets(rows, number, pattern) {
        return Ok(());
    }
    meeting.push(number)?;
    Ok(())
}

/// The numbers of the rows that meet the pattern.
pub fn meeting(
    alloc: Global,
    rows: &[Arguments],
    candidates: &[usize],
    pattern: &[Term],
) -> Result<Vec<usize>, Memory>
    requires { AreCandidates (rows_of rows.now) (terms (map term_of pattern.now)) candidates.now }
    ensures { IfOk result (λ all. AreMeeting (rows_of rows.now) (terms (map term_of pattern.now)) all.items) }
{
    let mut all = Vec::new(alloc);
    for number in candidates {
        add_meeting(rows, *number, pattern, &mut all)?;
    }
    Ok(all)
}

// The least of these numbers.
fn least(first: usize, others: &[usize]) -> usize
    ensures one { IsOneOf result (first ∷ others.now) }
    ensures least { Each (λ n. result ≤ n) (first ∷ others.now) }
{
    match others {
        [] => first,
        [second, rest @ ..] => {
            if *second < first {
                least(*second, rest)
            } else {
                least(first, rest)
            }
        }
    }
}

/// The first row that meets a pattern, where these are the numbers of those that do. It takes no memory.
pub fn first_meeting<'a>(rows: &'a [Arguments], meeting: &[usize]) -> Option<&'a Arguments>
    requires { Each (λ n. n < length rows.now) meeting.now }
    ensures some { IfSome result (λ row. (ps : TermTrees) → AreMeeting (rows_of rows.now) ps meeting.now →
        IsFirstMeeting (rows_of rows.now) ps (arguments_of row.now)) }
    ensures none { IfNone result ((ps : TermTrees) → AreMeeting (rows_of rows.now) ps meeting.now →
        Each (λ r. MeetAll r ps → ⊥) (rows_of rows.now)) }
{
    match meeting {
        [] => None,
        [first, others @ ..] => {
            let number = least(*first, others);
            Some(&rows[number])
        }
    }
}

/// The numbers of all rows.
pub fn all_numbers(alloc: Global, rows: &[Arguments]) -> Result<Vec<usize>, Memory>
    ensures { IfOk result (λ all. (ps : TermTrees) → AreCandidates (rows_of rows.now) ps all.items) }
{
    let mut all = Vec::new(alloc);
    for number in 0..rows.len() {
        all.push(number)?;
    }
    Ok(all)
}
