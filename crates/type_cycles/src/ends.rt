// Which types end: no way goes on from them for ever.

ghost use Rattle.std.specs.Prelude.{ℕ, ◌≡◌, ◌<◌, true, IsTrue, IfOk, length};
ghost use Rattle.std.specs.List.{Contains};
ghost use Rattle.type_cycles.specs.Ends.{is_marked, MarksEnds};

use crate::numbers::Numbers;
use spec_core::memory::Memory;
use std::alloc::Global;

/// Whether a type is marked; a number past the end counts as marked. It takes no memory.
pub fn is_marked(marks: &[bool], number: usize) -> bool
    ensures { result ≡ is_marked marks.now number }
{
    number >= marks.len() || marks[number]
}

// Whether these types are all marked.
fn are_marked(marks: &[bool], types: &[usize]) -> bool
    ensures { IsTrue result → (j : ℕ) → Contains types.now j → is_marked marks.now j ≡ true }
{
    for number in types {
        if !is_marked(marks, *number) {
            return false;
        }
    }
    true
}

// Marks a type if it isn't marked and all of which it is made are. Whether it did.
fn mark(links: &[Numbers], marks: &mut [bool], number: usize) -> bool
    requires within { number < length links.now }
    requires marked { MarksEnds links.now marks.old }
    ensures { MarksEnds links.now marks.new }
{
    if marks[number] || !are_marked(marks, links[number].as_slice()) {
        return false;
    }
    marks[number] = true;
    true
}

// Marks further types, from the first to the last. Whether it marked any.
fn mark_forward(links: &[Numbers], marks: &mut [bool]) -> bool
    requires { MarksEnds links.now marks.old }
    ensures { MarksEnds links.now marks.new }
{
    let mut any = false;
    for number in 0..links.len() {
        let one = mark(links, marks, number);
        any = any || one;
    }
    any
}

// Marks further types, from the last to the first. Whether it marked any.
fn mark_backward(links: &[Numbers], marks: &mut [bool]) -> bool
    requires { MarksEnds links.now marks.old }
    ensures { MarksEnds links.now marks.new }
{
    let mut any = false;
    for behind in 0..links.len() {
        let one = mark(links, marks, links.len() - 1 - behind);
        any = any || one;
    }
    any
}

/// Marks the types that end. Where each type is listed behind those of which it is made, or each before them, two passes over the list
/// are enough.
pub fn ends(alloc: Global, links: &[Numbers]) -> Result<Vec<bool>, Memory>
    ensures { IfOk result (λ marks. MarksEnds links.now marks.items) }
{
    let mut marks = vec![in alloc; false; links.len()]?;
    for _pass in 0..links.len() {
        let forward = mark_forward(links, &mut marks);
        let backward = mark_backward(links, &mut marks);
        if !forward && !backward {
            return Ok(marks);
        }
    }
    Ok(marks)
}
