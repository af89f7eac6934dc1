// Lines are read.

ghost use Rattle.std.specs.Prelude.{ℕ, ◌≡◌, ◌↔◌, ◌++◌, IfOk, IfSome, IfNone, IsTrue, List, MatchOption, None, Some, codes};
ghost use Rattle.spec_core.specs.Code.{program_of};
ghost use Rattle.spec_core.specs.Sorts.{FitsData};
ghost use Rattle.spec_core.specs.Theories.{theory_of};
ghost use Rattle.simulator_lines.specs.Lines.{Asked, asked_of, stands_apart, AskedFits, IsLine, IsLongLine, IsNoLine, IsNoLongLine};

use crate::digits::written_number;
use crate::line::SimLine;
use script_text::fault::LineFault;
use script_text::read_offer;
use spec_core::code::Checked;
use spec_core::memory::Memory;
use std::alloc::Global;

// Whether two texts are equal.
fn is_same(text: &[u8], other: &[u8]) -> bool
    ensures { IsTrue result ↔ (text.now ≡ other.now) }
{
    text == other
}

// What stands behind this word, if the text begins with it.
fn behind<'a>(text: &'a [u8], word: &[u8]) -> Option<&'a [u8]>
    ensures { MatchOption result ((rest : List ℕ) → text.now ≡ word.now ++ rest → ⊥) (λ x. text.now ≡ word.now ++ x.now) }
{
    text.strip_prefix(word)
}

// Whether what is behind a word stands apart from it: behind a blank, a tab, a carriage return or a comment.
fn stands_apart(rest: &[u8]) -> bool
    ensures { result ≡ stands_apart rest.now }
{
    match rest {
        [] => false,
        [first, ..] => { *first == b' ' || *first == b'\t' || *first == b'\r' || *first == b'(' }
    }
}

// What the line is whose text behind the word `offer` is this.
#[tactic(auto, using(crate::proofs::OneLine::offer_steps))]
fn offer_line(alloc: Global, rest: &[u8], checked: &Checked) -> Result<Option<SimLine>, Memory>
    requires fits { FitsData (theory_of checked.now.algebra) }
    ensures spelled { IfOk result (λ found. IfSome found (λ l.
        IsLongLine (program_of checked.now) (codes "offer" ++ rest.now) (asked_of l))) }
    ensures fits { IfOk result (λ found. IfSome found (λ l. AskedFits (program_of checked.now) (asked_of l))) }
    ensures none { IfOk result (λ found. IfNone found (IsNoLongLine (program_of checked.now) (codes "offer" ++ rest.now))) }
{
    if !stands_apart(rest) {
        return Ok(None);
    }
    match read_offer(alloc, rest, checked) {
        Ok(wish) => Ok(Some(SimLine::Offer(wish))),
        Err(LineFault::Kind(_)) => Ok(None),
        Err(LineFault::Memory) => Err(Memory),
    }
}

// What a line of several words is.
#[tactic(auto, using(crate::proofs::OneLine::long_steps))]
fn long_line(alloc: Global, text: &[u8], checked: &Checked) -> Result<Option<SimLine>, Memory>
    requires fits { FitsData (theory_of checked.now.algebra) }
    ensures spelled { IfOk result (λ found. IfSome found (λ l. IsLongLine (program_of checked.now) text.now (asked_of l))) }
    ensures fits { IfOk result (λ found. IfSome found (λ l. AskedFits (program_of checked.now) (asked_of l))) }
    ensures none { IfOk result (λ found. IfNone found (IsNoLongLine (program_of checked.now) text.now)) }
{
    if let Some(digits) = behind(text, b"do ") {
        return match written_number(digits) {
            None => Ok(None),
            Some(number) => Ok(Some(SimLine::Do(number))),
        };
    }
    match behind(text, b"offer") {
        None => Ok(None),
        Some(rest) => offer_line(alloc, rest, checked),
    }
}

/// What a line of the simulator, without its end, asks for: `menu`, `do NUMBER`, `offer OFFER`, `trace` or `quit`, byte by byte, where
/// NUMBER is decimal digits, and OFFER an offer as in a line of a script, behind a blank, a tab, a carriage return
/// or a comment. None is answered for all else.
#[tactic(auto, using(crate::proofs::OneLine::line_steps))]
pub fn read_line(alloc: Global, text: &[u8], checked: &Checked) -> Result<Option<SimLine>, Memory>
    requires fits { FitsData (theory_of checked.now.algebra) }
    // What it asks for, and nothing else.
    ensures spelled { IfOk result (λ found. IfSome found (λ l. IsLine (program_of checked.now) text.now (asked_of l))) }
    ensures only { IfOk result (λ found. IfSome found (λ l.
        (other : Asked) → IsLine (program_of checked.now) text.now other → other ≡ asked_of l)) }
    ensures fits { IfOk result (λ found. IfSome found (λ l. AskedFits (program_of checked.now) (asked_of l))) }
    // Or it is no line.
    ensures none { IfOk result (λ found. IfNone found (IsNoLine (program_of checked.now) text.now)) }
{
    if is_same(text, b"menu") {
        return Ok(Some(SimLine::Menu));
    }
    if is_same(text, b"trace") {
        return Ok(Some(SimLine::Trace));
    }
    if is_same(text, b"quit") {
        return Ok(Some(SimLine::Quit));
    }
    long_line(alloc, text, checked)
}
