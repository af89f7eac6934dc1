// Menus.

ghost use Rattle.std.specs.Prelude.{◌+◌, ◌++◌, ◌≡◌, ◌≤◌, IfOk, IsSome, IsTrue, None, OnOk, codes, false, length, map, string_bytes};
ghost use Rattle.spec_core.specs.Code.{program_of};
ghost use Rattle.value_text.specs.Vocabularies.{IsWhole};
ghost use Rattle.trace_text.specs.Names.{names_in, names_with};
ghost use Rattle.board_core.specs.Views.{program, state, tree};
ghost use Rattle.board_lists.specs.Listings.{IsListing};
ghost use Rattle.simulator.specs.Menus.{IsMenu, action_in, menu_limit, more_line, step_line, step_lines};

use board_core::board::Board;
use board_core::has_ended;
use board_lists::list::{Candidate, Listing};
use rule_model::rules::Rules;
use spec_core::code::Checked;
use spec_core::memory::Memory;
use std::alloc::Global;
use trace_text::put_action;
use value_text::vocabulary::Vocabulary;

/// The most steps of a menu.
pub const MENU_LIMIT: u32 = 1000;

// Appends the line of a step.
fn put_step(
    out: &mut String,
    vocabulary: &Vocabulary,
    number: u32,
    candidate: &Candidate,
) -> Result<(), Memory>
    requires whole { IsWhole vocabulary.now }
    ensures { OnOk result (string_bytes out.new ≡ string_bytes out.old ++ step_line (names_with vocabulary.now) number candidate.now.action) }
{
    write!(out, "{number} ")?;
    put_action(out, vocabulary, &candidate.action)?;
    Ok(out.push_str("\n")?)
}

// Appends a line for each step, with the numbers from 1 on.
fn put_steps(out: &mut String, vocabulary: &Vocabulary, steps: &[Candidate]) -> Result<(), Memory>
    requires whole { IsWhole vocabulary.now }
    requires few { length steps.now ≤ menu_limit }
    ensures { OnOk result (string_bytes out.new ≡
        string_bytes out.old ++ step_lines (names_with vocabulary.now) 1 (map action_in steps.now)) }
{
    let mut number: u32 = 0;
    for step in steps {
        number += 1;
        put_step(out, vocabulary, number, step)?;
    }
    Ok(())
}

// The text of steps: a line for each, with its number, counted from 1, and its action; and the line `more`, if there are more.
fn steps_text(
    alloc: Global,
    steps: &[Candidate],
    more: bool,
    checked: &Checked,
) -> Result<String, Memory>
    requires few { length steps.now ≤ menu_limit }
    ensures { IfOk result (λ text. string_bytes text ≡
        step_lines (names_in (program_of checked.now)) 1 (map action_in steps.now) ++ more_line more) }
{
    let vocabulary = Vocabulary::new(alloc, checked)?;
    let mut out = String::new(alloc);
    put_steps(&mut out, &vocabulary, steps)?;
    if more {
        out.push_str("more\n")?;
    }
    Ok(out)
}

// Why there is no step.
fn word(ended: bool, beyond: &Option<Rules>) -> &'static str
    ensures ended { IsTrue ended → result.now ≡ codes "ended\n" }
    ensures beyond { ended ≡ false → IsSome beyond.now → result.now ≡ codes "beyond\n" }
    ensures deadlock { ended ≡ false → beyond.now ≡ None → result.now ≡ codes "deadlock\n" }
{
    if ended {
        "ended\n"
    } else if beyond.is_some() {
        "beyond\n"
    } else {
        "deadlock\n"
    }
}

/// The text of a menu.
pub fn menu_text(alloc: Global, board: &Board, listing: &Listing) -> Result<String, Memory>
    requires listing { IsListing (program board.now) board.now.settings (state board.now) (tree board.now) menu_limit listing.now }
    ensures text { IfOk result (λ text. IsMenu (program board.now) board.now.settings (state board.now) (string_bytes text)
        (length listing.now.candidates.items)) }
    ensures few { OnOk result (length listing.now.candidates.items ≤ menu_limit) }
{
    board.log_is_a_derivation();
    if listing.candidates.is_empty() {
        let ended = has_ended(board.state().last());
        return Ok(String::from_str(alloc, word(ended, &listing.beyond))?);
    }
    steps_text(alloc, &listing.candidates, listing.more, board.checked())
}
