// Lines are answered.

ghost use Rattle.std.specs.Prelude.{ℕ, ◌≡◌, ◌≤◌, ◌↔◌, IfOk, IsTrue, OnOk, Option, false};
ghost use Rattle.simulator_lines.specs.Lines.{AskedFits, asked_of, menu, offered, step, trace};
ghost use Rattle.script_text.specs.Scripts.{WishFits};
ghost use Rattle.script_text.specs.Wishes.{wished_of};
ghost use Rattle.board_core.specs.Views.{program, state, SameSetting};
ghost use Rattle.simulator_steps.specs.Asking.{IsAtRest};
ghost use Rattle.simulator.specs.Sims.{Answers, CountsSteps, HasStep, LacksAsked, LacksStep, MayAnswer, sim_at};

use crate::answer::SimAnswer;
use crate::menu::{MENU_LIMIT, menu_text};
use crate::offering::offer;
use board_core::board::Board;
use script_text::wish::Wish;
use simulator_lines::line::SimLine;
use simulator_steps::asking::Answered;
use simulator_steps::choosing::{Chosen, choose};
use simulator_steps::listing::{Looked, steps};
use spec_core::memory::Memory;
use std::alloc::Global;
use trace_text::print_entries;

// Whether the number is one of so many, counted from 1.
fn is_within(count: u32, number: u32) -> bool
    ensures { IsTrue result ↔ (1 ≤ number) × (number ≤ count) }
{
    1 <= number && number <= count
}

// Whether the last menu has a step of this number, and no action was done since.
#[tactic(auto, using(crate::proofs::Counting::has_there, crate::proofs::Counting::lacks_there))]
fn has_step(steps: Option<u32>, number: u32) -> bool
    ensures has { IsTrue result → HasStep steps number }
    ensures lacks { result ≡ false → LacksStep steps number }
{
    match steps {
        None => false,
        Some(count) => is_within(count, number),
    }
}

/// Whether the line asks for a step that the last menu lacks, where it had so many steps, unless an action was done since.
pub fn lacks(steps: Option<u32>, line: &SimLine) -> bool
    ensures lacks { IsTrue result → LacksAsked steps (asked_of line.now) }
    ensures may { result ≡ false → MayAnswer steps (asked_of line.now) }
{
    match line {
        SimLine::Menu => false,
        SimLine::Do(number) => !has_step(steps, *number),
        SimLine::Offer(_) => false,
        SimLine::Trace => false,
        SimLine::Quit => false,
    }
}

// The steps that are possible; or why the session has stopped.
fn show_menu(
    alloc: Global,
    board: &mut Board,
    last: Option<u32>,
) -> Result<(SimAnswer, Option<u32>), Memory>
    requires counts { CountsSteps board.old last }
    ensures answer { IfOk result (λ r. Answers (sim_at board.old last) (sim_at board.new r.1) menu r.0) }
    ensures counts { IfOk result (λ r. CountsSteps board.new r.1) }
    ensures state { state board.new ≡ state board.old }
    ensures setting { SameSetting board.old board.new }
{
    match steps(alloc, board, MENU_LIMIT)? {
        Looked::Stopped(reply) => Ok((SimAnswer::Answer(reply), last)),
        Looked::Steps(listing) => {
            let text = menu_text(alloc, board, &listing)?;
            let count = listing.candidates.len() as u32;
            Ok((SimAnswer::Menu(text), Some(count)))
        }
    }
}

// The step with this number of the last menu is done, or it is told why not.
fn do_step(
    alloc: Global,
    board: &mut Board,
    last: Option<u32>,
    number: u32,
) -> Result<(SimAnswer, Option<u32>), Memory>
    requires rests { IsAtRest (state board.old) }
    requires counts { CountsSteps board.old last }
    requires has { HasStep last number }
    ensures answer { IfOk result (λ r. Answers (sim_at board.old last) (sim_at board.new r.1) (step number) r.0) }
    ensures counts { IfOk result (λ r. CountsSteps board.new r.1) }
    ensures rests { OnOk result (IsAtRest (state board.new)) }
    ensures setting { SameSetting board.old board.new }
{
    board.log_is_a_derivation();
    match choose(alloc, board, number)? {
        Chosen::Done(action) => Ok((SimAnswer::Done(action), None)),
        Chosen::Told(reply) => Ok((SimAnswer::Answer(reply), last)),
        Chosen::Missing => unreachable!(),
    }
}

// An action that meets the offer is done, or it is told why not.
fn make_offer(
    alloc: Global,
    board: &mut Board,
    last: Option<u32>,
    wish: &Wish,
) -> Result<(SimAnswer, Option<u32>), Memory>
    requires rests { IsAtRest (state board.old) }
    requires counts { CountsSteps board.old last }
    requires fits { WishFits (program board.old) (wished_of wish.now) }
    ensures answer { IfOk result (λ r. Answers (sim_at board.old last) (sim_at board.new r.1) (offered (wished_of wish.now)) r.0) }
    ensures counts { IfOk result (λ r. CountsSteps board.new r.1) }
    ensures rests { OnOk result (IsAtRest (state board.new)) }
    ensures setting { SameSetting board.old board.new }
{
    match offer(alloc, board, wish)? {
        Answered::Done(action) => Ok((SimAnswer::Done(action), None)),
        Answered::Told(reply) => Ok((SimAnswer::Answer(reply), last)),
    }
}

// What was done.
fn show_trace(alloc: Global, board: &Board) -> Result<SimAnswer, Memory>
    ensures { IfOk result (λ a. (last : Option ℕ) → Answers (sim_at board.now last) (sim_at board.now last) trace a) }
{
    let text = print_entries(alloc, board.log(), board.checked())?;
    Ok(SimAnswer::Trace(text))
}

/// The answer to a line, and how many steps the last menu has then, unless an action was done since.
pub fn answer_line(
    alloc: Global,
    board: &mut Board,
    last: Option<u32>,
    line: &SimLine,
) -> Result<(SimAnswer, Option<u32>), Memory>
    requires rests { IsAtRest (state board.old) }
    requires counts { CountsSteps board.old last }
    requires fits { AskedFits (program board.old) (asked_of line.now) }
    requires may { MayAnswer last (asked_of line.now) }
    ensures answer { IfOk result (λ r. Answers (sim_at board.old last) (sim_at board.new r.1) (asked_of line.now) r.0) }
    ensures counts { IfOk result (λ r. CountsSteps board.new r.1) }
    ensures rests { OnOk result (IsAtRest (state board.new)) }
    ensures setting { SameSetting board.old board.new }
{
    match line {
        SimLine::Menu => show_menu(alloc, board, last),
        SimLine::Do(number) => do_step(alloc, board, last, *number),
        SimLine::Offer(wish) => make_offer(alloc, board, last, wish),
        SimLine::Trace => Ok((show_trace(alloc, board)?, last)),
        SimLine::Quit => Ok((SimAnswer::Bye, last)),
    }
}
