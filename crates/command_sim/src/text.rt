// What is written in answer to a line.

ghost use Rattle.std.specs.Prelude.{◌≡◌, ◌++◌, IfOk, codes, string_bytes};
ghost use Rattle.spec_core.specs.Terms.{term_of};
ghost use Rattle.rule_model.specs.Answers.{answer_of};
ghost use Rattle.trace_text.specs.Names.{names_with};
ghost use Rattle.trace_text.specs.Trace.{action_text, limit_word};
ghost use Rattle.value_text.specs.Vocabularies.{IsWhole};
ghost use Rattle.command_sim.specs.Texts as texts;

use crate::end::End;
use rule_model::action::Action;
use rule_model::reply::{LimitKind, Reply};
use simulator::answer::{SimAnswer, SimFault};
use spec_core::memory::Memory;
use spec_core::term::Term;
use spec_core::term_text::term_text;
use std::alloc::Global;
use trace_text::put_action;
use value_text::vocabulary::Vocabulary;

// The line that tells of an action that was done.
fn done_line(alloc: Global, vocabulary: &Vocabulary, action: &Action) -> Result<String, Memory>
    requires whole { IsWhole vocabulary.now }
    ensures { IfOk result (λ text. string_bytes text ≡ codes "done " ++ action_text (names_with vocabulary.now) action.now ++ codes "\n") }
{
    let mut out = String::from_str(alloc, "done ")?;
    put_action(&mut out, vocabulary, action)?;
    out.push_str("\n")?;
    Ok(out)
}

// A ground term behind a word.
fn term_line(
    alloc: Global,
    vocabulary: &Vocabulary,
    word: &str,
    term: &Term,
) -> Result<String, Memory>
    ensures { IfOk result (λ text. string_bytes text ≡ word.now ++ (names_with vocabulary.now).term (term_of term.now) ++ codes "\n") }
{
    let term = term_text(alloc, &vocabulary.checked.algebra.signature, term, &[])?;
    Ok(format!(in alloc; "{word}{term}\n")?)
}

// The line that tells of a limit.
fn limit_line(kind: LimitKind) -> &'static str
    ensures { result.now ≡ limit_word kind ++ codes "\n" }
{
    match kind {
        LimitKind::Steps => "limit steps\n",
        LimitKind::Spread => "limit spread\n",
        LimitKind::Offers => "limit offers\n",
    }
}

// The line that tells why no action was done.
fn reply_line(alloc: Global, vocabulary: &Vocabulary, reply: &Reply) -> Result<String, Memory>
    ensures { IfOk result (λ text. string_bytes text ≡ texts.reply_line (names_with vocabulary.now) (answer_of reply.now)) }
{
    match reply {
        Reply::Taken { .. } => Ok(String::new(alloc)),
        Reply::Deadlock { .. } => Ok(String::from_str(alloc, "deadlock\n")?),
        Reply::Stalled { .. } => Ok(String::new(alloc)),
        Reply::Beyond { .. } => Ok(String::from_str(alloc, "beyond\n")?),
        Reply::NotNow { .. } => Ok(String::from_str(alloc, "notnow\n")?),
        Reply::Ended { .. } => Ok(String::from_str(alloc, "ended\n")?),
        Reply::Spent { at: _, term } => term_line(alloc, vocabulary, "spent ", term),
        Reply::TooLarge { at: _, term } => term_line(alloc, vocabulary, "large ", term),
        Reply::Limit { at: _, kind } => Ok(String::from_str(alloc, limit_line(*kind))?),
    }
}

// What is written for an answer.
fn answer_text(alloc: Global, vocabulary: &Vocabulary, answer: SimAnswer) -> Result<String, Memory>
    requires whole { IsWhole vocabulary.now }
    ensures { IfOk result (λ text. string_bytes text ≡ texts.answer_text (names_with vocabulary.now) answer) }
{
    match answer {
        SimAnswer::Menu(text) => Ok(text),
        SimAnswer::Done(action) => done_line(alloc, vocabulary, &action),
        SimAnswer::Answer(reply) => reply_line(alloc, vocabulary, &reply),
        SimAnswer::Trace(text) => Ok(text),
        SimAnswer::Bye => Ok(String::from_str(alloc, "bye\n")?),
    }
}

/// What is written for what a line comes to, want of memory apart.
pub fn text_of(
    alloc: Global,
    vocabulary: &Vocabulary,
    came: Result<SimAnswer, SimFault>,
) -> Result<String, Memory>
    requires whole { IsWhole vocabulary.now }
    ensures text { IfOk result (λ text. string_bytes text ≡ texts.text_of (names_with vocabulary.now) came) }
    ensures answered { IfOk result (λ text. texts.HasAnswer came) }
{
    match came {
        Ok(answer) => answer_text(alloc, vocabulary, answer),
        Err(SimFault::BadLine) => Ok(String::from_str(alloc, "bad line\n")?),
        Err(SimFault::NoStep) => Ok(String::from_str(alloc, "no step\n")?),
        Err(SimFault::Memory) => Err(Memory),
    }
}

// How a reply ends the simulation, if it does: where it tells what has stopped the session, or that a term of the line has no value.
fn end_by_reply(reply: &Reply) -> Option<End>
    ensures { result ≡ texts.end_by_reply (answer_of reply.now) }
{
    match reply {
        Reply::Taken { .. } => None,
        Reply::Deadlock { .. } => None,
        Reply::Stalled { .. } => None,
        Reply::Beyond { .. } => None,
        Reply::NotNow { .. } => None,
        Reply::Ended { .. } => None,
        Reply::Spent { .. } => Some(End::Spent),
        Reply::TooLarge { .. } => Some(End::Limit),
        Reply::Limit { .. } => Some(End::Limit),
    }
}

/// How what a line comes to ends the simulation, if it does.
pub fn end_by(came: &Result<SimAnswer, SimFault>) -> Option<End>
    ensures { result ≡ texts.end_by came.now }
{
    match came {
        Ok(SimAnswer::Menu(_)) => None,
        Ok(SimAnswer::Done(_)) => None,
        Ok(SimAnswer::Answer(reply)) => end_by_reply(reply),
        Ok(SimAnswer::Trace(_)) => None,
        Ok(SimAnswer::Bye) => Some(End::Done),
        Err(_) => None,
    }
}
