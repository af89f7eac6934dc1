// Replies, and how a session ended.

ghost use Rattle.std.specs.Prelude.{◌≡◌, IfOk, IsSome, OnOk};
ghost use Rattle.rule_model.specs.Answers.{answer_of};
ghost use Rattle.rule_model.specs.Events.{ending_of};
ghost use Rattle.rule_model.specs.Legal.{IsReplyAt};
ghost use Rattle.spec_core.specs.Code.{program_of};
ghost use Rattle.trace_text.specs.Fits.{AnswerFits, EndingFits};
ghost use Rattle.trace_text.specs.Names.{names_with};
ghost use Rattle.trace_text.specs.Trace.{answer_word, end_word};
ghost use Rattle.trace_reader.specs.Cursors.{Finds, IsNothing, IsReadable};

use crate::cursor::Cursor;
use crate::line_word::{EndWord, ReplyWord, take_end, take_reply};
use crate::tree::read_tree;
use crate::value::{DEEPEST, read_term};
use rule_model::log::End;
use rule_model::reply::Reply;
use spec_core::memory::Memory;
use std::alloc::Global;
use value_text::vocabulary::Vocabulary;

/// A reply, with this number of actions before it.
pub fn read_reply(
    alloc: Global,
    vocabulary: &Vocabulary,
    cursor: &mut Cursor,
    at: u64,
) -> Result<Reply, Memory>
    requires readable { IsReadable vocabulary.now }
    ensures finds { IfOk result (λ reply. Finds (answer_word (names_with vocabulary.now))
        (AnswerFits (program_of vocabulary.now.checked.now))
        IsNothing cursor.old cursor.new
        (λ it. answer_word (names_with vocabulary.now) (answer_of reply) ≡ answer_word (names_with vocabulary.now) it)) }
    ensures numbered { IfOk result (λ reply. IsReplyAt (answer_of reply) at) }
    ensures fits { IfOk result (λ reply. IsSome cursor.new → AnswerFits (program_of vocabulary.now.checked.now) (answer_of reply)) }
    ensures kept { OnOk result (IsSome cursor.new → IsSome cursor.old) }
{
    match take_reply(cursor) {
        None => {
            cursor.lose();
            Ok(Reply::Ended { at })
        }
        Some(ReplyWord::Deadlock) => Ok(Reply::Deadlock { at }),
        Some(ReplyWord::NotNow) => Ok(Reply::NotNow { at }),
        Some(ReplyWord::Ended) => Ok(Reply::Ended { at }),
        Some(ReplyWord::Beyond) => {
            let rules = read_tree(alloc, vocabulary, cursor, DEEPEST)?;
            Ok(Reply::Beyond { at, rules })
        }
        Some(ReplyWord::Spent) => {
            let term = read_term(alloc, vocabulary, cursor)?;
            Ok(Reply::Spent { at, term })
        }
        Some(ReplyWord::Large) => {
            let term = read_term(alloc, vocabulary, cursor)?;
            Ok(Reply::TooLarge { at, term })
        }
        Some(ReplyWord::Limit(kind)) => Ok(Reply::Limit { at, kind }),
    }
}

/// How a session ended.
pub fn read_end(alloc: Global, vocabulary: &Vocabulary, cursor: &mut Cursor) -> Result<End, Memory>
    requires readable { IsReadable vocabulary.now }
    ensures finds { IfOk result (λ end. Finds (end_word (names_with vocabulary.now)) (EndingFits (program_of vocabulary.now.checked.now))
        IsNothing cursor.old cursor.new (λ it. ending_of end ≡ it)) }
    ensures fits { IfOk result (λ end. IsSome cursor.new → EndingFits (program_of vocabulary.now.checked.now) (ending_of end)) }
    ensures kept { OnOk result (IsSome cursor.new → IsSome cursor.old) }
{
    match take_end(cursor) {
        None => {
            cursor.lose();
            Ok(End::Exit)
        }
        Some(EndWord::Exit) => Ok(End::Exit),
        Some(EndWord::Deadlock) => Ok(End::Deadlock),
        Some(EndWord::Waiting) => Ok(End::Waiting),
        Some(EndWord::Beyond) => Ok(End::Beyond),
        Some(EndWord::Spent) => {
            let term = read_term(alloc, vocabulary, cursor)?;
            Ok(End::Spent(term))
        }
        Some(EndWord::Large) => {
            let term = read_term(alloc, vocabulary, cursor)?;
            Ok(End::TooLarge(term))
        }
        Some(EndWord::Limit(kind)) => Ok(End::Limit(kind)),
    }
}
