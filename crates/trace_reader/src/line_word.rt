// With which word a line of a trace, a reply and an end begin.

ghost use Rattle.std.specs.Prelude.{◌≡◌, IsSome, Some};
ghost use Rattle.trace_text.specs.Trace as trace;
ghost use Rattle.trace_reader.specs.Cursors.{Finds};
ghost use Rattle.trace_reader.specs.LineWords.{ending_word, entry_word, reply_word};

use crate::cursor::Cursor;
use crate::words::{Worded, take_first};
use rule_model::reply::LimitKind;

/// The kinds of entries.
#[derive(Clone, Copy)]
pub enum EntryWord {
    Pend,
    Ask,
    Act,
    Reply,
    Stall,
    Leave,
}

/// The kinds of replies.
#[derive(Clone, Copy)]
pub enum ReplyWord {
    Deadlock,
    NotNow,
    Ended,
    Beyond,
    Spent,
    Large,
    Limit(LimitKind),
}

/// The kinds of ends.
#[derive(Clone, Copy)]
pub enum EndWord {
    Exit,
    Deadlock,
    Waiting,
    Beyond,
    Spent,
    Large,
    Limit(LimitKind),
}

const ENTRIES: [EntryWord; 6] = [
    EntryWord::Pend,
    EntryWord::Ask,
    EntryWord::Act,
    EntryWord::Reply,
    EntryWord::Stall,
    EntryWord::Leave,
];

const REPLIES: [ReplyWord; 9] = [
    ReplyWord::Deadlock,
    ReplyWord::NotNow,
    ReplyWord::Ended,
    ReplyWord::Beyond,
    ReplyWord::Spent,
    ReplyWord::Large,
    ReplyWord::Limit(LimitKind::Steps),
    ReplyWord::Limit(LimitKind::Spread),
    ReplyWord::Limit(LimitKind::Offers),
];

const ENDS: [EndWord; 9] = [
    EndWord::Exit,
    EndWord::Deadlock,
    EndWord::Waiting,
    EndWord::Beyond,
    EndWord::Spent,
    EndWord::Large,
    EndWord::Limit(LimitKind::Steps),
    EndWord::Limit(LimitKind::Spread),
    EndWord::Limit(LimitKind::Offers),
];

// Which limit was exceeded.
fn limit_word(kind: LimitKind) -> &'static str
    ensures { result.now ≡ trace.limit_word kind }
{
    match kind {
        LimitKind::Steps => "limit steps",
        LimitKind::Spread => "limit spread",
        LimitKind::Offers => "limit offers",
    }
}

impl Worded for EntryWord {
    ghost use Rattle.trace_reader.specs.LineWords.{entry_word};

    ghost text = { entry_word };

    fn word(self) -> &'static str {
        match self {
            EntryWord::Pend => "pend ",
            EntryWord::Ask => "ask ",
            EntryWord::Act => "act ",
            EntryWord::Reply => "reply ",
            EntryWord::Stall => "stall",
            EntryWord::Leave => "leave ",
        }
    }
}

impl Worded for ReplyWord {
    ghost use Rattle.trace_reader.specs.LineWords.{reply_word};

    ghost text = { reply_word };

    fn word(self) -> &'static str {
        match self {
            ReplyWord::Deadlock => "deadlock",
            ReplyWord::NotNow => "notnow",
            ReplyWord::Ended => "ended",
            ReplyWord::Beyond => "beyond ",
            ReplyWord::Spent => "spent ",
            ReplyWord::Large => "large ",
            ReplyWord::Limit(kind) => limit_word(kind),
        }
    }
}

impl Worded for EndWord {
    ghost use Rattle.trace_reader.specs.LineWords.{ending_word};

    ghost text = { ending_word };

    fn word(self) -> &'static str {
        match self {
            EndWord::Exit => "exit",
            EndWord::Deadlock => "deadlock",
            EndWord::Waiting => "waiting",
            EndWord::Beyond => "beyond",
            EndWord::Spent => "spent ",
            EndWord::Large => "large ",
            EndWord::Limit(kind) => limit_word(kind),
        }
    }
}

/// Takes the word of an entry, if one is next.
pub fn take_entry(cursor: &mut Cursor) -> Option<EntryWord>
    ensures finds { Finds entry_word (λ word. Unit {0}) (λ rest. Unit {0}) cursor.old cursor.new (λ word. result ≡ Some word) }
    ensures kept { IsSome cursor.new → IsSome cursor.old }
{
    take_first(cursor, &ENTRIES)
}

/// Takes the word of a reply, if one is next.
pub fn take_reply(cursor: &mut Cursor) -> Option<ReplyWord>
    ensures finds { Finds reply_word (λ word. Unit {0}) (λ rest. Unit {0}) cursor.old cursor.new (λ word. result ≡ Some word) }
    ensures kept { IsSome cursor.new → IsSome cursor.old }
{
    take_first(cursor, &REPLIES)
}

/// Takes the word of an end, if one is next.
pub fn take_end(cursor: &mut Cursor) -> Option<EndWord>
    ensures finds { Finds ending_word (λ word. Unit {0}) (λ rest. Unit {0}) cursor.old cursor.new (λ word. result ≡ Some word) }
    ensures kept { IsSome cursor.new → IsSome cursor.old }
{
    take_first(cursor, &ENDS)
}
