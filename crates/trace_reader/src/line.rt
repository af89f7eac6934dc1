// Lines of a trace.

ghost use Rattle.std.specs.Prelude.{ℕ, ◌≡◌, ◌∷◌, ◌++◌, ◌↔◌, IfOk, IfNone, IfSome, IsTrue, List, MatchOption, OnOk, true, false};
ghost use Rattle.rule_model.specs.Events.{Ending, ending_of, event_of};
ghost use Rattle.spec_core.specs.Code.{program_of};
ghost use Rattle.trace_text.specs.Fits.{EndingFits, EventFits};
ghost use Rattle.trace_text.specs.Formats.{Before, behind};
ghost use Rattle.trace_text.specs.Names.{names_with};
ghost use Rattle.trace_text.specs.Standing.{StandsBehind};
ghost use Rattle.trace_text.specs.Trace.{end_word};
ghost use Rattle.trace_reader.specs.Cursors.{IsReadable};
ghost use Rattle.trace_reader.specs.Entries.{IsNumbered};
ghost use Rattle.trace_reader.specs.LineSays.{IsNoEntry, IsNoLine, IsOnlyEntry, LineFits, LineIs, LineNumbered};
ghost use Rattle.trace_reader.specs.Lines.{IsOneLine};
ghost use Rattle.trace_reader.specs.Reaching.{Reaches};

use crate::cursor::Cursor;
use crate::entry::read_entry;
use crate::reply::read_end;
use crate::value::{DEEPEST_LINE, nesting};
use rule_model::log::{End, Entry};
use spec_core::memory::Memory;
use std::alloc::Global;
use trace_text::{Format, LinesBefore, put_end_word};
use value_text::vocabulary::Vocabulary;

/// What a line says.
#[derive(Drop)]
pub enum Line {
    /// An entry of the log.
    Says(Entry),
    /// How the session ended.
    Ends(End),
}

/// The first line of a text, without its LF, and what is behind it, if a line ends in the text.
pub fn first_line(text: &[u8]) -> Option<(&[u8], &[u8])>
    ensures { MatchOption result (IsOneLine text.now) (λ r. IsOneLine r.0.now × (text.now ≡ r.0.now ++ (10 ∷ r.1.now))) }
{
    for (i, byte) in text.iter().enumerate() {
        if *byte == b'\n' {
            let (line, _) = text.split_at(i);
            let (_, behind) = text.split_at(i + 1);
            return Some((line, behind));
        }
    }
    None
}

// The entry with this line, if there can be one.
fn entry_in(
    alloc: Global,
    vocabulary: &Vocabulary,
    line: &[u8],
    format: Format,
    tree: &[u8],
    actions: u64,
) -> Result<Option<Entry>, Memory>
    requires readable { IsReadable vocabulary.now }
    ensures only { IfOk result (λ found. IfSome found (λ entry.
        IsOnlyEntry (program_of vocabulary.now.checked.now) format tree.now line.now (event_of entry))) }
    ensures fits { IfOk result (λ found. IfSome found (λ entry. EventFits (program_of vocabulary.now.checked.now) (event_of entry))) }
    ensures numbered { IfOk result (λ found. IfSome found (λ entry. IsNumbered actions (event_of entry))) }
    ensures none { IfOk result (λ found.
        IfNone found (IsNoEntry (program_of vocabulary.now.checked.now) format tree.now line.now)) }
{
    if nesting(line) > DEEPEST_LINE {
        return Err(Memory);
    }
    let mut cursor = Cursor::new(line);
    let entry = read_entry(alloc, vocabulary, &mut cursor, format, tree, actions)?;
    if cursor.is_lost() {
        return Ok(None);
    }
    Ok(Some(entry))
}

// The end with this word, if there is one.
fn end_in(alloc: Global, vocabulary: &Vocabulary, word: &[u8]) -> Result<Option<End>, Memory>
    requires readable { IsReadable vocabulary.now }
    ensures spelled { IfOk result (λ found. IfSome found (λ end. word.now ≡ end_word (names_with vocabulary.now) (ending_of end))) }
    ensures fits { IfOk result (λ found. IfSome found (λ end. EndingFits (program_of vocabulary.now.checked.now) (ending_of end))) }
    ensures none { IfOk result (λ found. IfNone found ((ending : Ending) →
        EndingFits (program_of vocabulary.now.checked.now) ending → word.now ≡ end_word (names_with vocabulary.now) ending → ⊥)) }
{
    let mut cursor = Cursor::new(word);
    let end = read_end(alloc, vocabulary, &mut cursor)?;
    if cursor.is_lost() {
        return Ok(None);
    }
    let mut printed = String::new(alloc);
    put_end_word(&mut printed, vocabulary, &end)?;
    if is_same(word, printed.as_str().as_bytes()) {
        Ok(Some(end))
    } else {
        Ok(None)
    }
}

// Whether two texts are equal.
fn is_same(text: &[u8], other: &[u8]) -> bool
    ensures { IsTrue result ↔ (text.now ≡ other.now) }
{
    text == other
}

/// What a line says, if it can be one of a trace: the end that has it, or the one entry that may have it.
pub fn read_line(
    alloc: Global,
    vocabulary: &Vocabulary,
    line: &[u8],
    format: Format,
    tree: &[u8],
    actions: u64,
) -> Result<Option<Line>, Memory>
    requires readable { IsReadable vocabulary.now }
    ensures spelled { IfOk result (λ found. IfSome found (
        LineIs (program_of vocabulary.now.checked.now) format tree.now line.now)) }
    ensures fits { IfOk result (λ found. IfSome found (LineFits (program_of vocabulary.now.checked.now))) }
    ensures numbered { IfOk result (λ found. IfSome found (LineNumbered actions)) }
    ensures none { IfOk result (λ found.
        IfNone found (IsNoLine (program_of vocabulary.now.checked.now) format tree.now line.now)) }
{
    match line.strip_prefix(b"end ".as_slice()) {
        None => match entry_in(alloc, vocabulary, line, format, tree, actions)? {
            None => Ok(None),
            Some(entry) => Ok(Some(Line::Says(entry))),
        },
        Some(word) => match end_in(alloc, vocabulary, word)? {
            None => Ok(None),
            Some(end) => Ok(Some(Line::Ends(end))),
        },
    }
}

/// How far the lines of an entry are those with which a text begins.
#[derive(Clone, Copy)]
pub enum Reach<'a> {
    /// All of them, and this is behind them.
    All(&'a [u8]),
    /// Its own line, and not that of the point behind it.
    Line,
    /// Not its own line.
    Nothing,
}

/// How far the lines of an entry, behind those that were written, are those with which a text begins; they are then written too.
pub fn compare<'a>(
    alloc: Global,
    vocabulary: &Vocabulary,
    lines: &mut LinesBefore,
    entry: &Entry,
    line: &[u8],
    text: &'a [u8],
) -> Result<Reach<'a>, Memory>
    requires readable { IsReadable vocabulary.now }
    requires fits { EventFits (program_of vocabulary.now.checked.now) (event_of entry.now) }
    ensures reach { IfOk result (λ r. (before : Before) → StandsBehind lines.old before →
        Reaches (program_of vocabulary.now.checked.now) lines.old.format before (event_of entry.now) line.now text.now r) }
    ensures stands { OnOk result ((before : Before) → StandsBehind lines.old before →
        StandsBehind lines.new (behind (names_with vocabulary.now) before (event_of entry.now))) }
    ensures format { OnOk result (lines.new.format ≡ lines.old.format) }
{
    let mut printed = String::new(alloc);
    lines.put_entry(&mut printed, vocabulary, entry)?;
    let printed = printed.as_str().as_bytes();
    match text.strip_prefix(printed) {
        Some(behind) => Ok(Reach::All(behind)),
        None => {
            if begins_with(printed, line) {
                return Ok(Reach::Line);
            }
            Ok(Reach::Nothing)
        }
    }
}

// Whether this is the first line of a text.
fn begins_with(text: &[u8], line: &[u8]) -> bool
    ensures first { result ≡ true → (rest : List ℕ) × (text.now ≡ line.now ++ (10 ∷ rest)) }
    ensures other { result ≡ false → (rest : List ℕ) → IsOneLine line.now → text.now ≡ line.now ++ (10 ∷ rest) → ⊥ }
{
    match first_line(text) {
        None => false,
        Some((first, _)) => is_same(first, line),
    }
}
