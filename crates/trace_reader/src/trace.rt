// Whole traces.

ghost use Rattle.std.specs.Prelude.{ℕ, ◌≡◌, ◌≢◌, ◌+◌, ◌≤◌, ◌<◌, ◌^◌, ◌++◌, [], IfErr, IfOk, List, MatchOption, length};
ghost use Rattle.lotos_ast.specs.declared.text_kind.TextKind.TheVariants.{Form};
ghost use Rattle.rule_model.specs.Events.{ending_of};
ghost use Rattle.rule_model.specs.Logs.{events_of};
ghost use Rattle.spec_core.specs.Code.{program_of};
ghost use Rattle.spec_core.specs.Ready.{AreNamed};
ghost use Rattle.spec_core.specs.Sorts.{FitsData};
ghost use Rattle.trace_text.specs.Formats as formats;
ghost use Rattle.trace_text.specs.Formats.{Before, first_line};
ghost use Rattle.trace_text.specs.Standing.{StandsBehind};
ghost use Rattle.trace_text.specs.declared.format.Format as formats_of;
ghost use Rattle.trace_reader.specs.Cursors.{IsReadable};
ghost use Rattle.trace_reader.specs.Traces.{IsFault, IsTrace, trace_limit};

use crate::fault::TraceFault;
use crate::line::{Line, Reach, compare, first_line, read_line};
use lotos_ast::text_kind::TextKind;
use rule_model::log::{End, Log};
use spec_core::code::Checked;
use std::alloc::Global;
use trace_text::{Format, LinesBefore, first_line as first_line_of, line_number};
use value_text::vocabulary::Vocabulary;

/// The greatest number of bytes in a trace.
pub const TRACE_LIMIT: usize = 67_108_864;

/// A trace: a log, and how it ended, and the format of the text.
#[derive(Drop)]
pub struct Trace {
    pub log: Log,
    pub end: End,
    pub format: Format,
}

// The fault of a line of this number.
fn bad(number: u64) -> TraceFault
    ensures { result ≡ TraceFault.Line number Form }
{
    TraceFault::Line {
        line: number,
        kind: TextKind::Form,
    }
}

// The number of the line behind those of a log.
fn next_line(format: Format, log: &Log, before: &LinesBefore) -> u64
    ensures { (b : Before) → StandsBehind before.now b → result ≡ formats.line_number format (length (events_of log.now)) b.actions }
{
    line_number(format, log.as_slice().len(), before.actions())
}

// The trace whose last line has this number, if nothing is behind it.
fn ended(
    log: Log,
    end: End,
    format: Format,
    behind: &[u8],
    number: u64,
) -> Result<Trace, TraceFault>
    requires few { number < 2 ^ 32 }
    ensures trace { IfOk result (λ t.
        (t.format ≡ format) × (events_of t.log ≡ events_of log) × (ending_of t.end ≡ ending_of end) × (behind.now ≡ [])) }
    ensures fault { IfErr result (λ f. (f ≡ TraceFault.Line (number + 1) Form) × (behind.now ≡ [] → ⊥)) }
{
    if behind.is_empty() {
        Ok(Trace { log, end, format })
    } else {
        Err(bad(number + 1))
    }
}

// The trace in a format of which the first line and the given text are the lines.
fn read_lines(
    alloc: Global,
    vocabulary: &Vocabulary,
    format: Format,
    lines: &[u8],
) -> Result<Trace, TraceFault>
    requires readable { IsReadable vocabulary.now }
    requires short { length (first_line format ++ lines.now) ≤ trace_limit }
    ensures trace { IfOk result (λ t. IsTrace (program_of vocabulary.now.checked.now) (first_line format ++ lines.now) t.format
        (events_of t.log) (ending_of t.end)) }
    ensures fault { IfErr result (IsFault (program_of vocabulary.now.checked.now) (first_line format ++ lines.now)) }
{
    let mut log = Log::new(alloc);
    let mut before = LinesBefore::new(alloc, format);
    let mut rest = lines;
    'lines: while let Some((line, behind)) = first_line(rest) {
        let number = next_line(format, &log, &before);
        match read_line(
            alloc,
            vocabulary,
            line,
            format,
            before.tree(),
            before.actions(),
        )? {
            None => return Err(bad(number)),
            Some(Line::Ends(end)) => return ended(log, end, format, behind, number),
            Some(Line::Says(entry)) => {
                match compare(alloc, vocabulary, &mut before, &entry, line, rest)? {
                    Reach::Nothing => return Err(bad(number)),
                    Reach::Line => return Err(bad(number + 1)),
                    Reach::All(further) => {
                        log.push(entry)?;
                        rest = further;
                    }
                }
            }
        }
    }
    Err(bad(next_line(format, &log, &before)))
}

// What stands behind the first line of a format, if a text begins with it.
fn behind_first(text: &[u8], format: Format) -> Option<&[u8]>
    ensures { MatchOption result ((lines : List ℕ) → text.now ≢ first_line format ++ lines)
        (λ lines. text.now ≡ first_line format ++ lines.now) }
{
    text.strip_prefix(first_line_of(format).as_bytes())
}

// The format that the first line of a text tells, and the lines behind it.
fn first_format(text: &[u8]) -> Option<(Format, &[u8])>
    ensures { MatchOption result ((format : formats_of.Format) (lines : List ℕ) → text.now ≢ first_line format ++ lines)
        (λ r. text.now ≡ first_line r.0 ++ r.1.now) }
{
    match behind_first(text, Format::One) {
        Some(lines) => Some((Format::One, lines)),
        None => match behind_first(text, Format::Two) {
            Some(lines) => Some((Format::Two, lines)),
            None => None,
        },
    }
}

/// The log and the end whose trace the text is, and its format; or the first line with which no trace of the specification goes on.
///
/// A log has one trace in each format and a trace one log: the text is what `trace_text::print_log` prints of the answer, byte by byte. It is
/// read line by line, without recursion in the number of lines. A tree of rules, or the term of a reply, that is nested deeper than 98,304
/// levels isn't read, nor is a line or a tree with round brackets more than 163,840 levels deep, and the answer is then want of memory.
pub fn read_trace(alloc: Global, text: &[u8], checked: &Checked) -> Result<Trace, TraceFault>
    requires fits { FitsData (program_of checked.now).theory }
    requires named { AreNamed (program_of checked.now) }
    ensures trace { IfOk result (λ t. IsTrace (program_of checked.now) text.now t.format (events_of t.log) (ending_of t.end)) }
    ensures fault { IfErr result (IsFault (program_of checked.now) text.now) }
{
    if text.len() > TRACE_LIMIT {
        return Err(TraceFault::Line {
            line: 0,
            kind: TextKind::Long,
        });
    }
    match first_format(text) {
        None => Err(bad(1)),
        Some((format, lines)) => {
            let vocabulary = Vocabulary::new(alloc, checked)?;
            read_lines(alloc, &vocabulary, format, lines)
        }
    }
}
