// The text of a log.

ghost use Rattle.std.specs.Prelude.{◌≡◌, ◌++◌, IfOk, OnOk, codes, map, string_bytes};
ghost use Rattle.spec_core.specs.Code.{program_of};
ghost use Rattle.rule_model.specs.Events.{event_of, ending_of};
ghost use Rattle.rule_model.specs.Logs.{events_of};
ghost use Rattle.trace_text.specs.Formats as formats;
ghost use Rattle.trace_text.specs.Formats.{log_text, nothing_before, trace_bytes};
ghost use Rattle.trace_text.specs.Trace.{begun_bytes, end_word};
ghost use Rattle.trace_text.specs.Names.{names_in};
ghost use Rattle.value_text.specs.Vocabularies.{IsWhole};
ghost use Rattle.trace_text.specs.Names.{names_with};

use crate::entry::put_end_word;
use crate::format::Format;
use crate::lines::LinesBefore;
use crate::pieces::put;
use rule_model::log::{End, Entry, Log};
use spec_core::code::Checked;
use spec_core::memory::Memory;
use std::alloc::Global;
use value_text::vocabulary::Vocabulary;

// Appends the last line.
fn put_end(out: &mut String, vocabulary: &Vocabulary, end: &End) -> Result<(), Memory>
    ensures { OnOk result (string_bytes out.new ≡
        string_bytes out.old ++ (codes "end " ++ end_word (names_with vocabulary.now) (ending_of end.now) ++ codes "\n")) }
{
    put(out, "end ")?;
    put_end_word(out, vocabulary, end)?;
    put(out, "\n")
}

/// The first line of a trace in a format, with its LF.
pub fn first_line(format: Format) -> &'static str
    ensures { result.now ≡ formats.first_line format }
{
    match format {
        Format::One => "lotos-trace 1\n",
        Format::Two => "lotos-trace 2\n",
    }
}

// Appends the lines of a log in a format.
fn put_log(
    out: &mut String,
    vocabulary: &Vocabulary,
    entries: &[Entry],
    format: Format,
) -> Result<(), Memory>
    requires whole { IsWhole vocabulary.now }
    ensures { OnOk result (string_bytes out.new ≡
        string_bytes out.old ++ log_text (names_with vocabulary.now) format nothing_before (map event_of entries.now)) }
{
    let mut lines = LinesBefore::new(*out.allocator(), format);
    for entry in entries {
        lines.put_entry(out, vocabulary, entry)?;
    }
    Ok(())
}

/// The text of a log and of how it ended in a format, in the names of a specification.
///
/// A gate, a sort or an operation that the specification doesn't declare has an empty name there.
pub fn print_log(
    alloc: Global,
    log: &Log,
    end: &End,
    format: Format,
    checked: &Checked,
) -> Result<String, Memory>
    ensures text { IfOk result (λ text.
        string_bytes text ≡ trace_bytes (names_in (program_of checked.now)) format (events_of log.now) (ending_of end.now)) }
{
    let vocabulary = Vocabulary::new(alloc, checked)?;
    let mut out = String::new(alloc);
    put(&mut out, first_line(format))?;
    put_log(&mut out, &vocabulary, log.as_slice(), format)?;
    put_end(&mut out, &vocabulary, end)?;
    Ok(out)
}

/// The text of a log that may go on: a trace without the line that tells how it ended, in format 1.
pub fn print_entries(alloc: Global, entries: &[Entry], checked: &Checked) -> Result<String, Memory>
    ensures text { IfOk result (λ text.
        string_bytes text ≡ begun_bytes (names_in (program_of checked.now)) (map event_of entries.now)) }
{
    let vocabulary = Vocabulary::new(alloc, checked)?;
    let mut out = String::new(alloc);
    put(&mut out, first_line(Format::One))?;
    put_log(&mut out, &vocabulary, entries, Format::One)?;
    Ok(out)
}
