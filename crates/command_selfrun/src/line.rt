// The line that tells of a session.

ghost use Rattle.std.specs.Prelude.{◌≡◌, ◌++◌, IfOk, OnOk, string_bytes};
ghost use Rattle.spec_core.specs.Code.{program_of};
ghost use Rattle.rule_model.specs.Events.{ending_of};
ghost use Rattle.rule_model.specs.Logs.{events_of};
ghost use Rattle.command_selfrun.specs.Lines.{counts_text, line_of};

use crate::counting::counts_of;
use crate::counts::Counts;
use rule_model::log::{End, Log};
use spec_core::code::Checked;
use spec_core::memory::Memory;
use std::alloc::Global;
use trace_text::put_end_word;
use value_text::vocabulary::Vocabulary;

// Appends what there was of each kind.
fn put_counts(out: &mut String, counts: Counts) -> Result<(), Memory>
    ensures { OnOk result (string_bytes out.new ≡ string_bytes out.old ++ counts_text counts) }
{
    let actions = counts.actions;
    let taken = counts.taken;
    let internal = counts.internal;
    let other = counts.other;
    Ok(write!(
        out,
        "actions {actions} taken {taken} internal {internal} other {other} end "
    )?)
}

/// The line that tells of a session: how many actions there were, how many of them took an offer and how many were internal, how many offers
/// were answered but not taken, and how the session ended, in the names of the specification.
pub fn counts_line(alloc: Global, log: &Log, end: &End, checked: &Checked) -> Result<String, Memory>
    ensures { IfOk result (λ text.
        string_bytes text ≡ line_of (program_of checked.now) (events_of log.now) (ending_of end.now)) }
{
    let vocabulary = Vocabulary::new(alloc, checked)?;
    let counts = counts_of(log.as_slice())?;
    let mut out = String::new(alloc);
    put_counts(&mut out, counts)?;
    put_end_word(&mut out, &vocabulary, end)?;
    out.push_str("\n")?;
    Ok(out)
}
