// The call.

ghost use Rattle.std.specs.Prelude.{IfOk};
ghost use Rattle.spec_core.specs.Code.{program_of};
ghost use Rattle.spec_core.specs.Ready.{IsReady};
ghost use Rattle.command_migrate.specs.Migrations.{Comes};

use crate::answer::Answer;
use spec_core::code::Checked;
use spec_core::memory::Memory;
use std::alloc::Global;
use trace_reader::{Trace, TraceFault, read_trace};
use trace_text::{Format, print_log};

/// The trace in format 2 of the log and the end whose trace, in either format, a text is. Whether the log is a derivation isn't asked.
pub fn migrate_text(alloc: Global, checked: &Checked, text: &[u8]) -> Result<Answer, Memory>
    requires ready { IsReady (program_of checked.now) }
    ensures comes { IfOk result (Comes (program_of checked.now) text.now) }
{
    match read_trace(alloc, text, checked) {
        Ok(
            Trace {
                log,
                end,
                format: _,
            },
        ) => Ok(Answer::Migrated(print_log(alloc, &log, &end, Format::Two, checked)?)),
        Err(TraceFault::Line { line, kind }) => Ok(Answer::Refused { line, kind }),
        Err(TraceFault::Memory) => Err(Memory),
    }
}
