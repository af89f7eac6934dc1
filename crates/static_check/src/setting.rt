// What all bodies are read by.

ghost use Rattle.std.specs.Prelude.{map};
ghost use Rattle.static_processes.specs.NamedParts.{AreNamedPartsOf};
ghost use Rattle.static_processes.specs.Views.{entry_of};
ghost use Rattle.static_readings.specs.Views.{heading_of};

use static_processes::entry::Entry;
use static_processes::named_parts::NamedParts;
use static_readings::heading::Heading;

/// What all bodies are read by.
#[derive(Drop)]
pub struct Setting<'a, 'h> {
    /// How many gates the specification has.
    pub gates: u32,
    /// All processes.
    pub table: &'a [Entry<'a>],
    /// Their headings, by their numbers.
    pub headings: &'a [Heading],
    /// Them by the `where` parts in which they stand.
    pub parts: &'a NamedParts<'h>,
    ghost parted: { AreNamedPartsOf parts.now (map heading_of headings.now) (map entry_of table.now) },
}
