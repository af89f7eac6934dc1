// Names of gates and of sorts.

ghost use Rattle.std.specs.Prelude.{◌≡◌, ◌<◌, ◌≤◌, IfOk, IsSome, OnOk, length};
ghost use Rattle.spec_core.specs.Lists.{Each, NoTwo};
ghost use Rattle.spec_core.specs.Names.{IsIdentifier, IsSameName};
ghost use Rattle.value_text.specs.Values.{name_at};
ghost use Rattle.value_text.proofs.Names.{EndsTerm};
ghost use Rattle.trace_reader.specs.Cursors.{Finds, size};

use crate::cursor::Cursor;
use spec_core::memory::Memory;
use spec_core::name::Name;

/// One of these names, as its place among them.
pub fn read_named(cursor: &mut Cursor, names: &[Name]) -> Result<u32, Memory>
    requires identifiers { Each IsIdentifier names.now }
    requires differ { NoTwo IsSameName names.now }
    ensures finds { IfOk result (λ place.
        Finds (name_at names.now) (λ i. i < length names.now) EndsTerm cursor.old cursor.new (λ i. place ≡ i)) }
    ensures fits { IfOk result (λ place. IsSome cursor.new → place < length names.now) }
    ensures kept { OnOk result (IsSome cursor.new → IsSome cursor.old) }
    ensures fewer { OnOk result (size cursor.new ≤ size cursor.old) }
{
    for (i, name) in names.iter().enumerate() {
        if cursor.takes_name(name.as_str().as_bytes()) {
            return match u32::try_from(i) {
                Ok(place) => Ok(place),
                Err(_) => Err(Memory),
            };
        }
    }
    cursor.lose();
    Ok(0)
}
