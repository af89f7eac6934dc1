// Fixed words.

ghost use Rattle.std.specs.Prelude.{◌≡◌, ◌++◌, OnOk, string_bytes};

use spec_core::memory::Memory;

// Appends a fixed word.
pub fn put(out: &mut String, word: &str) -> Result<(), Memory>
    ensures { OnOk result (string_bytes out.new ≡ string_bytes out.old ++ word.now) }
{
    Ok(out.push_str(word)?)
}
