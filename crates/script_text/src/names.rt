// Items by their names.

ghost use Rattle.std.specs.Prelude.{◌≡◌, IfOk};
ghost use Rattle.sort_overloads.specs.Listed.{is_same_name};
ghost use Rattle.script_text.specs.Meanings.{first_named};

use spec_core::memory::Memory;
use spec_core::name::Name;

// Whether a name is this one, letters of ASCII without case.
pub fn has_name(other: &Name, name: &str) -> bool
    ensures { result ≡ is_same_name other.now name.now }
{
    other.as_str().eq_ignore_ascii_case(name)
}

// The place of the first of the names that is this one.
fn place_of(name: &str, names: &[Name]) -> Option<usize>
    ensures { result ≡ first_named name.now names.now }
{
    names.iter().position(|other| has_name(other, name))
}

// The number of the first of the names that is this one. A number of 2^32 or more has no place in memory.
pub fn first_named(name: &str, names: &[Name]) -> Result<Option<u32>, Memory>
    ensures { IfOk result (λ found. found ≡ first_named name.now names.now) }
{
    match place_of(name, names) {
        None => Ok(None),
        Some(place) => match u32::try_from(place) {
            Ok(number) => Ok(Some(number)),
            Err(_) => Err(Memory),
        },
    }
}
