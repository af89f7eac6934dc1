// Shelves in memory.

use lotos_outside::memory_shelf::MemoryShelf;
use lotos_outside::shelf::{Shelf, ShelfFault};
use std::test::Fail;

fn two_files(rt: &HostRuntime, fails: &[u64]) -> Result<MemoryShelf, Fail> {
    let mut files = Vec::new(rt.alloc());
    for (name, text) in [("a", "first"), ("a", "second")] {
        let name = String::from_str(rt.alloc(), name)?;
        files.push((name, Vec::from_slice(rt.alloc(), text.as_bytes())?))?;
    }
    Ok(MemoryShelf::new(files, Vec::from_slice(rt.alloc(), fails)?))
}

// What stands in a vector after two fetches of a file's first bytes, with a mark behind each whose outcome is another.
fn fetched(
    rt: &HostRuntime,
    name: &str,
    most: [usize; 2],
    due: Result<(), ShelfFault>,
) -> Result<Vec<u8>, Fail> {
    let mut shelf = two_files(rt, &[])?;
    let mut into = Vec::from_slice(rt.alloc(), b"> ")?;
    for count in most {
        if shelf.fetch(name, count, &mut into) != due {
            into.push(b'!')?;
        }
    }
    Ok(into)
}

#[test]
fn the_first_of_two_files_counts(rt: HostRuntime) -> Result<(), Fail> {
    let into = fetched(&rt, "a", [3, 100], Ok(()))?;
    assert_eq!(rt; into.as_slice(), b"> firfirst".as_slice());
    Ok(())
}

#[test]
fn a_name_without_file_fails(rt: HostRuntime) -> Result<(), Fail> {
    let into = fetched(&rt, "b", [3, 100], Err(ShelfFault::Failed))?;
    assert_eq!(rt; into.as_slice(), b"> ".as_slice());
    Ok(())
}

// Whether of three calls the one with this number fails, and no other.
fn fails_at(rt: &HostRuntime, failing: u64) -> Result<bool, Fail> {
    let mut shelf = two_files(rt, &[failing])?;
    for call in [1, 2, 3] {
        let due = if call == failing {
            Err(ShelfFault::Failed)
        } else {
            Ok(())
        };
        if shelf.fetch("a", 1, &mut Vec::new(rt.alloc())) != due {
            return Ok(false);
        }
    }
    Ok(true)
}

#[test]
fn each_call_can_be_told_to_fail(rt: HostRuntime) -> Result<(), Fail> {
    for failing in [1, 2, 3] {
        assert!(rt; fails_at(&rt, failing)?, "call {failing}");
    }
    Ok(())
}
