// Sources: in memory, and over a file.

use lotos_outside::memory_source::MemorySource;
use lotos_outside::source::{Source, SourceFault};
use lotos_outside::stream_source::StreamSource;
use std::fs;
use std::test::Fail;

fn two_pieces(rt: &HostRuntime, fails: &[u64]) -> Result<MemorySource, Fail> {
    let mut pieces = Vec::new(rt.alloc());
    for piece in ["abc", "", "de"] {
        pieces.push(Vec::from_slice(rt.alloc(), piece.as_bytes())?)?;
    }
    Ok(MemorySource::new(pieces, Vec::from_slice(rt.alloc(), fails)?))
}

#[test]
fn a_call_gives_at_most_the_rest_of_one_piece(rt: HostRuntime) -> Result<(), Fail> {
    let mut source = two_pieces(&rt, &[])?;
    let mut piece = [b'-'; 2];
    for (count, due) in [(2, b"ab"), (1, b"cb"), (2, b"de"), (0, b"de")] {
        assert_eq!(rt; source.read(&mut piece), Ok(count));
        assert_eq!(rt; piece.as_slice(), due.as_slice());
    }
    Ok(())
}

// Whether of three calls of a source the one with this number fails, and loses no byte.
fn fails_at(rt: &HostRuntime, failing: u64) -> Result<bool, Fail> {
    let mut source = two_pieces(rt, &[failing])?;
    let mut piece = [0; 1];
    for call in [1, 2, 3] {
        let due = if call == failing {
            Err(SourceFault::Failed)
        } else {
            Ok(1)
        };
        if source.read(&mut piece) != due {
            return Ok(false);
        }
    }
    Ok(source.read(&mut piece) == Ok(1) && piece == [b'c'])
}

#[test]
fn each_call_can_be_told_to_fail(rt: HostRuntime) -> Result<(), Fail> {
    for failing in [1, 2, 3] {
        assert!(rt; fails_at(&rt, failing)?, "call {failing}");
    }
    Ok(())
}

#[test]
fn a_file_is_read_to_its_end(rt: HostRuntime) -> Result<(), Fail> {
    fs::write(&rt, "input", "abc")?;
    let mut source = StreamSource::new(fs::open(&rt, "input")?);
    let mut piece = [0; 2];
    for count in [2, 1, 0] {
        assert_eq!(rt; source.read(&mut piece), Ok(count));
    }
    assert_eq!(rt; piece, *b"cb");
    Ok(())
}

#[test]
fn a_file_that_is_only_written_to_fails(rt: HostRuntime) -> Result<(), Fail> {
    let mut source = StreamSource::new(fs::create(&rt, "output")?);
    let mut piece = [0; 2];
    assert_eq!(rt; source.read(&mut piece), Err(SourceFault::Failed));
    Ok(())
}
