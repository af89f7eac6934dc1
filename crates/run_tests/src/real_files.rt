// The whole call over real files.

use crate::call::{STOP, STOP_TRACE, Unwatched, no_input, words_of};
use lotos_outside::file_shelf::FileShelf;
use lotos_outside::stream_sink::StreamSink;
use lotos_run::lotos_main;
use lotos_run::status::Status;
use std::fs;
use std::test::Fail;

const NOBODY: &[u8] = b"# nobody\n";

#[test]
fn real_files_are_run(rt: HostRuntime) -> Result<(), Fail> {
    fs::write(&rt, "spec.lotos", STOP)?;
    fs::write(&rt, "script.txt", NOBODY)?;
    let words = words_of(&rt, &["run", "spec.lotos", "script.txt"])?;
    let mut shelf = FileShelf::new(&rt);
    let mut out = StreamSink::new(fs::create(&rt, "trace.txt")?);
    let status = lotos_main(
        &rt,
        &words,
        &mut shelf,
        &mut no_input(&rt),
        &mut out,
        &Unwatched,
    );
    assert_eq!(rt; status, Status::Done);
    assert_eq!(rt; fs::read(&rt, "trace.txt")?.as_slice(), STOP_TRACE);
    Ok(())
}
