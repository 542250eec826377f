// Devices that fail under the commands that read more than settings.
use crate::Status;
use crate::certificate_tests::CERTIFICATE;
use crate::macro_tests::{PLAYED, SYNTHESIS_LINE, TOUCH_LINE};
use crate::tests::{Devices, ONE_TOUCH, READ_LINE, SOUND, WRITE_LINE, craft, gives};
use std::process::Abort;
use std::test::Fail;
use std::thread::Threads;

// The lines after a craft and the line `---`, from which the command has something to write.
fn follows(word: &str) -> [&'static str; 2] {
    match word {
        "verify" => [CERTIFICATE, ""],
        _ => [TOUCH_LINE, SYNTHESIS_LINE],
    }
}

// `out` takes the first `taken` bytes of the text.
fn fails<R: AllocGlobal + Abort + Threads + Sync>(
    rt: &R,
    word: &str,
    devices: Devices,
    status: Status,
    taken: &str,
) -> Result<(), Fail> {
    let mut input = craft(rt.alloc(), ONE_TOUCH)?;
    input.push_str("---\n")?;
    for part in follows(word) {
        input.push_str(part)?;
    }
    let line = match status {
        Status::ReadFault => READ_LINE,
        Status::WriteFault => WRITE_LINE,
        _ => "",
    };
    let want = (status, taken.as_bytes(), line);
    gives(rt, &[word], input.as_bytes(), devices, want)
}

// The input of `verify` has 198 bytes and the others 175: 20 and 18 pieces, and a call that finds the end.
#[test]
fn failing_sources(rt: HostRuntime) -> Result<(), Fail> {
    for (word, last, text) in [
        ("replay", 19, PLAYED),
        ("check", 19, "best\n"),
        ("verify", 21, "accepted\n"),
    ] {
        for (read, status, taken) in [
            (1, Status::ReadFault, ""),
            (10, Status::ReadFault, ""),
            (last, Status::ReadFault, ""),
            (last + 1, Status::Solved, text),
        ] {
            let devices = Devices { read, ..SOUND };
            fails(&rt, word, devices, status, taken)?;
        }
    }
    Ok(())
}

// The text of `replay` has 112 bytes, that of `check` is one piece, and that of `verify` two.
#[test]
fn failing_sinks(rt: HostRuntime) -> Result<(), Fail> {
    for (word, write, status, taken) in [
        ("replay", 1, Status::WriteFault, ""),
        ("replay", 12, Status::WriteFault, &PLAYED[..55]),
        ("replay", 23, Status::WriteFault, &PLAYED[..110]),
        ("replay", 24, Status::Solved, PLAYED),
        ("check", 1, Status::WriteFault, ""),
        ("check", 2, Status::Solved, "best\n"),
        ("verify", 1, Status::WriteFault, ""),
        ("verify", 2, Status::WriteFault, "accep"),
        ("verify", 3, Status::Solved, "accepted\n"),
    ] {
        let devices = Devices { write, ..SOUND };
        fails(&rt, word, devices, status, taken)?;
    }
    let devices = Devices { room: 3, ..SOUND };
    fails(&rt, "check", devices, Status::WriteFault, "bes")?;
    fails(&rt, "verify", devices, Status::WriteFault, "acc")
}
