use crate::{Status, run};
use craft_io::{MemorySink, MemorySource};
use std::alloc::{AllocError, Global};
use std::process::Abort;
use std::test::Fail;
use std::thread::Threads;
use test_crafts::craft_file as craft;
use test_texts::{EASY, INNOVATION, PERFECTION, TOUCH, TWO_TOUCHES};
use worker_gate::FreeGate;

// The numbers of a craft with base values of 100: level, CP, durability, progress and quality.
const ONE_TOUCH: [u32; 5] = [5, 18, 20, 100, 500];

// The numbers of the calls of the source and of `out` that fail, where 0 is none.
#[derive(Clone, Copy)]
struct Devices {
    read: u64,
    write: u64,
}

const SOUND: Devices = Devices { read: 0, write: 0 };

// Reads in pieces of 10 bytes and writes in pieces of 5.
fn gives<R: AllocGlobal + Abort + Threads + Sync>(
    rt: &R,
    words: &[&str],
    file: &str,
    devices: Devices,
    want: (Status, &str, &str),
) -> Result<(), Fail> {
    let (status, text, line) = want;
    let mut given = Vec::new(rt.alloc());
    for word in words {
        given.push(String::from_str(rt.alloc(), *word)?)?;
    }
    let mut room = [0; 1024];
    let mut line_room = [0; 128];
    let (read, write) = ([devices.read], [devices.write]);
    let mut source = MemorySource::new(file.as_bytes(), 10, &read);
    let mut out = MemorySink::new(&mut room, 5, &write);
    let mut err = MemorySink::new(&mut line_room, 5, &[]);
    let answer = run(
        rt,
        rt.alloc(),
        &given,
        &mut source,
        &mut out,
        &mut err,
        &FreeGate,
    );
    assert_eq!(rt; answer, status);
    assert_eq!(rt; out.taken(), text.as_bytes());
    assert_eq!(rt; err.taken(), line.as_bytes());
    Ok(())
}

// The text without the line that counts prefixes.
fn uncounted(alloc: Global, text: &str) -> Result<String, AllocError> {
    let mut rest = String::new(alloc);
    for line in text.lines() {
        if !line.starts_with("kept ") {
            rest.push_str(line)?;
            rest.push('\n')?;
        }
    }
    Ok(rest)
}

#[test]
fn crafts(rt: HostRuntime) -> Result<(), Fail> {
    for (numbers, text) in [
        ([1, 0, 10, 100, 100], EASY),
        (ONE_TOUCH, TOUCH),
        ([11, 36, 30, 100, 500], TWO_TOUCHES),
        ([26, 54, 20, 150, 500], INNOVATION),
        ([100, 18, 10, 360, 0], PERFECTION),
    ] {
        let file = craft(rt.alloc(), numbers)?;
        let text = uncounted(rt.alloc(), text)?;
        gives(&rt, &[], &file, SOUND, (Status::Solved, &text, ""))?;
    }
    let file = craft(rt.alloc(), [1, 0, 10, 101, 100])?;
    gives(&rt, &[], &file, SOUND, (Status::NoMacro, "none\n", ""))
}

#[test]
fn any_number_of_workers(rt: HostRuntime) -> Result<(), Fail> {
    let file = craft(rt.alloc(), [26, 54, 20, 150, 500])?;
    let text = uncounted(rt.alloc(), INNOVATION)?;
    for workers in ["1", "2", "4", "64"] {
        let words = ["--workers", workers];
        gives(&rt, &words, &file, SOUND, (Status::Solved, &text, ""))?;
    }
    gives(
        &rt,
        &["--workers=3"],
        &file,
        SOUND,
        (Status::Solved, &text, ""),
    )
}

#[test]
fn refuses_words(rt: HostRuntime) -> Result<(), Fail> {
    let bad = (Status::BadWords, "", "words: not understood\n");
    gives(&rt, &["solve"], "", SOUND, bad)?;
    gives(&rt, &["--grain", "2"], "", SOUND, bad)?;
    gives(&rt, &["--workers"], "", SOUND, bad)?;
    gives(&rt, &["--workers", "65"], "", SOUND, bad)?;
    gives(&rt, &["--workers=1", "--workers=1"], "", SOUND, bad)?;
    gives(&rt, &["--"], "", SOUND, bad)
}

#[test]
fn tells_faults(rt: HostRuntime) -> Result<(), Fail> {
    let file = craft(rt.alloc(), ONE_TOUCH)?;
    let missing = (
        Status::BadSettings,
        "",
        "settings: missing key crafter.level\n",
    );
    gives(&rt, &[], "", SOUND, missing)?;
    let devices = Devices { read: 2, write: 0 };
    let read = (Status::ReadFault, "", "input: read failed\n");
    gives(&rt, &[], &file, devices, read)?;
    let devices = Devices { read: 0, write: 2 };
    let written = (Status::WriteFault, "steps", "output: write failed\n");
    gives(&rt, &[], &file, devices, written)
}
