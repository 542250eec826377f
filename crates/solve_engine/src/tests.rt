use crate::{Status, run};
use craft_io::{MemorySink, MemorySource};
use std::process::Abort;
use std::test::Fail;
use std::thread::Threads;
pub(crate) use test_crafts::craft_file as craft;
use test_parts::Meeting;
use test_texts::{
    EASY, GROUNDWORK, INNOVATION, INNOVATION_LEVELS, INNOVATION_LIMITS, MUCH_CP, MUSCLE_MEMORY,
    NO_TOUCH, ORDINARY, PERFECTION, VENERATION,
};
pub(crate) use test_texts::{TOUCH, TWO_TOUCHES};
use worker_gate::{FreeGate, Gate};

const TWO_PLAIN_TOUCHES: &str = "steps 3 seconds 9 progress 100/100 quality 200/500
kept 3
macro 1
/ac \"Basic Touch\" <wait.3>
/ac \"Basic Touch\" <wait.3>
/ac \"Basic Synthesis\" <wait.3>
replay
  1 Basic Touch               0    100  20   18
  2 Basic Touch               0    200  10    0
  3 Basic Synthesis         100    200   0    0
";

const MUCH_DURABILITY: &str = "steps 2 seconds 6 progress 100/100 quality 100/500
kept 2
macro 1
/ac \"Basic Touch\" <wait.3>
/ac \"Basic Synthesis\" <wait.3>
replay
  1 Basic Touch               0    100  90    0
  2 Basic Synthesis         100    100  80    0
";

// At grain 16 the limits are 100.
const COARSE_LIMITS: &str = "steps 3 seconds 9 progress 200/200 quality 100/500
kept 6
macro 1
/ac \"Basic Synthesis\" <wait.3>
/ac \"Basic Touch\" <wait.3>
/ac \"Basic Synthesis\" <wait.3>
replay
  1 Basic Synthesis         100      0  20   36    210
  2 Basic Touch             100    100  10   18    210
  3 Basic Synthesis         200    100   0   18    100
";

// The quality that counts is capped at the target.
const TARGET_LIMITS: &str = "steps 3 seconds 9 progress 100/100 quality 210/500
kept 3
macro 1
/ac \"Basic Touch\" <wait.3>
/ac \"Basic Touch\" <wait.3>
/ac \"Basic Synthesis\" <wait.3>
replay
  1 Basic Touch               0    100  20   18    150
  2 Basic Touch               0    210  10    0    150
  3 Basic Synthesis         100    210   0    0    150
";

const FORBIDDEN: &str = "[actions]\nforbid = [\"muscle_memory\", \"careful_synthesis\"]\n";

pub(crate) const READ_LINE: &str = "input: read failed\n";

pub(crate) const WRITE_LINE: &str = "output: write failed\n";

const NO_MACRO: (Status, &str, &str) = (Status::NoMacro, "none\n", "");

// The numbers of a craft with base values of 100: level, CP, durability, progress and quality.
pub(crate) const ONE_TOUCH: [u32; 5] = [5, 18, 20, 100, 500];

// The numbers of the calls of the source, of `out` and of `err` that fail, where 0 is none, and
// how many bytes `out` has room for.
#[derive(Clone, Copy)]
pub(crate) struct Devices {
    pub(crate) read: u64,
    pub(crate) write: u64,
    pub(crate) tell: u64,
    pub(crate) room: usize,
}

const ROOM: usize = 1024;

pub(crate) const SOUND: Devices = Devices {
    read: 0,
    write: 0,
    tell: 0,
    room: ROOM,
};

pub(crate) fn gives<R: AllocGlobal + Abort + Threads + Sync>(
    rt: &R,
    words: &[&str],
    file: &[u8],
    devices: Devices,
    want: (Status, &[u8], &str),
) -> Result<(), Fail> {
    let case = Case {
        words,
        file,
        devices,
    };
    gives_behind(rt, &FreeGate, case, want)
}

// What a run is given.
#[derive(Clone, Copy)]
struct Case<'a> {
    words: &'a [&'a str],
    file: &'a [u8],
    devices: Devices,
}

// Reads in pieces of 10 bytes and writes in pieces of 5.
fn gives_behind<R: AllocGlobal + Abort + Threads + Sync, G: Gate>(
    rt: &R,
    gate: &G,
    case: Case<'_>,
    want: (Status, &[u8], &str),
) -> Result<(), Fail> {
    let Case {
        words,
        file,
        devices,
    } = case;
    let (status, text, line) = want;
    let mut given = Vec::new(rt.alloc());
    for word in words {
        given.push(String::from_str(rt.alloc(), *word)?)?;
    }
    let mut room = [0; ROOM];
    let mut line_room = [0; 128];
    let (read, write, tell) = ([devices.read], [devices.write], [devices.tell]);
    let mut source = MemorySource::new(file, 10, &read);
    let mut out = MemorySink::new(&mut room[..devices.room.min(ROOM)], 5, &write);
    let mut err = MemorySink::new(&mut line_room, 5, &tell);
    let answer = run(
        rt,
        rt.alloc(),
        &given,
        &mut source,
        &mut out,
        &mut err,
        gate,
    );
    assert_eq!(rt; answer, status);
    assert_eq!(rt; out.taken(), text);
    assert_eq!(rt; err.taken(), line.as_bytes());
    Ok(())
}

pub(crate) fn solves<R: AllocGlobal + Abort + Threads + Sync>(
    rt: &R,
    file: &[u8],
    want: (Status, &str, &str),
) -> Result<(), Fail> {
    prints(rt, &["solve"], file, want)
}

pub(crate) fn prints<R: AllocGlobal + Abort + Threads + Sync>(
    rt: &R,
    words: &[&str],
    file: &[u8],
    want: (Status, &str, &str),
) -> Result<(), Fail> {
    let (status, text, line) = want;
    gives(rt, words, file, SOUND, (status, text.as_bytes(), line))
}

#[test]
fn crafts(rt: HostRuntime) -> Result<(), Fail> {
    for (numbers, text) in [
        ([1, 0, 10, 100, 100], EASY),
        (ONE_TOUCH, TOUCH),
        ([5, 18, 10, 100, 500], NO_TOUCH),
        ([11, 36, 30, 100, 500], TWO_TOUCHES),
        ([10, 36, 30, 100, 500], TWO_PLAIN_TOUCHES),
        ([7, 106, 20, 100, 500], MUCH_CP),
        ([5, 18, 100, 100, 500], MUCH_DURABILITY),
        ([15, 18, 20, 150, 0], VENERATION),
        ([26, 54, 20, 150, 500], INNOVATION),
        ([100, 18, 10, 360, 0], PERFECTION),
        ([86, 18, 10, 180, 0], MUSCLE_MEMORY),
    ] {
        let file = craft(rt.alloc(), numbers)?;
        solves(&rt, file.as_bytes(), (Status::Solved, text, ""))?;
    }
    let file = craft(rt.alloc(), [1, 0, 10, 101, 100])?;
    solves(&rt, file.as_bytes(), NO_MACRO)
}

#[test]
fn forbidden_actions(rt: HostRuntime) -> Result<(), Fail> {
    for (progress, want) in [(180, (Status::Solved, GROUNDWORK, "")), (181, NO_MACRO)] {
        let mut file = craft(rt.alloc(), [86, 18, 10, progress, 0])?;
        file.push_str(FORBIDDEN)?;
        solves(&rt, file.as_bytes(), want)?;
    }
    Ok(())
}

pub(crate) fn is_refused<R: AllocGlobal + Abort + Threads + Sync>(
    rt: &R,
    file: &str,
    line: &str,
) -> Result<(), Fail> {
    solves(rt, file.as_bytes(), (Status::BadSettings, "", line))
}

#[test]
fn refused_settings(rt: HostRuntime) -> Result<(), Fail> {
    for (old, new, line) in [
        ("= 20", "= 37", "37 is out of range at recipe.durability"),
        ("= 20", "= 105", "105 is out of range at recipe.durability"),
        ("= 18", "= -1", "-1 is out of range at crafter.cp"),
        (
            "18",
            "18\ncraftsmanship = 100",
            "base values and stats are both given",
        ),
        ("20", "20\nstars = 1", "unknown key recipe.stars"),
        (
            "[recipe]",
            "craftsmanship = 100\n[recipe]\nstars = 1",
            "unknown key recipe.stars",
        ),
        ("18", "\"18\"", "wrong kind of value at crafter.cp"),
        (
            "[base]",
            "[actions]\nforbid = [\"basic_tuch\"]\n[base]",
            "unknown action basic_tuch",
        ),
    ] {
        let file = craft(rt.alloc(), ONE_TOUCH)?;
        let other = file.replace(rt.alloc(), old, new)?;
        let line = format!(in rt.alloc(); "settings: {line}\n")?;
        is_refused(&rt, other.as_str(), line.as_str())?;
    }
    is_refused(&rt, "", "settings: missing key crafter.level\n")?;
    is_refused(&rt, "=", "settings: not a TOML document\n")
}

#[test]
fn longest_file(rt: HostRuntime) -> Result<(), Fail> {
    let file = craft(rt.alloc(), ONE_TOUCH)?;
    let mut bytes = file.into_bytes();
    bytes.push(b'#')?;
    bytes.resize(65536, b'x')?;
    solves(&rt, &bytes, (Status::Solved, TOUCH, ""))?;
    bytes.push(b'x')?;
    let want = (Status::BadSettings, "", "settings: too long\n");
    solves(&rt, &bytes, want)
}

// The file has 118 bytes and the text 227. `out` takes the first `taken` bytes of the text.
fn fails<R: AllocGlobal + Abort + Threads + Sync>(
    rt: &R,
    devices: Devices,
    status: Status,
    taken: usize,
    line: &str,
) -> Result<(), Fail> {
    let file = craft(rt.alloc(), ONE_TOUCH)?;
    let text = TOUCH.as_bytes();
    let text = &text[..taken.min(text.len())];
    let want = (status, text, line);
    gives(rt, &["solve"], file.as_bytes(), devices, want)
}

#[test]
fn failing_devices(rt: HostRuntime) -> Result<(), Fail> {
    for read in 1..=13 {
        let devices = Devices { read, ..SOUND };
        fails(&rt, devices, Status::ReadFault, 0, READ_LINE)?;
    }
    for earlier in 0..46u32 {
        let devices = Devices {
            write: u64::from(earlier) + 1,
            ..SOUND
        };
        let taken = 5 * earlier as usize;
        fails(&rt, devices, Status::WriteFault, taken, WRITE_LINE)?;
    }
    for (read, write, tell, room, status, taken, line) in [
        (14, 0, 0, ROOM, Status::Solved, 227, ""),
        (0, 47, 0, ROOM, Status::Solved, 227, ""),
        (0, 47, 1, ROOM, Status::Solved, 227, ""),
        (0, 0, 0, 227, Status::Solved, 227, ""),
        (0, 0, 0, 226, Status::WriteFault, 226, WRITE_LINE),
        (0, 0, 0, 100, Status::WriteFault, 100, WRITE_LINE),
        (1, 0, 1, ROOM, Status::ReadFault, 0, ""),
        (0, 2, 1, ROOM, Status::WriteFault, 5, ""),
        (0, 2, 3, ROOM, Status::WriteFault, 5, "output: wr"),
    ] {
        let devices = Devices {
            read,
            write,
            tell,
            room,
        };
        fails(&rt, devices, status, taken, line)?;
    }
    Ok(())
}

// Words that are not understood leave the source unread, so its first call does not fail.
fn is_bad<R: AllocGlobal + Abort + Threads + Sync>(rt: &R, words: &[&str]) -> Result<(), Fail> {
    let devices = Devices { read: 1, ..SOUND };
    let want = (Status::BadWords, b"".as_slice(), "words: not understood\n");
    gives(rt, words, b"", devices, want)
}

#[test]
fn given_words(rt: HostRuntime) -> Result<(), Fail> {
    is_bad(&rt, &[])?;
    is_bad(&rt, &["Solve"])?;
    is_bad(&rt, &["solve", "--"])?;
    is_bad(&rt, &["solve", "--report", "level"])?;
    is_bad(&rt, &["sample"])?;
    is_bad(&rt, &["sample", "1000000"])?;
    is_bad(&rt, &["sample", "7", "--report", "plain"])?;
    is_bad(&rt, &["replay", "--grain", "2"])?;
    is_bad(&rt, &["check", "--report", "plain"])?;
    is_bad(&rt, &["sweep", "--report", "plain"])?;
    is_bad(&rt, &["certify", "--report", "plain"])?;
    is_bad(&rt, &["verify", "--grain", "16"])?;
    let file = craft(rt.alloc(), ONE_TOUCH)?;
    let words = ["solve", "--workers=64", "--report", "plain", "--grain", "8"];
    let want = (Status::Solved, TOUCH.as_bytes(), "");
    gives(&rt, &words, file.as_bytes(), SOUND, want)
}

#[test]
fn styles(rt: HostRuntime) -> Result<(), Fail> {
    let file = craft(rt.alloc(), [26, 54, 20, 150, 500])?;
    for (words, text) in [
        (
            ["solve", "--workers=64", "--report=limits"],
            INNOVATION_LIMITS,
        ),
        (
            ["solve", "--workers=1", "--report=levels"],
            INNOVATION_LEVELS,
        ),
    ] {
        let want = (Status::Solved, text.as_bytes(), "");
        gives(&rt, &words, file.as_bytes(), SOUND, want)?;
    }
    let file = craft(rt.alloc(), [11, 36, 30, 200, 500])?;
    let words = ["solve", "--report=limits", "--grain", "1"];
    let want = (Status::Solved, COARSE_LIMITS.as_bytes(), "");
    gives(&rt, &words, file.as_bytes(), SOUND, want)?;
    let file = craft(rt.alloc(), [11, 36, 30, 100, 500])?;
    let file = file.replace(rt.alloc(), "= 500", "= 500\ntarget = 150")?;
    let want = (Status::Solved, TARGET_LIMITS.as_bytes(), "");
    gives(
        &rt,
        &["solve", "--report=limits"],
        file.as_bytes(),
        SOUND,
        want,
    )
}

const ORDINARY_FILE: &str = "[crafter]
level = 50
cp = 180
craftsmanship = 240
control = 200
[recipe]
durability = 40
progress = 150
quality = 400
progress_div = 50
quality_div = 30
";

#[test]
fn number_of_workers(rt: HostRuntime) -> Result<(), Fail> {
    for workers in ["--workers=1", "--workers=2", "--workers=4", "--workers=64"] {
        let words = ["solve", workers, "--report=levels"];
        let want = (Status::Solved, ORDINARY.as_bytes(), "");
        gives(&rt, &words, ORDINARY_FILE.as_bytes(), SOUND, want)?;
    }
    Ok(())
}

const ORDINARY_LEVELS: &str =
    "level 0 1\nlevel 1 4\nlevel 2 14\nlevel 3 33\nlevel 4 43\nlevel 5 8\n";

// The grain changes the count alone.
#[test]
fn grains(rt: HostRuntime) -> Result<(), Fail> {
    let plain = ORDINARY.replace(rt.alloc(), ORDINARY_LEVELS, "")?;
    for (grain, kept) in [("8", "kept 547\n"), ("32", "kept 103\n")] {
        let text = plain.replace(rt.alloc(), "kept 103\n", kept)?;
        let want = (Status::Solved, text.as_bytes(), "");
        let words = ["solve", "--grain", grain];
        gives(&rt, &words, ORDINARY_FILE.as_bytes(), SOUND, want)?;
    }
    Ok(())
}

#[test]
fn workers_run_side_by_side(rt: HostRuntime) -> Result<(), Fail> {
    let gate = Meeting::new();
    let case = Case {
        words: &["solve", "--workers=2", "--report=levels"],
        file: ORDINARY_FILE.as_bytes(),
        devices: SOUND,
    };
    let want = (Status::Solved, ORDINARY.as_bytes(), "");
    gives_behind(&rt, &gate, case, want)?;
    assert!(rt; gate.have_met());
    Ok(())
}

const SAMPLE_OF_SEVEN: &str =
    "sample 7 level 23 cp 88 durability 35 progress 262 quality 250 base 43 69
steps 7 seconds 19 quality 0/250 kept 404
";

// A sample reads nothing, so the first call of the source does not fail.
#[test]
fn samples(rt: HostRuntime) -> Result<(), Fail> {
    let devices = Devices { read: 1, ..SOUND };
    for workers in ["1", "4"] {
        let words = ["sample", "7", "--workers", workers];
        let want = (Status::Solved, SAMPLE_OF_SEVEN.as_bytes(), "");
        gives(&rt, &words, b"", devices, want)?;
    }
    for (write, taken, line) in [(1, 0, WRITE_LINE), (2, 5, WRITE_LINE)] {
        let devices = Devices { write, ..devices };
        let text = &SAMPLE_OF_SEVEN.as_bytes()[..taken];
        let want = (Status::WriteFault, text, line);
        gives(&rt, &["sample", "7"], b"", devices, want)?;
    }
    Ok(())
}
