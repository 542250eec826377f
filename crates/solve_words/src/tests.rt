use crate::{Command, Report, Words, WordsFault, read_words};
use action_table::Action;
use std::alloc::{AllocError, Global};
use std::test::Fail;

// A command, with what stands beside its word.
#[derive(Clone, Copy)]
enum Asked {
    Solve,
    Sample(u32),
    Resume(&'static [Action]),
    Sweep,
    Replay,
    Check,
    Certify,
    Verify,
}

// What words say.
#[derive(Clone, Copy)]
struct Said {
    command: Asked,
    workers: u32,
    grain: u32,
    report: Report,
}

const DEFAULT: Said = Said {
    command: Asked::Solve,
    workers: 4,
    grain: 16,
    report: Report::Plain,
};

// Words of the form, and what they say.
const ACCEPTED: [(&[&str], Said); 17] = [
    (&["solve"], DEFAULT),
    (
        &["solve", "--workers=64", "--report", "limits"],
        Said {
            workers: 64,
            report: Report::Limits,
            ..DEFAULT
        },
    ),
    (
        &[
            "solve",
            "--grain",
            "9",
            "--report=levels",
            "--workers",
            "10",
        ],
        Said {
            workers: 10,
            grain: 9,
            report: Report::Levels,
            ..DEFAULT
        },
    ),
    (&["solve", "--report", "plain"], DEFAULT),
    (
        &["sample", "0"],
        Said {
            command: Asked::Sample(0),
            ..DEFAULT
        },
    ),
    (
        &["sample", "7", "--workers", "1"],
        Said {
            command: Asked::Sample(7),
            workers: 1,
            ..DEFAULT
        },
    ),
    (
        &["sample", "999999", "--grain=64", "--workers=2"],
        Said {
            command: Asked::Sample(999999),
            workers: 2,
            grain: 64,
            ..DEFAULT
        },
    ),
    (
        &["sample", "100020"],
        Said {
            command: Asked::Sample(100020),
            ..DEFAULT
        },
    ),
    (
        &["resume", "--done", "basic_touch"],
        Said {
            command: Asked::Resume(&[Action::BasicTouch]),
            ..DEFAULT
        },
    ),
    (
        &[
            "resume",
            "--workers",
            "3",
            "--done=waste_not,waste_not_ii,waste_not",
            "--grain=5",
        ],
        Said {
            command: Asked::Resume(&[Action::WasteNot, Action::WasteNotII, Action::WasteNot]),
            workers: 3,
            grain: 5,
            ..DEFAULT
        },
    ),
    (
        &["resume", "--grain=64", "--done", "trained_eye,observe"],
        Said {
            command: Asked::Resume(&[Action::TrainedEye, Action::Observe]),
            grain: 64,
            ..DEFAULT
        },
    ),
    (
        &["replay"],
        Said {
            command: Asked::Replay,
            ..DEFAULT
        },
    ),
    (
        &["check"],
        Said {
            command: Asked::Check,
            ..DEFAULT
        },
    ),
    (
        &["check", "--grain=2", "--workers", "64"],
        Said {
            command: Asked::Check,
            workers: 64,
            grain: 2,
            ..DEFAULT
        },
    ),
    (
        &["certify", "--grain", "1"],
        Said {
            command: Asked::Certify,
            grain: 1,
            ..DEFAULT
        },
    ),
    (
        &["verify"],
        Said {
            command: Asked::Verify,
            ..DEFAULT
        },
    ),
    (
        &["sweep", "--workers=1", "--grain", "63"],
        Said {
            command: Asked::Sweep,
            workers: 1,
            grain: 63,
            ..DEFAULT
        },
    ),
];

const REFUSED: [&[&str]; 39] = [
    &[],
    &[""],
    &["Solve"],
    &["--workers", "2", "solve"],
    &["solve", "solve"],
    &["solve", "1"],
    &["solve", "--"],
    &["solve", "--help"],
    &["solve", "-h"],
    &["solve", "--work", "2"],
    &["solve", "--grain"],
    &["solve", "--grain", "1", "2"],
    &["solve", "--workers", "2", "--workers", "2"],
    &["solve", "--workers=2", "--workers", "2"],
    &["solve", "--workers", "--grain", "2"],
    &["solve", "--report", "level"],
    &["sample"],
    &["sample", "1", "--report", "plain"],
    &["sample", "--workers", "2", "1"],
    &["sample", "1", "2"],
    &["sample", "1", "--"],
    &["resume"],
    &["resume", "--workers", "2"],
    &["resume", "--done"],
    &["resume", "observe"],
    &["resume", "--done", "observe", "--done=observe"],
    &["resume", "--done", "observe", "observe"],
    &["resume", "--done", "observe", "--report", "plain"],
    &["solve", "--done", "observe"],
    &["replay", "--workers", "1"],
    &["replay", "--grain=1"],
    &["verify", "--grain=1"],
    &["certify", "--report", "plain"],
    &["replay", "replay"],
    &["replay", "--"],
    &["check", "--report", "plain"],
    &["check", "--grain", "1", "--grain=1"],
    &["sweep", "--report=plain"],
    &["sweep", "1"],
];

const NO_COUNTS: [&str; 9] = ["", "0", "65", "04", "-1", "+1", "100", "1 ", "x"];

const NO_LISTS: [&str; 9] = [
    "",
    ",",
    "observe,",
    ",observe",
    "observe,,observe",
    "observe, observe",
    "Observe",
    "basic_tuch",
    "observe;observe",
];

const NO_SAMPLES: [&str; 9] = ["", "00", "01", "-1", "+1", "1000000", "1 ", "0x1", "1_0"];

fn read(alloc: Global, words: &[&str]) -> Result<Result<Words, WordsFault>, AllocError> {
    let mut all = Vec::new(alloc);
    for word in words {
        all.push(String::from_str(alloc, *word)?)?;
    }
    Ok(read_words(alloc, all.as_slice()))
}

fn is_asked(command: &Command, wanted: Asked) -> bool {
    match (command, wanted) {
        (Command::Solve, Asked::Solve)
        | (Command::Sweep, Asked::Sweep)
        | (Command::Replay, Asked::Replay)
        | (Command::Check, Asked::Check)
        | (Command::Certify, Asked::Certify)
        | (Command::Verify, Asked::Verify) => true,
        (Command::Sample(number), Asked::Sample(wanted)) => *number == wanted,
        (Command::Resume(done), Asked::Resume(wanted)) => done.actions.as_slice() == wanted,
        _ => false,
    }
}

fn is_said(words: &Words, wanted: Said) -> bool {
    is_asked(&words.command, wanted.command)
        && words.workers == wanted.workers
        && words.grain == wanted.grain
        && words.report == wanted.report
}

// Whether words aren't of the form.
fn is_refused(alloc: Global, words: &[&str]) -> Result<bool, AllocError> {
    Ok(matches!(read(alloc, words)?, Err(WordsFault::BadWords)))
}

#[test]
fn accepts(rt: HostRuntime) -> Result<(), Fail> {
    for (words, wanted) in ACCEPTED {
        let read = read(rt.alloc(), words)?;
        assert!(rt; read.is_ok_and(|read| is_said(&read, wanted)), "{words:?}");
    }
    Ok(())
}

#[test]
fn refuses(rt: HostRuntime) -> Result<(), Fail> {
    for words in REFUSED {
        assert!(rt; is_refused(rt.alloc(), words)?, "{words:?}");
    }
    for count in NO_COUNTS {
        assert!(rt;
            is_refused(rt.alloc(), &["solve", "--workers", count])?,
            "{count}"
        );
    }
    for list in NO_LISTS {
        assert!(rt;
            is_refused(rt.alloc(), &["resume", "--done", list])?,
            "{list}"
        );
    }
    for number in NO_SAMPLES {
        assert!(rt; is_refused(rt.alloc(), &["sample", number])?, "{number}");
    }
    Ok(())
}
