use super::*;
use action_table::Action;
use craft_settings::Settings;
use std::alloc::Global;
use std::test::Fail;

// A crafter of level 5 with CP for one touch. No Trained Eye, and quality counts no more than the target.
const SMALL: Settings = Settings {
    level: 5,
    cp: 18,
    durability: 20,
    progress: 100,
    quality: 500,
    initial: 0,
    base_progress: 100,
    base_quality: 100,
    forbidden: 33554432,
    target: 500,
    backload: false,
};

// The tables of grain 1 are the smallest.
const SMALL_TEXT: &[u8] =
    b"raphael certificate 1 grain 1\nbest 1 0\nlevel 0 1\nc k\nlevel 1 1\nc\nlevel 2 0\n";

// The certificate of a crafter of level 7 with CP for a mend, whose verdicts are all but `q` and `s`.
const MENDED_TEXT: &[u8] = b"raphael certificate 1 grain 1\nbest 0 2 1 0\n\
    level 0 1\nk k k\nlevel 1 3\nc f k\nf f k\nd0 k\nlevel 2 3\nc k\nk k\nf f\nlevel 3 3\nc f\nc f\nf\nlevel 4 0\n";

const MENDED: Settings = Settings {
    level: 7,
    cp: 124,
    progress: 200,
    ..SMALL
};

// Whether the checker accepts a text for this macro; or, where a line is told, refuses this line.
fn judges(alloc: Global, g: &Settings, text: &[u8], best: &[Action], line: Option<u32>) -> bool {
    if text.len() > MOST_TEXT {
        return false;
    }
    match verify(alloc, g, text) {
        Ok(actions) => line.is_none() && actions.as_slice() == best,
        Err(CertFault::Refused { line: found }) => line == Some(found),
        Err(CertFault::WantMemory) => false,
    }
}

#[test]
fn accepts_certificates(rt: HostRuntime) {
    use Action::*;
    let alloc = rt.alloc();
    let touch = [BasicTouch, BasicSynthesis];
    assert!(rt; judges(alloc, &SMALL, SMALL_TEXT, &touch, None));
    let mended = [BasicSynthesis, MastersMend, BasicTouch, BasicSynthesis];
    assert!(rt; judges(alloc, &MENDED, MENDED_TEXT, &mended, None));
}

#[test]
fn refuses_the_first_line_that_breaks_a_rule(rt: HostRuntime) {
    let rows: [(&[u8], u32); 14] = [
        (b"", 1),
        (b"raphael certificate 1 grain 65\nbest 1 0\n", 1),
        (b"raphael certificate 1 grain 1\nbest 1\nlevel 0 1\n", 2),
        (b"raphael certificate 1 grain 1\nbest 1 0\nlevel 0 2\n", 3),
        (
            b"raphael certificate 1 grain 1\nbest 1 0\nlevel 0 1\nc q\nlevel 1 0\n",
            4,
        ),
        (
            b"raphael certificate 1 grain 1\nbest 1 0\nlevel 0 1\nc s\nlevel 1 0\n",
            4,
        ),
        (
            b"raphael certificate 1 grain 1\nbest 1 0\nlevel 0 1\nc d0\nlevel 1 0\n",
            4,
        ),
        (
            b"raphael certificate 1 grain 1\nbest 1 0\nlevel 0 1\nc\nlevel 1 0\n",
            4,
        ),
        (
            b"raphael certificate 1 grain 1\nbest 1 0\nlevel 0 1\nc k\nlevel 1 0\n",
            5,
        ),
        (
            b"raphael certificate 1 grain 1\nbest 1 0\nlevel 0 1\nc k\nlevel 1 1\nf\nlevel 2 0\n",
            6,
        ),
        (
            b"raphael certificate 1 grain 1\nbest 0\nlevel 0 1\nc k\nlevel 1 1\nc\nlevel 2 0\n",
            6,
        ),
        (
            b"raphael certificate 1 grain 1\nbest 1 0\nlevel 0 1\nc k\nlevel 1 1\nc\n",
            7,
        ),
        (
            b"raphael certificate 1 grain 1\nbest 1 0\nlevel 0 1\nc k\nlevel 1 1\nc\nlevel 2 0",
            7,
        ),
        (
            b"raphael certificate 1 grain 1\nbest 1 0\nlevel 0 1\nc k\nlevel 1 1\nc\nlevel 2 0\n\n",
            8,
        ),
    ];
    for (text, line) in rows {
        assert!(rt;
            judges(rt.alloc(), &SMALL, text, &[], Some(line)),
            "line {line}"
        );
    }
}

// Where each line of the small certificate begins and ends, and its number.
const LINES: [(usize, usize, u32); 7] = [
    (0, 30, 1),
    (30, 39, 2),
    (39, 49, 3),
    (49, 53, 4),
    (53, 63, 5),
    (63, 65, 6),
    (65, 75, 7),
];

#[test]
fn refuses_each_changed_byte_at_its_line(rt: HostRuntime) -> Result<(), Fail> {
    for (from, to, line) in LINES {
        for place in from..to {
            assert!(rt; refuses_changed(rt.alloc(), place, line)?, "byte {place}");
        }
    }
    Ok(())
}

// The small certificate with a byte changed is refused at this line.
fn refuses_changed(alloc: Global, place: usize, line: u32) -> Result<bool, Fail> {
    let mut text = Vec::from_slice(alloc, SMALL_TEXT)?;
    if let Some(byte) = text.get_mut(place) {
        *byte ^= 1;
    }
    Ok(judges(alloc, &SMALL, text.as_slice(), &[], Some(line)))
}
