ghost use Rattle.std.specs.Prelude.{◌≤◌};

use super::*;
use front_check::verify;
use std::test::Fail;
use test_crafts::{EASY, ONE_TOUCH};

const MOST_BYTES: usize = 16777216;

// Its certificate has all six verdicts.
const VARIED: Settings = Settings {
    level: 18,
    cp: 60,
    progress: 200,
    quality: 300,
    target: 300,
    ..ONE_TOUCH
};

const VARIED_TEXT: &[u8] =
    b"raphael certificate 1 grain 4\nbest 0 0\nlevel 0 1\nk k k k k k\nlevel 1 6\nc f k k k f\n\
    f f k k f\nk k k k k\nk\nk k k s q\nf f k q\nlevel 2 15\nc f k k f\nc\nc f k s f\nf f k k f\n\
    f f k q\nc f d0 d1 f\nf f d3 d4 f\nk k k s k\nk k s s q\nf f k q\nc\nc f k s f\nf f k q f\n\
    k k s s q\nf f d12 q\nlevel 3 17\nc f k s f\nc f s s f\nc f s s f\nf f k q\nf q\nf q\nc f d0 s f\n\
    f f d1 q f\nk k k s q\nf q\nc f s s f\nf q\nf q\nc f s s f\nf q\nc f s s f\nf q\nlevel 4 5\n\
    c f k s f\nf f k q\nc f d0 s f\nf f d1 q f\nk k s s q\nlevel 5 4\nc f s s f\nf q\nc f s s f\nf q\n\
    level 6 0\n";

// All its cut children fail, or have too low a limit, or take too long.
const NARROW: Settings = Settings {
    level: 13,
    cp: 42,
    durability: 25,
    progress: 240,
    quality: 250,
    target: 250,
    ..ONE_TOUCH
};

const NARROW_TEXT: &[u8] =
    b"raphael certificate 1 grain 16\nbest 0 0 0\nlevel 0 1\nk q s\nlevel 1 1\nk q s\nlevel 2 1\nc f s\n\
    level 3 0\n";

// Whether the certificate that is made for the macro of a certificate is this certificate.
fn is_remade(
    rt: &(impl Threads + Sync),
    alloc: Global,
    g: &Settings,
    grain: u32,
    text: &[u8],
) -> Result<bool, WantMemory>
    requires low { 1 ≤ grain }
    requires high { grain ≤ 64 }
{
    if text.len() > MOST_BYTES {
        return Ok(false);
    }
    let actions = match verify(alloc, g, text) {
        Ok(actions) => actions,
        Err(_) => return Ok(false),
    };
    let made = certify(rt, alloc, g, grain, actions.as_slice())?;
    Ok(made.as_slice() == text)
}

#[test]
fn makes_what_the_checker_accepts(rt: HostRuntime) -> Result<(), Fail> {
    let alloc = rt.alloc();
    let easy = b"raphael certificate 1 grain 1\nbest 0\nlevel 0 1\nc\nlevel 1 0\n";
    assert!(rt; is_remade(&rt, alloc, &EASY, 1, easy)?);
    let touch =
        b"raphael certificate 1 grain 2\nbest 1 0\nlevel 0 1\nc k\nlevel 1 1\nc\nlevel 2 0\n";
    assert!(rt; is_remade(&rt, alloc, &ONE_TOUCH, 2, touch)?);
    assert!(rt; is_remade(&rt, alloc, &VARIED, 4, VARIED_TEXT)?);
    assert!(rt; is_remade(&rt, alloc, &NARROW, 16, NARROW_TEXT)?);
    Ok(())
}
