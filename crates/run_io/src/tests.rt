use super::*;
use craft_io::{MemorySink, MemorySource};
use std::test::Fail;

#[test]
fn reads_up_to_a_number(rt: HostRuntime) {
    for (most, fails, want) in [(5, 0, "abcd"), (2, 0, "ab"), (0, 1, "")] {
        let fails = [fails];
        let mut source = MemorySource::new(b"abcd", 3, &fails);
        let input = read_up_to(rt.alloc(), &mut source, most);
        assert!(rt; matches!(&input, Ok(bytes) if bytes.as_slice() == want.as_bytes()));
    }
    let mut source = MemorySource::new(b"abcd", 3, &[2]);
    let input = read_up_to(rt.alloc(), &mut source, 5);
    assert!(rt; matches!(&input, Err(Halt::ReadFault)));
}

#[test]
fn ends(rt: HostRuntime) -> Result<(), Fail> {
    for (fails, want, written, told) in [
        (0, Status::Solved, "steps", ""),
        (2, Status::WriteFault, "ste", "output: write failed\n"),
    ] {
        let mut room = [0; 16];
        let fails = [fails];
        let mut out = MemorySink::new(&mut room, 3, &fails);
        let mut line = [0; 32];
        let mut err = MemorySink::new(&mut line, 32, &[]);
        let answer = Answer {
            status: Status::Solved,
            text: Vec::from_slice(rt.alloc(), b"steps")?,
        };
        assert_eq!(rt; write_answer(&mut out, &mut err, &answer), want);
        assert_eq!(rt; out.taken(), written.as_bytes());
        assert_eq!(rt; err.taken(), told.as_bytes());
    }
    let mut line = [0; 32];
    let mut err = MemorySink::new(&mut line, 32, &[]);
    if let Err(halt) = settings_in(rt.alloc(), b"[") {
        assert_eq!(rt; tell(&mut err, &halt), Status::BadSettings);
    }
    assert_eq!(rt; err.taken(), b"settings: not a TOML document\n".as_slice());
    Ok(())
}
