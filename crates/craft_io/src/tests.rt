ghost use Rattle.std.specs.Prelude.{◌≤◌, IfOk};

use super::*;
use std::io::{Error, ErrorKind, Read, Write};
use std::test::Fail;

#[test]
fn fills(rt: HostRuntime) -> Result<(), Fail> {
    let bytes = b"abcdefghij";
    for (piece, fails, room, want) in [
        (3, 0, 10, Ok(10)),
        (3, 0, 7, Ok(7)),
        (3, 0, 12, Ok(10)),
        (3, 2, 12, Err(Failed)),
        (3, 5, 10, Ok(10)),
        (3, 5, 12, Err(Failed)),
        (20, 1, 0, Ok(0)),
    ] {
        let mut buf = [0; 12];
        let fails = [fails];
        let mut source = MemorySource::new(bytes, piece, &fails);
        let got = fill(&mut source, &mut buf[..room]);
        assert_eq!(rt; got, want, "with room for {room}");
        if let Ok(count) = got {
            assert_eq!(rt; &buf[..count], &bytes[..count]);
        }
    }
    Ok(())
}

#[test]
fn writes(rt: HostRuntime) -> Result<(), Fail> {
    for (piece, fails, size, want, taken) in [
        (5, 0, 12, Ok(()), "steps 2"),
        (5, 2, 12, Err(Failed), "steps"),
        (5, 0, 6, Err(Failed), "steps "),
        (20, 2, 12, Ok(()), "steps 2"),
        (20, 1, 12, Err(Failed), ""),
    ] {
        let mut room = [0; 12];
        let fails = [fails];
        let mut sink = MemorySink::new(&mut room[..size], piece, &fails);
        assert_eq!(rt; write_all(&mut sink, b"steps 2"), want);
        assert_eq!(rt; sink.taken(), taken.as_bytes());
    }
    let mut sink = MemorySink::new(&mut [], 1, &[]);
    assert_eq!(rt; write_all(&mut sink, b""), Ok(()));
    Ok(())
}

// A device of one byte a call, whose second call fails.
#[derive(Drop)]
struct Device {
    calls: u32,
    flushes: bool,
}

impl Device {
    fn call(&mut self, room: usize) -> Result<usize, Error>
        ensures { IfOk result (λ count. count ≤ room) }
    {
        self.calls = self.calls.saturating_add(1);
        if self.calls == 2 {
            return Err(Error::from(ErrorKind::Other));
        }
        Ok(room.min(1))
    }
}

impl Read for Device {
    fn read(&mut self, buf: &mut [u8]) -> Result<usize, Error> {
        self.call(buf.len())
    }
}

impl Write for Device {
    fn write(&mut self, buf: &[u8]) -> Result<usize, Error> {
        self.call(buf.len())
    }

    fn flush(&mut self) -> Result<(), Error> {
        if self.flushes {
            Ok(())
        } else {
            Err(Error::from(ErrorKind::Other))
        }
    }
}

#[test]
fn devices_of_std(rt: HostRuntime) -> Result<(), Fail> {
    let mut buf = [0; 8];
    let mut source = StdSource::new(b"abc".as_slice());
    assert_eq!(rt; fill(&mut source, &mut buf), Ok(3));
    assert_eq!(rt; &buf[..3], b"abc".as_slice());
    let mut source = StdSource::new(Device {
        calls: 0,
        flushes: true,
    });
    assert_eq!(rt; source.read(&mut buf), Ok(1));
    assert_eq!(rt; source.read(&mut buf), Err(Failed));
    assert_eq!(rt; source.read(&mut buf), Ok(1));

    let mut sink = StdSink::new(Device {
        calls: 0,
        flushes: true,
    });
    assert_eq!(rt; sink.write(b"ab"), Ok(1));
    assert_eq!(rt; sink.write(b"ab"), Err(Failed));
    assert_eq!(rt; write_all(&mut sink, b"ab"), Ok(()));
    let mut sink = StdSink::new(Device {
        calls: 2,
        flushes: false,
    });
    assert_eq!(rt; sink.write(b"ab"), Err(Failed));
    let mut sink = StdSink::new(Vec::new(rt.alloc()));
    assert_eq!(rt; write_all(&mut sink, b"steps"), Ok(()));
    Ok(())
}
