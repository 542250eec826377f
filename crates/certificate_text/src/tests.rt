use super::*;
use std::alloc::Global;
use std::test::Fail;

#[test]
fn numbers(rt: HostRuntime) {
    assert_eq!(rt; read_number(b"0"), Some(0));
    assert_eq!(rt; read_number(b"907"), Some(907));
    assert_eq!(rt; read_number(b"1000000001"), Some(1_000_000_000));
    assert_eq!(rt;
        read_number(b"99999999999999999999999"),
        Some(1_000_000_000)
    );
    assert_eq!(rt; read_number(b""), None);
    assert_eq!(rt; read_number(b"00"), None);
    assert_eq!(rt; read_number(b"+1"), None);
}

#[test]
fn verdicts(rt: HostRuntime) {
    assert_eq!(rt; read_word(b"c"), Some(Verdict::Complete));
    assert_eq!(rt; read_word(b"f"), Some(Verdict::Failed));
    assert_eq!(rt; read_word(b"q"), Some(Verdict::Limited));
    assert_eq!(rt; read_word(b"s"), Some(Verdict::Late));
    assert_eq!(rt; read_word(b"k"), Some(Verdict::Kept));
    assert_eq!(rt; read_word(b"d12"), Some(Verdict::Dominated { place: 12 }));
    assert_eq!(rt; read_word(b"d"), None);
    assert_eq!(rt; read_word(b"d012"), None);
    assert_eq!(rt; read_word(b"ck"), None);
    assert_eq!(rt; read_word(b""), None);
}

// The verdicts of a line of so many, where it is such a line.
fn row(alloc: Global, line: &[u8], count: usize) -> Result<Vec<Verdict>, Fail> {
    Ok(read_row(alloc, line, count)?.ok_or("no row")?)
}

#[test]
fn rows(rt: HostRuntime) -> Result<(), Fail> {
    let alloc = rt.alloc();
    assert_eq!(rt; end_of(b"c d0", b' '), Some(1));
    assert_eq!(rt; end_of(b"c d0", b'\n'), None);
    let wanted = [Verdict::Complete, Verdict::Dominated { place: 0 }];
    assert!(rt; row(alloc, b"c d0", 2)?.as_slice() == wanted.as_slice());
    assert!(rt; row(alloc, b"", 0)?.is_empty());
    assert!(rt; read_row(alloc, b"c d0", 1)?.is_none());
    assert!(rt; read_row(alloc, b"c d0", 3)?.is_none());
    assert!(rt; read_row(alloc, b"c  k", 2)?.is_none());
    assert!(rt; read_row(alloc, b"c k ", 2)?.is_none());
    assert!(rt; read_row(alloc, b" ", 0)?.is_none());
    Ok(())
}
