// Certificates, through the whole of a run.
use crate::Status;
use crate::tests::{ONE_TOUCH, craft, prints};
use std::process::Abort;
use std::test::Fail;
use std::thread::Threads;

pub(crate) const CERTIFICATE: &str =
    "raphael certificate 1 grain 16\nbest 1 0\nlevel 0 1\nc k\nlevel 1 1\nc\nlevel 2 0\n";

const ACCEPTED: (Status, &str, &str) = (Status::Solved, "accepted\n", "");

const NO_MARK: (Status, &str, &str) = (Status::BadCertificate, "", "certificate: no --- line\n");

const TOO_MUCH: (Status, &str, &str) = (Status::BadCertificate, "", "certificate: too long\n");

const NO_DOCUMENT: (Status, &str, &str) = (
    Status::BadSettings,
    "",
    "settings: not a TOML document\n",
);

const LONG_SETTINGS: (Status, &str, &str) = (Status::BadSettings, "", "settings: too long\n");

#[test]
fn certifies(rt: HostRuntime) -> Result<(), Fail> {
    let input = craft(rt.alloc(), ONE_TOUCH)?;
    let want = (Status::Solved, CERTIFICATE, "");
    prints(&rt, &["certify"], input.as_bytes(), want)?;
    let other = CERTIFICATE.replace(rt.alloc(), "grain 16", "grain 1")?;
    let want = (Status::Solved, other.as_str(), "");
    let words = ["certify", "--workers=64", "--grain", "1"];
    prints(&rt, &words, input.as_bytes(), want)?;
    let input = craft(rt.alloc(), [1, 0, 10, 101, 100])?;
    let want = (Status::NoMacro, "none\n", "");
    prints(&rt, &["certify", "--workers=1"], input.as_bytes(), want)?;
    prints(&rt, &["certify"], b"=", NO_DOCUMENT)
}

// What `verify` comes to over a craft and what follows it.
fn judges<R: AllocGlobal + Abort + Threads + Sync>(
    rt: &R,
    follows: &[&str],
    want: (Status, &str, &str),
) -> Result<(), Fail> {
    let mut input = craft(rt.alloc(), ONE_TOUCH)?;
    for part in follows {
        input.push_str(part)?;
    }
    prints(rt, &["verify"], input.as_bytes(), want)
}

// A part of the certificate, what stands in its place, and the first line that breaks a rule then.
const BROKEN: [(&str, &str, u32); 20] = [
    (CERTIFICATE, "", 1),
    ("grain 16", "grain 65", 1),
    ("\n", "\r\n", 1),
    ("best 1 0", "best 0 1", 2),
    ("best 1 0", "best 1", 2),
    ("best 1 0", "best 1 26", 2),
    ("level 0 1", "level 0 2", 3),
    ("c k\nlevel 1 1\nc\nlevel 2 0\n", "c q\nlevel 1 0\n", 4),
    ("c k\nlevel 1 1\nc\nlevel 2 0\n", "c s\nlevel 1 0\n", 4),
    ("c k\nlevel 1 1\nc\nlevel 2 0\n", "c d0\nlevel 1 0\n", 4),
    ("c k", "c", 4),
    ("c k", "f k", 4),
    ("level 1 1", "level 1 2", 5),
    ("\nc\n", "\nk\n", 6),
    ("best 1 0", "best 0", 6),
    ("level 2 0\n", "", 7),
    ("level 2 0\n", "level 2 0", 7),
    ("level 2 0", "level 3 0", 7),
    ("level 2 0\n", "level 2 0\n\n", 8),
    ("level 2 0\n", "level 2 0\nlevel 3 0\n", 8),
];

#[test]
fn judges_texts(rt: HostRuntime) -> Result<(), Fail> {
    judges(&rt, &["---\n", CERTIFICATE], ACCEPTED)?;
    for (old, new, number) in BROKEN {
        let text = CERTIFICATE.replace(rt.alloc(), old, new)?;
        let line = format!(in rt.alloc(); "certificate: line {number} refused\n")?;
        let want = (Status::BadCertificate, "", line.as_str());
        judges(&rt, &["---\n", text.as_str()], want)?;
    }
    Ok(())
}

// Settings are refused before what follows them.
#[test]
fn refuses_in_order(rt: HostRuntime) -> Result<(), Fail> {
    let first_line = (Status::BadCertificate, "", "certificate: line 1 refused\n");
    for (follows, want) in [
        (["", ""], NO_MARK),
        (["=\n", ""], NO_DOCUMENT),
        (["=\n---\n", "best"], NO_DOCUMENT),
        (["---\n", "best"], first_line),
        (["---", ""], first_line),
        (["---\r\n", CERTIFICATE], ACCEPTED),
        (["--- \n", CERTIFICATE], NO_DOCUMENT),
    ] {
        judges(&rt, &follows, want)?;
    }
    Ok(())
}

// A comment after a craft makes up so many bytes, and this follows.
fn judges_long<R: AllocGlobal + Abort + Threads + Sync>(
    rt: &R,
    settings: usize,
    follows: &str,
    want: (Status, &str, &str),
) -> Result<(), Fail> {
    let mut input = craft(rt.alloc(), ONE_TOUCH)?.into_bytes();
    input.push(b'#')?;
    input.resize(settings, b'x')?;
    input.extend_from_slice(follows.as_bytes())?;
    prints(rt, &["verify"], &input, want)
}

// An input is too long before all else, and then settings are.
#[test]
fn refuses_too_much(rt: HostRuntime) -> Result<(), Fail> {
    let certificate = format!(in rt.alloc(); "\n---\n{CERTIFICATE}")?;
    for (settings, follows, want) in [
        (65535, certificate.as_str(), ACCEPTED),
        (65536, certificate.as_str(), LONG_SETTINGS),
        (65536, "", NO_MARK),
        (16777216, "", LONG_SETTINGS),
        (16777217, "", TOO_MUCH),
    ] {
        judges_long(&rt, settings, follows, want)?;
    }
    Ok(())
}
