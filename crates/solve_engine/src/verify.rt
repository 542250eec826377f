// The command `verify`: whether a certificate is one.
ghost use Rattle.std.specs.Prelude.{◌≡◌, ◌≤◌, IfErr, IfOk, IfSome, length, option_map};
ghost use Rattle.front_check.specs.declared.checker.TheConstants.{MOST_TEXT};
ghost use Rattle.run_io.specs.Halts.{IsIn};
ghost use Rattle.solve_engine.specs.Verify.{IsAccepted, IsHaltOfProof, VerifyAnswers, accepted_line, long_line, no_mark_line, refused_line};

use crate::pasted::parts_within;
use action_table::WantMemory;
use craft_settings::Settings;
use front_check::{CertFault, MOST_TEXT};
use run_io::{Answer, Halt, Status, settings_in};
use std::alloc::Global;

/// One byte more than settings and a certificate have together, so that a longer input is seen.
pub(crate) const READ_TEXT: usize = MOST_TEXT + 1;

/// What `verify` answers to settings and a certificate.
pub(crate) fn verify(alloc: Global, input: &[u8]) -> Result<Answer, Halt>
    ensures { IsIn (VerifyAnswers input.now) result }
{
    if input.len() > MOST_TEXT {
        return Err(Halt::refused(Status::BadCertificate, long_text(alloc)?));
    }
    let (settings, rest) = parts_within(input, MOST_TEXT);
    let craft = settings_in(alloc, settings)?;
    judged(alloc, &craft, rest)
}

// Whether what follows the settings is a certificate.
fn judged(alloc: Global, g: &Settings, rest: Option<&[u8]>) -> Result<Answer, Halt>
    requires { IfSome rest (λ text. length text.now ≤ MOST_TEXT) }
    ensures accepted { IfOk result (IsAccepted g.now (option_map (λ text. text.now) rest.entry)) }
    ensures halts { IfErr result (IsHaltOfProof g.now (option_map (λ text. text.now) rest.entry)) }
{
    let Some(bytes) = rest else {
        return Err(Halt::refused(Status::BadCertificate, no_mark_text(alloc)?));
    };
    match front_check::verify(alloc, g, bytes) {
        Ok(_best) => Ok(Answer {
            status: Status::Solved,
            text: accepted_text(alloc)?,
        }),
        Err(CertFault::Refused { line }) => Err(Halt::refused(
            Status::BadCertificate,
            refused_text(alloc, line)?,
        )),
        Err(CertFault::WantMemory) => Err(Halt::WantMemory),
    }
}

fn accepted_text(alloc: Global) -> Result<Vec<u8>, WantMemory>
    ensures { IfOk result (λ text. text.items ≡ accepted_line) }
{
    Ok(Vec::from_slice(alloc, b"accepted\n")?)
}

fn long_text(alloc: Global) -> Result<Vec<u8>, WantMemory>
    ensures { IfOk result (λ text. text.items ≡ long_line) }
{
    Ok(Vec::from_slice(alloc, b"certificate: too long\n")?)
}

fn no_mark_text(alloc: Global) -> Result<Vec<u8>, WantMemory>
    ensures { IfOk result (λ text. text.items ≡ no_mark_line) }
{
    Ok(Vec::from_slice(alloc, b"certificate: no --- line\n")?)
}

fn refused_text(alloc: Global, line: u32) -> Result<Vec<u8>, WantMemory>
    ensures { IfOk result (λ text. text.items ≡ refused_line line) }
{
    let text = format!(in alloc; "certificate: line {line} refused\n")?;
    Ok(text.into_bytes())
}
