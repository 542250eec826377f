// The ends of a run: an answer is written, or a line tells why there is none.
ghost use Rattle.std.specs.Prelude.{◌≡◌, ◌⊎◌};
ghost use Rattle.craft_io.specs.Views.{Gains, GainsPart};
ghost use Rattle.run_io.specs.Answering.{CountsWriteFault, Tells};
ghost use Rattle.run_io.specs.FaultLine.{write_line};
ghost use Rattle.run_io.specs.Halts.{line_of, status_of};
ghost use Rattle.run_io.specs.Statuses.{IsResult};

use crate::answer::Answer;
use crate::halt::Halt;
use crate::status::Status;
use craft_io::{Failed, Sink, write_all};

/// Writes the text of an answer. Where that fails, a line tells it.
pub fn write_answer<O: Sink, E: Sink>(out: &mut O, err: &mut E, answer: &Answer) -> Status
    requires { IsResult answer.now.status }
    ensures status { (result ≡ answer.now.status) ⊎ (result ≡ Status.WriteFault) }
    ensures whole { IsResult result → Gains answer.now.text.items (O.view out.old) (O.view out.new) }
    ensures part { result ≡ Status.WriteFault → GainsPart answer.now.text.items (O.view out.old) (O.view out.new) }
    ensures faults { CountsWriteFault result (O.view out.old).faults (O.view out.new).faults }
    ensures told { result ≡ Status.WriteFault → Tells write_line (E.view err.old) (E.view err.new) }
    ensures quiet { IsResult result → err.new ≡ err.old }
{
    if let Err(Failed) = write_all(out, &answer.text) {
        tell_line(err, b"output: write failed\n");
        return Status::WriteFault;
    }
    answer.status
}

/// Tells why there is no text, and gives the status of that.
pub fn tell<E: Sink>(err: &mut E, halt: &Halt) -> Status
    ensures status { result ≡ status_of halt.now }
    ensures told { Tells (line_of halt.now) (E.view err.old) (E.view err.new) }
{
    tell_line(err, halt.line());
    halt.status()
}

// Where the line can't be written, the run goes on.
fn tell_line<E: Sink>(err: &mut E, line: &[u8])
    ensures { Tells line.now (E.view err.old) (E.view err.new) }
{
    let _ = write_all(err, line);
}
