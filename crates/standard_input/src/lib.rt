// What the programs share: standard input read to its end, and what is said of a failure. A failed read is not the end: else the first lines
// of a set would be taken for the set.
#![tactic(auto)]

ghost use Rattle.std.specs.Prelude.{◌≡◌, ◌≤◌, ◌<◌, length, IfOk};
ghost use Rattle.std.specs.Io.KnownBytes.{IsAtEnd};
ghost use Rattle.standard_input.specs.Reads.{came_of};

use std::io;
use std::io::{Error, ErrorKind, Read};

// How many bytes a read's answer says came, 0 at the end; none where a signal interrupted the read, which is then made again.
fn came_of(answer: io::Result<usize>) -> io::Result<Option<usize>>
    ensures { result ≡ came_of answer }
{
    match answer {
        Ok(n) => Ok(Some(n)),
        Err(error) if error.kind() == ErrorKind::Interrupted => Ok(None),
        Err(error) => Err(error),
    }
}

// Reads until the input ends or the buffer is full, and says how many bytes came. A read that a signal interrupts is made again; any other
// failed read leaves no input, one that would have to wait (EAGAIN) too.
pub fn read_input<R: Read>(input: &mut R, buf: &mut [u8]) -> io::Result<usize>
    ensures within { IfOk result (λ n. n ≤ length buf.new) }
    ensures whole { IfOk result (λ n. n < length buf.new → IsAtEnd (R.remaining input.new)) }
{
    let mut done = 0;
    let mut turns = u64::MAX;
    // Kept: no `for`, since each turn must bring bytes or be an interruption: its measure holds the body to that.
    while done < buf.len() {
        match came_of(input.read(&mut buf[done..]))? {
            Some(0) => return Ok(done),
            Some(n) => done += n,
            None if turns == 0 => return Err(Error::from(ErrorKind::Interrupted)),
            None => turns -= 1,
        }
    }
    Ok(done)
}

// Runs a program that writes what it has to say of its input. A failure is said on standard error in the program's name; an input that cannot be
// read to its end gives no text.
pub fn run<F: FnOnce(&[u8]) -> io::Result<()>>(
    rt: &HostRuntime,
    program: &str,
    buf: &mut [u8],
    write: F,
)
    requires { F.IsAlwaysCallable write }
{
    match read_input(&mut rt.stdin(), buf) {
        Ok(n) => {
            if let Err(error) = write(&buf[..n]) {
                let _ = eprintln!(rt; "{program}: cannot write standard output: {error}");
            }
        }
        Err(error) => {
            let _ = eprintln!(rt; "{program}: cannot read standard input: {error}");
        }
    }
}
