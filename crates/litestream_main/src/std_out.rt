//! The standard streams as outputs.

ghost use Rattle.std.specs.Prelude.{◌≡◌, ◌≤◌, None, length, IfOk};
ghost use Rattle.ls_base.specs.Fault.{HasCause};

use crash_disk::{Out, OutFault};
use std::io::{self, ErrorKind, Stderr, Stdout};

#[derive(Clone, Copy)]
enum Stream {
    Output(Stdout),
    Error(Stderr),
}

/// A standard stream as an output that doesn't tell its content. Nothing is buffered.
#[derive(Drop)]
pub struct StdOut {
    stream: Stream,
    faults: u64,
}

impl StdOut {
    /// The standard output.
    pub fn stdout(runtime: HostRuntime) -> StdOut
        ensures faults { result.faults ≡ 0 }
    {
        StdOut {
            stream: Stream::Output(runtime.stdout()),
            faults: 0,
        }
    }

    /// The standard error.
    pub fn stderr(runtime: HostRuntime) -> StdOut
        ensures faults { result.faults ≡ 0 }
    {
        StdOut {
            stream: Stream::Error(runtime.stderr()),
            faults: 0,
        }
    }
}

impl Out for StdOut {
    ghost text = { λ _. None };

    ghost fault_count = { λ out. out.faults };

    fn put(&mut self, bytes: &[u8]) -> Result<(), OutFault> {
        match write_whole(self.stream, bytes) {
            Ok(()) => Ok(()),
            Err(_) => {
                self.faults = self.faults.saturating_add(1);
                Err(OutFault)
            }
        }
    }

    fn faults(&self) -> u64 {
        self.faults
    }
}

fn write_whole(stream: Stream, bytes: &[u8]) -> io::Result<()> {
    let mut rest = bytes;
    for _ in 0..u64::MAX {
        if rest.is_empty() {
            return Ok(());
        }
        match write_some(stream, rest) {
            Ok(0) => return Err(ErrorKind::WriteZero.into()),
            Ok(count) => rest = &rest[count..],
            Err(error) if error.kind() == ErrorKind::Interrupted => {}
            Err(error) => return Err(error),
        }
    }
    Err(ErrorKind::TimedOut.into())
}

fn write_some(stream: Stream, bytes: &[u8]) -> io::Result<usize>
    ensures bound { IfOk result (λ count. count ≤ length bytes.now) }
{
    match stream {
        Stream::Output(stdout) => stdout.write_some(bytes),
        Stream::Error(stderr) => stderr.write_some(bytes),
    }
}
