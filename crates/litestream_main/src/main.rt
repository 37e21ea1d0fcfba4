//! The program `litestream`: real files and streams below the top call that is proved.
//!
//! This crate is the edge that is trusted. What a file, a folder or a stream does is beyond any
//! contract, so the objects here tell no content, and each is held to its count of faults.
//!
//! Stands on `litestream_core`, whose top call it makes, on `file_disk` for real files as a disk, on `checkpointer`
//! for a pass over a log, on `crash_disk` and on `live_gate`.
#![tactic(auto)]

mod file_live;
mod live_files;
#[cfg(test)]
mod live_tests;
#[cfg(test)]
mod pass_tests;
mod passing;
mod std_out;
#[cfg(test)]
mod tests;

use crash_disk::Out;
use file_disk::FileDisk;
use file_live::FileLive;
use litestream_core::litestream;
use ls_words::Words;
use std::env;
use std::io::{self, ErrorKind};
use std::process::ExitCode;
use std::time::{SystemTime, UNIX_EPOCH};
use std_out::StdOut;

/// Why there are no words to carry out.
#[derive(Drop)]
enum Refusal {
    Memory,
    TooManyWords,
    NotText,
}

impl Refusal {
    /// What is printed, and the exit status.
    fn text(&self) -> (&'static str, u8) {
        match self {
            Refusal::Memory => ("litestream: out of memory\n", 4),
            Refusal::TooManyWords => ("litestream: too many words\n", 2),
            Refusal::NotText => ("litestream: words aren't UTF-8\n", 2),
        }
    }
}

impl From<io::Error> for Refusal {
    fn from(error: io::Error) -> Refusal {
        match error.kind() {
            ErrorKind::OutOfMemory => Refusal::Memory,
            _ => Refusal::NotText,
        }
    }
}

fn main(rt: HostRuntime) -> ExitCode {
    match words(&rt) {
        Ok(words) => run(rt, &words),
        Err(refusal) => refuse(rt, &refusal),
    }
}

/// The words behind the program's name.
fn words(rt: &HostRuntime) -> Result<Words, Refusal> {
    let mut words = Words::new(rt.alloc());
    for word in env::args(rt)?.skip(1) {
        if words.len() == u32::MAX {
            return Err(Refusal::TooManyWords);
        }
        words.push(word.as_str()).map_err(|_| Refusal::Memory)?;
    }
    Ok(words)
}

/// The moment of the clock in ms since 1970-01-01T00:00:00Z, and 0 where the clock fails or is set before that.
fn clock(rt: &HostRuntime) -> u64 {
    let Ok(now) = SystemTime::now(rt) else {
        return 0;
    };
    let Ok(since) = now.duration_since(UNIX_EPOCH) else {
        return 0;
    };
    u64::try_from(since.as_millis()).unwrap_or(0)
}

/// Carries the command out over real files and streams.
fn run(rt: HostRuntime, words: &Words) -> ExitCode {
    let now = clock(&rt);
    let mut live = FileLive::new(rt);
    let mut store = FileDisk::new(rt);
    let mut target = FileDisk::new(rt);
    let mut out = StdOut::stdout(rt);
    let mut err = StdOut::stderr(rt);
    let outcome = litestream(
        rt.alloc(),
        words,
        now,
        &mut live,
        &mut store,
        &mut target,
        &mut out,
        &mut err,
    );
    ExitCode::from(outcome.status)
}

/// Says why there are no words, and ends with the status of that.
fn refuse(rt: HostRuntime, refusal: &Refusal) -> ExitCode {
    let (text, status) = refusal.text();
    let mut err = StdOut::stderr(rt);
    // A fault of this stream has nowhere to go.
    let _ = err.put(text.as_bytes());
    ExitCode::from(status)
}
