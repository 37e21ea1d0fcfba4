//! One file, made anew by its changes.

ghost use Rattle.std.specs.Prelude.{◌≡◌, ◌+◌, ◌-◌, ◌++◌, length, drop, reverse, IfOk, OnOk};
ghost use Rattle.crash_disk.specs.Files.{with_length};
ghost use Rattle.crash_disk.specs.FileState.{synced_file, changed_in, appended, written, resized};
ghost use Rattle.crash_disk.specs.Remnant.{scribbled, torn, length_before, bytes_left};

use crate::file_bytes::{set_length, write_over};
use crate::remnant::Remnant;
use ls_base::{Bytes, Memory};
use std::alloc::Global;
use std::marker::Model;

/// A byte that stands where a crash left neither what was there nor what was written.
const STRAY: u8 = 90;

/// The places of a file from `start` on, up to `end` and without it.
#[derive(Debug, Drop)]
pub struct Span {
    start: usize,
    end: usize,
}

impl Model for Span {
    ghost use Rattle.crash_disk.specs.FileState.{Range};

    ghost Value = { Range };

    ghost view = { λ s. record { start = s.start; end = s.end } };
}

/// A file: its bytes, those at its last sync, and what was written and which lengths it had since.
#[derive(Debug, Drop)]
pub struct Replayed {
    bytes: Bytes,
    synced: Bytes,
    /// The newest last, as are the lengths.
    ranges: Vec<Span>,
    lengths: Vec<usize>,
}

impl Model for Replayed {
    ghost use Rattle.std.specs.Prelude.{reverse};
    ghost use Rattle.crash_disk.specs.FileState.{FileState};

    ghost Value = { FileState };

    ghost view = { λ f. record {
      bytes = f.bytes;
      synced = f.synced;
      ranges = reverse f.ranges.items;
      lengths = reverse f.lengths.items;
    } };
}

impl Replayed {
    /// A file with these bytes, all of them synced.
    pub fn new(alloc: Global, bytes: &[u8]) -> Result<Replayed, Memory>
        ensures { IfOk result (λ file. file ≡ synced_file bytes.now) }
    {
        let mut lengths = Vec::new(alloc);
        lengths.push(bytes.len())?;
        Ok(Replayed {
            bytes: copied(alloc, bytes)?,
            synced: copied(alloc, bytes)?,
            ranges: Vec::new(alloc),
            lengths,
        })
    }

    /// Puts the bytes behind those of the file.
    pub fn append(&mut self, bytes: &[u8]) -> Result<(), Memory>
        ensures { OnOk result (self.new ≡ appended bytes.now self.old) }
    {
        let start = self.bytes.as_slice().len();
        self.bytes.extend(bytes)?;
        let end = self.bytes.as_slice().len();
        self.note(start, end)
    }

    /// Writes the bytes over those of the file from the offset on.
    pub fn write_at(&mut self, at: u64, bytes: &[u8]) -> Result<(), Memory>
        ensures { OnOk result (self.new ≡ written at bytes.now self.old) }
    {
        let length = self.bytes.as_slice().len();
        write_over(&mut self.bytes, at, bytes)?;
        self.note(length.min(at as usize), at as usize + bytes.len())
    }

    /// Sets the length of the file in bytes.
    pub fn cut(&mut self, size: u64) -> Result<(), Memory>
        ensures { OnOk result (self.new ≡ resized size self.old) }
    {
        let length = self.bytes.as_slice().len();
        set_length(&mut self.bytes, size)?;
        self.note(length, size as usize)
    }

    /// Notes what was written, and the length that the file has now.
    fn note(&mut self, start: usize, end: usize) -> Result<(), Memory>
        ensures { OnOk result (self.new ≡ changed_in (record { start = start; end = end }) self.old.bytes self.old) }
    {
        self.ranges.push(Span { start, end })?;
        self.lengths.push(self.bytes.as_slice().len())?;
        Ok(())
    }

    /// The file's bytes, all of them synced now.
    pub fn synced(self, alloc: Global) -> Result<Replayed, Memory>
        ensures { IfOk result (λ file. file ≡ synced_file self.bytes) }
    {
        Replayed::new(alloc, self.bytes.as_slice())
    }

    /// What a crash leaves of the bytes.
    pub fn left(self, alloc: Global, remnant: Remnant) -> Result<Bytes, Memory>
        ensures { IfOk result (λ bytes. bytes ≡ bytes_left remnant self) }
    {
        match remnant {
            Remnant::OfTheSync => Ok(self.synced),
            Remnant::AsRead => Ok(self.bytes),
            Remnant::Torn => torn(alloc, self.bytes, &self.ranges),
            Remnant::OfEarlierLength => at_length(
                self.bytes,
                self.synced.as_slice(),
                length_before(&self.lengths),
            ),
        }
    }
}

/// The bytes with stray ones inside each of the ranges.
fn torn(alloc: Global, mut bytes: Bytes, ranges: &[Span]) -> Result<Bytes, Memory>
    ensures { IfOk result (λ left. left ≡ torn (reverse ranges.now) bytes) }
{
    for range in ranges {
        scribble(alloc, &mut bytes, range)?;
    }
    Ok(bytes)
}

/// Writes stray bytes over those inside the range.
fn scribble(alloc: Global, bytes: &mut Bytes, range: &Span) -> Result<(), Memory>
    ensures { OnOk result (bytes.new ≡ scribbled range.now bytes.old) }
{
    let length = bytes.as_slice().len();
    let start = range.start.min(length);
    let stray = vec![in alloc; STRAY; range.end.min(length).saturating_sub(start)]?;
    bytes.overwrite(start, &stray);
    Ok(())
}

/// The bytes, and behind them those of the sync, cut to the length or followed by zeros up to it.
fn at_length(mut bytes: Bytes, synced: &[u8], size: usize) -> Result<Bytes, Memory>
    ensures { IfOk result (λ left. left ≡ with_length size (bytes ++ drop (length bytes) synced.now)) }
{
    let from = bytes.as_slice().len().min(synced.len());
    bytes.extend(&synced[from..])?;
    bytes.resize(size)?;
    Ok(bytes)
}

/// The last of these lengths but one, or the only one.
fn length_before(lengths: &[usize]) -> usize
    ensures { result ≡ length_before (reverse lengths.now) }
{
    match lengths {
        [] => 0,
        [only] => *only,
        [.., before, _] => *before,
    }
}

/// A copy of the bytes.
pub fn copied(alloc: Global, bytes: &[u8]) -> Result<Bytes, Memory>
    ensures { IfOk result (λ copy. copy ≡ bytes.now) }
{
    Ok(Bytes::from_vec(bytes.to_vec(alloc)?))
}
