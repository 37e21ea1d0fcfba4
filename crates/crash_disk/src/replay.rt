//! What a crash leaves of the files that a record of changes made.
//!
//! Nothing is kept for a crash but the record. A file has a number, the length of the record when it was
//! made, and its bytes are made anew by the changes that found it under a name.

ghost use Rattle.std.specs.Prelude.{◌≡◌, ◌∷◌, reverse, IfOk};
ghost use Rattle.crash_disk.specs.Numbers.{number_at, file_of, is_number};
ghost use Rattle.crash_disk.specs.Crash.{synced_number_at, file_left};

use crate::event::Event;
use crate::remnant::{remnant_at, takes_names};
use crate::replayed::Replayed;
use ls_base::{Bytes, Memory};
use std::alloc::Global;

/// The file that the choice leaves at the name after these changes, the newest last.
pub fn file_left(
    alloc: Global,
    events: &[Event],
    name: &str,
    choice: u64,
) -> Result<Option<Bytes>, Memory>
    ensures { IfOk result (λ file. file ≡ file_left choice (reverse events.now) name.now) }
{
    let number = if takes_names(choice, name) {
        number_at(events, name)
    } else {
        synced_number_at(events, name)
    };
    let Some(number) = number else {
        return Ok(None);
    };
    let file = file_of(alloc, events, number)?;
    Ok(Some(file.left(alloc, remnant_at(choice, name))?))
}

/// The file of this number after these changes, the newest last.
fn file_of(alloc: Global, events: &[Event], number: usize) -> Result<Replayed, Memory>
    ensures { IfOk result (λ file. file ≡ file_of (reverse events.now) number) }
{
    let mut file = Replayed::new(alloc, &[])?;
    for i in 0..events.len() {
        file = changed(alloc, file, &events[..i], &events[i], number)?;
    }
    Ok(file)
}

/// The file of this number after the change, if it is one of that file. Before it were these, the newest last.
fn changed(
    alloc: Global,
    mut file: Replayed,
    before: &[Event],
    event: &Event,
    number: usize,
) -> Result<Replayed, Memory>
    requires so_far { file ≡ file_of (reverse before.now) number }
    ensures { IfOk result (λ new. new ≡ file_of (event.now ∷ reverse before.now) number) }
{
    match event {
        Event::Placed(_, bytes) => {
            if before.len() == number {
                return Replayed::new(alloc, bytes.as_slice());
            }
        }
        Event::Created(name) => {
            if stands_at(before, name.as_str(), number) {
                file.cut(0)?;
            }
        }
        Event::Appended(name, bytes) => {
            if stands_at(before, name.as_str(), number) {
                file.append(bytes.as_slice())?;
            }
        }
        Event::Wrote(name, at, bytes) => {
            if stands_at(before, name.as_str(), number) {
                file.write_at(*at, bytes.as_slice())?;
            }
        }
        Event::Cut(name, size) => {
            if stands_at(before, name.as_str(), number) {
                file.cut(*size)?;
            }
        }
        Event::Synced(name) => {
            if stands_at(before, name.as_str(), number) {
                return file.synced(alloc);
            }
        }
        Event::Renamed(..) => {}
        Event::Removed(_) => {}
        Event::NamesSynced => {}
    }
    Ok(file)
}

/// The number of the file at the name after these changes, the newest last.
fn number_at(events: &[Event], name: &str) -> Option<usize>
    ensures { result ≡ number_at (reverse events.now) name.now }
{
    let (newest, before) = events.split_last()?;
    match newest {
        Event::Placed(given, _) => {
            if given.is(name) {
                Some(before.len())
            } else {
                number_at(before, name)
            }
        }
        Event::Created(given) => {
            if given.is(name) {
                Some(number_at(before, given.as_str()).unwrap_or(before.len()))
            } else {
                number_at(before, name)
            }
        }
        Event::Renamed(from, to) => {
            if to.is(name) {
                number_at(before, from.as_str()).or(number_at(before, name))
            } else if from.is(name) {
                None
            } else {
                number_at(before, name)
            }
        }
        Event::Removed(gone) => {
            if gone.is(name) {
                None
            } else {
                number_at(before, name)
            }
        }
        Event::Appended(..)
        | Event::Wrote(..)
        | Event::Cut(..)
        | Event::Synced(_)
        | Event::NamesSynced => number_at(before, name),
    }
}

/// Whether the file at the name after these changes has this number.
fn stands_at(events: &[Event], name: &str, number: usize) -> bool
    ensures { result ≡ is_number number (number_at (reverse events.now) name.now) }
{
    match number_at(events, name) {
        Some(there) => number == there,
        None => false,
    }
}

/// The number that the name had when the names were last synced.
fn synced_number_at(events: &[Event], name: &str) -> Option<usize>
    ensures { result ≡ synced_number_at (reverse events.now) name.now }
{
    let (newest, before) = events.split_last()?;
    match newest {
        Event::Placed(given, _) => {
            if given.is(name) {
                Some(before.len())
            } else {
                synced_number_at(before, name)
            }
        }
        Event::NamesSynced => number_at(before, name),
        _ => synced_number_at(before, name),
    }
}
