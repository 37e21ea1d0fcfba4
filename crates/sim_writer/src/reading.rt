//! Reading the log.

ghost use Rattle.std.specs.Prelude.{◌≡◌, ◌^◌, ◌<◌, ◌≤◌, length};
ghost use Rattle.sim_writer.specs.Reading.{ReadsLog};
ghost use Rattle.sim_writer.specs.Sound.{log_of};

use crate::machine::Machine;
use crate::rest::{copy_front, rest_from};

impl Machine {
    /// Fills a front of the buffer with the bytes of the log from the offset on, and answers how many they are.
    pub(crate) fn read_log(&self, at: u64, into: &mut [u8]) -> usize
        ensures bound { result ≤ length into.old }
        ensures short { length self.now.committed < 2 ^ 63 }
        ensures value { ReadsLog self.now at (length into.old) result into.new }
    {
        let committed = self.committed.as_slice();
        let bytes = committed.len() as u64;
        if at < bytes {
            return copy_front(rest_from(committed, at), into);
        }
        let tail = rest_from(self.tail.as_slice(), self.over as u64);
        copy_front(rest_from(tail, at - bytes), into)
    }

    /// The length of the log in bytes.
    pub(crate) fn log_size(&self) -> u64
        ensures { result ≡ length (log_of self.now) }
    {
        let tail = rest_from(self.tail.as_slice(), self.over as u64);
        self.committed.as_slice().len() as u64 + tail.len() as u64
    }
}
