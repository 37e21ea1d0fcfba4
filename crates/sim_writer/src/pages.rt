//! The pages of the state behind a commit.

ghost use Rattle.std.specs.Prelude.{◌≡◌, ◌+◌, ◌*◌, ◌≤◌, length, take, drop, map, unwrap_or, IfOk, IfSome};
ghost use Rattle.std.specs.Prelude.{option_copied};
ghost use Rattle.std.specs.List.{range_with_len};
ghost use Rattle.wal_frames.specs.ValidPrefix.{valid_frames};
ghost use Rattle.wal_frames.specs.WalFrame.{page_number};
ghost use Rattle.wal_frames.specs.View.{frames_page, file_page};
ghost use Rattle.sim_writer.specs.Commits.{page_after};
ghost use Rattle.sim_writer.specs.Sound.{IsSound, page_behind};

use crate::machine::Machine;
use crate::rest::page_of_file;
use byteorder::{BigEndian, ByteOrder};
use ls_base::{ChangePages, Memory, Page, Pages};
use std::alloc::Global;

/// The length of a log's header, and that of what stands before a frame's page, in bytes.
const HEADER_BYTES: usize = 32;

const FRAME_HEADER_BYTES: usize = 24;

impl Machine {
    /// The pages of the state behind a commit of these pages, after which the database has so many.
    pub(crate) fn pages_after(
        &self,
        alloc: Global,
        pages: &ChangePages,
        size: u32,
    ) -> Result<Pages, Memory>
        requires sound { IsSound self.now }
        ensures { IfOk result (λ made. made ≡ map (page_after self.now.head self.now.file
            (valid_frames self.now.committed) pages.now) (range_with_len 1 size)) }
    {
        let mut made = Pages::new(alloc);
        for before in 0..size {
            let page = self.page_after(alloc, pages, before + 1)?;
            made.push(page)?;
        }
        Ok(made)
    }

    /// One of them, by its number.
    fn page_after(&self, alloc: Global, pages: &ChangePages, number: u32) -> Result<Page, Memory>
        requires from { 1 ≤ number }
        requires sound { IsSound self.now }
        ensures { IfOk result (λ page. page ≡ page_after self.now.head self.now.file
            (valid_frames self.now.committed) pages.now number) }
    {
        if number == self.head.size.lock_page() {
            return Page::zeroed(alloc, self.head.size);
        }
        if let Some(page) = pages.get(number) {
            return Page::copied(alloc, page.bytes());
        }
        if let Some(page) = self.page_before(number) {
            return Page::copied(alloc, page.bytes());
        }
        self.page_regrown(alloc, number)
    }

    /// The page of this number in the last state, if that has it.
    fn page_before(&self, number: u32) -> Option<&Page>
        requires from { 1 ≤ number }
        requires sound { IsSound self.now }
        ensures { IfSome result (λ page. page.now ≡ page_behind self.now.head self.now.file
            (valid_frames self.now.committed) number) }
    {
        let at = self.history.len().checked_sub(1)?;
        let last = self.history.get(at)?;
        let page = last.pages.get((number - 1) as usize)?;
        Some(page)
    }

    /// A page that the last state doesn't have: that of its last frame in the log, else that of the file.
    fn page_regrown(&self, alloc: Global, number: u32) -> Result<Page, Memory>
        requires from { 1 ≤ number }
        requires sound { IsSound self.now }
        ensures { IfOk result (λ page. page ≡ unwrap_or (frames_page number (valid_frames self.now.committed))
            (file_page self.now.head.size self.now.file number)) }
    {
        match self.last_frame(number) {
            Some(page) => Page::copied(alloc, page),
            None => page_of_file(alloc, self.file.as_slice(), self.head.size, number),
        }
    }

    /// The page of the last frame of the log with this number.
    fn last_frame(&self, number: u32) -> Option<&[u8]>
        requires { IsSound self.now }
        ensures { option_copied result ≡ frames_page number (valid_frames self.now.committed) }
    {
        let log = self.committed.as_slice();
        let length = FRAME_HEADER_BYTES + self.head.size.get() as usize;
        let mut left = self.frame_count();
        while left > 0 {
            left -= 1;
            let frame = frame_at(log, left, length);
            if number_of(frame) == number {
                return Some(&frame[FRAME_HEADER_BYTES..]);
            }
        }
        None
    }

    /// How many frames the log has up to its last mark.
    fn frame_count(&self) -> usize
        requires { IsSound self.now }
        ensures { result ≡ length (valid_frames self.now.committed) }
    {
        let length = FRAME_HEADER_BYTES + self.head.size.get() as usize;
        let bytes = self.committed.as_slice().len();
        bytes.saturating_sub(HEADER_BYTES) / length
    }
}

/// The frame at this place of a log, counted from 0.
fn frame_at(log: &[u8], place: usize, bytes: usize) -> &[u8]
    requires { 32 + place * bytes + bytes ≤ length log.now }
    ensures value { result.now ≡ take bytes (drop (32 + place * bytes) log.now) }
    ensures long { length result.now ≡ bytes }
{
    let start = HEADER_BYTES + place * bytes;
    &log[start..start + bytes]
}

/// The number of the page of a frame.
#[tactic(auto, unfolding(wal_frames::specs::WalFormat::field_at))]
fn number_of(frame: &[u8]) -> u32
    requires { 4 ≤ length frame.now }
    ensures { result ≡ page_number frame.now }
{
    BigEndian::read_u32(frame)
}
