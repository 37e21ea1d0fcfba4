//! Drawn commits.

ghost use Rattle.std.specs.Prelude.{◌≡◌, ◌+◌, ◌*◌, ◌<◌, IfOk, OnOk, OnErr};
ghost use Rattle.demo_draws.specs.Generator.{advanced_by};
ghost use Rattle.demo_draws.specs.DrawnPage.{page_words};
ghost use Rattle.demo_draws.specs.DrawnCommit.{commit_of_draws, after_commit, drawn_pages};
ghost use Rattle.demo_draws.specs.DatabaseCommit.{IsDatabaseCommit};
ghost use Rattle.demo_draws.specs.DrawnCommit.{first_commit, after_first_commit, first_pages};

use crate::draws::Draws;
use ls_base::{ChangePages, Memory};
use std::alloc::Global;

/// How many pages the database has after each of its first commits.
pub const FIRST_COMMIT_PAGES: u32 = 300;

/// The least size of the database after a later commit, in pages, and how many sizes there are from it on.
const LEAST_SIZE: u32 = 290;

const SIZES: u32 = 21;

/// The most pages that are drawn for a commit.
const MOST_PAGES: u32 = 8;

/// A commit of the made-up database.
#[derive(Debug, Drop)]
pub struct DrawnCommit {
    /// How many pages the database has after it.
    pub size: u32,
    /// Its pages by their number.
    pub pages: ChangePages,
}

impl Draws {
    /// The next commit: the size that it leaves, from 290 to 310 pages, and 1 to 8 drawn pages, each of a drawn
    /// number up to the size. A page drawn again stands in the place of the earlier one. `Memory` for want of it, and
    /// the generator is then as it was.
    pub fn commit(&mut self, alloc: Global) -> Result<DrawnCommit, Memory>
        ensures ok { IfOk result (λ commit. commit ≡ commit_of_draws self.old) }
        ensures legal { IfOk result (λ commit. IsDatabaseCommit commit) }
        ensures state { OnOk result (self.new ≡ after_commit self.old) }
        ensures err { OnErr result (self.new ≡ self.old) }
    {
        let mut draws = *self;
        let size = LEAST_SIZE + draws.below(SIZES);
        let count = 1 + draws.below(MOST_PAGES);
        let pages = draws.numbered_pages(alloc, size, count)?;
        *self = draws;
        Ok(DrawnCommit { size, pages })
    }

    /// A first commit: the pages 1 to 300, drawn in that order. `Memory` for want of it, and the generator is then as
    /// it was.
    pub fn first_commit(&mut self, alloc: Global) -> Result<DrawnCommit, Memory>
        ensures ok { IfOk result (λ commit. commit ≡ first_commit self.old) }
        ensures legal { IfOk result (λ commit. IsDatabaseCommit commit) }
        ensures state { OnOk result (self.new ≡ after_first_commit self.old) }
        ensures err { OnErr result (self.new ≡ self.old) }
    {
        let mut draws = *self;
        let pages = draws.rising_pages(alloc, FIRST_COMMIT_PAGES)?;
        *self = draws;
        Ok(DrawnCommit {
            size: FIRST_COMMIT_PAGES,
            pages,
        })
    }

    /// So many pages, each of a drawn number up to the size.
    fn numbered_pages(
        &mut self,
        alloc: Global,
        size: u32,
        count: u32,
    ) -> Result<ChangePages, Memory>
        requires some { 0 < size }
        ensures pages { IfOk result (λ pages. pages ≡ drawn_pages self.old size count) }
        ensures state { OnOk result (self.new ≡ advanced_by ((1 + page_words) * count) self.old) }
    {
        let mut pages = ChangePages::new(alloc);
        for _ in 0..count {
            let number = 1 + self.below(size);
            let page = self.page(alloc, number)?;
            pages.put(number, page)?;
        }
        Ok(pages)
    }

    /// The pages from 1 to the last number, drawn in that order.
    fn rising_pages(&mut self, alloc: Global, last: u32) -> Result<ChangePages, Memory>
        ensures pages { IfOk result (λ pages. pages ≡ first_pages self.old last) }
        ensures state { OnOk result (self.new ≡ advanced_by (page_words * last) self.old) }
    {
        let mut pages = ChangePages::new(alloc);
        for before in 0..last {
            let page = self.page(alloc, before + 1)?;
            pages.put(before + 1, page)?;
        }
        Ok(pages)
    }
}
