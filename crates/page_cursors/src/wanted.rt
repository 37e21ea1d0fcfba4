//! The numbers that a file of a chain must hold.

ghost use Rattle.std.specs.Prelude.{◌≡◌, ◌≢◌, ◌+◌, ◌<◌, ◌≤◌, ◌^◌, ℕ, List, [], ◌∷◌, ◌++◌, IfSome};
ghost use Rattle.std.specs.Option.{IfNone};
ghost use Rattle.ls_base.specs.PageSize.{lock_page};
ghost use Rattle.page_cursors.specs.Wanted.{Wants, IsFirstLacking, AreBelow, HoldsAll};

use ls_base::PageSize;

/// Which numbers above the size before a file its pages still have to hold, told as they rise. A page above that size
/// is in no state before, so that the file must have it; the lock page is in none.
#[derive(Clone, Copy, Debug)]
pub struct Wanted {
    pub lock: u32,
    pub next: u64,
    pub missed: Option<u32>,
}

/// The first number above the other that isn't the lock page's.
fn above(lock: u32, number: u32) -> u64
    ensures above { number < result }
    ensures unlocked { result ≢ lock }
    ensures least { (p : ℕ) → number < p → p < result → p ≡ lock }
{
    let next = u64::from(number) + 1;
    if next == u64::from(lock) {
        return next + 1;
    }
    next
}

impl Wanted {
    /// Of a file with pages of this size, behind so many pages before it.
    pub fn new(size: PageSize, before: u32) -> Wanted
        ensures { Wants (lock_page size) before [] result }
    {
        let lock = size.lock_page();
        Wanted {
            lock,
            next: above(lock, before),
            missed: None,
        }
    }

    /// The file has the page of this number, which is above those before.
    pub fn take(&mut self, number: u32)
        ensures { (lock above : ℕ) (numbers : List ℕ) → AreBelow numbers number → Wants lock above numbers self.old
            → Wants lock above (numbers ++ number ∷ []) self.new }
    {
        if self.missed.is_some() {
            return;
        }
        if u64::from(number) < self.next {
            return;
        }
        if u64::from(number) > self.next {
            self.missed = Some(self.next as u32);
            return;
        }
        self.next = above(self.lock, number);
    }

    /// The first number up to the file's size that it lacks.
    pub fn lacking(&self, commit: u32) -> Option<u32>
        ensures some { (lock above : ℕ) (numbers : List ℕ) → AreBelow numbers (commit + 1)
            → Wants lock above numbers self.now → IfSome result (IsFirstLacking lock above numbers) }
        ensures within { (lock above : ℕ) (numbers : List ℕ) → AreBelow numbers (commit + 1)
            → Wants lock above numbers self.now → IfSome result (λ number. number ≤ commit) }
        ensures none { (lock above : ℕ) (numbers : List ℕ) → AreBelow numbers (commit + 1)
            → Wants lock above numbers self.now → IfNone result (HoldsAll lock above numbers commit) }
    {
        if self.missed.is_some() {
            return self.missed;
        }
        if self.next <= u64::from(commit) {
            return Some(self.next as u32);
        }
        None
    }
}
