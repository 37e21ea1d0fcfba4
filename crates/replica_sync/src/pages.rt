//! The pages of what was found, read under the gate and put one after another.

ghost use Rattle.std.specs.Prelude.{◌≡◌, ℕ, ◌≤◌, ◌<◌, false, length, Some, OnOk, OnErr};
ghost use Rattle.crash_disk.specs.Told.{Keeps as KeepsFolder};
ghost use Rattle.live_gate.specs.LiveRecord.{IfTold, GoesOn};
ghost use Rattle.live_gate.specs.LiveCalls.{Keeps};
ghost use Rattle.ltx_format.specs.LtxFormat.{IsStored};
ghost use Rattle.wal_follow.specs.Following.{Fits};
ghost use Rattle.wal_follow.specs.Calls.{target_of};
ghost use Rattle.replica_sync.specs.Answers.{HasCauses};
ghost use Rattle.replica_sync.specs.Reading.{ReadsFound, ReadsPage, ConfirmsFound, IsReadFault, IsBegun};
ghost use Rattle.replica_sync.specs.Pages as spec;
ghost use Rattle.replica_sync.specs.Pages.{IsStorable};
ghost use Rattle.replica_sync.specs.PageFile.{IsWriting, GainsPage, KeepsAll, KeepsBegun, PutsPages};

use crate::answer::SyncFault;
use crate::page_file::PageFile;
use crate::wanted::{count_of, number_at};
use crash_disk::Disk;
use live_gate::Live;
use ls_base::Place;
use wal_follow::{Follower, Found};

/// Puts the page of this number into the file, behind those of lower numbers.
fn put_page<L: Live, S: Disk>(
    live: &mut L,
    store: &mut S,
    follower: &Follower,
    found: &Found,
    number: u32,
    file: &mut PageFile,
    page: &mut [u8],
) -> Result<(), SyncFault>
    requires found { follower.now.found ≡ Some (target_of found.now) }
    requires sized { length page.old ≡ found.now.size }
    requires fits { IfTold (L.told live.old) (λ r. Fits follower.now r.database) }
    requires writing { IsWriting file.old (S.told store.old) }
    requires rises { file.old.writer.last < number }
    requires stored { IsStored file.old.writer.header number }
    requires size { file.old.writer.header.size ≡ found.now.size }
    requires commit { file.old.writer.header.commit ≡ found.now.commit }
    ensures path { file.new.put ≡ file.old.put }
    ensures header { file.new.writer.header ≡ file.old.writer.header }
    ensures last { OnOk result (file.new.writer.last ≡ number) }
    ensures sized { length page.new ≡ length page.old }
    ensures reads { GoesOn (L.told live.old) (L.told live.new)
        (ReadsPage follower.now found.now number result page.new) }
    ensures ok { OnOk result (GainsPage file.old file.new number page.new (S.told store.old) (S.told store.new)) }
    ensures err { OnErr result (KeepsAll file.old (S.told store.old) (S.told store.new)) }
    ensures answer { IsReadFault result }
    ensures keeps { Keeps (L.attached live.old) (L.attached live.new) (L.is_there live.old) (L.is_there live.new) }
    ensures keeps_folder { KeepsFolder (S.folder store.old) (S.folder store.new) (S.given store.old)
        (S.given store.new) }
    ensures causes { HasCauses (L.fault_count live.old) (L.fault_count live.new) (S.fault_count store.old)
        (S.fault_count store.new) result }
{
    follower.page(live, found, number, page)?;
    file.page(store, number, page)?;
    Ok(())
}

/// Puts each page that is stored into the file, which was begun.
fn put_pages<L: Live, S: Disk>(
    live: &mut L,
    store: &mut S,
    follower: &Follower,
    found: &Found,
    file: &mut PageFile,
    page: &mut [u8],
) -> Result<(), SyncFault>
    requires found { follower.now.found ≡ Some (target_of found.now) }
    requires storable { IsStorable found.now }
    requires sized { length page.old ≡ found.now.size }
    requires fits { IfTold (L.told live.old) (λ r. Fits follower.now r.database) }
    requires awake { IfTold (L.told live.old) (λ r. r.database.stopped ≡ false) }
    requires begun { IsBegun found.now file.old (S.told store.old) }
    ensures path { file.new.put ≡ file.old.put }
    ensures header { file.new.writer.header ≡ file.old.writer.header }
    ensures reads { GoesOn (L.told live.old) (L.told live.new) (ReadsFound follower.now found.now.place result) }
    ensures ok { OnOk result (PutsPages found.now (spec.count_of found.now) file.old file.new (S.told store.old)
        (S.told store.new) (L.told live.old) (L.told live.new)) }
    ensures err { OnErr result (KeepsBegun file.old (S.told store.old) (S.told store.new)) }
    ensures answer { IsReadFault result }
    ensures keeps { Keeps (L.attached live.old) (L.attached live.new) (L.is_there live.old) (L.is_there live.new) }
    ensures keeps_folder { KeepsFolder (S.folder store.old) (S.folder store.new) (S.given store.old)
        (S.given store.new) }
    ensures causes { HasCauses (L.fault_count live.old) (L.fault_count live.new) (S.fault_count store.old)
        (S.fault_count store.new) result }
{
    for at in 0..count_of(found) {
        let number = number_at(found, at);
        put_page(live, store, follower, found, number, file, page)?;
    }
    Ok(())
}

/// Asks whether the log is still the one in which the state was found. Of a place at rest nothing is asked.
fn confirm<L: Live>(live: &mut L, follower: &Follower, found: &Found) -> Result<(), SyncFault>
    requires found { follower.now.found ≡ Some (target_of found.now) }
    requires fits { IfTold (L.told live.old) (λ r. Fits follower.now r.database) }
    ensures reads { GoesOn (L.told live.old) (L.told live.new) (ReadsFound follower.now found.now.place result) }
    ensures confirmed { OnOk result (GoesOn (L.told live.old) (L.told live.new)
        (ConfirmsFound follower.now (target_of found.now))) }
    ensures answer { IsReadFault result }
    ensures keeps { Keeps (L.attached live.old) (L.attached live.new) (L.is_there live.old) (L.is_there live.new) }
    ensures causes { (store : ℕ) → HasCauses (L.fault_count live.old) (L.fault_count live.new) store store result }
{
    match found.place {
        Place::Rest { .. } => Ok(()),
        Place::Wal { .. } => {
            follower.confirm(live, found)?;
            Ok(())
        }
    }
}

/// Puts each page that is stored into the file, and asks whether the log is still the one in which they were found.
/// After a refusal the file is to be abandoned.
pub(crate) fn put_found<L: Live, S: Disk>(
    live: &mut L,
    store: &mut S,
    follower: &Follower,
    found: &Found,
    file: &mut PageFile,
    page: &mut [u8],
) -> Result<(), SyncFault>
    requires found { follower.now.found ≡ Some (target_of found.now) }
    requires storable { IsStorable found.now }
    requires sized { length page.old ≡ found.now.size }
    requires fits { IfTold (L.told live.old) (λ r. Fits follower.now r.database) }
    requires awake { IfTold (L.told live.old) (λ r. r.database.stopped ≡ false) }
    requires begun { IsBegun found.now file.old (S.told store.old) }
    ensures path { file.new.put ≡ file.old.put }
    ensures header { file.new.writer.header ≡ file.old.writer.header }
    ensures reads { GoesOn (L.told live.old) (L.told live.new) (ReadsFound follower.now found.now.place result) }
    ensures confirmed { OnOk result (GoesOn (L.told live.old) (L.told live.new)
        (ConfirmsFound follower.now (target_of found.now))) }
    ensures ok { OnOk result (PutsPages found.now (spec.count_of found.now) file.old file.new (S.told store.old)
        (S.told store.new) (L.told live.old) (L.told live.new)) }
    ensures err { OnErr result (KeepsBegun file.old (S.told store.old) (S.told store.new)) }
    ensures answer { IsReadFault result }
    ensures keeps { Keeps (L.attached live.old) (L.attached live.new) (L.is_there live.old) (L.is_there live.new) }
    ensures keeps_folder { KeepsFolder (S.folder store.old) (S.folder store.new) (S.given store.old)
        (S.given store.new) }
    ensures causes { HasCauses (L.fault_count live.old) (L.fault_count live.new) (S.fault_count store.old)
        (S.fault_count store.new) result }
{
    put_pages(live, store, follower, found, file, page)?;
    confirm(live, follower, found)
}
