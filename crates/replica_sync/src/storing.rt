//! Storing what was found.

ghost use Rattle.std.specs.Prelude.{◌≡◌, ℕ, false, length, Some, None, IfOk, OnOk, OnErr};
ghost use Rattle.crash_disk.specs.Told.{Keeps as KeepsFolder};
ghost use Rattle.live_gate.specs.LiveRecord.{IfTold, GoesOn};
ghost use Rattle.live_gate.specs.LiveCalls.{Keeps};
ghost use Rattle.ltx_format.specs.LtxFormat.{IsHeader};
ghost use Rattle.replica_store.specs.Listing.{IsValid};
ghost use Rattle.wal_follow.specs.Following.{Fits};
ghost use Rattle.wal_follow.specs.Calls.{target_of, KnowsPlace};
ghost use Rattle.replica_sync.specs.Answers.{HasCauses, IsNextAnswer};
ghost use Rattle.replica_sync.specs.LiveSide.{StoresLive};
ghost use Rattle.replica_sync.specs.Newest.{next_moment};
ghost use Rattle.replica_sync.specs.Reading.{ReadsFound, ConfirmsFound, IsReadFault, IsStoreFault, IsBegun};
ghost use Rattle.replica_sync.specs.Pages.{IsStorable};
ghost use Rattle.replica_sync.specs.Storing.{PutsFound, MayPutFound, StoresFound, MayStoreFound};
ghost use Rattle.replica_sync.specs.Storing.{StoresNext, MayStoreNext};

use crate::answer::SyncFault;
use crate::gathered::Gathered;
use crate::naming::next_name;
use crate::newest::next_moment;
use crate::page_file::PageFile;
use crate::pages::put_found;
use crate::wanted::is_storable;
use crash_disk::Disk;
use live_gate::Live;
use ltx_format::LtxHeader;
use replica_store::{Dated, FileName};
use std::alloc::Global;
use wal_follow::{Follower, Found};

/// The header of the file of what was found.
fn header_of(found: &Found, name: &FileName, moment: u64) -> LtxHeader
    requires storable { IsStorable found.now }
    requires valid { IsValid name.now }
    ensures header { IsHeader result }
    ensures index { result.index ≡ false }
    ensures size { result.size ≡ found.now.size }
    ensures commit { result.commit ≡ found.now.commit }
    ensures place { result.place ≡ found.now.place }
    ensures min { result.min ≡ name.now.min }
    ensures max { result.max ≡ name.now.max }
    ensures moment { result.moment ≡ moment }
{
    LtxHeader {
        size: found.size,
        commit: found.commit,
        min: name.min,
        max: name.max,
        moment,
        place: found.place,
        index: false,
    }
}

/// Puts the pages of what was found into the file, which was begun, and ends it. Where that is refused the file is
/// given up, unless it is whole.
fn write_file<L: Live, S: Disk>(
    live: &mut L,
    store: &mut S,
    follower: &Follower,
    found: &Found,
    file: PageFile,
    page: &mut [u8],
) -> Result<(), SyncFault>
    requires found { follower.now.found ≡ Some (target_of found.now) }
    requires storable { IsStorable found.now }
    requires sized { length page.old ≡ found.now.size }
    requires fits { IfTold (L.told live.old) (λ r. Fits follower.now r.database) }
    requires awake { IfTold (L.told live.old) (λ r. r.database.stopped ≡ false) }
    requires begun { IsBegun found.now file (S.told store.old) }
    ensures reads { GoesOn (L.told live.old) (L.told live.new) (ReadsFound follower.now found.now.place result) }
    ensures confirmed { OnOk result (GoesOn (L.told live.old) (L.told live.new)
        (ConfirmsFound follower.now (target_of found.now))) }
    ensures ok { OnOk result (PutsFound file found.now (S.told store.old) (S.told store.new) (L.told live.old)
        (L.told live.new)) }
    ensures err { OnErr result (MayPutFound file found.now (S.told store.old) (S.told store.new) (L.told live.old)
        (L.told live.new)) }
    ensures answer { IsReadFault result }
    ensures keeps { Keeps (L.attached live.old) (L.attached live.new) (L.is_there live.old) (L.is_there live.new) }
    ensures keeps_folder { KeepsFolder (S.folder store.old) (S.folder store.new) (S.given store.old)
        (S.given store.new) }
    ensures causes { HasCauses (L.fault_count live.old) (L.fault_count live.new) (S.fault_count store.old)
        (S.fault_count store.new) result }
{
    let mut file = file;
    match put_found(live, store, follower, found, &mut file, page) {
        Ok(()) => {
            file.finish(store)?;
            Ok(())
        }
        Err(fault) => {
            file.abandon(store);
            Err(fault)
        }
    }
}

/// Stores what was found under the name, with the moment. All memory is taken before the file is begun.
pub(crate) fn store_found<L: Live, S: Disk>(
    alloc: Global,
    live: &mut L,
    store: &mut S,
    follower: &Follower,
    found: &Found,
    name: &FileName,
    moment: u64,
) -> Result<(), SyncFault>
    requires valid { IsValid name.now }
    requires found { follower.now.found ≡ Some (target_of found.now) }
    requires fits { IfTold (L.told live.old) (λ r. Fits follower.now r.database) }
    requires awake { IfTold (L.told live.old) (λ r. r.database.stopped ≡ false) }
    ensures reads { GoesOn (L.told live.old) (L.told live.new) (ReadsFound follower.now found.now.place result) }
    ensures confirmed { OnOk result (GoesOn (L.told live.old) (L.told live.new)
        (ConfirmsFound follower.now (target_of found.now))) }
    ensures ok { OnOk result (StoresFound found.now name.now moment (S.told store.old) (S.told store.new)
        (L.told live.old) (L.told live.new)) }
    ensures err { OnErr result (MayStoreFound found.now name.now moment (S.told store.old) (S.told store.new)
        (L.told live.old) (L.told live.new)) }
    ensures answer { IsStoreFault result }
    ensures keeps { Keeps (L.attached live.old) (L.attached live.new) (L.is_there live.old) (L.is_there live.new) }
    ensures keeps_folder { KeepsFolder (S.folder store.old) (S.folder store.new) (S.given store.old)
        (S.given store.new) }
    ensures causes { HasCauses (L.fault_count live.old) (L.fault_count live.new) (S.fault_count store.old)
        (S.fault_count store.new) result }
{
    if !is_storable(found) {
        return Err(SyncFault::Memory);
    }
    let header = header_of(found, name, moment);
    let mut page = vec![in alloc; 0u8; found.size.get() as usize]?;
    let gathered = Gathered::new(alloc)?;
    let file = PageFile::begin(store, name, &header, gathered)?;
    write_file(live, store, follower, found, file, &mut page)
}

/// Stores what was found as the file of the transaction behind the newest one, and makes its place the recorded one.
pub(crate) fn store_next<L: Live, S: Disk>(
    alloc: Global,
    live: &mut L,
    store: &mut S,
    follower: &mut Follower,
    found: &Found,
    dated: &[Dated],
    now: u64,
) -> Result<FileName, SyncFault>
    requires found { follower.old.found ≡ Some (target_of found.now) }
    requires fits { IfTold (L.told live.old) (λ r. Fits follower.old r.database) }
    requires awake { IfTold (L.told live.old) (λ r. r.database.stopped ≡ false) }
    ensures place { OnOk result (follower.new.place ≡ Some found.now.place) }
    ensures none { OnOk result (follower.new.found ≡ None) }
    ensures known { OnOk result (KnowsPlace follower.new) }
    ensures live { GoesOn (L.told live.old) (L.told live.new)
        (StoresLive follower.old follower.new found.now.place result) }
    ensures confirmed { OnOk result (GoesOn (L.told live.old) (L.told live.new)
        (ConfirmsFound follower.old (target_of found.now))) }
    ensures ok { IfOk result (λ name. StoresNext dated.now found.now name (next_moment dated.now now)
        (S.told store.old) (S.told store.new) (L.told live.old) (L.told live.new)) }
    ensures err { OnErr result (MayStoreNext dated.now found.now (next_moment dated.now now) (S.told store.old)
        (S.told store.new) (L.told live.old) (L.told live.new)) }
    ensures kept { OnErr result (follower.new ≡ follower.old) }
    ensures answer { IsNextAnswer dated.now result }
    ensures keeps { Keeps (L.attached live.old) (L.attached live.new) (L.is_there live.old) (L.is_there live.new) }
    ensures keeps_folder { KeepsFolder (S.folder store.old) (S.folder store.new) (S.given store.old)
        (S.given store.new) }
    ensures causes { HasCauses (L.fault_count live.old) (L.fault_count live.new) (S.fault_count store.old)
        (S.fault_count store.new) result }
{
    let name = next_name(dated, &found.wanted)?;
    let moment = next_moment(dated, now);
    store_found(alloc, live, store, follower, found, &name, moment)?;
    follower.stored(found);
    Ok(name)
}
