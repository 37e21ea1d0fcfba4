//! A file of a replica that is put page by page.

ghost use Rattle.std.specs.Prelude.{◌≡◌, ◌<◌, ◌≤◌, [], false, length, IfOk, OnOk, OnErr};
ghost use Rattle.std.specs.FinMap as map;
ghost use Rattle.ls_base.specs.Fault.{HasCause};
ghost use Rattle.crash_disk.specs.Told.{Keeps};
ghost use Rattle.crash_disk.specs.GoesOn.{GoesOn};
ghost use Rattle.ltx_format.specs.LtxFormat.{IsHeader, IsStored};
ghost use Rattle.replica_store.specs.Listing.{path_of};
ghost use Rattle.replica_store.specs.Putting.{KeepsOthers, StillKeepsOthers};
ghost use Rattle.replica_sync.specs.Gathering.{IsGathering, GathersMore, KeepsAllOthers};
ghost use Rattle.replica_sync.specs.PageFile.{HasPages, IsWriting, GainsPage, KeepsAll, PutsFile, MayPutFile};

use crate::gathered::Gathered;
use crash_disk::{Disk, DiskFault};
use ltx_format::{LtxHeader, LtxWriter};
use replica_store::{FileName, Put};

/// A file that is being put, of which no more than one page and 64 KiB are held.
pub(crate) struct PageFile {
    put: Put,
    writer: LtxWriter,
    gathered: Gathered,
}

impl PageFile {
    /// Begins the file of this name with its header. After a fault nothing but the temporary file has changed.
    pub(crate) fn begin<S: Disk>(
        store: &mut S,
        name: &FileName,
        header: &LtxHeader,
        gathered: Gathered,
    ) -> Result<PageFile, DiskFault>
        requires header { IsHeader header.now }
        requires index { header.now.index ≡ false }
        requires empty { gathered ≡ [] }
        ensures path { IfOk result (λ file. file.put ≡ path_of name.now) }
        ensures header { IfOk result (λ file. file.writer.header ≡ header.now) }
        ensures first { IfOk result (λ file. file.writer.last ≡ 0) }
        ensures ok { IfOk result (λ file. HasPages file (S.told store.old) (S.told store.new) map.empty) }
        ensures err { OnErr result (GoesOn (S.told store.old) (S.told store.new) (KeepsOthers (path_of name.now))) }
        ensures keeps { Keeps (S.folder store.old) (S.folder store.new) (S.given store.old) (S.given store.new) }
        ensures cause { HasCause (S.fault_count store.old) (S.fault_count store.new) result }
    {
        let mut gathered = gathered;
        let mut head = [0; 100];
        let writer = LtxWriter::begin(header, &mut head);
        gathered.add(&head);
        let put = Put::begin(store, name)?;
        Ok(PageFile {
            put,
            writer,
            gathered,
        })
    }

    /// Puts the next page, whose number is above that of the page before. After a fault the file is to be abandoned.
    pub(crate) fn page<S: Disk>(
        &mut self,
        store: &mut S,
        number: u32,
        page: &[u8],
    ) -> Result<(), DiskFault>
        requires writing { IsWriting self.old (S.told store.old) }
        requires rises { self.old.writer.last < number }
        requires stored { IsStored self.old.writer.header number }
        requires sized { length page.now ≡ self.old.writer.header.size }
        requires small { length page.now ≤ 65536 }
        ensures path { self.new.put ≡ self.old.put }
        ensures header { self.new.writer.header ≡ self.old.writer.header }
        ensures last { self.new.writer.last ≡ number }
        ensures ok { OnOk result (GainsPage self.old self.new number page.now (S.told store.old) (S.told store.new)) }
        ensures err { OnErr result (KeepsAll self.old (S.told store.old) (S.told store.new)) }
        ensures keeps { Keeps (S.folder store.old) (S.folder store.new) (S.given store.old) (S.given store.new) }
        ensures cause { HasCause (S.fault_count store.old) (S.fault_count store.new) result }
    {
        let mut front = [0; 6];
        self.writer.page(number, page, &mut front);
        self.gathered.put(store, &mut self.put, &front)?;
        self.gathered.put(store, &mut self.put, page)
    }

    /// Ends the file, brings it to the disk and gives it its name. After a fault the file is there whole or as it
    /// was.
    pub(crate) fn finish<S: Disk>(self, store: &mut S) -> Result<(), DiskFault>
        requires writing { IsWriting self (S.told store.old) }
        ensures ok { OnOk result (PutsFile self (S.told store.old) (S.told store.new)) }
        ensures err { OnErr result (MayPutFile self (S.told store.old) (S.told store.new)) }
        ensures keeps { Keeps (S.folder store.old) (S.folder store.new) (S.given store.old) (S.given store.new) }
        ensures cause { HasCause (S.fault_count store.old) (S.fault_count store.new) result }
    {
        let PageFile {
            mut put,
            writer,
            mut gathered,
        } = self;
        let end = writer.finish();
        match put_last(store, &mut put, &mut gathered, &end) {
            Ok(()) => put.finish(store),
            Err(fault) => {
                let _ = put.abandon(store);
                Err(fault)
            }
        }
    }

    /// Gives the file up. Nothing but its temporary file has changed.
    pub(crate) fn abandon<S: Disk>(self, store: &mut S)
        ensures kept { StillKeepsOthers self.put (S.told store.old) (S.told store.new) }
        ensures keeps { Keeps (S.folder store.old) (S.folder store.new) (S.given store.old) (S.given store.new) }
        ensures later { S.fault_count store.old ≤ S.fault_count store.new }
    {
        let PageFile {
            put,
            writer: _,
            gathered: _,
        } = self;
        let _ = put.abandon(store);
    }
}

/// Puts the last bytes of the file, and all that is gathered.
fn put_last<S: Disk>(
    store: &mut S,
    put: &mut Put,
    gathered: &mut Gathered,
    end: &[u8],
) -> Result<(), DiskFault>
    requires gathering { IsGathering put.old gathered.old (S.told store.old) }
    requires small { length end.now ≤ 65536 }
    ensures same { put.new ≡ put.old }
    ensures ok { OnOk result (GathersMore put.old gathered.old end.now [] (S.told store.old) (S.told store.new)) }
    ensures err { OnErr result (KeepsAllOthers put.old gathered.old (S.told store.old) (S.told store.new)) }
    ensures keeps { Keeps (S.folder store.old) (S.folder store.new) (S.given store.old) (S.given store.new) }
    ensures cause { HasCause (S.fault_count store.old) (S.fault_count store.new) result }
{
    gathered.put(store, put, end)?;
    gathered.flush(store, put)
}
