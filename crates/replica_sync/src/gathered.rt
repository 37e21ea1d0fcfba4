//! Bytes gathered for a file that is being put.

ghost use Rattle.std.specs.Prelude.{◌≡◌, ◌+◌, ◌++◌, ◌≤◌, [], length, IfOk, OnOk, OnErr};
ghost use Rattle.ls_base.specs.Fault.{HasCause};
ghost use Rattle.crash_disk.specs.Told.{Keeps};
ghost use Rattle.replica_sync.specs.declared.gathered.TheConstants.{GATHERED_BYTES};
ghost use Rattle.replica_sync.specs.Gathering.{IsGathering, GathersMore, KeepsAllOthers};

use crash_disk::{Disk, DiskFault};
use replica_store::Put;
use std::alloc::{AllocError, Global};
use std::marker::Model;

/// How many bytes are gathered for one call of the disk: as many as the largest page has.
pub(crate) const GATHERED_BYTES: usize = 65536;

/// Bytes that are gathered for the end of a file, so that the disk isn't called for each page.
#[derive(Drop)]
pub(crate) struct Gathered {
    bytes: Vec<u8>,
}

impl Model for Gathered {
    ghost use Rattle.std.specs.Prelude.{ℕ, ◌≤◌, List, vec_capacity};

    ghost Value = { List ℕ };

    ghost view = { λ gathered. gathered.bytes.items };

    ghost invariant = { λ gathered. 65536 ≤ vec_capacity gathered.bytes };
}

impl Gathered {
    /// Nothing gathered, and all the room that is ever taken.
    pub(crate) fn new(alloc: Global) -> Result<Gathered, AllocError>
        ensures { IfOk result (λ gathered. gathered ≡ []) }
    {
        let bytes = Vec::with_capacity(alloc, GATHERED_BYTES)?;
        Ok(Gathered { bytes })
    }

    /// Gathers the bytes, for which there is room.
    pub(crate) fn add(&mut self, bytes: &[u8])
        requires room { length self.old + length bytes.now ≤ GATHERED_BYTES }
        ensures { self.new ≡ self.old ++ bytes.now }
    {
        self.bytes.extend_from_slice(bytes).unwrap();
    }

    /// Puts what is gathered behind the file.
    pub(crate) fn flush<S: Disk>(&mut self, store: &mut S, put: &mut Put) -> Result<(), DiskFault>
        requires gathering { IsGathering put.old self.old (S.told store.old) }
        ensures same { put.new ≡ put.old }
        ensures ok { OnOk result (GathersMore put.old self.old [] self.new (S.told store.old) (S.told store.new)) }
        ensures empty { OnOk result (self.new ≡ []) }
        ensures err { OnErr result (KeepsAllOthers put.old self.old (S.told store.old) (S.told store.new)) }
        ensures keeps { Keeps (S.folder store.old) (S.folder store.new) (S.given store.old) (S.given store.new) }
        ensures cause { HasCause (S.fault_count store.old) (S.fault_count store.new) result }
    {
        put.append(store, self.bytes.as_slice())?;
        self.bytes.clear();
        Ok(())
    }

    /// Makes room for so many bytes more.
    fn make_room<S: Disk>(
        &mut self,
        store: &mut S,
        put: &mut Put,
        more: usize,
    ) -> Result<(), DiskFault>
        requires gathering { IsGathering put.old self.old (S.told store.old) }
        requires small { more ≤ GATHERED_BYTES }
        ensures same { put.new ≡ put.old }
        ensures ok { OnOk result (GathersMore put.old self.old [] self.new (S.told store.old) (S.told store.new)) }
        ensures room { OnOk result (length self.new + more ≤ GATHERED_BYTES) }
        ensures err { OnErr result (KeepsAllOthers put.old self.old (S.told store.old) (S.told store.new)) }
        ensures keeps { Keeps (S.folder store.old) (S.folder store.new) (S.given store.old) (S.given store.new) }
        ensures cause { HasCause (S.fault_count store.old) (S.fault_count store.new) result }
    {
        if self.bytes.len() + more > GATHERED_BYTES {
            self.flush(store, put)?;
        }
        Ok(())
    }

    /// Gathers the bytes, and puts behind the file what was gathered before where there is no room for both.
    pub(crate) fn put<S: Disk>(
        &mut self,
        store: &mut S,
        put: &mut Put,
        bytes: &[u8],
    ) -> Result<(), DiskFault>
        requires gathering { IsGathering put.old self.old (S.told store.old) }
        requires small { length bytes.now ≤ GATHERED_BYTES }
        ensures same { put.new ≡ put.old }
        ensures ok { OnOk result (GathersMore put.old self.old bytes.now self.new (S.told store.old)
            (S.told store.new)) }
        ensures err { OnErr result (KeepsAllOthers put.old self.old (S.told store.old) (S.told store.new)) }
        ensures keeps { Keeps (S.folder store.old) (S.folder store.new) (S.given store.old) (S.given store.new) }
        ensures cause { HasCause (S.fault_count store.old) (S.fault_count store.new) result }
    {
        self.make_room(store, put, bytes.len())?;
        self.add(bytes);
        Ok(())
    }
}
