//! A merged file that is being written.

ghost use Rattle.std.specs.Prelude.{◌≡◌, ◌<◌, ◌≤◌, true, length, OnOk, OnErr, IfOk, IfErr};
ghost use Rattle.std.specs.FinMap.{empty, insert};
ghost use Rattle.crash_disk.specs.GoesOn.{GoesOn};
ghost use Rattle.ltx_format.specs.LtxFormat.{IsHeader, IsStored};
ghost use Rattle.replica_store.specs.Listing.{path_of};
ghost use Rattle.replica_store.specs.Putting.{KeepsOthers, PutsNothing, StillKeepsOthers};
ghost use Rattle.compact_levels.specs.Drafting.{header_of, IsDrafting, IsSameFile, HasPutDraft, LeavesDraft, WithDraft};
ghost use Rattle.compact_levels.specs.Drafting.{EndsDraft, IsBeingPut, IsOfDiskOrMemory};
ghost use Rattle.compact_levels.specs.MergeCause.{MergeHasCause};

use crate::merge_fault::MergeFault;
use crash_disk::Disk;
use ltx_format::{HEADER_BYTES, IndexWriter, LtxHeader};
use replica_store::{FileName, Put};
use std::alloc::Global;

/// How many bytes are gathered for one call of the disk.
const PIECE_BYTES: usize = 65536;

/// A merged file that is being written. Its bytes are gathered into pieces, so that no call is made for each page.
pub struct Draft {
    pub put: Put,
    pub piece: Vec<u8>,
    pub writer: IndexWriter,
}

impl Draft {
    /// Begins the file of this name and header, and takes the memory for a piece.
    pub fn begin<S: Disk>(
        alloc: Global,
        store: &mut S,
        name: &FileName,
        header: &LtxHeader,
    ) -> Result<Draft, MergeFault>
        requires header { IsHeader header.now }
        requires index { header.now.index ≡ true }
        ensures ok { IfOk result (λ draft. IsDrafting (S.told store.old) (S.told store.new) draft empty) }
        ensures header { IfOk result (λ draft. header_of draft ≡ header.now) }
        ensures named { IfOk result (λ draft. draft.put ≡ path_of name.now) }
        ensures last { IfOk result (λ draft. draft.writer.written.last ≡ 0) }
        ensures err { OnErr result (GoesOn (S.told store.old) (S.told store.new) (KeepsOthers (path_of name.now))) }
        ensures failed { IfErr result IsOfDiskOrMemory }
        ensures same_folder { S.folder store.new ≡ S.folder store.old }
        ensures cause { MergeHasCause (S.fault_count store.old) (S.fault_count store.new) result }
    {
        let mut piece = Vec::with_capacity(alloc, 2 * PIECE_BYTES)?;
        let mut head = [0; HEADER_BYTES];
        let writer = IndexWriter::begin(alloc, header, &mut head);
        piece.extend_from_slice(&head)?;
        let put = Put::begin(store, name)?;
        Ok(Draft { put, piece, writer })
    }

    /// Gives the file its next page.
    pub fn page<S: Disk>(
        &mut self,
        store: &mut S,
        number: u32,
        page: &[u8],
    ) -> Result<(), MergeFault>
        requires being_put { IsBeingPut self.old.put (S.told store.old) }
        requires rises { self.old.writer.written.last < number }
        requires stored { IsStored (header_of self.old) number }
        requires sized { length page.now ≡ (header_of self.old).size }
        ensures ok { OnOk result (WithDraft self.old (S.told store.old) (λ begun pages. IsDrafting
            begun (S.told store.new) self.new (insert pages number page.now))) }
        ensures being_put { OnOk result (IsBeingPut self.new.put (S.told store.new)) }
        ensures last { OnOk result (self.new.writer.written.last ≡ number) }
        ensures err { OnErr result (WithDraft self.old (S.told store.old) (λ begun pages. GoesOn
            begun (S.told store.new) (KeepsOthers self.old.put))) }
        ensures failed { IfErr result IsOfDiskOrMemory }
        ensures same { IsSameFile self.old self.new }
        ensures same_folder { S.folder store.new ≡ S.folder store.old }
        ensures cause { MergeHasCause (S.fault_count store.old) (S.fault_count store.new) result }
    {
        let mut front = [0; 6];
        self.writer.page(number, page, &mut front)?;
        self.piece.extend_from_slice(&front)?;
        self.piece.extend_from_slice(page)?;
        self.flush(store)
    }

    /// Puts what is gathered, where that is a piece.
    fn flush<S: Disk>(&mut self, store: &mut S) -> Result<(), MergeFault>
        requires being_put { IsBeingPut self.old.put (S.told store.old) }
        ensures ok { OnOk result (WithDraft self.old (S.told store.old) (λ begun pages. IsDrafting
            begun (S.told store.new) self.new pages)) }
        ensures being_put { OnOk result (IsBeingPut self.new.put (S.told store.new)) }
        ensures err { OnErr result (WithDraft self.old (S.told store.old) (λ begun pages. GoesOn
            begun (S.told store.new) (KeepsOthers self.old.put))) }
        ensures failed { IfErr result IsOfDiskOrMemory }
        ensures writer { self.new.writer ≡ self.old.writer }
        ensures put { self.new.put ≡ self.old.put }
        ensures same_folder { S.folder store.new ≡ S.folder store.old }
        ensures cause { MergeHasCause (S.fault_count store.old) (S.fault_count store.new) result }
    {
        if self.piece.len() < PIECE_BYTES {
            return Ok(());
        }
        self.put.append(store, &self.piece)?;
        self.piece.clear();
        Ok(())
    }

    /// Ends the file, and gives it its name. After a refusal it is removed, but for a fault that comes while it gets
    /// its name: it may then be there, whole.
    pub fn finish<S: Disk>(self, store: &mut S) -> Result<(), MergeFault>
        requires being_put { IsBeingPut self.put (S.told store.old) }
        ensures ok { OnOk result (WithDraft self (S.told store.old) (λ begun pages. GoesOn
            begun (S.told store.new) (HasPutDraft self.put (header_of self) pages))) }
        ensures err { IfErr result (λ fault. WithDraft self (S.told store.old) (λ begun pages. GoesOn
            begun (S.told store.new) (LeavesDraft self.put (header_of self) pages fault))) }
        ensures same_folder { S.folder store.new ≡ S.folder store.old }
        ensures cause { MergeHasCause (S.fault_count store.old) (S.fault_count store.new) result }
    {
        let Draft {
            mut put,
            piece,
            writer,
        } = self;
        if let Err(fault) = put_end(store, &mut put, &piece, writer) {
            // The fault that counts is the first.
            let _ = put.abandon(store);
            return Err(fault);
        }
        put.finish(store)?;
        Ok(())
    }

    /// Removes the file.
    pub fn abandon<S: Disk>(self, store: &mut S)
        ensures kept { StillKeepsOthers self.put (S.told store.old) (S.told store.new) }
        ensures same_folder { S.folder store.new ≡ S.folder store.old }
        ensures later { S.fault_count store.old ≤ S.fault_count store.new }
    {
        // The fault that counts is the one for which the file is given up.
        let Draft {
            put,
            piece: _,
            writer: _,
        } = self;
        let _ = put.abandon(store);
    }
}

/// Puts what is gathered, and the end of the file behind it.
fn put_end<S: Disk>(
    store: &mut S,
    put: &mut Put,
    piece: &[u8],
    writer: IndexWriter,
) -> Result<(), MergeFault>
    requires being_put { IsBeingPut put.old (S.told store.old) }
    ensures ok { OnOk result (EndsDraft put.old piece.now writer (S.told store.old) (S.told store.new)) }
    ensures being_put { OnOk result (IsBeingPut put.new (S.told store.new)) }
    ensures err { OnErr result (PutsNothing put.old (S.told store.old) (S.told store.new)) }
    ensures failed { IfErr result IsOfDiskOrMemory }
    ensures same { put.new ≡ put.old }
    ensures same_folder { S.folder store.new ≡ S.folder store.old }
    ensures cause { MergeHasCause (S.fault_count store.old) (S.fault_count store.new) result }
{
    let tail = writer.finish()?;
    put.append(store, piece)?;
    put.append(store, tail.as_slice())?;
    Ok(())
}
