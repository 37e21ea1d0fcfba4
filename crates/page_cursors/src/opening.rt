//! Opening the files of a plan.

ghost use Rattle.std.specs.Prelude.{◌≡◌, ◌*◌, None, ℕ, length, IfOk, IfErr};
ghost use Rattle.crash_disk.specs.Files.{files_after};
ghost use Rattle.crash_disk.specs.Told.{IfTold};
ghost use Rattle.page_cursors.specs.Opening.{AreOpened, IsFound, IsNamed, HasSizeOf, ExplainsOpening, doubt_of};
ghost use Rattle.page_cursors.specs.Opening.{names_of};
ghost use Rattle.ltx_reader.specs.ReaderGiven.{GivesAtMost};
ghost use Rattle.page_cursors.specs.Cursor.{HaveSize, bytes_of};
ghost use Rattle.page_cursors.specs.Costs.{Takes, FoundCosts, OpenedCosts, nothing, file_cost, plan_cost};
ghost use Rattle.page_cursors.specs.Fault.{CursorsHaveCause};

use crate::cursor::Cursor;
use crate::fault::CursorsFault;
use crate::wanted::Wanted;
use crash_disk::Disk;
use ls_base::PageSize;
use ltx_format::LtxHeader;
use ltx_reader::{LtxReader, ReadFault};
use replica_store::{Damage, FileName, write_name};
use std::alloc::Global;

/// A file of a plan that isn't taken in, and what is wrong with it. Where it is still to be read, a fault in it
/// comes first.
#[derive(Debug, Drop)]
pub struct Odd {
    pub name: FileName,
    pub damage: Damage,
    pub reader: Option<LtxReader>,
}

/// The files of a plan up to the first that isn't taken in, if there is one.
#[derive(Debug, Drop)]
pub struct Opened {
    pub cursors: Vec<Cursor>,
    pub odd: Option<Odd>,
}

/// A file of a plan, taken in or not.
#[derive(Debug, Drop)]
pub enum Found {
    Taken(Cursor),
    Left(Odd),
}

/// What is wrong with a file of this header under the name, behind files of this page size.
fn doubt(header: &LtxHeader, name: &FileName, size: Option<PageSize>) -> Option<Damage>
    ensures { result ≡ doubt_of header.now name.now size }
{
    if header.min != name.min || header.max != name.max {
        return Some(Damage::NameDiffers);
    }
    match size {
        Some(size) if size != header.size => Some(Damage::SizeDiffers),
        _ => None,
    }
}

/// Opens the file of this name, behind files of this page size and so many pages.
fn open_file<S: Disk>(
    alloc: Global,
    store: &mut S,
    name: &FileName,
    size: Option<PageSize>,
    pages: u32,
) -> Result<Found, CursorsFault>
    ensures found { IfOk result (λ found. IfTold (S.told store.old) (λ events. IsFound
        (files_after events) name.now size pages found)) }
    ensures sized { IfOk result (HasSizeOf size) }
    ensures named { IfOk result (IsNamed name.now) }
    ensures costs { IfOk result (λ found. IfTold (S.told store.old) (λ events. FoundCosts
        (files_after events) name.now found (S.given store.old) (S.given store.new))) }
    ensures spends { IfErr result (λ _. IfTold (S.told store.old) (λ events. Takes
        (file_cost (bytes_of (files_after events) name.now)) nothing 0 0 (S.given store.old) (S.given store.new))) }
    ensures gave { GivesAtMost 100 (S.given store.old) (S.given store.new) }
    ensures explained { IfErr result ExplainsOpening }
    ensures unchanged { S.told store.new ≡ S.told store.old }
    ensures same_folder { S.folder store.new ≡ S.folder store.old }
    ensures cause { CursorsHaveCause (S.fault_count store.old) (S.fault_count store.new) result }
{
    let reader = match LtxReader::begin(alloc, store, write_name(name).as_str()) {
        Ok(reader) => reader,
        Err(ReadFault::Fault(fault)) => {
            return Ok(Found::Left(Odd {
                name: *name,
                damage: Damage::File(fault),
                reader: None,
            }));
        }
        Err(ReadFault::Disk(fault)) => return Err(CursorsFault::Store(fault)),
        Err(ReadFault::Memory) => return Err(CursorsFault::Memory),
    };
    let header = *reader.header();
    if let Some(damage) = doubt(&header, name, size) {
        return Ok(Found::Left(Odd {
            name: *name,
            damage,
            reader: Some(reader),
        }));
    }
    Ok(Found::Taken(Cursor {
        name: *name,
        reader,
        wanted: Wanted::new(header.size, pages),
    }))
}

/// Opens the files of the plan in their order, up to the first that is damaged by its header, its name or its page
/// size.
pub fn open<S: Disk>(
    alloc: Global,
    store: &mut S,
    plan: &[FileName],
) -> Result<Opened, CursorsFault>
    ensures opened { IfOk result (λ opened. IfTold (S.told store.old) (λ events. AreOpened
        (files_after events) plan.now opened)) }
    ensures names { IfOk result (λ opened. opened.odd ≡ None → names_of opened.cursors.items ≡ plan.now) }
    ensures count { IfOk result (λ opened. opened.odd ≡ None → length opened.cursors.items ≡ length plan.now) }
    ensures one_size { IfOk result (λ opened. (size : ℕ) × HaveSize size opened.cursors.items) }
    ensures costs { IfOk result (λ opened. IfTold (S.told store.old) (λ events. OpenedCosts
        (files_after events) plan.now opened (S.given store.old) (S.given store.new))) }
    ensures spends { IfErr result (λ _. IfTold (S.told store.old) (λ events. Takes
        (plan_cost (files_after events) plan.now) nothing 0 0 (S.given store.old) (S.given store.new))) }
    ensures gave { GivesAtMost (100 * length plan.now) (S.given store.old) (S.given store.new) }
    ensures explained { IfErr result ExplainsOpening }
    ensures unchanged { S.told store.new ≡ S.told store.old }
    ensures same_folder { S.folder store.new ≡ S.folder store.old }
    ensures cause { CursorsHaveCause (S.fault_count store.old) (S.fault_count store.new) result }
{
    let mut cursors = Vec::with_capacity(alloc, plan.len())?;
    let mut size: Option<PageSize> = None;
    let mut pages = 0;
    for name in plan {
        let cursor = match open_file(alloc, store, name, size, pages)? {
            Found::Taken(cursor) => cursor,
            Found::Left(odd) => {
                return Ok(Opened {
                    cursors,
                    odd: Some(odd),
                });
            }
        };
        let header = *cursor.reader.header();
        size = Some(header.size);
        pages = header.commit;
        cursors.push(cursor)?;
    }
    Ok(Opened { cursors, odd: None })
}
