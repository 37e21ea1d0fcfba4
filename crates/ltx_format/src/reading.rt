//! Reading a file, and its header alone.

ghost use Rattle.std.specs.Prelude.{◌≡◌, take, Some, Ok, IfOk, IfErr};
ghost use Rattle.ls_base.specs.Change.{Change};
ghost use Rattle.ltx_format.specs.declared.header.LtxHeader.{LtxHeader};
ghost use Rattle.ltx_format.specs.LtxFormat.{IsLtxFile, HasHeader, change_of, ReadsAs};
ghost use Rattle.ltx_format.specs.FirstFault.{header_fault, TellsFirstFault};
ghost use Rattle.ltx_format.specs.Reading.{ReadsInMemory, parts, file_at};

use crate::block::pages_of;
use crate::entries::index_of;
use crate::fault::{DecodeFault, LtxFault};
use crate::file::LtxFile;
use crate::header::LtxHeader;
use crate::heading::{HEADER_BYTES, header_of};
use crate::trailer::end_of;
use std::alloc::Global;

/// The file that the bytes are. Where they are no file of the format, `Fault` with their first fault, and
/// `Memory` for want of memory for the pages.
pub fn decode(alloc: Global, bytes: &[u8]) -> Result<LtxFile, DecodeFault>
    // What is read is spelled so.
    ensures found { IfOk result (λ file. IsLtxFile bytes.now file.header (change_of file)) }
    // What is spelled so is read, unless memory runs out.
    ensures only { (h : LtxHeader) (c : Change) → IsLtxFile bytes.now h c → ReadsAs result h c }
    // What is wrong with other bytes.
    ensures fault { IfErr result (λ e. TellsFirstFault bytes.now e) }
{
    file_of(alloc, bytes)
}

/// The header that the first 100 bytes are; bytes behind them are not looked at. Where they are no header,
/// their first fault. Takes no memory.
pub fn read_ltx_header(bytes: &[u8]) -> Result<LtxHeader, LtxFault>
    ensures found { IfOk result (λ h. HasHeader bytes.now h) }
    ensures only { (h : LtxHeader) → HasHeader bytes.now h → result ≡ Ok h }
    ensures fault { IfErr result (λ fault. header_fault (take 100 bytes.now) ≡ Some fault) }
{
    let front = &bytes[..bytes.len().min(HEADER_BYTES)];
    match header_of(front) {
        Ok((header, _)) => Ok(header),
        Err(fault) => Err(fault),
    }
}

/// The file by its parts.
#[tactic(auto, unfolding(crate::specs::Reading::file_at, crate::specs::Reading::index_part_at))]
fn file_of(alloc: Global, bytes: &[u8]) -> Result<LtxFile, DecodeFault>
    ensures { ReadsInMemory parts result (file_at bytes.now) }
{
    let (header, rest) = match header_of(bytes) {
        Ok(read) => read,
        Err(fault) => return Err(DecodeFault::Fault(fault)),
    };
    let (pages, count, rest) = pages_of(alloc, &header, rest)?;
    if header.min.number() == 1 && count != header.stored_pages() {
        return Err(DecodeFault::Fault(LtxFault::BadOrder(0)));
    }
    let rest = if header.index {
        index_of(&pages, count, rest)?
    } else {
        rest
    };
    end_of(bytes, rest)?;
    Ok(LtxFile { header, pages })
}
