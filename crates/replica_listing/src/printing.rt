//! The listing, printed in pieces.

ghost use Rattle.std.specs.Prelude.{◌≡◌, ◌+◌, ◌≤◌, ◌++◌, [], length, take, drop, OnOk, OnErr};
ghost use Rattle.crash_disk.specs.Output.{gains_text, GainsFront};
ghost use Rattle.ls_base.specs.Fault.{HasCause};
ghost use Rattle.replica_listing.specs.Listing.{file_line, file_lines, head_line, listing};
ghost use Rattle.replica_listing.specs.Printing.{HasPutUpTo};

use crate::file_line::{LINE_BYTES, file_line};
use arrayvec::ArrayVec;
use crash_disk::{Out, OutFault};
use replica_store::Dated;

/// How many bytes go out together.
const PIECE_BYTES: usize = 65_536;

/// The line with the names of the columns.
#[tactic(auto, unfolding(crate::specs::Listing::head_line))]
fn head() -> ArrayVec<u8, PIECE_BYTES>
    ensures { result.items ≡ head_line }
{
    let mut piece = ArrayVec::new();
    piece
        .try_extend_from_slice(b"level min_txid max_txid size created\n")
        .unwrap();
    piece
}

/// Puts the piece, and empties it.
fn put_piece<O: Out>(out: &mut O, piece: &mut ArrayVec<u8, PIECE_BYTES>) -> Result<(), OutFault>
    ensures ok { OnOk result (O.text out.new ≡ gains_text (O.text out.old) piece.old.items) }
    ensures empty { OnOk result (piece.new.items ≡ []) }
    ensures err { OnErr result (GainsFront (O.text out.old) (O.text out.new) piece.old.items) }
    ensures cause { HasCause (O.fault_count out.old) (O.fault_count out.new) result }
{
    out.put(piece.as_slice())?;
    piece.clear();
    Ok(())
}

/// Holds the line of a file back behind the piece, which is put before where there is no room for it.
fn add_line<O: Out>(
    out: &mut O,
    piece: &mut ArrayVec<u8, PIECE_BYTES>,
    dated: &Dated,
    size: u64,
) -> Result<(), OutFault>
    ensures ok { OnOk result (HasPutUpTo (O.text out.old) (O.text out.new) (piece.old.items ++ file_line dated.now size)
        piece.new.items) }
    ensures err { OnErr result (GainsFront (O.text out.old) (O.text out.new) piece.old.items) }
    ensures cause { HasCause (O.fault_count out.old) (O.fault_count out.new) result }
{
    if piece.remaining_capacity() < LINE_BYTES {
        put_piece(out, piece)?;
    }
    piece
        .try_extend_from_slice(file_line(dated, size).as_slice())
        .unwrap();
    Ok(())
}

/// Prints the listing: a line with the names of the columns, and a line for each file. The sizes are in bytes, one for
/// each name. At a fault of the output a front of the listing may have been put. Takes no memory.
pub fn print_listing<O: Out>(out: &mut O, dated: &[Dated], sizes: &[u64]) -> Result<(), OutFault>
    requires { length sizes.now ≡ length dated.now }
    ensures ok { OnOk result (O.text out.new ≡ gains_text (O.text out.old) (listing dated.now sizes.now)) }
    ensures err { OnErr result (GainsFront (O.text out.old) (O.text out.new) (listing dated.now sizes.now)) }
    ensures cause { HasCause (O.fault_count out.old) (O.fault_count out.new) result }
{
    let mut piece = head();
    for at in 0..dated.len() {
        add_line(out, &mut piece, &dated[at], sizes[at])?;
    }
    out.put(piece.as_slice())?;
    Ok(())
}
