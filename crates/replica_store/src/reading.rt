//! Reading a name.

ghost use Rattle.std.specs.Prelude.{◌≡◌, ◌≢◌, ◌<◌, ◌^◌, ℕ, Some, IfSome};
ghost use Rattle.std.specs.Option.{IfNone};
ghost use Rattle.ls_base.specs.Txid.{hex_digits};
ghost use Rattle.replica_store.specs.declared.file_name.FileName.{FileName};
ghost use Rattle.replica_store.specs.Listing.{IsValid, path_of};
ghost use Rattle.replica_store.specs.NameText.{IsName, file_path};

use crate::file_name::FileName;
use crate::name_text::write_name;
use ls_base::Txid;

fn txid_of(digits: &[u8]) -> Option<Txid>
    ensures { (n : ℕ) → 0 < n → n < 2 ^ 64 → digits.now ≡ hex_digits n → result ≡ Some n }
{
    let Ok(text) = str::from_utf8(digits) else {
        return None;
    };
    Txid::from_hex(text)
}

/// The name that the text writes: `ltx/`, the level, `/`, the first transaction, `-`, the last, `.ltx`, the
/// transactions in 16 lower-case hexadecimal digits. What `write_name` wrote is read as that name. `None` exactly for
/// any other text.
pub fn read_name(text: &str) -> Option<FileName>
    ensures found { IfSome result (λ name. text.now ≡ file_path name.level name.min name.max) }
    ensures valid { IfSome result (λ name. IsName name.level name.min name.max) }
    ensures written { (name : FileName) → IsValid name → text.now ≡ path_of name → result ≡ Some name }
    ensures only { IfNone result ((level min max : ℕ) → IsName level min max → text.now ≢ file_path level min max) }
{
    let bytes = text.as_bytes();
    if bytes.len() != 43 {
        return None;
    }
    let level = bytes[4].checked_sub(b'0')?;
    let min = txid_of(&bytes[6..22])?;
    let max = txid_of(&bytes[23..39])?;
    let name = FileName::new(level, min, max)?;
    // The digits are read in either case, and what stands between the parts isn't looked at; the one text
    // that the name writes decides.
    if write_name(&name).as_str() != text {
        return None;
    }
    Some(name)
}
