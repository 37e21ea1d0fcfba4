//! The text of a file's name.

ghost use Rattle.std.specs.Prelude.{◌≡◌};
ghost use Rattle.replica_store.specs.NameText.{file_path};

use crate::file_name::FileName;
use std::marker::Model;

fn bytes_of(name: &FileName) -> [u8; 43]
    ensures { result ≡ file_path name.now.level name.now.min name.now.max }
{
    let mut bytes = *b"ltx/0/0000000000000000-0000000000000000.ltx";
    bytes[4] = b'0' + name.level;
    bytes[6..22].copy_from_slice(&name.min.digits());
    bytes[23..39].copy_from_slice(&name.max.digits());
    bytes
}

/// The 43 bytes of a file's name below the replica's folder.
#[derive(Clone, Copy, Debug)]
pub struct NameText {
    bytes: [u8; 43],
}

impl Model for NameText {
    ghost use Rattle.std.specs.Prelude.{ℕ, List, IsAscii};

    ghost Value = { List ℕ };

    ghost view = { λ text. text.bytes };

    ghost invariant = { λ text. IsAscii text.bytes };

    ghost inverse = { λ bytes. record { bytes = bytes } };
}

impl NameText {
    /// The text, lent.
    pub fn as_str(&self) -> &str
        ensures { result.now ≡ self.now }
    {
        let Ok(text) = str::from_utf8(&self.bytes) else {
            unreachable!()
        };
        text
    }
}

/// The text of a name, `ltx/<level>/<min>-<max>.ltx` with the transactions in 16 lower-case hexadecimal digits.
pub fn write_name(name: &FileName) -> NameText
    ensures { result ≡ file_path name.now.level name.now.min name.now.max }
{
    NameText {
        bytes: bytes_of(name),
    }
}
