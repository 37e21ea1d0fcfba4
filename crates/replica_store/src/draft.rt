//! The name under which a file is written, until it is whole.

ghost use Rattle.std.specs.Prelude.{◌≡◌};
ghost use Rattle.replica_store.specs.NameText.{file_path};
ghost use Rattle.replica_store.specs.Putting.{draft_path};

use crate::file_name::FileName;
use crate::name_text::write_name;
use std::marker::Model;

fn bytes_of(name: &FileName) -> [u8; 47]
    ensures { result ≡ draft_path (file_path name.now.level name.now.min name.now.max) }
{
    let mut bytes = *b"ltx/0/0000000000000000-0000000000000000.ltx.tmp";
    bytes[..43].copy_from_slice(write_name(name).as_str().as_bytes());
    bytes
}

/// The 47 bytes of a file's name with `.tmp` behind it.
#[derive(Clone, Copy, Debug)]
pub struct DraftText {
    bytes: [u8; 47],
}

impl Model for DraftText {
    ghost use Rattle.std.specs.Prelude.{ℕ, List, IsAscii};

    ghost Value = { List ℕ };

    ghost view = { λ text. text.bytes };

    ghost invariant = { λ text. IsAscii text.bytes };

    ghost inverse = { λ bytes. record { bytes = bytes } };
}

impl DraftText {
    /// The temporary name of the file of this name.
    pub fn of(name: &FileName) -> DraftText
        ensures { result ≡ draft_path (file_path name.now.level name.now.min name.now.max) }
    {
        DraftText {
            bytes: bytes_of(name),
        }
    }

    /// The text, lent.
    pub fn as_str(&self) -> &str
        ensures { result.now ≡ self.now }
    {
        let Ok(text) = str::from_utf8(&self.bytes) else {
            unreachable!()
        };
        text
    }
}
