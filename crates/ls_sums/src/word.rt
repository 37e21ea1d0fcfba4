//! The register of the check over bytes, eight at a time.
//!
//! The polynomial is sparse: x^64 is x^4 + x^3 + x + 1. So what leaves the register comes back as four
//! shifted copies of it, and shifts take the place of a table.

ghost use Rattle.std.specs.Prelude.{◌≡◌, ◌<◌, length};
ghost use Rattle.std.specs.List.{concat};
ghost use Rattle.ls_sums.specs.Crc64 as spec;
ghost use Rattle.ls_sums.specs.Crc64.{after_bytes};
ghost use Rattle.ls_sums.specs.Word as bits;

/// The register one byte later.
fn after_byte(register: u64, byte: u8) -> u64
    ensures { result ≡ spec.after_byte register byte }
{
    let value = register ^ u64::from(byte);
    let leaving = value << 56;
    (value >> 8) ^ leaving ^ (leaving >> 1) ^ (leaving >> 3) ^ (leaving >> 4)
}

/// The register after the eight bytes of a word, the lowest first.
pub(crate) fn after_word(register: u64, word: u64) -> u64
    ensures { result ≡ bits.after_word register word }
{
    let value = register ^ word;
    let folded = value ^ (value << 63) ^ (value << 61) ^ (value << 60);
    folded ^ (folded >> 1) ^ (folded >> 3) ^ (folded >> 4)
}

/// The register after eight bytes.
fn after_eight(register: u64, bytes: [u8; 8]) -> u64
    ensures { result ≡ after_bytes register bytes }
{
    after_word(register, u64::from_le_bytes(bytes))
}

/// The register after the words.
pub(crate) fn after_words(register: u64, words: &[[u8; 8]]) -> u64
    ensures { result ≡ after_bytes register (concat words.now) }
{
    let mut after = register;
    for word in words {
        after = after_eight(after, *word);
    }
    after
}

/// The register after the bytes, one at a time.
pub(crate) fn after_each(register: u64, bytes: &[u8]) -> u64
    ensures { result ≡ after_bytes register bytes.now }
{
    let mut after = register;
    for byte in bytes {
        after = after_byte(after, *byte);
    }
    after
}
