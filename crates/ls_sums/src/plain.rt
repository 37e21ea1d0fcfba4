//! The check one bit at a time, as it is defined.

ghost use Rattle.std.specs.Prelude.{◌≡◌};
ghost use Rattle.ls_sums.specs.Crc64 as spec;

const POLYNOMIAL: u64 = 0xD800_0000_0000_0000;

/// The register one bit later.
fn after_bit(register: u64) -> u64
    ensures { result ≡ spec.after_bit register }
{
    if register % 2 == 1 {
        return (register / 2) ^ POLYNOMIAL;
    }
    register / 2
}

/// The register one byte of the message later.
fn after_byte(register: u64, byte: u8) -> u64
    ensures { result ≡ spec.after_byte register byte }
{
    let mut after = register ^ u64::from(byte);
    for _ in 0..8u8 {
        after = after_bit(after);
    }
    after
}

/// The check of the bytes.
pub(crate) fn crc64(bytes: &[u8]) -> u64
    ensures { result ≡ spec.crc64 bytes.now }
{
    let mut register = u64::MAX;
    for byte in bytes {
        register = after_byte(register, *byte);
    }
    register ^ u64::MAX
}
