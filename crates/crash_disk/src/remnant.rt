//! What a crash leaves by its choice: of the changes of a name, and of a file's bytes.

ghost use Rattle.std.specs.Prelude.{◌≡◌, ◌%◌, sum};
ghost use Rattle.crash_disk.specs.Remnant.{mix, takes_names, remnant_at};

/// What a crash leaves of a file's bytes.
#[derive(Clone, Copy, Debug)]
pub enum Remnant {
    /// Those at its last sync.
    OfTheSync,
    /// Those as they read.
    AsRead,
    /// Those as they read, but stray bytes wherever it was written or grown over since the sync.
    Torn,
    /// Those as they read and behind them those at the sync, at the length before its newest change.
    OfEarlierLength,
}

/// Whether the choice takes the changes of the name that weren't synced.
pub fn takes_names(choice: u64, name: &str) -> bool
    ensures { result ≡ takes_names choice name.now }
{
    if choice < 3 {
        choice > 0
    } else {
        mix(choice, name) / 4 % 2 == 1
    }
}

/// What the choice leaves of the bytes of the file at the name.
pub fn remnant_at(choice: u64, name: &str) -> Remnant
    ensures { result ≡ remnant_at choice name.now }
{
    if choice < 3 {
        return if choice == 1 {
            Remnant::AsRead
        } else {
            Remnant::OfTheSync
        };
    }
    match mix(choice, name) % 4 {
        0 => Remnant::OfTheSync,
        1 => Remnant::AsRead,
        2 => Remnant::Torn,
        _ => Remnant::OfEarlierLength,
    }
}

/// What the choices from 3 on take at the name, in the last three bits.
fn mix(choice: u64, name: &str) -> u64
    ensures { result ≡ mix choice name.now }
{
    choice % 8 + (choice / 8 % 8 + 1) * last_bits(name.as_bytes())
}

/// The sum of the bytes, its last three bits.
fn last_bits(bytes: &[u8]) -> u64
    ensures { result ≡ sum bytes.now % 8 }
{
    let mut bits = 0;
    for byte in bytes {
        bits = (bits + *byte as u64) % 8;
    }
    bits
}
