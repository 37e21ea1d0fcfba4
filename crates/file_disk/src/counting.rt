//! Answers of the system whose errors are counted.

ghost use Rattle.std.specs.Prelude.{◌≡◌, IfOk, IfErr, IsErr, OnOk, OnErr};
ghost use Rattle.ls_base.specs.Fault.{HasCause};

use std::io;

/// The answer of the system, its error counted and answered as this fault. Behind the last value of a `u64` the
/// count stays.
pub fn counted<T, F: Copy>(faults: &mut u64, answer: io::Result<T>, fault: F) -> Result<T, F>
    ensures value { IfOk result (λ value. answer ≡ Ok value) }
    ensures err { OnErr result (IsErr answer) }
    ensures fault { IfErr result (λ e. e ≡ fault) }
    ensures unchanged { OnOk result (faults.new ≡ faults.old) }
    ensures cause { HasCause faults.old faults.new result }
{
    match answer {
        Ok(value) => Ok(value),
        Err(_) => {
            *faults = faults.saturating_add(1);
            Err(fault)
        }
    }
}
