//! What a command line asks of a listing.

ghost use Rattle.std.specs.Prelude.{◌≡◌, option_copied};
ghost use Rattle.litestream_core.specs.Listing.{listed_in};

use ls_words::Command;

/// The folder of the replica that the command lists. `None` exactly where it is another command.
pub fn listed_in(command: &Command) -> Option<&str>
    ensures { option_copied result ≡ listed_in command.now }
{
    let Command::Ltx { replica } = command else {
        return None;
    };
    Some(replica.as_str())
}
