//! What a command line asks of a replication.

ghost use Rattle.std.specs.Prelude.{◌≡◌, ℕ, option_map};
ghost use Rattle.replicate_command.specs.Asked.{asked_by};
ghost use Rattle.litestream_core.specs.Replication.{replication_in};

use ls_words::Command;
use replicate_command::Request;

/// The replication that the command is. `None` exactly where it is another command.
pub fn replication_in(command: &Command) -> Option<Request<'_>>
    ensures { (now : ℕ) → option_map (λ request. asked_by request now) result ≡ replication_in now command.now }
{
    let Command::Replicate {
        db,
        replica,
        rounds,
        keep,
        at_rest,
    } = command
    else {
        return None;
    };
    Some(Request {
        db: db.as_str(),
        replica: replica.as_str(),
        rounds: *rounds,
        keep: *keep,
        at_rest: *at_rest,
    })
}
