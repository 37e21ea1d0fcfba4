//! What a command line asks of a restore.

ghost use Rattle.std.specs.Prelude.{◌≡◌, option_map};
ghost use Rattle.ls_words.specs.Path.{placed, cut_at_last_slash};
ghost use Rattle.litestream_core.specs.Request.{request_in};
ghost use Rattle.litestream_core.specs.RequestView.{as_request, as_output};

use ls_words::{Command, Target};

/// A restore.
#[derive(Clone, Copy, Debug)]
pub struct Request<'w> {
    /// The folder of the output.
    pub folder: &'w str,
    /// The output's name in that folder.
    pub output: &'w str,
    /// The folder of the replica.
    pub replica: &'w str,
    /// Which transaction to restore.
    pub target: Target,
    /// Whether an output that exists is left as it is.
    pub if_db_not_exists: bool,
    /// Whether a replica without files is no fault.
    pub if_replica_exists: bool,
}

/// The path cut at its last `/`: the folder, and the name in it.
fn cut(path: &str) -> (&str, &str)
    ensures { as_output result ≡ placed path.now (cut_at_last_slash path.now) }
{
    let Some((folder, name)) = path.rsplit_once('/') else {
        return (".", path);
    };
    if folder.is_empty() {
        return ("/", name);
    }
    (folder, name)
}

/// The restore that the command is. `None` exactly where it is another command.
pub fn request_in(command: &Command) -> Option<Request<'_>>
    ensures { option_map as_request result ≡ request_in command.now }
{
    let Command::Restore {
        output,
        replica,
        target,
        if_db_not_exists,
        if_replica_exists,
    } = command
    else {
        return None;
    };
    let (folder, output) = cut(output.as_str());
    Some(Request {
        folder,
        output,
        replica: replica.as_str(),
        target: *target,
        if_db_not_exists: *if_db_not_exists,
        if_replica_exists: *if_replica_exists,
    })
}
