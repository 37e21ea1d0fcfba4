//! Paths and replicas.

ghost use Rattle.std.specs.Prelude.{◌≡◌};
ghost use Rattle.ls_words.specs.Path.{placed, cut_at_last_slash, is_file_name, is_path, names_scheme};

/// What stands behind the last `/` of a path.
fn name_of(path: &str) -> &str
    ensures { let at = placed path.now (cut_at_last_slash path.now) in result.now ≡ at.name }
{
    match path.rsplit_once('/') {
        Some((_, name)) => name,
        None => path,
    }
}

/// Whether the path leads to a file: what stands behind its last `/` isn't empty, `.` or `..`.
#[tactic(auto, unfolding(crate::specs::Path::is_file_name, crate::specs::Path::is_path))]
pub fn is_path(path: &str) -> bool
    ensures { result ≡ is_path path.now }
{
    let name = name_of(path);
    !(name.is_empty() || name == "." || name == "..")
}

/// Whether the word holds `://`.
pub fn names_scheme(word: &str) -> bool
    ensures { result ≡ names_scheme word.now }
{
    word.contains("://")
}
