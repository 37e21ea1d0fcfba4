//! Real folders: the files in them, and their names brought to the disk.

ghost use Rattle.std.specs.Prelude.{◌≡◌, string_bytes, IfOk};
ghost use Rattle.file_disk.specs.Path.{path_below};

use crash_disk::NameList;
use std::alloc::{AllocError, Global};
use std::fs::{self, DirEntry, File};
use std::io::{self, ErrorKind};
use std::path::Path;

/// The path of the name below the folder; an empty folder is the current one.
pub(crate) fn path_below(alloc: Global, folder: &str, name: &str) -> Result<String, AllocError>
    ensures value { IfOk result (λ path. string_bytes path ≡ path_below folder.now name.now) }
{
    if folder.is_empty() {
        return String::from_str(alloc, name);
    }
    let mut path = String::from_str(alloc, folder)?;
    path.push_str("/")?;
    path.push_str(name)?;
    Ok(path)
}

/// Puts the names of the regular files in the folder at the path, each below the name of that folder.
pub(crate) fn push_names(
    runtime: &HostRuntime,
    path: &str,
    level: &str,
    names: &mut NameList,
) -> io::Result<()> {
    for entry in fs::read_dir(runtime, path)? {
        match entry {
            Ok(entry) => push_if_regular(runtime.alloc(), &entry, level, names)?,
            Err(error) if error.kind() == ErrorKind::InvalidFilename => {}
            Err(error) => return Err(error),
        }
    }
    Ok(())
}

fn push_if_regular(
    alloc: Global,
    entry: &DirEntry<HostRuntime>,
    level: &str,
    names: &mut NameList,
) -> io::Result<()> {
    // A file that went since the folder was read isn't there.
    let is_regular = match entry.file_type() {
        Ok(kind) => kind.is_file(),
        Err(error) if error.kind() == ErrorKind::NotFound => false,
        Err(error) => return Err(error),
    };
    if is_regular {
        let name = path_below(alloc, level, entry.file_name())?;
        if names.push(name.as_str()).is_err() {
            return Err(ErrorKind::OutOfMemory.into());
        }
    }
    Ok(())
}

/// Makes the folders above a file that are missing, and brings the names of those to the disk.
pub(crate) fn make_folders(runtime: &HostRuntime, path: &str) -> io::Result<()> {
    let Some(folder) = Path::new(path).parent() else {
        return Ok(());
    };
    let made = missing_folders(runtime, folder)?;
    fs::create_dir_all(runtime, folder)?;
    for above in folder.ancestors().skip(1).take(made) {
        sync_folder(runtime, above.as_str())?;
    }
    Ok(())
}

/// How many of the folders on the path to this one, itself among them, are missing.
fn missing_folders(runtime: &HostRuntime, folder: Path<'_>) -> io::Result<usize> {
    let mut count = 0usize;
    for above in folder.ancestors() {
        if above.as_str().is_empty() || fs::exists(runtime, above)? {
            break;
        }
        count = count.saturating_add(1);
    }
    Ok(count)
}

/// Brings the names in the folder to the disk.
pub(crate) fn sync_folder(runtime: &HostRuntime, path: &str) -> io::Result<()> {
    // The last of the ancestors of a relative path is empty.
    let path = if path.is_empty() { "." } else { path };
    File::open(runtime, path)?.sync_all()
}
