//! Whom the modes of a socket and of its folder let in.

ghost use Rattle.std.specs.Prelude.{◌≡◌, ◌↔◌, IsTrue, bit_and};

use std::fs::{self, Permissions};
use std::io::{self, ErrorKind};
use std::os::unix::fs::{MetadataExt, PermissionsExt};
use std::path::Path;
use std::rt::Files;

/// The bits of a folder's mode by which its group, or anybody, enters it.
const OTHERS_ENTER: u32 = 0o011;

/// The mode of a file that its owner alone reads and writes.
const OWNER_ONLY: u32 = 0o600;

/// Whether the folder's owner alone enters it.
pub(crate) fn is_private(mode: u32) -> bool
    ensures { IsTrue result ↔ (bit_and mode 0o011 ≡ 0) }
{
    mode & OTHERS_ENTER == 0
}

/// The folder in which the path is.
fn folder_of(path: &str) -> &str {
    match Path::new(path).parent() {
        Some(folder) if !folder.as_str().is_empty() => folder.as_str(),
        _ => ".",
    }
}

/// The owner of the path's folder. An error if others enter that folder too.
pub(crate) fn owner_of_folder<R: Files>(system: &R, path: &str) -> io::Result<u32> {
    let folder = fs::metadata(system, folder_of(path))?;
    if !is_private(folder.mode()) {
        return Err(io::Error::from(ErrorKind::PermissionDenied));
    }
    Ok(folder.uid())
}

/// Lets the owner of this file alone read and write it. An error if its owner is another one than that.
pub(crate) fn keep_to_owner<R: Files>(system: &R, path: &str, owner: u32) -> io::Result<()> {
    fs::set_permissions(system, path, Permissions::from_mode(OWNER_ONLY))?;
    if fs::metadata(system, path)?.uid() != owner {
        return Err(io::Error::from(ErrorKind::PermissionDenied));
    }
    Ok(())
}
