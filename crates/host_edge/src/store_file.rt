ghost use Rattle.std.specs.Prelude.{IfOk};
ghost use Rattle.std.specs.Fs.{file_type, IsFile};

use std::fs::{self, File, Metadata, OpenOptions, Permissions};
use std::io;
use std::os::unix::fs::{MetadataExt, OpenOptionsExt, PermissionsExt};

/// Opens a file where it is there. Anything but a regular file under its own name is refused: a symbolic link, a pipe, a device.
pub(crate) fn opened(rt: &HostRuntime, path: &str) -> io::Result<Option<File>> {
    match fs::symlink_metadata(rt, path) {
        Ok(found) => Ok(Some(opened_as(rt, path, &found)?)),
        Err(e) if e.kind() == io::ErrorKind::NotFound => Ok(None),
        Err(e) => Err(e),
    }
}

// Opens the regular file that was found, and no other.
fn opened_as(rt: &HostRuntime, path: &str, found: &Metadata) -> io::Result<File>
    ensures regular { IfOk result (λ _. IsFile (file_type found.now)) }
{
    if !found.is_file() {
        return Err(io::ErrorKind::InvalidInput.into());
    }
    let file = OpenOptions::new().read(true).write(true).open(rt, path)?;
    if !are_same(found, &file.metadata()?) {
        return Err(io::ErrorKind::InvalidInput.into());
    }
    Ok(file)
}

// Whether both are of one file of the host.
fn are_same(one: &Metadata, two: &Metadata) -> bool {
    one.dev() == two.dev() && one.ino() == two.ino()
}

/// Refuses a file that is this one under another name.
pub(crate) fn refuse_same(held: &Option<File>, found: &Metadata) -> io::Result<()> {
    match held {
        Some(file) if are_same(&file.metadata()?, found) => {
            Err(io::ErrorKind::InvalidInput.into())
        }
        _ => Ok(()),
    }
}

/// Removes what an earlier start left over, and follows no link.
pub(crate) fn remove_left_over(rt: &HostRuntime, path: &str) -> io::Result<()> {
    match fs::remove_file(rt, path) {
        Err(e) if e.kind() != io::ErrorKind::NotFound => Err(e),
        _ => Ok(()),
    }
}

/// Makes a file that is not there, and is at no moment open to more than these permissions.
pub(crate) fn made_with(
    rt: &HostRuntime,
    path: &str,
    permissions: Permissions,
) -> io::Result<File> {
    let file = OpenOptions::new()
        .read(true)
        .write(true)
        .create_new(true)
        .mode(permissions.mode())
        .open(rt, path)?;
    file.set_permissions(permissions)?;
    Ok(file)
}
