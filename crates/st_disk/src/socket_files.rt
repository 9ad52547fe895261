//! The file of a server's socket.
use crate::failures::Failure;
use st_classes::refusals::Refusal;
use std::alloc::Global;
use std::fs::{self, Files, Permissions};
use std::io::{self, ErrorKind};
use std::net::Net;
use std::os::unix::fs::{MetadataExt, PermissionsExt};
use std::os::unix::net::UnixListener;

/// The permissions of a socket's file: its owner can read and write.
const OWNER_ALONE: u32 = 0o600;

/// The file that a server made for its socket: its path and its identity.
#[derive(Clone, Copy)]
pub struct SocketFile<'a> {
    path: &'a str,
    device: u64,
    number: u64,
}

/// The file at a path.
fn found<'a, R: Files>(rt: &R, path: &'a str) -> io::Result<SocketFile<'a>> {
    let file = fs::symlink_metadata(rt, path)?;
    Ok(SocketFile {
        path,
        device: file.dev(),
        number: file.ino(),
    })
}

/// Sets the permissions of the file at a path, so that only its owner has access.
fn kept_to_owner<'a, R: Files>(rt: &R, path: &'a str) -> io::Result<SocketFile<'a>> {
    fs::set_permissions(rt, path, Permissions::from_mode(OWNER_ALONE))?;
    found(rt, path)
}

/// Why no socket is made at a path.
fn not_bound(alloc: Global, path: &str, error: &io::Error) -> Failure {
    if error.kind() == ErrorKind::AddrInUse {
        return Failure::of(alloc, Refusal::ReadFault, path, "is there already");
    }
    Failure::at(alloc, Refusal::ReadFault, path, error)
}

/// Refuses a path at which something is there already, so that nothing that takes its time is done first.
pub fn refuse_taken<R: Files>(rt: &R, alloc: Global, path: &str) -> Result<(), Failure> {
    match fs::symlink_metadata(rt, path) {
        Ok(_) => Err(Failure::of(alloc, Refusal::ReadFault, path, "is there already")),
        Err(_) => Ok(()),
    }
}

/// Makes a socket, and its file for the owner alone. Between the two calls for that, the process's umask decides who can connect.
/// If the permissions cannot be set, neither the socket nor the file remains.
pub fn bind<'a, R: Net + Files>(
    rt: &R,
    alloc: Global,
    path: &'a str,
) -> Result<(UnixListener, SocketFile<'a>), Failure> {
    let listener = match UnixListener::bind(rt, path) {
        Ok(listener) => listener,
        Err(error) => return Err(not_bound(alloc, path, &error)),
    };
    match kept_to_owner(rt, path) {
        Ok(file) => Ok((listener, file)),
        Err(error) => {
            let _ = fs::remove_file(rt, path);
            Err(not_bound(alloc, path, &error))
        }
    }
}

impl<'a> SocketFile<'a> {
    /// Whether this is still the file at its path. It is taken to be there if the system does not say.
    pub fn is_there<R: Files>(&self, rt: &R) -> bool {
        match found(rt, self.path) {
            Ok(file) => file.device == self.device && file.number == self.number,
            Err(error) => error.kind() != ErrorKind::NotFound,
        }
    }

    /// Removes the file, if it is still the one at its path.
    pub fn remove<R: Files>(self, rt: &R) {
        let Ok(file) = found(rt, self.path) else {
            return;
        };
        if file.device == self.device && file.number == self.number {
            let _ = fs::remove_file(rt, self.path);
        }
    }
}
