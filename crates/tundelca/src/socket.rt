//! The socket of clients: a file in a folder that nobody else reaches than its owner and its group.

ghost use Rattle.std.specs.Prelude.{◌≡◌};
ghost use Rattle.tundelca.specs.Sockets as due;

use crate::fault::Fault;
use std::alloc::Global;
use std::fs::{DirBuilder, Files, Metadata, Permissions};
use std::io::{Error, ErrorKind};
use std::net::Net;
use std::os::unix::fs::{DirBuilderExt, FileTypeExt, MetadataExt, PermissionsExt, chown};
use std::os::unix::net::UnixListener;
use std::path::Path;
use std::{fs, io};
use thiserror::Error;

/// The mode of a folder that is made for a socket.
const FOLDER_MODE: u32 = 0o750;

/// The mode of the socket.
const SOCKET_MODE: u32 = 0o660;

/// Why no socket is made at a path.
#[derive(Clone, Copy, Debug, PartialEq, Eq, Error)]
pub enum SocketFault {
    /// Of the folder: it could not be made, or not looked at.
    #[error("no folder that can be made or looked at")]
    NoFolder,
    /// Of the folder: others reach what is in it, or its group may write there.
    #[error("a folder whose mode has a bit of 027: it has to be 0750, or less")]
    IsOpen,
    /// Somebody listens there.
    #[error("somebody listens there")]
    IsServed,
    /// What stands there is no socket.
    #[error("what stands there is no socket")]
    IsNoSocket,
    /// What stands there can't be looked at, asked or removed.
    #[error("what stands there can't be looked at, asked or removed")]
    IsUnknown,
    /// The socket was made, and belongs to another account than the folder.
    #[error("its folder belongs to another account")]
    IsForeign,
    /// The socket could not be made, or its group or mode not be set.
    #[error("it can't be made with its folder's group and mode 0660")]
    NotMade,
}

/// What stands at a path.
#[derive(Clone, Copy, Debug, PartialEq, Eq)]
pub enum AtPath {
    Nothing,
    /// A socket at which nobody listens.
    DeadSocket,
    /// A socket at which somebody listens.
    LiveSocket,
    Other,
    /// It can't be looked at, or not asked.
    Unknown,
}

/// A socket that was made, whose file goes again at the end.
#[derive(Drop)]
pub struct MadeSocket<'a> {
    path: &'a str,
    /// By which it is known again.
    dev: u64,
    ino: u64,
    /// Keeps it one at which somebody listens until the file has gone, so that nobody takes it for a dead one.
    _keeper: UnixListener,
}

/// Makes a socket for clients at a path, whose listener never waits, and what is known of its file. The folder is made
/// where it is absent.
///
/// # Errors
///
/// Why there is none, with the path, and `Memory`.
pub fn make_socket<'a, R: Files + Net>(
    rt: &R,
    alloc: Global,
    path: &'a str,
) -> Result<(UnixListener, MadeSocket<'a>), Fault> {
    let folder = folder_of(path);
    let seen = match folder_for(rt, folder) {
        Ok(seen) => seen,
        Err(why) => return Err(Fault::Socket(String::from_str(alloc, folder.as_str())?, why)),
    };
    match made_socket(rt, path, &seen) {
        Ok(made) => Ok(made),
        Err(why) => Err(Fault::Socket(String::from_str(alloc, path)?, why)),
    }
}

/// Makes the socket, in the folder that was seen.
fn made_socket<'a, R: Files + Net>(
    rt: &R,
    path: &'a str,
    folder: &Metadata,
) -> Result<(UnixListener, MadeSocket<'a>), SocketFault> {
    if removes(at_path(rt, path))? {
        fs::remove_file(rt, path).map_err(|_| SocketFault::IsUnknown)?;
    }
    let listener = UnixListener::bind(rt, path).map_err(fault_at)?;
    match settle(rt, path, folder, &listener) {
        Ok(made) => Ok((listener, made)),
        Err(why) => {
            let _ = fs::remove_file(rt, path);
            Err(why)
        }
    }
}

/// Why the file could not be made: another one stands there by now, or else.
fn fault_at(error: Error) -> SocketFault {
    if error.kind() == ErrorKind::AddrInUse {
        SocketFault::IsUnknown
    } else {
        SocketFault::NotMade
    }
}

/// Removes the file of a socket, if it is still the one that was made.
pub fn remove_socket(files: &impl Files, made: MadeSocket<'_>) {
    if let Ok(there) = fs::symlink_metadata(files, made.path) {
        if there.dev() == made.dev && there.ino() == made.ino {
            let _ = fs::remove_file(files, made.path);
        }
    }
}

/// The folder of a path.
fn folder_of(path: &str) -> Path<'_> {
    match Path::new(path).parent() {
        Some(folder) if !folder.as_str().is_empty() => folder,
        _ => Path::new("."),
    }
}

/// What a folder is, which is made where it is absent. Nobody reaches what is in it but its owner and its group.
fn folder_for(files: &impl Files, folder: Path<'_>) -> Result<Metadata, SocketFault> {
    let folder = seen_folder(files, folder).map_err(|_| SocketFault::NoFolder)?;
    if !folder.is_dir() {
        Err(SocketFault::NoFolder)
    } else if !keeps_out(folder.mode()) {
        Err(SocketFault::IsOpen)
    } else {
        Ok(folder)
    }
}

fn seen_folder(files: &impl Files, folder: Path<'_>) -> io::Result<Metadata> {
    match fs::metadata(files, folder) {
        Err(error) if error.kind() == ErrorKind::NotFound => {
            DirBuilder::new().mode(FOLDER_MODE).create(files, folder)?;
            fs::metadata(files, folder)
        }
        seen => seen,
    }
}

/// Whether of a folder's mode others have no bit, and its group none to write.
fn keeps_out(mode: u32) -> bool
    ensures { result ≡ due.keeps_out mode }
{
    mode % 8 == 0 && (mode / 16) % 2 == 0
}

/// What stands at a path. Of a socket is asked whether somebody listens.
fn at_path<R: Files + Net>(rt: &R, path: &str) -> AtPath {
    match fs::symlink_metadata(rt, path) {
        Ok(there) if there.file_type().is_socket() => asked(rt, path),
        Ok(_) => AtPath::Other,
        Err(error) if error.kind() == ErrorKind::NotFound => AtPath::Nothing,
        Err(_) => AtPath::Unknown,
    }
}

/// What a socket is, as an attempt to connect tells, which never waits: somebody listens too where there is no room for
/// one more.
fn asked<R: Net>(rt: &R, path: &str) -> AtPath {
    match mio::net::UnixStream::connect(rt, path) {
        Ok(_) => AtPath::LiveSocket,
        Err(error) => refused_by(error.kind()),
    }
}

fn refused_by(kind: ErrorKind) -> AtPath
    ensures { result ≡ due.refused_by kind }
{
    match kind {
        ErrorKind::ConnectionRefused => AtPath::DeadSocket,
        ErrorKind::WouldBlock => AtPath::LiveSocket,
        ErrorKind::NotFound => AtPath::Nothing,
        _ => AtPath::Unknown,
    }
}

/// Whether what stands at a path is removed before the socket is made.
///
/// # Errors
///
/// Why it stays, and there is no socket.
fn removes(at: AtPath) -> Result<bool, SocketFault>
    ensures { result ≡ due.removes at }
{
    match at {
        AtPath::Nothing => Ok(false),
        AtPath::DeadSocket => Ok(true),
        AtPath::LiveSocket => Err(SocketFault::IsServed),
        AtPath::Other => Err(SocketFault::IsNoSocket),
        AtPath::Unknown => Err(SocketFault::IsUnknown),
    }
}

/// Gives a socket that was made its folder's group, and its mode. Its owner has to be the folder's.
fn settle<'a>(
    files: &impl Files,
    path: &'a str,
    folder: &Metadata,
    listener: &UnixListener,
) -> Result<MadeSocket<'a>, SocketFault> {
    let there = fs::symlink_metadata(files, path).map_err(|_| SocketFault::NotMade)?;
    if there.uid() != folder.uid() {
        return Err(SocketFault::IsForeign);
    }
    match open_to_group(files, path, folder.gid(), listener) {
        Ok(keeper) => Ok(MadeSocket {
            path,
            dev: there.dev(),
            ino: there.ino(),
            _keeper: keeper,
        }),
        Err(_) => Err(SocketFault::NotMade),
    }
}

/// Lets a group reach a socket, whose listener never waits from now on. The listener once more.
fn open_to_group(
    files: &impl Files,
    path: &str,
    group: u32,
    listener: &UnixListener,
) -> io::Result<UnixListener> {
    listener.set_nonblocking(true)?;
    chown(files, path, None, Some(group))?;
    fs::set_permissions(files, path, Permissions::from_mode(SOCKET_MODE))?;
    listener.try_clone()
}
