// Sockets at their addresses.
use crate::halls::LOOK;
use crate::sockets::Socket;
use std::fs::{self, Files, Permissions};
use std::io;
use std::net::{Net, TcpListener};
use std::os::fd::AsFd;
use std::os::unix::fs::{FileTypeExt, PermissionsExt};
use std::os::unix::net::{UnixListener, UnixStream};
use std::time::Duration;

// The owner and the group may connect.
const OWNER_AND_GROUP: u32 = 0o660;

// Takes away the socket of a server that is gone, where none answers. Whatever else is in use there stays.
fn clear<R: Files + Net>(rt: &R, path: &str, in_use: io::Error) -> io::Result<()> {
    let found = fs::symlink_metadata(rt, path)?;
    if !found.file_type().is_socket() {
        return Err(io::Error::new(io::ErrorKind::AlreadyExists, "a file is there"));
    }
    match UnixStream::connect(rt, path) {
        Ok(_) => Err(in_use),
        Err(error) if error.kind() == io::ErrorKind::ConnectionRefused => {
            fs::remove_file(rt, path)
        }
        Err(error) => Err(error),
    }
}

fn bind_path<R: Files + Net>(rt: &R, path: &str) -> io::Result<UnixListener> {
    if path.is_empty() {
        return Err(io::Error::new(io::ErrorKind::InvalidInput, "the path is empty"));
    }
    match UnixListener::bind(rt, path) {
        Err(error) if error.kind() == io::ErrorKind::AddrInUse => {
            clear(rt, path, error)?;
            UnixListener::bind(rt, path)
        }
        bound => bound,
    }
}

// Lets one accept wait so long, where the system takes that limit: it is one of the socket, which a second descriptor
// of it shares, whatever its kind.
fn limit_accepts<F: AsFd>(socket: &F) {
    if let Ok(second) = socket.as_fd().try_clone_to_owned() {
        let _ = UnixStream::from(second).set_read_timeout(Some(Duration::from_secs(LOOK)));
    }
}

fn listen_by_path<R: Files + Net>(rt: &R, path: &str) -> io::Result<UnixListener> {
    let socket = bind_path(rt, path)?;
    fs::set_permissions(rt, path, Permissions::from_mode(OWNER_AND_GROUP))?;
    limit_accepts(&socket);
    Ok(socket)
}

fn listen_by_tcp<R: Net>(rt: &R, place: &str) -> io::Result<R::Listener>
where
    R::Listener: AsFd,
{
    let socket = TcpListener::bind(rt, place)?;
    limit_accepts(&socket);
    Ok(socket)
}

/// Listens at an address of the form `tcp:HOST:PORT` or `unix:PATH`. A socket that a killed server left at the path is
/// taken over. One in a file is for its owner and group.
pub(crate) fn listen<R: Files + Net>(rt: &R, address: &str) -> io::Result<Socket<R::Listener>>
where
    R::Listener: AsFd,
{
    if let Some(path) = address.strip_prefix("unix:") {
        return Ok(Socket::Unix(listen_by_path(rt, path)?));
    }
    match address.strip_prefix("tcp:") {
        Some(place) => Ok(Socket::Tcp(listen_by_tcp(rt, place)?)),
        None => Err(io::Error::new(io::ErrorKind::InvalidInput, "it has neither form")),
    }
}
