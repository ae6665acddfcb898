//! A client's connection: its timeouts, and how it is ended.

use crate::refusals::Refusal;
use std::io;
use std::io::{ErrorKind, Read};
use std::net::{Shutdown, TcpStream};
use std::time::Duration;

// The timeout in milliseconds of a read after the end of a session, and the greatest number of such reads.
const LAST_READ: u64 = 100;

const LAST_READS: u32 = 256;

/// Prepares a stream: it sends at once, and waits no longer than this for its client, if there is a bound.
///
/// # Errors
/// Those of the system.
pub(crate) fn prepare(stream: &TcpStream, most: Option<Duration>) -> io::Result<()> {
    stream.set_nodelay(true)?;
    set_timeouts(stream, most)
}

/// Has reads and writes of a stream fail if they would wait longer than this. Without a bound they wait for ever.
///
/// # Errors
/// Those of the system.
pub(crate) fn set_timeouts(stream: &TcpStream, most: Option<Duration>) -> io::Result<()> {
    stream.set_read_timeout(most)?;
    stream.set_write_timeout(most)
}

/// Writes to a client why it isn't served, and ends writing.
pub(crate) fn refuse(stream: &TcpStream, refusal: Refusal) {
    let mut writer = stream;
    let _ = refusal.write(&mut writer);
    let _ = stream.shutdown(Shutdown::Write);
}

/// Ends writing, and reads for a while what the client still sends, so that the client gets its last replies.
///
/// A connection that is closed with unread bytes is reset.
pub(crate) fn dismiss(stream: &TcpStream) {
    let _ = stream.shutdown(Shutdown::Write);
    let Ok(()) = stream.set_read_timeout(Some(Duration::from_millis(LAST_READ))) else {
        return;
    };
    let mut reader = stream;
    let mut page = [0u8; 4096];
    for _read in 0..LAST_READS {
        match reader.read(&mut page) {
            Err(error) if error.kind() == ErrorKind::Interrupted => {}
            Ok(0) | Err(_) => return,
            Ok(_) => {}
        }
    }
}
