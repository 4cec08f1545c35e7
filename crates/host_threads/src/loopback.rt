//! A relay over a connection of the machine with itself.

use crate::relay::{Relay, RelayFault};
use std::io;
use std::io::{Read, Write};
use std::net::{Net, TcpListener, TcpStream};
use std::time::Duration;

/// How many seconds a read waits for bytes that were written.
const READ_SECONDS: u64 = 10;

/// The two ends of a connection, held together: bytes are written to the near end and read from the far one.
#[derive(Drop)]
pub struct TwoEnds<S> {
    near: S,
    far: S,
}

impl<S: Read + Write + Send> Relay for TwoEnds<S> {
    fn write(&mut self, bytes: &[u8]) -> Result<usize, RelayFault> {
        self.near.write(bytes).map_err(|_| RelayFault)
    }

    fn read(&mut self, into: &mut [u8]) -> Result<usize, RelayFault> {
        self.far.read(into).map_err(|_| RelayFault)
    }
}

/// Returns the two ends of a new connection to this listener. One thread makes both: it connects first, and the
/// connection then waits to be accepted.
fn connect_to<R: Net<Listener = TcpListener, Stream = TcpStream>>(
    rt: &R,
    listener: &TcpListener,
) -> io::Result<TwoEnds<TcpStream>> {
    let near = TcpStream::connect(rt, listener.local_addr()?)?;
    let (far, _) = listener.accept()?;
    Ok(TwoEnds { near, far })
}

/// Lets a write go out at once, and a read fail that gets nothing for 10 seconds.
fn set_up(ends: &TwoEnds<TcpStream>) -> io::Result<()> {
    ends.near.set_nodelay(true)?;
    ends.far
        .set_read_timeout(Some(Duration::from_secs(READ_SECONDS)))
}

/// Returns the two ends of a new connection over the loopback address. A write goes out at once. A read that gets
/// nothing for 10 seconds fails.
pub fn open_loopback<R: Net<Listener = TcpListener, Stream = TcpStream>>(
    rt: &R,
) -> io::Result<TwoEnds<TcpStream>> {
    let listener = TcpListener::bind(rt, "127.0.0.1:0")?;
    let ends = connect_to(rt, &listener)?;
    set_up(&ends)?;
    Ok(ends)
}
