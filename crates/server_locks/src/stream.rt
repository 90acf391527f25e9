//! A client's stream, through whichever door it came.

ghost use Rattle.std.specs.Io.{ReadsAtMost, WritesAtMost};

use std::io;
use std::io::{Read, Write};
use std::net::{Shutdown, TcpStream};
use std::os::unix::net::UnixStream;
use std::time::Duration;

/// A client's stream. Its reads and writes wait, unless it was told not to.
#[derive(Drop)]
pub enum ClientStream {
    /// Through the port.
    Tcp(TcpStream),
    /// Through the socket.
    Unix(UnixStream),
}

impl ClientStream {
    /// Has reads and writes wait for so long at most, and bytes leave at once.
    ///
    /// # Errors
    ///
    /// As the system answers.
    pub fn prepare(&self, reads: Duration, writes: Duration) -> io::Result<()> {
        if let ClientStream::Tcp(stream) = self {
            stream.set_nodelay(true)?;
        }
        self.set_read_timeout(Some(reads))?;
        self.set_write_timeout(Some(writes))
    }

    /// Has reads wait for so long at most.
    ///
    /// # Errors
    ///
    /// As the system answers.
    pub fn set_read_timeout(&self, time: Option<Duration>) -> io::Result<()> {
        match self {
            ClientStream::Tcp(stream) => stream.set_read_timeout(time),
            ClientStream::Unix(stream) => stream.set_read_timeout(time),
        }
    }

    /// Has writes wait for so long at most.
    ///
    /// # Errors
    ///
    /// As the system answers.
    pub fn set_write_timeout(&self, time: Option<Duration>) -> io::Result<()> {
        match self {
            ClientStream::Tcp(stream) => stream.set_write_timeout(time),
            ClientStream::Unix(stream) => stream.set_write_timeout(time),
        }
    }

    /// Whether reads and writes answer `WouldBlock` where they would wait.
    ///
    /// # Errors
    ///
    /// As the system answers.
    pub fn set_nonblocking(&self, nonblocking: bool) -> io::Result<()> {
        match self {
            ClientStream::Tcp(stream) => stream.set_nonblocking(nonblocking),
            ClientStream::Unix(stream) => stream.set_nonblocking(nonblocking),
        }
    }

    /// Shuts the stream for reading, for writing, or both.
    ///
    /// # Errors
    ///
    /// As the system answers.
    pub fn shutdown(&self, how: Shutdown) -> io::Result<()> {
        match self {
            ClientStream::Tcp(stream) => stream.shutdown(how),
            ClientStream::Unix(stream) => stream.shutdown(how),
        }
    }
}

impl ClientStream {
    fn read_some(&self, buf: &mut [u8]) -> io::Result<usize>
        ensures { ReadsAtMost result buf.new }
    {
        match self {
            ClientStream::Tcp(stream) => read_tcp(stream, buf),
            ClientStream::Unix(stream) => read_unix(stream, buf),
        }
    }

    fn write_some(&self, buf: &[u8]) -> io::Result<usize>
        ensures { WritesAtMost result buf.now }
    {
        match self {
            ClientStream::Tcp(stream) => write_tcp(stream, buf),
            ClientStream::Unix(stream) => write_unix(stream, buf),
        }
    }
}

fn read_tcp(stream: &TcpStream, buf: &mut [u8]) -> io::Result<usize>
    ensures { ReadsAtMost result buf.new }
{
    let mut reader = stream;
    reader.read(buf)
}

fn read_unix(stream: &UnixStream, buf: &mut [u8]) -> io::Result<usize>
    ensures { ReadsAtMost result buf.new }
{
    let mut reader = stream;
    reader.read(buf)
}

fn write_tcp(stream: &TcpStream, buf: &[u8]) -> io::Result<usize>
    ensures { WritesAtMost result buf.now }
{
    let mut writer = stream;
    writer.write(buf)
}

fn write_unix(stream: &UnixStream, buf: &[u8]) -> io::Result<usize>
    ensures { WritesAtMost result buf.now }
{
    let mut writer = stream;
    writer.write(buf)
}

impl Read for &ClientStream {
    fn read(&mut self, buf: &mut [u8]) -> io::Result<usize> {
        self.read_some(buf)
    }
}

impl Write for &ClientStream {
    fn write(&mut self, buf: &[u8]) -> io::Result<usize> {
        self.write_some(buf)
    }

    fn flush(&mut self) -> io::Result<()> {
        Ok(())
    }
}
