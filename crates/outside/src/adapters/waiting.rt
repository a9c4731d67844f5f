//! Streams whose calls would not wait.
use std::io::{ErrorKind, Read, Write};
use std::time::{Clock, Duration};
use std::{io, thread};

/// How long a call is put off where it would wait, in milliseconds.
const PAUSE: u64 = 1;

/// A stream whose calls wait. Where its own stream's call would have to wait and does not, as that of a pipe that
/// another program made so, the call is made again after a pause, until it succeeds or fails otherwise.
#[derive(Drop)]
pub struct WaitingStream<'a, C, S> {
    clock: &'a C,
    inner: S,
}

impl<'a, C: Clock, S> WaitingStream<'a, C, S> {
    /// A stream over this one, with the clock by which it pauses.
    pub fn new(clock: &'a C, inner: S) -> WaitingStream<'a, C, S> {
        WaitingStream { clock, inner }
    }
}

impl<C: Clock, S: Read> Read for WaitingStream<'_, C, S> {
    fn read(&mut self, buf: &mut [u8]) -> io::Result<usize> {
        'tries: for _ in 0..u64::MAX {
            match self.inner.read(buf) {
                Ok(count) => return Ok(count),
                Err(error) => {
                    if !would_wait(&error) {
                        return Err(error);
                    }
                }
            }
            pause(self.clock);
        }
        Err(io::Error::from(ErrorKind::TimedOut))
    }
}

impl<C: Clock, S: Write> Write for WaitingStream<'_, C, S> {
    fn write(&mut self, buf: &[u8]) -> io::Result<usize> {
        'tries: for _ in 0..u64::MAX {
            match self.inner.write(buf) {
                Ok(taken) => return Ok(taken),
                Err(error) => {
                    if !would_wait(&error) {
                        return Err(error);
                    }
                }
            }
            pause(self.clock);
        }
        Err(io::Error::from(ErrorKind::TimedOut))
    }

    fn flush(&mut self) -> io::Result<()> {
        self.inner.flush()
    }
}

fn would_wait(error: &io::Error) -> bool {
    error.kind() == ErrorKind::WouldBlock
}

fn pause<C: Clock>(clock: &C) {
    thread::sleep(clock, Duration::from_millis(PAUSE));
}
