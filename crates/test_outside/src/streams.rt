//! A source and a sink over streams that are interrupted, give or take less than they could, and fail.
use outside::{InputSource, OutFault, OutputSink, Sink, Source, WaitingStream};
use std::io;
use std::io::{ErrorKind, Read, Write};

/// A reader whose first call is interrupted, and that gives at most two bytes.
#[derive(Drop)]
struct Halting<'a> {
    rest: &'a [u8],
    is_started: bool,
}

impl Read for Halting<'_> {
    fn read(&mut self, buf: &mut [u8]) -> io::Result<usize> {
        if !self.is_started {
            self.is_started = true;
            return Err(io::Error::from(ErrorKind::Interrupted));
        }
        let count = buf.len().min(self.rest.len()).min(2);
        buf[..count].copy_from_slice(&self.rest[..count]);
        self.rest = &self.rest[count..];
        Ok(count)
    }
}

#[test]
fn source_over_a_halting_reader(rt: HostRuntime) {
    let mut source = InputSource::new(Halting {
        rest: b"hello",
        is_started: false,
    });
    let mut piece = *b"...";
    for (count, left) in [(2, *b"he."), (2, *b"ll."), (1, *b"ol."), (0, *b"ol.")] {
        assert_eq!(rt; source.read(&mut piece), Ok(count));
        assert_eq!(rt; piece, left);
    }
    assert_eq!(rt; source.faults(), 0);
}

/// A writer whose first call is interrupted, and that takes at most two bytes.
#[derive(Drop)]
struct Hesitant {
    taken: Vec<u8>,
    is_started: bool,
}

impl Write for Hesitant {
    fn write(&mut self, buf: &[u8]) -> io::Result<usize> {
        if !self.is_started {
            self.is_started = true;
            return Err(io::Error::from(ErrorKind::Interrupted));
        }
        let count = buf.len().min(2);
        self.taken.extend_from_slice(&buf[..count])?;
        Ok(count)
    }

    fn flush(&mut self) -> io::Result<()> {
        Ok(())
    }
}

#[test]
fn sink_over_a_hesitant_writer(rt: HostRuntime) {
    let mut writer = Hesitant {
        taken: Vec::new(rt.alloc()),
        is_started: false,
    };
    let mut sink = OutputSink::new(&mut writer);
    for (piece, count) in [("hello", 2), ("llo", 2), ("o", 1), ("", 0)] {
        assert_eq!(rt; sink.write(piece.as_bytes()), Ok(count));
    }
    assert_eq!(rt; sink.faults(), 0);
    assert_eq!(rt; writer.taken.as_slice(), b"hello".as_slice());
}

/// A stream whose calls all fail.
#[derive(Drop)]
struct Broken(ErrorKind);

impl Read for Broken {
    fn read(&mut self, _buf: &mut [u8]) -> io::Result<usize> {
        Err(io::Error::from(self.0))
    }
}

impl Write for Broken {
    fn write(&mut self, _buf: &[u8]) -> io::Result<usize> {
        Err(io::Error::from(self.0))
    }

    fn flush(&mut self) -> io::Result<()> {
        Ok(())
    }
}

// Each row has a kind of error, the answer, and the counts of faults after the first and the second call.
#[test]
fn streams_that_fail(rt: HostRuntime) {
    for (kind, fault, counts) in [
        (ErrorKind::Other, OutFault::Failed, [1, 2]),
        (ErrorKind::OutOfMemory, OutFault::OutOfMemory, [0, 0]),
    ] {
        let mut source = InputSource::new(Broken(kind));
        let mut sink = OutputSink::new(Broken(kind));
        for count in counts {
            assert_eq!(rt;
                (source.read(&mut [0]), source.faults()),
                (Err(fault), count)
            );
            assert_eq!(rt; (sink.write(b"lo"), sink.faults()), (Err(fault), count));
        }
    }
}

/// A writer that takes nothing.
#[derive(Drop)]
struct Full;

impl Write for Full {
    fn write(&mut self, _buf: &[u8]) -> io::Result<usize> {
        Ok(0)
    }

    fn flush(&mut self) -> io::Result<()> {
        Ok(())
    }
}

#[test]
fn sink_over_a_full_writer(rt: HostRuntime) {
    let mut sink = OutputSink::new(Full);
    assert_eq!(rt;
        (sink.write(b"lo"), sink.faults()),
        (Err(OutFault::Failed), 1)
    );
    assert_eq!(rt; (sink.write(b""), sink.faults()), (Ok(0), 1));
}

/// A stream whose first call would have to wait.
#[derive(Drop)]
struct Late {
    is_started: bool,
}

impl Late {
    /// The outcome of a call, which is done at the second time.
    fn call(&mut self) -> io::Result<usize> {
        if !self.is_started {
            self.is_started = true;
            return Err(io::Error::from(ErrorKind::WouldBlock));
        }
        Ok(1)
    }
}

impl Read for Late {
    fn read(&mut self, buf: &mut [u8]) -> io::Result<usize> {
        Ok(self.call()?.min(buf.len()))
    }
}

impl Write for Late {
    fn write(&mut self, buf: &[u8]) -> io::Result<usize> {
        Ok(self.call()?.min(buf.len()))
    }

    fn flush(&mut self) -> io::Result<()> {
        Ok(())
    }
}

#[test]
fn streams_that_would_have_to_wait(rt: HostRuntime) {
    let late = || Late { is_started: false };
    let mut source = InputSource::new(WaitingStream::new(&rt, late()));
    let mut sink = OutputSink::new(WaitingStream::new(&rt, late()));
    assert_eq!(rt; (source.read(&mut [0]), source.faults()), (Ok(1), 0));
    assert_eq!(rt; (sink.write(b"lo"), sink.faults()), (Ok(1), 0));
}
