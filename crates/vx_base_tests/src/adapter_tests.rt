//! What readers and writers of std give as streams, and that a call of theirs that fails is counted.

ghost use Rattle.std.specs.Prelude.{◌<◌};

use std::fs::{File, OpenOptions};
use std::io::{ErrorKind, Read, Write};
use std::process::Abort;
use std::{fs, io};
use vx_base::{ReadSource, Sink, Source, StreamError, WriteSink};

const FAILED: Result<usize, StreamError> = Err(StreamError::Failed);

/// A reader of some bytes, and a writer that takes at most so many at once. The first call fails.
#[derive(Drop)]
struct FailsFirst {
    failed: bool,
    bytes: u8,
}

impl Read for FailsFirst {
    fn read(&mut self, buf: &mut [u8]) -> io::Result<usize> {
        if !self.failed {
            self.failed = true;
            return Err(io::Error::from(ErrorKind::Other));
        }
        if self.bytes == 0 {
            return Ok(0);
        }
        for byte in buf.iter_mut().take(1) {
            *byte = self.bytes;
        }
        self.bytes -= 1;
        Ok(buf.len().min(1))
    }
}

impl Write for FailsFirst {
    fn write(&mut self, buf: &[u8]) -> io::Result<usize> {
        if !self.failed {
            self.failed = true;
            return Err(io::Error::from(ErrorKind::Other));
        }
        Ok(buf.len().min(self.bytes as usize))
    }

    fn flush(&mut self) -> io::Result<()> {
        Ok(())
    }
}

/// Asserts that the next piece is this one.
fn gives<I: Read + Drop>(rt: &impl Abort, source: &mut ReadSource<I>, max: usize, wanted: &[u8])
    requires { 0 < max }
{
    let piece = source.read(max).expect(rt, "a piece");
    assert!(rt; piece.as_slice() == wanted);
}

/// Asserts that the next read fails.
fn fails<I: Read + Drop>(rt: &impl Abort, source: &mut ReadSource<I>, faults: u64) {
    assert!(rt; matches!(source.read(4), Err(StreamError::Failed)));
    assert!(rt; source.faults() == faults);
}

#[test]
fn reads_bytes(rt: HostRuntime) {
    let bytes: &[u8] = &[1, 2, 3];
    let mut source = ReadSource::new(rt.alloc(), Some(bytes));
    gives(&rt, &mut source, 2, &[1, 2]);
    gives(&rt, &mut source, 2, &[3]);
    gives(&rt, &mut source, 2, &[]);
    assert!(rt; source.faults() == 0);
}

#[test]
fn reads_on_after_a_fault(rt: HostRuntime) {
    let reader = FailsFirst {
        failed: false,
        bytes: 2,
    };
    let mut source = ReadSource::new(rt.alloc(), Some(reader));
    fails(&rt, &mut source, 1);
    gives(&rt, &mut source, usize::MAX, &[2]);
    gives(&rt, &mut source, usize::MAX, &[1]);
    gives(&rt, &mut source, usize::MAX, &[]);
    assert!(rt; source.faults() == 1);
}

#[test]
fn reads_nothing_without_a_reader(rt: HostRuntime) {
    let mut source: ReadSource<File> = ReadSource::new(rt.alloc(), None);
    fails(&rt, &mut source, 1);
    fails(&rt, &mut source, 2);
}

#[test]
fn reads_no_folder(rt: HostRuntime) {
    let mut source = ReadSource::new(rt.alloc(), fs::open(&rt, ".").ok());
    fails(&rt, &mut source, 1);
    fails(&rt, &mut source, 2);
}

#[test]
fn reads_devices_in_pieces(rt: HostRuntime) {
    let zeros = fs::open(&rt, "/dev/zero").expect(&rt, "a device");
    let mut source = ReadSource::new(rt.alloc(), Some(zeros));
    gives(&rt, &mut source, 3, &[0, 0, 0]);
    gives(&rt, &mut source, 1, &[0]);
    let nothing = fs::open(&rt, "/dev/null").expect(&rt, "a device");
    let mut source = ReadSource::new(rt.alloc(), Some(nothing));
    gives(&rt, &mut source, 3, &[]);
}

/// Asserts what the next write answers, and how many failed then.
fn takes<O: Write + Drop>(
    rt: &impl Abort,
    sink: &mut WriteSink<O>,
    piece: &[u8],
    wanted: Result<usize, StreamError>,
    faults: u64,
) {
    assert!(rt; sink.write(piece) == wanted);
    assert!(rt; sink.faults() == faults);
}

#[test]
fn writes_bytes(rt: HostRuntime) {
    let mut written = Vec::new(rt.alloc());
    let mut sink = WriteSink::new(&mut written);
    takes(&rt, &mut sink, &[1, 2], Ok(2), 0);
    takes(&rt, &mut sink, &[], Ok(0), 0);
    takes(&rt, &mut sink, &[3], Ok(1), 0);
    drop(sink);
    assert!(rt; written.as_slice() == [1, 2, 3].as_slice());
}

#[test]
fn writes_on_after_a_fault(rt: HostRuntime) {
    let mut sink = WriteSink::new(FailsFirst {
        failed: false,
        bytes: 1,
    });
    takes(&rt, &mut sink, &[1, 2], FAILED, 1);
    takes(&rt, &mut sink, &[1, 2], Ok(1), 1);
    takes(&rt, &mut sink, &[], Ok(0), 1);
}

#[test]
fn counts_writes_that_take_nothing(rt: HostRuntime) {
    let mut sink = WriteSink::new(FailsFirst {
        failed: true,
        bytes: 0,
    });
    takes(&rt, &mut sink, &[1], FAILED, 1);
    takes(&rt, &mut sink, &[], Ok(0), 1);
    takes(&rt, &mut sink, &[1, 2], FAILED, 2);
}

#[test]
fn fails_on_a_full_device(rt: HostRuntime) {
    let full = OpenOptions::new().write(true).open(&rt, "/dev/full");
    let mut sink = WriteSink::new(full.expect(&rt, "a device"));
    takes(&rt, &mut sink, &[1, 2], FAILED, 1);
    takes(&rt, &mut sink, &[1], FAILED, 2);
}
