//! A source of segments over a regular file of the system. It answers every read at the first poll.

ghost use Rattle.std.specs.Prelude.{◌≡◌, ◌↔◌, ◌⊎◌, ℕ, ◌+◌, ◌-◌, ◌^◌, ◌<◌, ◌≤◌, [], Some, None, IsNone, IsSome, IsTrue, IfSome, IfOk, IfErr, IsOkAnd, OnErr, IsErrOf, Ok, Err, ◌≢◌, alloc_error, length};
ghost use Rattle.std.specs.IoError.{error_kind};
ghost use Rattle.vx_outside.specs.Sources.{RequestGives, PollGives, Cleared, location_of};
ghost use Rattle.vx_outside.specs.Faults.{FailsWhere, CountsFaults};

use crate::in_flight::InFlight;
use crate::locations::SegmentLocation;
use crate::outside::{SegmentSource, SourceError};
use std::alloc::{AllocError, Global};
use std::fs::File;
use std::io::{ErrorKind, Seek, SeekFrom};
use std::os::unix::fs::FileExt;
use std::rt::Files;
use std::{fs, io};

/// A file that was opened for reading, and its size then. A later growth is not seen.
#[derive(Drop)]
struct OpenFile {
    file: File,
    size: u64,
}

/// A regular file of the system as a source. Where there is no file to read, every request answers `Failed`.
#[derive(Drop)]
pub struct FileSource {
    alloc: Global,
    file: Option<OpenFile>,
    in_flight: InFlight,
    faults: u64,
    idle: u64,
}

impl FileSource {
    ghost use Rattle.vx_outside.specs.FileSources.{file_state, IsOpen, tickets_given};

    /// Opens the file of a path for reading. With no path, and where the path names no regular file or the
    /// file cannot be opened, the source has no file. The error is for want of memory alone.
    pub fn new<R: Files<File = File>>(
        rt: &R,
        alloc: Global,
        path: Option<&str>,
    ) -> Result<FileSource, AllocError>
        ensures state { IfOk result (λ source. file_state source ≡ record { file = None; asked = None; in_flight = []; faults = 0; idle = 0 }) }
        ensures tickets { IfOk result (λ source. tickets_given source ≡ 0) }
        ensures no_path { IsNone path.entry → IsOkAnd result (λ source. ¬ IsOpen source) }
    {
        let file = match path {
            Some(path) => opened(regular_file(rt, path))?,
            None => None,
        };
        Ok(FileSource {
            alloc,
            file,
            in_flight: InFlight::new(alloc),
            faults: 0,
            idle: 0,
        })
    }

    /// Whether there is a file that it reads.
    pub fn is_open(&self) -> bool
        ensures { IsTrue result ↔ IsOpen self.now }
    {
        self.file.is_some()
    }

    /// How many requests and polls failed, up to `u64::MAX`.
    pub fn faults(&self) -> u64
        ensures { result ≡ (file_state self.now).faults }
    {
        self.faults
    }

    /// How many polls found a read that goes on. This source ends every read at its first poll, so
    /// there are none.
    pub fn idle(&self) -> u64
        ensures { result ≡ (file_state self.now).idle }
    {
        self.idle
    }
}

impl SegmentSource for FileSource {
    ghost use Rattle.vx_outside.specs.FileSources.{file_state, IsOpen, LiesInside, size_of_file, tickets_given};

    ghost state = { file_state };

    /// Starts a read. `Failed` says that there is no file, or that no ticket is left.
    fn request(&mut self, _id: u32, at: SegmentLocation) -> Result<u64, SourceError>
        ensures gives { RequestGives result at (file_state self.old) (file_state self.new) }
        ensures fails { FailsWhere result ((¬ IsOpen self.old) ⊎ (tickets_given self.old ≡ 2 ^ 64 - 1)) }
        ensures ticket { IfOk result (λ ticket. ticket ≡ tickets_given self.old) }
        ensures counted { IfOk result (λ _. tickets_given self.new ≡ tickets_given self.old + 1) }
        ensures not_counted { OnErr result (tickets_given self.new ≡ tickets_given self.old) }
        ensures faults { CountsFaults result (file_state self.old).faults (file_state self.new).faults }
        ensures open { IsOpen self.new ↔ IsOpen self.old }
        ensures size { size_of_file self.new ≡ size_of_file self.old }
    {
        if self.file.is_none() || self.in_flight.is_used_up() {
            self.faults = self.faults.saturating_add(1);
            return Err(SourceError::Failed);
        }
        self.in_flight.start(at)
    }

    /// Ends a read. `Failed` says that its range does not lie inside the file, or that the file
    /// could not be read.
    fn poll(&mut self, ticket: u64) -> Result<Option<Vec<u8>>, SourceError>
        requires { IsSome (location_of ticket (file_state self.old).in_flight) }
        ensures gives { PollGives result ticket (file_state self.old) (file_state self.new) }
        ensures ends { IfOk result (λ bytes. IsSome bytes) }
        ensures faults { CountsFaults result (file_state self.old).faults (file_state self.new).faults }
        ensures tickets { tickets_given self.new ≡ tickets_given self.old }
        ensures open { IsOpen self.new ↔ IsOpen self.old }
        ensures no_file { ¬ IsOpen self.old → IsErrOf result SourceError.Failed }
        ensures size { size_of_file self.new ≡ size_of_file self.old }
        ensures outside_the_file { IfSome (location_of ticket (file_state self.old).in_flight)
            (λ at. ¬ LiesInside (size_of_file self.old) at → IsErrOf result SourceError.Failed) }
    {
        let at = self.in_flight.location(ticket).unwrap();
        let bytes = match &self.file {
            Some(file) => segment_of(file, self.alloc, at),
            None => Err(SourceError::Failed),
        };
        match bytes {
            Ok(bytes) => {
                self.in_flight.end(ticket);
                Ok(Some(bytes))
            }
            Err(SourceError::Failed) => {
                self.in_flight.end(ticket);
                self.faults = self.faults.saturating_add(1);
                Err(SourceError::Failed)
            }
            Err(SourceError::Memory) => Err(SourceError::Memory),
        }
    }

    /// Forgets the reads in flight. Counts and the next ticket stay.
    fn clear(&mut self)
        ensures cleared { Cleared (file_state self.old) (file_state self.new) }
        ensures tickets { tickets_given self.new ≡ tickets_given self.old }
        ensures open { IsOpen self.new ↔ IsOpen self.old }
        ensures size { size_of_file self.new ≡ size_of_file self.old }
    {
        self.in_flight.clear();
    }
}

/// The regular file of a path, opened for reading. What the path names is asked for before it is opened,
/// since opening a pipe waits for its writer.
fn regular_file<R: Files<File = File>>(rt: &R, path: &str) -> io::Result<OpenFile> {
    if !fs::metadata(rt, path)?.is_file() {
        return Err(io::Error::from(ErrorKind::InvalidInput));
    }
    let mut file = fs::open(rt, path)?;
    let size = file.seek(SeekFrom::End(0))?;
    Ok(OpenFile { file, size })
}

/// The file that was opened, if it was. The error is for want of memory alone.
fn opened(file: io::Result<OpenFile>) -> Result<Option<OpenFile>, AllocError>
    ensures kept { IfOk file (λ opened. result ≡ Ok (Some opened)) }
    ensures memory { IfErr file (λ error. error_kind error ≡ ErrorKind.OutOfMemory → result ≡ Err alloc_error) }
    ensures failed { IfErr file (λ error. error_kind error ≢ ErrorKind.OutOfMemory → result ≡ Ok None) }
{
    match file {
        Ok(file) => Ok(Some(file)),
        Err(error) if error.kind() == ErrorKind::OutOfMemory => Err(AllocError),
        Err(_) => Ok(None),
    }
}

/// The bytes of a location. Where it does not lie inside the file, no memory is taken for it.
fn segment_of(file: &OpenFile, alloc: Global, at: SegmentLocation) -> Result<Vec<u8>, SourceError>
    ensures size { IfOk result (λ bytes. length bytes.items ≡ at.length) }
    ensures outside { file.now.size < at.offset + at.length → IsErrOf result SourceError.Failed }
{
    if !lies_inside(file.size, at) {
        return Err(SourceError::Failed);
    }
    let Ok(mut bytes) = Vec::from_elem(alloc, 0u8, at.length as usize) else {
        return Err(SourceError::Memory);
    };
    if file
        .file
        .read_exact_at(bytes.as_mut_slice(), at.offset)
        .is_err()
    {
        return Err(SourceError::Failed);
    }
    Ok(bytes)
}

/// Whether a location lies inside a file of so many bytes.
fn lies_inside(size: u64, at: SegmentLocation) -> bool
    ensures { IsTrue result ↔ (at.offset + at.length ≤ size) }
{
    match at.offset.checked_add(u64::from(at.length)) {
        Some(end) => end <= size,
        None => false,
    }
}
