//! How a run ends, and with which status.

ghost use Rattle.std.specs.Prelude.{◌≡◌};
ghost use Rattle.scan_commands.specs.Endings.{read_ending, read_status as status_of_read, reader_status as status_of_reader, reading_ending, refused_ending, scan_ending, scan_status as status_of_scan, status_of, writing_ending};

use crate::statuses::{
    BAD_CODE, BAD_LAYOUT, BAD_PROJECTION, BAD_REQUEST, BAD_SEGMENT, DONE, EXPRESSION_FAULT,
    LISTS_UNSUPPORTED, NO_LOCATION, NOT_READABLE, OUT_OF_MEMORY, READ_FAULT, REQUEST_FAULT,
    REQUEST_TOO_LARGE, ROW_OFFSET_OVERFLOW, ROW_OUT_OF_RANGE, STALLED, USAGE, WRITE_FAULT,
};
use scan_input::ReadingError;
use scan_request::RequestError;
use vx_base::StreamError;
use vx_readers::{ReadRowsError, ReaderError};
use vx_scan::ScanError;

/// How a run ends.
#[derive(Clone, Copy, Debug)]
pub(crate) enum Ending {
    /// The rows were written.
    Done,
    /// The request has too many bytes.
    RequestTooLarge,
    /// The request's bytes are no JSON in the form.
    BadRequest,
    /// The request's nodes break the rule at the node, the first such rule and its first node.
    BadLayout { node: u32, rule: u8 },
    /// The request's projection can't be bound to the dtype of the layout's root.
    BadProjection,
    /// The scan failed.
    ScanFailed(ScanError),
    /// The layout's readers don't answer the request.
    NotReadable,
    /// The read failed.
    ReadFailed(ReadRowsError),
    /// A write failed.
    WriteFault,
    /// A read of the request failed.
    RequestFault,
    /// Memory ran out.
    OutOfMemory,
}

/// The status of a scan that failed.
fn scan_status(error: ScanError) -> u8
    ensures { result ≡ status_of_scan error }
{
    match error {
        ScanError::BadProjection => BAD_PROJECTION,
        ScanError::OffsetOverflow => ROW_OFFSET_OVERFLOW,
        ScanError::OutOfRange => ROW_OUT_OF_RANGE,
        ScanError::Unsupported(_) => LISTS_UNSUPPORTED,
        ScanError::NoLocation(_) => NO_LOCATION,
        ScanError::ReadFault => READ_FAULT,
        ScanError::Stalled => STALLED,
        ScanError::BadSegment(_) => BAD_SEGMENT,
        ScanError::BadCode { .. } => BAD_CODE,
        ScanError::EvalFault(_) => EXPRESSION_FAULT,
        ScanError::Memory => OUT_OF_MEMORY,
    }
}

/// The status of a reader that gave no rows.
fn reader_status(error: ReaderError) -> u8
    ensures { result ≡ status_of_reader error }
{
    match error {
        ReaderError::ReadFault => READ_FAULT,
        ReaderError::BadSegment(_) => BAD_SEGMENT,
        ReaderError::BadCode { .. } => BAD_CODE,
        ReaderError::EvalFault(_) => EXPRESSION_FAULT,
        ReaderError::NoLocation(_) => NO_LOCATION,
        ReaderError::Memory => OUT_OF_MEMORY,
    }
}

/// The status of a read that failed. No run reads by a rule of no rows, since no words ask for one.
fn read_status(error: ReadRowsError) -> u8
    ensures { result ≡ status_of_read error }
{
    match error {
        ReadRowsError::Reader(error) => reader_status(error),
        ReadRowsError::Stalled => STALLED,
        ReadRowsError::ZeroSize => USAGE,
        ReadRowsError::Memory => OUT_OF_MEMORY,
    }
}

impl Ending {
    /// The status that the run ends with.
    pub(crate) fn status(self) -> u8
        ensures { result ≡ status_of self }
    {
        match self {
            Ending::Done => DONE,
            Ending::RequestTooLarge => REQUEST_TOO_LARGE,
            Ending::BadRequest => BAD_REQUEST,
            Ending::BadLayout { .. } => BAD_LAYOUT,
            Ending::BadProjection => BAD_PROJECTION,
            Ending::ScanFailed(error) => scan_status(error),
            Ending::NotReadable => NOT_READABLE,
            Ending::ReadFailed(error) => read_status(error),
            Ending::WriteFault => WRITE_FAULT,
            Ending::RequestFault => REQUEST_FAULT,
            Ending::OutOfMemory => OUT_OF_MEMORY,
        }
    }
}

/// How a run ends whose request can't be read.
pub(crate) fn of_reading(error: ReadingError) -> Ending
    ensures { result ≡ reading_ending error }
{
    match error {
        ReadingError::TooLarge => Ending::RequestTooLarge,
        ReadingError::Failed => Ending::RequestFault,
        ReadingError::Memory => Ending::OutOfMemory,
    }
}

/// How a run ends whose request is refused.
pub(crate) fn of_request(error: &RequestError) -> Ending
    ensures { result ≡ refused_ending error.now }
{
    match error {
        RequestError::BadRequest => Ending::BadRequest,
        RequestError::BadLayout { node, rule } => Ending::BadLayout {
            node: *node,
            rule: *rule,
        },
        RequestError::BadProjection(_) => Ending::BadProjection,
        RequestError::Memory => Ending::OutOfMemory,
    }
}

/// How a run ends whose scan failed.
pub(crate) fn of_scan(error: ScanError) -> Ending
    ensures { result ≡ scan_ending error }
{
    match error {
        ScanError::Memory => Ending::OutOfMemory,
        error => Ending::ScanFailed(error),
    }
}

/// How a run ends whose read failed.
pub(crate) fn of_read(error: ReadRowsError) -> Ending
    ensures { result ≡ read_ending error }
{
    match error {
        ReadRowsError::Memory => Ending::OutOfMemory,
        error => Ending::ReadFailed(error),
    }
}

/// How a run ends that has written all, or as much as it could.
pub(crate) fn of_writing(written: Result<(), StreamError>) -> Ending
    ensures { result ≡ writing_ending written }
{
    match written {
        Ok(()) => Ending::Done,
        Err(StreamError::Failed) => Ending::WriteFault,
        Err(StreamError::Memory) => Ending::OutOfMemory,
    }
}
