//! The statuses that a run ends with, and their texts (docs/ANSWERS.md).

ghost use Rattle.std.specs.Prelude.{◌≡◌};
ghost use Rattle.scan_commands.specs.Statuses.{text_of_status};

/// The rows were written.
pub const DONE: u8 = 0;
/// The words are not those of a command.
pub const USAGE: u8 = 2;
/// The request's bytes are no request.
pub const BAD_REQUEST: u8 = 10;
/// The request's layout breaks a rule.
pub const BAD_LAYOUT: u8 = 11;
/// The projection can't be bound to the rows' dtype.
pub const BAD_PROJECTION: u8 = 12;
/// A selected row is past the last row.
pub const ROW_OUT_OF_RANGE: u8 = 13;
/// The row offset leads past the greatest row number.
pub const ROW_OFFSET_OVERFLOW: u8 = 14;
/// The rows have lists.
pub const LISTS_UNSUPPORTED: u8 = 15;
/// A segment has no location.
pub const NO_LOCATION: u8 = 16;
/// A segment's bytes spell no values.
pub const BAD_SEGMENT: u8 = 17;
/// A code names no value of its dictionary.
pub const BAD_CODE: u8 = 18;
/// The projection has no value at a row.
pub const EXPRESSION_FAULT: u8 = 19;
/// A read of the segments failed.
pub const READ_FAULT: u8 = 20;
/// A read of the segments made no progress.
pub const STALLED: u8 = 21;
/// A write failed.
pub const WRITE_FAULT: u8 = 22;
/// A read of the request failed.
pub const REQUEST_FAULT: u8 = 23;
/// The request has too many bytes.
pub const REQUEST_TOO_LARGE: u8 = 24;
/// The layout's readers can't answer the request.
pub const NOT_READABLE: u8 = 25;
/// Memory ran out.
pub const OUT_OF_MEMORY: u8 = 70;

/// The text of a status, as it is printed.
pub fn status_text(status: u8) -> &'static str
    ensures { result.now ≡ text_of_status status }
{
    match status {
        DONE => "ok",
        USAGE => "usage",
        BAD_REQUEST => "bad request",
        BAD_LAYOUT => "bad layout",
        BAD_PROJECTION => "bad projection",
        ROW_OUT_OF_RANGE => "row out of range",
        ROW_OFFSET_OVERFLOW => "row offset overflow",
        LISTS_UNSUPPORTED => "list rows are unsupported",
        NO_LOCATION => "segment without location",
        BAD_SEGMENT => "bad segment",
        BAD_CODE => "bad code",
        EXPRESSION_FAULT => "expression fault",
        READ_FAULT => "read fault",
        STALLED => "stalled",
        WRITE_FAULT => "write fault",
        REQUEST_FAULT => "request fault",
        REQUEST_TOO_LARGE => "request too large",
        NOT_READABLE => "not readable by layout readers",
        OUT_OF_MEMORY => "out of memory",
        _ => "unknown status",
    }
}
