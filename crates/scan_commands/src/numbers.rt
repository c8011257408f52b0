//! The numbers that are promises, and the constants of the code that are held to them.

ghost use Rattle.std.specs.Prelude.{◌≡◌};
ghost use Rattle.vx_scan.specs.Builders.{default_idle_limit};
ghost use Rattle.vx_scan.specs.Limits as scans;
ghost use Rattle.scan_demo.specs.DemoRows as demo;
ghost use Rattle.scan_words.specs.Limits as words;
ghost use Rattle.scan_request.specs.JsonForms.{most_items};
ghost use Rattle.scan_input.specs.Reading.{most_bytes, most_piece};
ghost use Rattle.scan_commands.specs.Statuses.{done_status, usage_status, bad_request_status, bad_layout_status, bad_projection_status, row_out_of_range_status, row_offset_overflow_status, lists_unsupported_status, no_location_status, bad_segment_status, bad_code_status, expression_fault_status, read_fault_status, stalled_status, write_fault_status, request_fault_status, request_too_large_status, not_readable_status, memory_status};

use crate::statuses::{
    BAD_CODE, BAD_LAYOUT, BAD_PROJECTION, BAD_REQUEST, BAD_SEGMENT, DONE, EXPRESSION_FAULT,
    LISTS_UNSUPPORTED, NO_LOCATION, NOT_READABLE, OUT_OF_MEMORY, READ_FAULT, REQUEST_FAULT,
    REQUEST_TOO_LARGE, ROW_OFFSET_OVERFLOW, ROW_OUT_OF_RANGE, STALLED, USAGE, WRITE_FAULT,
};
use scan_input::{MOST_BYTES, PIECE_BYTES};
use scan_request::MOST_ITEMS;

/// Each constant of the code that stands for a promise is the number that is promised.
pub fn numbers_are_promised()
    ensures done { DONE ≡ done_status }
    ensures usage { USAGE ≡ usage_status }
    ensures bad_request { BAD_REQUEST ≡ bad_request_status }
    ensures bad_layout { BAD_LAYOUT ≡ bad_layout_status }
    ensures bad_projection { BAD_PROJECTION ≡ bad_projection_status }
    ensures row_out_of_range { ROW_OUT_OF_RANGE ≡ row_out_of_range_status }
    ensures row_offset_overflow { ROW_OFFSET_OVERFLOW ≡ row_offset_overflow_status }
    ensures lists_unsupported { LISTS_UNSUPPORTED ≡ lists_unsupported_status }
    ensures no_location { NO_LOCATION ≡ no_location_status }
    ensures bad_segment { BAD_SEGMENT ≡ bad_segment_status }
    ensures bad_code { BAD_CODE ≡ bad_code_status }
    ensures expression_fault { EXPRESSION_FAULT ≡ expression_fault_status }
    ensures read_fault { READ_FAULT ≡ read_fault_status }
    ensures stalled { STALLED ≡ stalled_status }
    ensures write_fault { WRITE_FAULT ≡ write_fault_status }
    ensures request_fault { REQUEST_FAULT ≡ request_fault_status }
    ensures request_too_large { REQUEST_TOO_LARGE ≡ request_too_large_status }
    ensures not_readable { NOT_READABLE ≡ not_readable_status }
    ensures out_of_memory { OUT_OF_MEMORY ≡ memory_status }
    ensures items { MOST_ITEMS ≡ most_items }
    ensures bytes { MOST_BYTES ≡ most_bytes }
    ensures piece { PIECE_BYTES ≡ most_piece }
{}

/// A number that two crates promise, of which neither stands on the other, is one number.
pub fn numbers_agree()
    ensures workers { words.most_workers ≡ scans.most_workers }
    ensures idle { words.default_idle ≡ default_idle_limit }
    ensures demo_rows { words.most_demo_rows ≡ demo.most_demo_rows }
{}
