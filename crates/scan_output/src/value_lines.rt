//! The line of one packed value, or of a null where its row isn't valid.

ghost use Rattle.std.specs.Prelude.{◌≡◌, ◌++◌, if◌then◌else◌, OnOk};
ghost use Rattle.scan_output.specs.RowText.{line};
ghost use Rattle.vx_base.specs.Data.{DataType, null, number, text, truth};

use crate::json_strings::append_string;
use crate::printed_numbers::Printed;
use itoa::Buffer;
use std::alloc::AllocError;

/// Appends the line of a truth value, or of a null where it isn't valid.
pub(crate) fn append_truth_line(valid: bool, bit: bool, out: &mut Vec<u8>) -> Result<(), AllocError>
    ensures { OnOk result ((t : DataType) → out.new.items ≡ out.old.items ++ line t (if valid then truth bit else null)) }
{
    if !valid {
        return out.extend_from_slice(b"null\n");
    }
    if bit {
        out.extend_from_slice(b"true\n")
    } else {
        out.extend_from_slice(b"false\n")
    }
}

/// Appends the line of a number, or of a null where it isn't valid.
pub(crate) fn append_number_line<T: Printed>(
    digits: &mut Buffer,
    valid: bool,
    value: T,
    out: &mut Vec<u8>,
) -> Result<(), AllocError>
    ensures { OnOk result ((t : DataType) → out.new.items ≡ out.old.items ++ line t (if valid then number (T.number value) else null)) }
{
    if !valid {
        return out.extend_from_slice(b"null\n");
    }
    out.extend_from_slice(value.printed(digits).as_bytes())?;
    out.push(b'\n')?;
    Ok(())
}

/// Appends the line of a text, or of a null where it isn't valid.
pub(crate) fn append_text_line(
    valid: bool,
    value: &str,
    out: &mut Vec<u8>,
) -> Result<(), AllocError>
    ensures { OnOk result ((t : DataType) → out.new.items ≡ out.old.items ++ line t (if valid then text value.now else null)) }
{
    if !valid {
        return out.extend_from_slice(b"null\n");
    }
    append_string(out, value.as_bytes())?;
    out.push(b'\n')?;
    Ok(())
}
