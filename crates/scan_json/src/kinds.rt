//! Values that are to be of one kind: a value of another is read too, and nothing of it is kept.

ghost use Rattle.std.specs.Prelude.{◌≡◌, ◌-◌, ◌<◌, true, false, Some, None, length, option_map, IfOk, OnOk, OnErr};
ghost use Rattle.serde_json.specs.Data.{Data, array, object};
ghost use Rattle.serde_json.specs.Find.{as_number, as_str, as_array, as_object};
ghost use Rattle.serde_json.specs.View.{number_view};
ghost use Rattle.json.specs.Json.{parse_map};
ghost use Rattle.scan_json.specs.Reading.{IsTail, read_value, read_items, read_members, reads};

use crate::heads::{Head, next_head};
use crate::passing::{pass_items, pass_members};
use json::{Invalid, Reader};
use serde_json::Number;

/// The number that the next value is, if it is one.
pub fn number(reader: &mut Reader<'_>, depth: usize) -> Result<Option<Number>, Invalid>
    ensures ok { IfOk result (λ found. reads as_number depth reader.old ≡ Some (option_map number_view found, reader.new)) }
    ensures shorter { OnOk result (length reader.new < length reader.old) }
    ensures refused { OnErr result (read_value depth reader.old ≡ None) }
    ensures left { IsTail reader.old reader.new }
{
    match next_head(reader, depth)? {
        Head::Number(number) => Ok(Some(number)),
        Head::List => {
            pass_items(reader, depth - 1)?;
            Ok(None)
        }
        Head::Object => {
            pass_members(reader, depth - 1)?;
            Ok(None)
        }
        _ => Ok(None),
    }
}

/// The text that the next value is, if it is one.
pub fn text<'a>(reader: &mut Reader<'a>, depth: usize) -> Result<Option<&'a str>, Invalid>
    ensures ok { IfOk result (λ found. reads as_str depth reader.old ≡ Some (option_map (λ s. s.now) found, reader.new)) }
    ensures shorter { OnOk result (length reader.new < length reader.old) }
    ensures refused { OnErr result (read_value depth reader.old ≡ None) }
    ensures left { IsTail reader.old reader.new }
{
    match next_head(reader, depth)? {
        Head::String(text) => Ok(Some(text)),
        Head::List => {
            pass_items(reader, depth - 1)?;
            Ok(None)
        }
        Head::Object => {
            pass_members(reader, depth - 1)?;
            Ok(None)
        }
        _ => Ok(None),
    }
}

/// Whether the next value is a list, whose items come next then. A value of another kind is read.
pub fn list_begins(reader: &mut Reader<'_>, depth: usize) -> Result<bool, Invalid>
    ensures inside { IfOk result (λ is. is ≡ true → (0 < depth)
        × (read_value depth reader.old ≡ parse_map array (read_items (depth - 1) reader.new))) }
    ensures past { IfOk result (λ is. is ≡ false → reads as_array depth reader.old ≡ Some (None, reader.new)) }
    ensures shorter { OnOk result (length reader.new < length reader.old) }
    ensures refused { OnErr result (read_value depth reader.old ≡ None) }
    ensures left { IsTail reader.old reader.new }
{
    match next_head(reader, depth)? {
        Head::List => Ok(true),
        Head::Object => {
            pass_members(reader, depth - 1)?;
            Ok(false)
        }
        _ => Ok(false),
    }
}

/// Whether the next value is an object, whose members come next then. A value of another kind is read.
pub fn object_begins(reader: &mut Reader<'_>, depth: usize) -> Result<bool, Invalid>
    ensures inside { IfOk result (λ is. is ≡ true → (0 < depth)
        × (read_value depth reader.old ≡ parse_map object (read_members (depth - 1) reader.new))) }
    ensures past { IfOk result (λ is. is ≡ false → reads as_object depth reader.old ≡ Some (None, reader.new)) }
    ensures shorter { OnOk result (length reader.new < length reader.old) }
    ensures refused { OnErr result (read_value depth reader.old ≡ None) }
    ensures left { IsTail reader.old reader.new }
{
    match next_head(reader, depth)? {
        Head::Object => Ok(true),
        Head::List => {
            pass_items(reader, depth - 1)?;
            Ok(false)
        }
        _ => Ok(false),
    }
}
