//! Values that are read for their form alone: nothing of them is kept.

ghost use Rattle.std.specs.Prelude.{◌≡◌, ◌<◌, true, false, Some, None, length, IfOk, OnOk, OnErr};
ghost use Rattle.serde_json.specs.Data.{Data, Items, Members, no_items, item};
ghost use Rattle.scan_json.specs.Reading.{IsTail, read_value, read_items, read_members};

use crate::heads::{Head, next_head};
use json::{Invalid, Reader};

/// Reads the next value.
#[cycle(passing)]
pub fn pass(reader: &mut Reader<'_>, depth: usize) -> Result<(), Invalid>
    ensures ok { OnOk result ((d : Data) × (read_value depth reader.old ≡ Some (d, reader.new))) }
    ensures shorter { OnOk result (length reader.new < length reader.old) }
    ensures refused { OnErr result (read_value depth reader.old ≡ None) }
    ensures left { IsTail reader.old reader.new }
{
    match next_head(reader, depth)? {
        Head::List => pass_items(reader, depth - 1),
        Head::Object => pass_members(reader, depth - 1),
        _ => Ok(()),
    }
}

/// Reads the items of a list to its end.
#[cycle(passing)]
pub fn pass_items(reader: &mut Reader<'_>, depth: usize) -> Result<(), Invalid>
    ensures ok { OnOk result ((ds : Items) × (read_items depth reader.old ≡ Some (ds, reader.new))) }
    ensures shorter { OnOk result (length reader.new < length reader.old) }
    ensures refused { OnErr result (read_items depth reader.old ≡ None) }
    ensures left { IsTail reader.old reader.new }
{
    'items: while !reader.take_end_array() {
        pass(reader, depth)?;
    }
    Ok(())
}

/// Reads the members of an object to its end.
#[cycle(passing)]
pub fn pass_members(reader: &mut Reader<'_>, depth: usize) -> Result<(), Invalid>
    ensures ok { OnOk result ((ms : Members) × (read_members depth reader.old ≡ Some (ms, reader.new))) }
    ensures shorter { OnOk result (length reader.new < length reader.old) }
    ensures refused { OnErr result (read_members depth reader.old ≡ None) }
    ensures left { IsTail reader.old reader.new }
{
    'members: while let Some(_) = reader.next_key()? {
        pass(reader, depth)?;
    }
    Ok(())
}

/// Whether a list ends here. Where it doesn't, its other items are read, and nothing of them is kept.
pub fn list_ends(reader: &mut Reader<'_>, depth: usize) -> Result<bool, Invalid>
    ensures ends { IfOk result (λ is. is ≡ true → read_items depth reader.old ≡ Some (no_items, reader.new)) }
    ensures more { IfOk result (λ is. is ≡ false → (d : Data) × (ds : Items) × (read_items depth reader.old ≡ Some (item d ds, reader.new))) }
    ensures shorter { OnOk result (length reader.new < length reader.old) }
    ensures refused { OnErr result (read_items depth reader.old ≡ None) }
    ensures left { IsTail reader.old reader.new }
{
    if reader.take_end_array() {
        return Ok(true);
    }
    pass_items(reader, depth)?;
    Ok(false)
}
