//! Which fields of a struct are read.

use vx_base::Text;

/// Which fields of a struct are read. A reader of one column doesn't look at it.
#[derive(Drop)]
pub enum FieldMask {
    /// Each field.
    All,
    /// Those below this field.
    Prefix(Vec<Text>),
    /// This field alone.
    Exact(Vec<Text>),
}
