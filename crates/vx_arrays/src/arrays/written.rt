//! What the rows of a leaf hold, as a segment has it behind the validity.

ghost use Rattle.std.specs.Prelude.{◌≡◌, ◌<◌, ◌+◌, ◌++◌, OnOk, OnErr};
ghost use Rattle.std.specs.List.{AllByRecursion};
ghost use Rattle.vx_types.specs.Leaf.{IsLeaf, slot_bytes};
ghost use Rattle.vx_types.specs.Slots.{IsShort};

use crate::arrays::{Array, Buffers};
use crate::numbers::Numbers;
use crate::texts::Texts;
use std::alloc::AllocError;

impl Array {
    /// Writes what the rows of a leaf hold, as a segment has it behind the validity. Where there is no room for all of
    /// it, nothing stays written.
    pub fn write_buffers(&self, bytes: &mut Vec<u8>) -> Result<(), AllocError>
        requires leaf { IsLeaf self.now.dtype }
        requires short { AllByRecursion IsShort self.now.values }
        ensures written { OnOk result (bytes.new.items ≡ bytes.old.items ++ slot_bytes self.now.dtype self.now.values) }
        ensures unchanged { OnErr result (bytes.new.items ≡ bytes.old.items) }
    {
        match &self.buffers {
            Buffers::Truths(truths) => truths.append_bytes(bytes),
            Buffers::Numbers(numbers) => numbers.write(bytes),
            Buffers::Texts(texts) => texts.write_all(bytes),
            _ => unreachable!(),
        }
    }

    /// How many bytes a segment of a leaf has at most, or the most that a `usize` holds.
    pub fn size(&self) -> usize {
        let bits = self.len().div_ceil(8);
        let buffers = match &self.buffers {
            Buffers::Numbers(numbers) => numbers
                .len()
                .saturating_mul(numbers.kind().width() as usize),
            Buffers::Texts(texts) => texts.len().saturating_mul(4).saturating_add(texts.size()),
            _ => bits,
        };
        buffers.saturating_add(bits)
    }
}
