//! Texts in one buffer, cut at their ends.

ghost use Rattle.std.specs.Prelude.{◌≡◌, ◌≤◌, ◌<◌, ◌^◌, ◌+◌, ◌-◌, ◌↔◌, ◌++◌, ◌∷◌, [], length, map, slice_get, slice_index_or, slice_range, option_map, Some, IsTrue, IsNone, IfOk, IfSome, OnOk, OnErr};
ghost use Rattle.std.specs.List.{AllByRecursion, flat_map};
ghost use Rattle.std.specs.Str.{IsUtf8};
ghost use Rattle.std.specs.Int.{w32, to_le_bytes};
ghost use Rattle.vx_types.specs.Limits.{text_limit};
ghost use Rattle.vx_masks.specs.Masks.{chosen};
ghost use Rattle.vx_masks.specs.Rows.{taken, Holds, NullsHold};
ghost use Rattle.vx_arrays.specs.Fronts.{front_number};
ghost use Rattle.vx_arrays.specs.Texts.{cut, moved, start_in, AreEnds, AreTexts};

use crate::first_bytes::front_in;
use crate::rows::leaves_none;
use std::alloc::{AllocError, Global};
use std::marker::Model;
use std::ops::Range;
use vx_masks::Mask;

/// Texts, in order, seen as a list of their bytes. They lie one behind the other in one buffer.
#[derive(Drop)]
pub struct Texts {
    bytes: Vec<u8>,
    ends: Vec<usize>,
}

impl Model for Texts {
    ghost use Rattle.std.specs.Prelude.{List, ℕ};
    ghost use Rattle.vx_arrays.specs.Texts.{cut, AreTexts};

    ghost Value = { List (List ℕ) };

    ghost view = { λ a. cut a.bytes.items 0 a.ends.items };

    ghost invariant = { λ a. AreTexts a.bytes.items a.ends.items };
}

/// Puts a text behind the others.
#[tactic(auto, using(crate::proofs::CutTexts::cut_push, crate::proofs::CutTexts::texts_push))]
fn push_text(bytes: &mut Vec<u8>, ends: &mut Vec<usize>, text: &str) -> Result<(), AllocError>
    requires { AreTexts bytes.old.items ends.old.items }
    ensures texts { OnOk result (AreTexts bytes.new.items ends.new.items) }
    ensures pushed { OnOk result (cut bytes.new.items 0 ends.new.items ≡ cut bytes.old.items 0 ends.old.items ++ text.now ∷ []) }
{
    bytes.extend_from_slice(text.as_bytes())?;
    ends.push(bytes.len())?;
    Ok(())
}

/// Puts the bytes between two places of another buffer behind these, and tells where they begin.
fn push_bytes(
    bytes: &mut Vec<u8>,
    others: &[u8],
    from: usize,
    to: usize,
) -> Result<usize, AllocError>
    requires forwards { from ≤ to }
    requires inside { to ≤ length others.now }
    ensures pushed { OnOk result (bytes.new.items ≡ bytes.old.items ++ slice_range others.now from to) }
    ensures begin { IfOk result (λ base. base ≡ length bytes.old.items) }
    ensures fits { IfOk result (λ base. base + (to - from) < 2 ^ 64) }
{
    bytes.extend_from_slice(&others[from..to])?;
    Ok(bytes.len() - (to - from))
}

/// Puts ends behind others, for texts whose bytes were moved from one place of a buffer to another.
fn push_ends(
    ends: &mut Vec<usize>,
    more: &[usize],
    from: usize,
    to: usize,
    base: usize,
) -> Result<(), AllocError>
    requires lie { AreEnds from to more.now }
    requires fits { base + (to - from) < 2 ^ 64 }
    ensures { OnOk result (ends.new.items ≡ ends.old.items ++ map (moved base from) more.now) }
{
    ends.reserve(more.len())?;
    for end in more {
        ends.push(base + (*end - from))?;
    }
    Ok(())
}

/// Where the text of a row begins: where the one before it ends.
pub(crate) fn start_of(ends: &[usize], row: usize) -> usize
    requires { row ≤ length ends.now }
    ensures { result ≡ start_in ends.now row }
{
    if row == 0 { 0 } else { ends[row - 1] }
}

/// The text between two places of the buffer.
fn text_of(bytes: &[u8], from: usize, to: usize) -> &str
    requires forwards { from ≤ to }
    requires inside { to ≤ length bytes.now }
    requires utf8 { IsUtf8 (slice_range bytes.now from to) }
    ensures { result.now ≡ slice_range bytes.now from to }
{
    unsafe { std::str::from_utf8_unchecked(&bytes[from..to]) }
}

/// The text of a row.
fn text_in<'a>(bytes: &'a [u8], ends: &[usize], row: usize) -> &'a str
    requires texts { AreTexts bytes.now ends.now }
    requires row { row < length ends.now }
    ensures { slice_get (cut bytes.now 0 ends.now) row ≡ Some result.now }
{
    text_of(bytes, start_of(ends, row), ends[row])
}

/// Puts the texts of a range of rows behind the others: their bytes all at once, and an end for each.
fn push_texts(
    bytes: &mut Vec<u8>,
    ends: &mut Vec<usize>,
    others: &[u8],
    more: &[usize],
    rows: Range<usize>,
) -> Result<(), AllocError>
    requires texts { AreTexts bytes.old.items ends.old.items }
    requires others { AreTexts others.now more.now }
    requires forwards { rows.start ≤ rows.end }
    requires inside { rows.end ≤ length more.now }
    ensures texts { OnOk result (AreTexts bytes.new.items ends.new.items) }
    ensures pushed { OnOk result (cut bytes.new.items 0 ends.new.items ≡ cut bytes.old.items 0 ends.old.items ++ slice_range (cut others.now 0 more.now) rows.start rows.end) }
{
    let from = start_of(more, rows.start);
    let to = start_of(more, rows.end);
    let base = push_bytes(bytes, others, from, to)?;
    push_ends(ends, &more[rows.start..rows.end], from, to, base)
}

/// Puts a text behind the others where told.
fn push_chosen(
    bytes: &mut Vec<u8>,
    ends: &mut Vec<usize>,
    bit: bool,
    text: &str,
) -> Result<(), AllocError>
    requires { AreTexts bytes.old.items ends.old.items }
    ensures texts { OnOk result (AreTexts bytes.new.items ends.new.items) }
    ensures pushed { OnOk result (cut bytes.new.items 0 ends.new.items ≡ cut bytes.old.items 0 ends.old.items ++ chosen (bit ∷ []) (text.now ∷ [])) }
{
    if bit {
        push_text(bytes, ends, text)
    } else {
        Ok(())
    }
}

/// Whether the texts that end at these places of the buffer are well-formed.
fn are_utf8(bytes: &[u8], ends: &[usize]) -> bool
    requires { AreEnds 0 (length bytes.now) ends.now }
    ensures { IsTrue result ↔ AllByRecursion IsUtf8 (cut bytes.now 0 ends.now) }
{
    let text = match std::str::from_utf8(bytes) {
        Ok(text) => text,
        Err(_) => return false,
    };
    for end in ends {
        if !text.is_char_boundary(*end) {
            return false;
        }
    }
    true
}

/// Whether a row that is not valid holds the empty text.
fn holds_none(valid: bool, text: &str) -> bool
    ensures { IsTrue result ↔ Holds [] valid text.now }
{
    valid || text.is_empty()
}

impl Texts {
    /// The texts that end at these places of the buffer. None where one of them is not well-formed.
    pub fn of(alloc: Global, bytes: &[u8], ends: Vec<usize>) -> Result<Option<Texts>, AllocError>
        requires { AreEnds 0 (length bytes.now) ends.items }
        ensures found { IfOk result (λ found. IfSome found (λ texts. texts ≡ cut bytes.now 0 ends.items)) }
        ensures none { IfOk result (λ found. IsNone found → ¬ (AllByRecursion IsUtf8 (cut bytes.now 0 ends.items))) }
    {
        if !are_utf8(bytes, ends.as_slice()) {
            return Ok(None);
        }
        let bytes = Vec::from_slice(alloc, bytes)?;
        Ok(Some(Texts { bytes, ends }))
    }

    /// Whether each row that is not valid holds the empty text. It takes no memory.
    pub fn hold_none(&self, valid: &Mask) -> bool
        requires { length valid.now ≡ length self.now }
        ensures { IsTrue result ↔ NullsHold [] valid.now self.now }
    {
        if leaves_none(valid) {
            return true;
        }
        for row in 0..self.len() {
            if !holds_none(valid.value(row as u64), self.text(row)) {
                return false;
            }
        }
        true
    }

    /// No texts.
    pub fn new(alloc: Global) -> Texts
        ensures { result ≡ [] }
    {
        Texts {
            bytes: Vec::new(alloc),
            ends: Vec::new(alloc),
        }
    }

    /// No texts, with room for the ends of so many.
    pub fn with_room(alloc: Global, rows: usize) -> Result<Texts, AllocError>
        ensures { IfOk result (λ texts. texts ≡ []) }
    {
        let bytes = Vec::new(alloc);
        let ends = Vec::with_capacity(alloc, rows)?;
        Ok(Texts { bytes, ends })
    }

    /// These texts and one behind them.
    pub fn pushed(self, text: &str) -> Result<Texts, AllocError>
        ensures { IfOk result (λ texts. texts ≡ self ++ text.now ∷ []) }
    {
        let Texts {
            mut bytes,
            mut ends,
        } = self;
        push_text(&mut bytes, &mut ends, text)?;
        Ok(Texts { bytes, ends })
    }

    /// How many texts there are.
    #[tactic(auto, using(crate::proofs::CutTexts::length_cut))]
    pub fn len(&self) -> usize
        ensures count { result ≡ length self.now }
        ensures utf8 { AllByRecursion IsUtf8 self.now }
    {
        self.ends.len()
    }

    /// The text of a row, counted from 0. It takes no memory.
    pub fn text(&self, row: usize) -> &str
        requires { row < length self.now }
        ensures { slice_get self.now row ≡ Some result.now }
    {
        text_in(self.bytes.as_slice(), self.ends.as_slice(), row)
    }

    /// The front of the text of a row, counted from 0: its first 16 bytes as a number, the first of them the highest,
    /// with zeros behind fewer. It takes no memory.
    #[inline(always)]
    pub fn front(&self, row: usize) -> u128
        requires { row < length self.now }
        ensures { option_map front_number (slice_get self.now row) ≡ Some result }
    {
        front_in(self.bytes.as_slice(), self.ends.as_slice(), row)
    }

    /// The text of a row, and the empty text past the last row.
    fn text_or_none(&self, row: usize) -> &str
        ensures { result.now ≡ slice_index_or self.now row [] }
    {
        if row < self.len() { self.text(row) } else { "" }
    }

    /// The texts that the mask chooses.
    pub fn filter(&self, alloc: Global, mask: &Mask) -> Result<Texts, AllocError>
        requires { length mask.now ≡ length self.now }
        ensures { IfOk result (λ texts. texts ≡ chosen mask.now self.now) }
    {
        let mut bytes = Vec::new(alloc);
        let mut ends = Vec::with_capacity(alloc, mask.true_count() as usize)?;
        for row in 0..self.len() {
            push_chosen(
                &mut bytes,
                &mut ends,
                mask.value(row as u64),
                self.text(row),
            )?;
        }
        Ok(Texts { bytes, ends })
    }

    /// The texts at these places, and the empty text at a place past the last row.
    pub fn take(&self, alloc: Global, places: &[usize]) -> Result<Texts, AllocError>
        ensures { IfOk result (λ texts. texts ≡ taken [] self.now places.now) }
    {
        let mut bytes = Vec::new(alloc);
        let mut ends = Vec::with_capacity(alloc, places.len())?;
        for place in places {
            push_text(&mut bytes, &mut ends, self.text_or_none(*place))?;
        }
        Ok(Texts { bytes, ends })
    }

    /// The texts of a range of rows.
    #[tactic(auto, using(crate::proofs::CutTexts::length_cut))]
    pub fn slice(&self, alloc: Global, rows: Range<usize>) -> Result<Texts, AllocError>
        requires forwards { rows.start ≤ rows.end }
        requires inside { rows.end ≤ length self.now }
        ensures { IfOk result (λ texts. texts ≡ slice_range self.now rows.start rows.end) }
    {
        let mut bytes = Vec::new(alloc);
        let mut ends = Vec::new(alloc);
        push_texts(&mut bytes, &mut ends, &self.bytes, &self.ends, rows)?;
        Ok(Texts { bytes, ends })
    }

    /// These texts and others behind them.
    pub fn append(self, other: &Texts) -> Result<Texts, AllocError>
        ensures { IfOk result (λ texts. texts ≡ self ++ other.now) }
    {
        let Texts {
            mut bytes,
            mut ends,
        } = self;
        let rows = 0..other.len();
        push_texts(&mut bytes, &mut ends, &other.bytes, &other.ends, rows)?;
        Ok(Texts { bytes, ends })
    }

    /// Whether the texts are the same, in the same order. It takes no memory.
    pub fn same(&self, other: &Texts) -> bool
        ensures { IsTrue result ↔ (self.now ≡ other.now) }
    {
        let rows = self.len();
        if rows != other.len() {
            return false;
        }
        for row in 0..rows {
            if self.text(row) != other.text(row) {
                return false;
            }
        }
        true
    }

    /// Writes the lengths of all texts, in four bytes each. Where one finds no room, none stays written.
    fn write_lengths(&self, bytes: &mut Vec<u8>) -> Result<(), AllocError>
        requires { AllByRecursion (λ text. length text < text_limit) self.now }
        ensures written { OnOk result (bytes.new.items ≡ bytes.old.items ++ flat_map (λ text. to_le_bytes w32 (length text)) self.now) }
        ensures unchanged { OnErr result (bytes.new.items ≡ bytes.old.items) }
    {
        let before = bytes.len();
        for row in 0..self.len() {
            let len = self.text(row).len();
            if let Err(error) = bytes.extend_from_slice(&(len as u32).to_le_bytes()) {
                bytes.truncate(before);
                return Err(error);
            }
        }
        Ok(())
    }

    /// Writes all texts, one behind the other, or none of them where there is no room.
    fn write_bytes(&self, bytes: &mut Vec<u8>) -> Result<(), AllocError>
        ensures written { OnOk result (bytes.new.items ≡ bytes.old.items ++ flat_map (λ text. text) self.now) }
        ensures unchanged { OnErr result (bytes.new.items ≡ bytes.old.items) }
    {
        bytes.extend_from_slice(self.bytes.as_slice())?;
        Ok(())
    }

    /// Writes the lengths of all texts, in four bytes each, and behind them all texts. Where there is no room for all
    /// of it, nothing stays written.
    pub(crate) fn write_all(&self, bytes: &mut Vec<u8>) -> Result<(), AllocError>
        requires { AllByRecursion (λ text. length text < text_limit) self.now }
        ensures written { OnOk result (bytes.new.items ≡ bytes.old.items ++ (flat_map (λ text. to_le_bytes w32 (length text)) self.now ++ flat_map (λ text. text) self.now)) }
        ensures unchanged { OnErr result (bytes.new.items ≡ bytes.old.items) }
    {
        let before = bytes.len();
        self.write_lengths(bytes)?;
        if let Err(error) = self.write_bytes(bytes) {
            bytes.truncate(before);
            return Err(error);
        }
        Ok(())
    }

    /// How many bytes all texts have together. It takes no memory.
    pub fn size(&self) -> usize {
        self.bytes.len()
    }
}
