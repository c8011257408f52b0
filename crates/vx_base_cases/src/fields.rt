//! The parts of a line: fields, numbers, bytes and dtypes, and short answers.

use std::alloc::{AllocError, Global};
use vx_base::{DType, Nullability};
use vx_notation::{dtype_of, numbers_of};

/// The two fields before and after the first `|`.
pub(crate) fn two(text: &str) -> (&str, &str) {
    let (one, two) = text.split_once('|').unwrap_or((text, ""));
    (one.trim(), two.trim())
}

/// The three fields between two `|`.
pub(crate) fn three(text: &str) -> (&str, &str, &str) {
    let (one, rest) = two(text);
    let (two, three) = two(rest);
    (one, two, three)
}

/// The number that is written so; any other word is 0.
pub(crate) fn number_of(word: &str) -> u64 {
    word.parse::<u64>().unwrap_or(0)
}

/// The numbers between blanks; any other words are none.
pub(crate) fn list_of(alloc: Global, words: &str) -> Vec<u64> {
    numbers_of(alloc, words, ' ').unwrap_or(Vec::new(alloc))
}

/// The dtype that is written so; any other word is that of truth values.
pub(crate) fn read_dtype(alloc: Global, word: &str) -> DType {
    dtype_of(alloc, word).unwrap_or(DType::Bool(Nullability::NonNullable))
}

/// The bytes of these pairs of hexadecimal digits; any other word is 0, and what has no room is left out.
pub(crate) fn bytes_of(alloc: Global, words: &str) -> Vec<u8> {
    let mut bytes = Vec::new(alloc);
    for word in words.split_whitespace() {
        let _pushed = bytes.push(u8::from_str_radix(word, 16).unwrap_or(0)).ok();
    }
    bytes
}

/// Appends the bytes as pairs of hexadecimal digits.
pub(crate) fn write_bytes(bytes: &[u8], out: &mut String) -> Result<(), AllocError> {
    if bytes.is_empty() {
        return out.push_str("no bytes");
    }
    let mut blank = "";
    for byte in bytes {
        write!(out, "{blank}{byte:02x}")?;
        blank = " ";
    }
    Ok(())
}

/// Appends `yes` or `no`, where two calls that must say the same do.
pub(crate) fn write_same(one: bool, other: bool, out: &mut String) -> Result<(), AllocError> {
    match (one, other) {
        (true, true) => out.push_str("yes"),
        (false, false) => out.push_str("no"),
        _ => out.push_str("another answer the other way round"),
    }
}

/// Appends the number, or `none`.
pub(crate) fn write_number(number: Option<u64>, out: &mut String) -> Result<(), AllocError> {
    match number {
        Some(number) => write!(out, "{number}"),
        None => out.push_str("none"),
    }
}
