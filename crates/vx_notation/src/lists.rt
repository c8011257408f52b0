//! Fields of a line, lists of numbers, and masks as words.

use anyhow::{Context, Error, Result};
use std::alloc::Global;
use vx_base::Mask;

/// The two fields before and after a `|`.
pub fn two(text: &str) -> Result<(&str, &str)> {
    let (one, two) = text.split_once('|').context("a field after `|`")?;
    Ok((one.trim(), two.trim()))
}

/// The number that is written so.
pub fn number_of(word: &str) -> Result<u64> {
    word.parse::<u64>().context("a number")
}

/// The numbers between separators; `-`, and nothing, is none.
pub fn numbers_of(alloc: Global, text: &str, separator: char) -> Result<Vec<u64>> {
    let mut numbers = Vec::new(alloc);
    for word in text.split(separator) {
        if word != "-" && !word.is_empty() {
            let number = number_of(word)?;
            numbers.push(number)?;
        }
    }
    Ok(numbers)
}

/// The bit of a letter.
fn bit_of(letter: char) -> Result<bool> {
    match letter {
        '1' => Ok(true),
        '0' => Ok(false),
        _ => Err(Error::msg("bits as `101`, or `-` for none")),
    }
}

/// The truth values of a mask that is written so, as `101`; `-` is none.
pub fn bits_of(alloc: Global, word: &str) -> Result<Vec<bool>> {
    let mut bits = Vec::new(alloc);
    if word == "-" {
        return Ok(bits);
    }
    for letter in word.chars() {
        let bit = bit_of(letter)?;
        bits.push(bit)?;
    }
    Ok(bits)
}

/// The truth values of a mask as `101`; none as `-`.
pub fn bits_text(alloc: Global, mask: &Mask) -> Result<String> {
    let mut text = String::new(alloc);
    if mask.len() == 0 {
        text.push('-')?;
    }
    for row in 0..mask.len() {
        text.push(if mask.value(row) { '1' } else { '0' })?;
    }
    Ok(text)
}
