//! The parts of a line: options as `waits=2,0`, numbers, words and bytes. What can't be read is 0, and what has no room
//! is left out.

use std::alloc::{AllocError, Global};

/// The text of the option of that name, where it is set.
pub(crate) fn option<'a>(options: &'a str, name: &str) -> Option<&'a str> {
    for word in options.split_whitespace() {
        match word.split_once('=') {
            Some((first, text)) if first == name => return Some(text),
            _ => {}
        }
    }
    None
}

/// The number of an option.
pub(crate) fn number(options: &str, name: &str, otherwise: usize) -> usize {
    match option(options, name) {
        Some(text) => text.parse::<usize>().unwrap_or(otherwise),
        None => otherwise,
    }
}

/// The numbers of an option, between commas; where it isn't set, none.
pub(crate) fn list(alloc: Global, options: &str, name: &str) -> Vec<u64> {
    let mut numbers = Vec::new(alloc);
    for word in option(options, name).unwrap_or("").split(',') {
        if !word.is_empty() {
            let _pushed = numbers.push(word.parse::<u64>().unwrap_or(0)).ok();
        }
    }
    numbers
}

/// The words between commas; an empty text is none.
pub(crate) fn words_of(alloc: Global, text: &str) -> Vec<String> {
    let mut words = Vec::new(alloc);
    for word in text.split(',') {
        if !text.is_empty() {
            let word = String::from_str(alloc, word).unwrap_or(String::new(alloc));
            let _pushed = words.push(word).ok();
        }
    }
    words
}

/// Adds the bytes of a text, in which `%` and two hexadecimal digits are one byte.
fn push_bytes(text: &str, bytes: &mut Vec<u8>) -> Result<(), AllocError> {
    let (front, coded) = text.split_once('%').unwrap_or((text, ""));
    bytes.extend_from_slice(front.as_bytes())?;
    for part in coded.split('%') {
        let (digits, more) = part.split_at_checked(2).unwrap_or((part, ""));
        if !digits.is_empty() {
            bytes.push(u8::from_str_radix(digits, 16).unwrap_or(0))?;
            bytes.extend_from_slice(more.as_bytes())?;
        }
    }
    Ok(())
}

/// The bytes of a text, in which `%` and two hexadecimal digits are one byte.
pub(crate) fn bytes_of(alloc: Global, text: &str) -> Vec<u8> {
    let mut bytes = Vec::new(alloc);
    let _pushed = push_bytes(text, &mut bytes).ok();
    bytes
}
