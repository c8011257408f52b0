//! Dtypes of any depth as words.

use std::alloc::Global;
use vx_base::{DType, Element, Field, Fields, Nullability};
use vx_notation::{dtype_of, text_of};

/// The fields of the last parts, by the names between commas.
fn fields_of(alloc: Global, names: &str, parts: &mut Vec<DType>) -> Option<Fields> {
    let mut fields = Vec::new(alloc);
    if names.is_empty() {
        return Some(Fields::from_vec(fields));
    }
    for name in names.rsplit(',') {
        let name = text_of(alloc, name).ok()?;
        let dtype = parts.pop()?;
        fields.push(Field { name, dtype }).ok()?;
    }
    fields.reverse();
    Some(Fields::from_vec(fields))
}

/// The dtype that a word makes of the last parts: `list`, or a struct by its names, as `(a,b)`, with `?` at the
/// end where it takes nulls. Any other word is a dtype by itself.
fn made_of(alloc: Global, word: &str, parts: &mut Vec<DType>) -> Option<DType> {
    let (name, nullability) = match word.strip_suffix('?') {
        Some(name) => (name, Nullability::Nullable),
        None => (word, Nullability::NonNullable),
    };
    if name == "list" {
        let element = Element::of(alloc, parts.pop()?).ok()?;
        return Some(DType::List(element, nullability));
    }
    match name.split_once('(') {
        Some((_, names)) => {
            let names = names.strip_suffix(')').unwrap_or(names);
            Some(DType::Struct(fields_of(alloc, names, parts)?, nullability))
        }
        None => dtype_of(alloc, word).ok(),
    }
}

/// Puts what a word makes in the place of its parts. With a count it is meant as often: `list^3` is `list list list`.
fn push_made(alloc: Global, word: &str, parts: &mut Vec<DType>) -> Option<()> {
    let (word, times) = word.split_once('^').unwrap_or((word, "1"));
    for _time in 0..times.parse::<u64>().unwrap_or(0) {
        let made = made_of(alloc, word, parts)?;
        parts.push(made).ok()?;
    }
    Some(())
}

/// The dtype that the words spell: the printed form of one that `vx_notation` reads, or words with each part before the
/// whole, as `i64 utf8? (a,n)` or `i64 list^3`.
pub fn dtype_in(alloc: Global, words: &str) -> Option<DType> {
    if let Ok(dtype) = dtype_of(alloc, words) {
        return Some(dtype);
    }
    let mut parts = Vec::new(alloc);
    for word in words.split_whitespace() {
        push_made(alloc, word, &mut parts)?;
    }
    if parts.len() > 1 {
        return None;
    }
    parts.pop()
}
