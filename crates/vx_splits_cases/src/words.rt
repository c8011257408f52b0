//! Words of a call and of its answer: numbers with steps, ranges and selections.

use std::alloc::{AllocError, Global};
use std::ops::Range;
use vx_splits::{DEFAULT_MAX_SPLIT_ROWS, Selection, StrictSorted};

/// A number, or `default` for the greatest span of a split; any other word is 0.
pub(crate) fn number_of(word: &str) -> u64 {
    match word {
        "default" => DEFAULT_MAX_SPLIT_ROWS,
        _ => word.parse::<u64>().unwrap_or(0),
    }
}

/// Adds a number, or those of `5+2*3`: three of them, from 5 on in steps of 2.
fn push_numbers(numbers: &mut Vec<u64>, word: &str) -> Result<(), AllocError> {
    let (first, steps) = word.split_once('+').unwrap_or((word, "0*1"));
    let (step, count) = steps.split_once('*').unwrap_or((steps, "1"));
    let (first, step) = (number_of(first), number_of(step));
    for place in 0..number_of(count) {
        numbers.push(first.saturating_add(step.saturating_mul(place)))?;
    }
    Ok(())
}

/// The numbers between commas; `-` is none.
pub(crate) fn numbers_of(alloc: Global, text: &str) -> Result<Vec<u64>, AllocError> {
    let mut numbers = Vec::new(alloc);
    for word in text.split(',') {
        if word != "-" {
            push_numbers(&mut numbers, word)?;
        }
    }
    Ok(numbers)
}

/// The range of two numbers, as `5..20`.
pub(crate) fn range_of(word: &str) -> Range<u64> {
    let (start, end) = word.split_once("..").unwrap_or((word, ""));
    number_of(start)..number_of(end)
}

/// A selection, as `all`, `only:0,7` or `but:5,6`, of rows that ascend; any other word is the default.
pub(crate) fn selection_of(alloc: Global, word: &str) -> Result<Selection, AllocError> {
    let Some((kind, rows)) = word.split_once(':') else {
        return Ok(match word {
            "all" => Selection::All,
            _ => Selection::default(),
        });
    };
    match StrictSorted::try_new(numbers_of(alloc, rows)?) {
        Ok(rows) if kind == "only" => Ok(Selection::IncludeByIndex(rows)),
        Ok(rows) => Ok(Selection::ExcludeByIndex(rows)),
        Err(_) => Ok(Selection::default()),
    }
}

/// Appends the numbers between commas; none is `-`.
pub(crate) fn write_numbers(numbers: &[u64], out: &mut String) -> Result<(), AllocError> {
    if numbers.is_empty() {
        return out.push('-');
    }
    let mut comma = "";
    for number in numbers {
        write!(out, "{comma}{number}")?;
        comma = ",";
    }
    Ok(())
}

/// Appends the ranges between blanks; none is `-`.
pub(crate) fn write_ranges(ranges: &[Range<u64>], out: &mut String) -> Result<(), AllocError> {
    if ranges.is_empty() {
        return out.push('-');
    }
    let mut blank = "";
    for range in ranges {
        let (start, end) = (range.start, range.end);
        write!(out, "{blank}{start}..{end}")?;
        blank = " ";
    }
    Ok(())
}
