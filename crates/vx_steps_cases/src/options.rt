//! How a scan is run, as words.

use std::alloc::{AllocError, Global};
use vx_base::{DType, Nullability};
use vx_notation::{column_of, dtype_of};
use vx_plan::PlanRef;
use vx_steps::KeptValue;

/// In which order the reads are delivered that a scan waits for.
#[derive(Clone, Copy)]
pub(crate) enum Order {
    /// The first that was handed out and not delivered.
    Forward,
    /// The last that was.
    Reverse,
    /// Each when it is handed out.
    Early,
    /// By the numbers that are given; then none any more.
    Given,
}

/// A read that is to be delivered, and whether the next one is delivered at the same turn.
#[derive(Clone, Copy)]
pub(crate) struct Due {
    pub(crate) read: u64,
    pub(crate) joins_next: bool,
}

/// How a scan is run.
#[derive(Drop)]
pub(crate) struct Options {
    pub(crate) active: usize,
    pub(crate) offset: u64,
    pub(crate) order: Order,
    /// The reads that are to be delivered.
    pub(crate) queue: Vec<Due>,
    /// The numbers of the reads that are delivered after the end.
    pub(crate) late: Vec<u64>,
    /// Whether it is told how many bytes of segments the scan holds.
    pub(crate) tells_held: bool,
    /// Whether it is told which segments the scan holds.
    pub(crate) tells_segments: bool,
    /// Whether the first turn is taken before anything is handed in.
    pub(crate) started: bool,
    pub(crate) given: Vec<KeptValue>,
    pub(crate) leaves: Vec<KeptValue>,
}

/// Adds the numbers between blanks.
fn push_numbers(words: &str, numbers: &mut Vec<u64>) -> Result<(), AllocError> {
    for word in words.split_whitespace() {
        numbers.push(word.parse::<u64>().unwrap_or(0))?;
    }
    Ok(())
}

/// Adds the reads whose numbers stand between blanks. Behind a number that ends with a `+` the next is delivered at the same
/// turn.
fn push_due(words: &str, queue: &mut Vec<Due>) -> Result<(), AllocError> {
    for word in words.split_whitespace() {
        let digits = word.strip_suffix('+').unwrap_or(word);
        queue.push(Due {
            read: digits.parse::<u64>().unwrap_or(0),
            joins_next: word.ends_with("+"),
        })?;
    }
    Ok(())
}

/// Adds the column that is written so, as `3 i64: 7 8`, for the plan of that number; none where its values don't fit.
fn push_column(alloc: Global, words: &str, columns: &mut Vec<KeptValue>) -> Result<(), AllocError> {
    let (number, words) = words.split_once(' ').unwrap_or((words, ""));
    let (dtype, values) = words.split_once(':').unwrap_or((words, ""));
    let node = PlanRef(number.parse::<u32>().unwrap_or(0));
    let dtype = dtype_of(alloc, dtype).unwrap_or(DType::Bool(Nullability::NonNullable));
    let Ok(column) = column_of(alloc, dtype, values) else {
        return Ok(());
    };
    columns.push(KeptValue { node, column })?;
    Ok(())
}

/// Sets the order of delivery.
fn set_order(options: &mut Options, words: &str) -> Result<(), AllocError> {
    options.order = match words {
        "forward" => Order::Forward,
        "reverse" => Order::Reverse,
        "early" => Order::Early,
        _ => Order::Given,
    };
    match options.order {
        Order::Given => push_due(words, &mut options.queue),
        _ => Ok(()),
    }
}

/// Sets what a word asks.
fn set_option(alloc: Global, options: &mut Options, text: &str) -> Result<(), AllocError> {
    let (word, words) = text.split_once(' ').unwrap_or((text, ""));
    match word {
        "active" => options.active = words.parse::<usize>().unwrap_or(0),
        "offset" => options.offset = words.parse::<u64>().unwrap_or(0),
        "order" => return set_order(options, words),
        "late" => return push_numbers(words, &mut options.late),
        "held" => options.tells_held = true,
        "segments" => options.tells_segments = true,
        "started" => options.started = true,
        "given" => return push_column(alloc, words, &mut options.given),
        _ => return push_column(alloc, words, &mut options.leaves),
    }
    Ok(())
}

/// Sets what the words between ` | ` ask. `kept` is passed by: it is told with the leaves.
fn set_options(alloc: Global, options: &mut Options, text: &str) -> Result<(), AllocError> {
    for part in text.split(" | ") {
        if !part.is_empty() && part != "kept" {
            set_option(alloc, options, part)?;
        }
    }
    Ok(())
}

/// What the words between ` | ` ask, and these leaves. What has no room is left out.
pub(crate) fn options_of(alloc: Global, text: &str, leaves: Vec<KeptValue>) -> Options {
    let mut options = Options {
        active: 1,
        offset: 0,
        order: Order::Forward,
        queue: Vec::new(alloc),
        late: Vec::new(alloc),
        tells_held: false,
        tells_segments: false,
        started: false,
        given: Vec::new(alloc),
        leaves,
    };
    let _set = set_options(alloc, &mut options, text).ok();
    options
}
