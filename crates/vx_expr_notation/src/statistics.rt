//! Statistics as words.

use std::alloc::{AllocError, Global};
use vx_expr::{Statistic, Statistics};

/// The statistics `min`, `max` and `null_count` between commas; any other word, as `-`, is none.
pub fn statistics_of(alloc: Global, names: &str) -> Result<Statistics, AllocError> {
    let mut statistics = Vec::new(alloc);
    for name in names.split(',') {
        let statistic = match name {
            "min" => Statistic::Min,
            "max" => Statistic::Max,
            "null_count" => Statistic::NullCount,
            _ => continue,
        };
        statistics.push(statistic)?;
    }
    Ok(Statistics::from_vec(statistics))
}
