//! What a table of zones may say of each zone.

ghost use Rattle.std.specs.Prelude.{◌≡◌};

use std::marker::Model;

/// A statistic of a zone's rows.
#[derive(Clone, Copy, Debug, PartialEq, Eq)]
pub enum Statistic {
    /// The least value.
    Min,
    /// The greatest value.
    Max,
    /// How many rows are null.
    NullCount,
}

/// The statistics of a table of zones, in order, seen as their list.
#[derive(Debug, Drop)]
pub struct Statistics {
    statistics: Vec<Statistic>,
}

impl Model for Statistics {
    ghost use Rattle.std.specs.Prelude.{List};
    ghost use Rattle.vx_expr.specs.declared.statistics.Statistic.{Statistic};
    ghost use Rattle.vx_expr.specs.StatisticCodes.{coded_statistics};

    ghost Value = { List Statistic };

    ghost coded = { coded_statistics };

    ghost view = { λ a. a.statistics.items };
}

impl Statistics {
    /// Statistics in the order of the list. It takes no memory.
    pub fn from_vec(statistics: Vec<Statistic>) -> Statistics
        ensures { result ≡ statistics.items }
    {
        Statistics { statistics }
    }

    /// The statistics, in order. It takes no memory.
    pub fn items(&self) -> &[Statistic]
        ensures { result.now ≡ self.now }
    {
        self.statistics.as_slice()
    }
}
