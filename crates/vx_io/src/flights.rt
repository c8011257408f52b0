//! A fetch in flight.

use crate::requests::{IoOwnerId, IoRequestId};
use std::marker::Model;
use vx_base::SegmentLocation;

/// A fetch in flight: whose it is, its number, what it reads, and the ticket of its read.
#[derive(Clone, Copy)]
pub(crate) struct FetchInFlight {
    pub(crate) owner: IoOwnerId,
    pub(crate) request: IoRequestId,
    pub(crate) at: SegmentLocation,
    pub(crate) ticket: u64,
}

impl Model for FetchInFlight {
    ghost use Rattle.vx_io.specs.Session.{Flight};

    ghost Value = { Flight };

    ghost view = { λ fetch.
        record { owner = fetch.owner; request = fetch.request; at = fetch.at; ticket = fetch.ticket } };

    ghost inverse = { λ flight.
        record { owner = flight.owner; request = flight.request; at = flight.at; ticket = flight.ticket } };
}
