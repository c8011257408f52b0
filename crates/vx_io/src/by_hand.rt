//! Small sessions by hand, on which the definitions of the machine are checked.

ghost use Rattle.std.specs.Prelude.{◌≡◌, ◌∷◌, [], Some, None, true, false, map};
ghost use Rattle.vx_io.specs.declared.requests.IoIntent.TheVariants.{Announce, Prefetch, Fetch};
ghost use Rattle.vx_io.specs.ByHand.{four_bytes, one_range, asked_by, waiting_of};
ghost use Rattle.vx_io.specs.Ranges.{range_at, last_with};
ghost use Rattle.vx_io.specs.Session.{ended, empty_table, asks, fetched_read, waiting_after, session_after, starts_of};

/// What a request takes and leaves at its segment, what a run of requests starts and leaves in flight, and which of
/// equal ranges stays.
pub fn sessions_by_hand()
    ensures fetch_takes_prefetched { fetched_read (Some 6) (4 ∷ 5 ∷ []) 9 ≡ 6 }
    ensures fetch_leaves_announced { waiting_after Fetch (waiting_of (4 ∷ 5 ∷ []) (Some 6)) 9 ≡ waiting_of (4 ∷ 5 ∷ []) None }
    ensures fetch_takes_oldest { fetched_read None (4 ∷ 5 ∷ []) 9 ≡ 4 }
    ensures prefetch_does_nothing { waiting_after Prefetch (waiting_of (4 ∷ 5 ∷ []) (Some 6)) 9
        ≡ waiting_of (4 ∷ 5 ∷ []) (Some 6) }
    ensures prefetch_takes_oldest { waiting_after Prefetch (waiting_of (4 ∷ 5 ∷ []) None) 9 ≡ waiting_of (5 ∷ []) (Some 4) }
    ensures announcement_asks { asks Announce (waiting_of (4 ∷ []) (Some 6)) ≡ true }
    ensures prefetch_asks_once { starts_of one_range empty_table (asked_by Prefetch 0 5 ∷ asked_by Fetch 1 6 ∷ asked_by Fetch 2 7 ∷ [])
        ≡ (5, four_bytes 8) ∷ (7, four_bytes 8) ∷ [] }
    ensures fetches_in_line { map (λ fetch. fetch.ticket) (session_after one_range empty_table
        (asked_by Fetch 0 5 ∷ asked_by Fetch 1 6 ∷ asked_by Fetch 2 7 ∷ ended 1 ∷ [])).fetches ≡ 5 ∷ 7 ∷ [] }
    ensures last_of_equals { last_with (four_bytes 1 ∷ four_bytes 8 ∷ []) 0 (range_at 0 4) ≡ Some 1 }
    ensures none_of_unlike { last_with (four_bytes 1 ∷ []) 0 (range_at 0 3) ≡ None }
{}
