//! The packets that have arrived, oldest first.

ghost use Rattle.std.specs.Prelude.{◌≡◌, slice_get, drop};
ghost use Rattle.std.specs.Option.{option_map};
ghost use Rattle.link_book.specs.Links.{arrival};

use crate::Arrival;
use page_stream::Packet;
use std::collections::VecDeque;

/// Returns the oldest arrival.
pub fn oldest(arrivals: &VecDeque<Arrival>) -> Option<(u32, &Packet)>
    ensures { option_map (λ a. arrival a.0 a.1.now) result ≡ slice_get arrivals.now.items 0 }
{
    let Some(arrival) = arrivals.front() else {
        return None;
    };
    Some((arrival.number, &arrival.packet))
}

/// Removes and returns the oldest arrival.
pub fn take(arrivals: &mut VecDeque<Arrival>) -> Option<(u32, Packet)>
    ensures oldest { option_map (λ a. arrival a.0 a.1) result ≡ slice_get arrivals.old.items 0 }
    ensures rest { arrivals.new.items ≡ drop 1 arrivals.old.items }
{
    let arrival = arrivals.pop_front()?;
    Some((arrival.number, arrival.packet))
}
