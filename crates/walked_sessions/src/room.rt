//! How much room is wanted for a recording that is held.

ghost use Rattle.std.specs.Prelude.{◌≤◌};

/// How many records of each log a recording is likely to have. Memory for so many is taken at once; it may have fewer or more.
#[derive(Clone, Copy)]
pub struct Room {
    pub guest: u64,
    pub source: u64,
    pub link: u64,
    pub lane: u64,
    pub pager: u64,
}

/// Returns how many there is room for, where there are never more than `most`.
pub(crate) fn room_within(wanted: u64, most: u32) -> usize
    ensures few { result ≤ most }
    ensures wanted { result ≤ wanted }
{
    wanted.min(u64::from(most)) as usize
}
