//! Records of recordings: those of sessions, with numbers of 64 bits.

use migration_types::Contents;

/// A page that does not begin as zeros, with the values of its cells, cell 0 first.
#[derive(Drop)]
pub struct WideInit {
    pub page: u64,
    pub cells: Contents,
}

/// A record of the guest.
#[derive(Clone, Copy)]
pub enum WideGuest {
    Read {
        vcpu: u8,
        page: u64,
        cell: u16,
        value: u64,
    },
    Write {
        vcpu: u8,
        page: u64,
        cell: u16,
        value: u64,
    },
    Release {
        vcpu: u8,
        page: u64,
    },
    Miss {
        vcpu: u8,
        page: u64,
    },
    Halt,
    Resume {
        ready: u64,
    },
    See {
        placement: u64,
    },
}

/// A record of the source.
#[derive(Drop)]
pub enum WideSource {
    Halted { halt: u64 },
    State,
    Send { page: u64, contents: Contents },
    Again { sending: u64 },
    Ask { up: u64 },
    Done,
    Back,
}

/// A record of the link.
#[derive(Clone, Copy)]
pub enum WideLink {
    Down { sending: u64 },
    Up { asking: u64 },
}

/// A record of the lane.
#[derive(Clone, Copy)]
pub enum WideLane {
    Down { sending: u64 },
}

/// A record of the pager.
#[derive(Drop)]
pub enum WidePager {
    Got {
        down: u64,
    },
    Pull {
        down: u64,
    },
    Ready,
    Fault {
        miss: u64,
    },
    Join {
        want: u64,
    },
    Want {
        page: u64,
    },
    Place {
        page: u64,
        got: u64,
        contents: Contents,
    },
    Zero {
        page: u64,
    },
    Skip {
        got: u64,
    },
    All,
}

/// A record of any log.
#[derive(Drop)]
pub enum Wide {
    Guest(WideGuest),
    Source(WideSource),
    Link(WideLink),
    Lane(WideLane),
    Pager(WidePager),
}
