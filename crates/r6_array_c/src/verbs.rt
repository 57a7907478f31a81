//! The calls that a mail can hold, of arrays, of shards and of registers.

pub(crate) const SUBMIT: u32 = 1;

pub(crate) const COMMAND: u32 = 2;

pub(crate) const DELIVER: u32 = 3;

pub(crate) const REPLY: u32 = 4;

pub(crate) const CHANGE: u32 = 5;

pub(crate) const AGREE: u32 = 6;

pub(crate) const FAIL: u32 = 7;

pub(crate) const ATTACH: u32 = 8;

pub(crate) const TURN: u32 = 9;

pub(crate) const SLOT: u32 = 10;

pub(crate) const COUNT: u32 = 11;

pub(crate) const ROOM: u32 = 12;

pub(crate) const AT_WORK: u32 = 13;

pub(crate) const ROWS: u32 = 14;

pub(crate) const NEXT_ROW: u32 = 15;

pub(crate) const BLOCKS: u32 = 16;

pub(crate) const CLOSE: u32 = 17;

pub(crate) const OPEN: u32 = 18;

pub(crate) const LOOK: u32 = 19;

pub(crate) const REPLACE: u32 = 20;

pub(crate) const GATHER: u32 = 21;

pub(crate) const SUBMIT_ALL: u32 = 22;

pub(crate) const RELEASE: u32 = 23;

pub(crate) const LOSE: u32 = 24;
