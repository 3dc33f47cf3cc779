// Every limit of the engine, by name. specs/Limits.antt has the same figures for contracts; the check fails where the two differ.

// parties are numbered from 0, and a swap has at least two
pub const MIN_PARTIES: u8 = 2;

pub const MAX_PARTIES: u8 = 8;
// places of a table that has one for each party
pub const PARTIES: usize = MAX_PARTIES as usize;

pub const MAX_LEGS: usize = 24;

pub const MAX_HOLDINGS: usize = 128;
// bytes of a swap file
pub const MAX_FILE: usize = 16_384;
// ticks within which a transaction is delivered
pub const MAX_DELTA: u8 = 200;
// ledgers of a file: the first ones hold coins, the others titles
pub const FILE_LEDGERS: u8 = 8;

pub const COIN_LEDGERS: u8 = 4;
// ledgers of one book
pub const BOOK_LEDGERS: u8 = 4;
// coins of one holding or leg
pub const MAX_COINS: u32 = 100_000_000;
// titles of one ledger are numbered from 0
pub const TITLES: u32 = 64;
// the most coins on one ledger: every party's largest holding
pub const COIN_CEILING: u32 = MAX_PARTIES as u32 * MAX_COINS;
// journal lines: the outsiders', and for each leg an open, a refund, and a key for each lock
pub const OUTSIDER_LINES: usize = 512;

pub const MAX_LINES: usize = OUTSIDER_LINES + 2 * MAX_LEGS + MAX_LEGS * PARTIES;
// bits of a party set
pub const SET_BITS: u8 = 16;
