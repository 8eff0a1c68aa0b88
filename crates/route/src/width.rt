// The bytes of a row of each table, for whoever lends or reads them.
pub const MINTS: usize = mints::WIDTH;

pub const INVOCATIONS: usize = crate::invocations::WIDTH;

pub const TRANSFERS: usize = token::row::WIDTH;

pub const LEGS: usize = swaps::row::WIDTH;

pub const NATIVES: usize = natives::WIDTH;
