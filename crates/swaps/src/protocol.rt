// The numbers of the protocols, and of LaunchLab's modes, as a row of table 3 has them. Numbers and no enum: `put_leg` writes whatever number it is handed.
pub(crate) const PUMP_SWAP: u8 = 1;

pub(crate) const LAUNCH_LAB: u8 = 2;

pub(crate) const CPMM: u8 = 3;

pub(crate) const AMM_V4: u8 = 4;

pub(crate) const CLMM: u8 = 5;

pub(crate) const ORCA: u8 = 6;

pub(crate) const DLMM: u8 = 7;

pub(crate) const PUMP_FUN: u8 = 8;

// The modes: 0 where there is none.
pub(crate) const STANDARD: u8 = 1;

pub(crate) const REWARD: u8 = 2;
