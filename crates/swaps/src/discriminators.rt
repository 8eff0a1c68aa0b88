// The first eight bytes of each instruction that makes a leg, as one number, the first byte lowest.
// The three that are lent (CPMM's two and PumpSwap's `BUY`) stand in the names.

// CLMM, Orca and DLMM
pub const SWAP: u64 = 0xc887_75e1_919e_c6f8;

// CLMM and Orca
pub const SWAP_V2: u64 = 0x621e_c91a_0bed_042b;

// DLMM
pub const SWAP2: u64 = 0x885b_5beb_4c3f_4b41;

pub const SWAP_EXACT_OUT: u64 = 0xb84b_cf26_2165_49fa;

pub const SWAP_EXACT_OUT2: u64 = 0x51f3_3c89_84f7_d72b;

// LaunchLab
pub const BUY_EXACT_IN: u64 = 0xec13_9cd5_7b0d_eafa;

pub const SELL_EXACT_IN: u64 = 0x1a98_7cd3_9bde_2795;

pub const BUY_EXACT_OUT: u64 = 0x3899_0369_2874_d318;

pub const SELL_EXACT_OUT: u64 = 0xa60b_0908_2247_c85f;

// PumpFun
pub const BUY_V3: u64 = 0x5065_17f5_c41d_0507;

pub const BUY_EXACT_QUOTE_IN_V3: u64 = 0x8884_b3d5_1e50_f7e1;

pub const SELL_V3: u64 = 0xd569_c426_77de_921c;

// PumpFun and PumpSwap
pub const BUY_V2: u64 = 0x3dd3_c567_61ee_17b8;

pub const BUY_EXACT_QUOTE_IN_V2: u64 = 0x2f5b_4d68_461c_abc2;

pub const SELL_V2: u64 = 0xb240_e9e7_3c82_f65d;

// PumpSwap
pub const BUY_EXACT_QUOTE_IN: u64 = 0x70e8_d9b4_5215_2ec6;

pub const SELL: u64 = 0xad83_7f01_a485_e633;
