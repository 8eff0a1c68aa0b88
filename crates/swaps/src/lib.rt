// The legs of eight protocols: the original's `swap`.
//
// Each protocol has a file and a function, proved equal to its definition. `leg` picks the function by the program and answers a leg in numbers; `put_leg`
// writes a leg's row, given what is known of its mints and the graduated pools.
#![tactic(auto)]

mod amm_v4;
mod clmm;
mod cpmm;
mod discriminators;
mod dlmm;
mod draft;
mod instruction;
mod launchlab;
mod orca;
mod protocol;
mod pumpfun;
mod pumpswap;
pub mod row;

ghost use Rattle.std.specs.Prelude.{◌≡◌, length};
ghost use Rattle.ids.specs.Keys.{key_of, account};
ghost use Rattle.swaps.specs.Swap.{trades as trades_of, by_program, indexes, leg_in_numbers};

use ids::Id;
use instruction::Instruction;

// The accounts that are the mints of the input and of the output.
#[derive(Clone, Copy)]
pub struct Pair {
    pub input: u8,
    pub output: u8,
}

// A leg in numbers. Accounts are indexes of keys in what `leg` answers, and places among the instruction's accounts in a protocol's own function.
#[derive(Clone, Copy)]
pub struct Swap {
    pub protocol: u8,
    pub pool: u8,
    pub trader: u8,
    pub input: u8,
    pub output: u8,
    pub exact: bool,
    pub amount: u64,
    pub threshold: u64,
    pub mode: u8,
    pub pair: Option<Pair>,
}

// Whether a program is one of the eight protocols: no other has a leg, so that its accounts and data need not be read.
#[tactic(auto, unfolding(crate::specs::Swap::trades))]
pub fn trades(id: Id) -> bool
    ensures { result ≡ trades_of id }
{
    matches!(
        id,
        Id::Clmm
            | Id::Orca
            | Id::Cpmm
            | Id::Dlmm
            | Id::LaunchLab
            | Id::PumpFun
            | Id::PumpSwap
            | Id::AmmV4
    )
}

// The protocol's own function, by the program.
#[tactic(auto, unfolding(crate::specs::Swap::by_program))]
fn by_program(names: &[u8], id: Id, i: &Instruction) -> Option<Swap>
    ensures { let a = account (key_of i.now.keys.now) i.now.accounts.now in
        result ≡ by_program names.now a id (length i.now.accounts.now) i.now.bytes.now }
{
    match id {
        Id::Clmm => clmm::leg(i),
        Id::Orca => orca::leg(i),
        Id::Cpmm => cpmm::leg(names, i),
        Id::Dlmm => dlmm::leg(i),
        Id::LaunchLab => launchlab::leg(names, i),
        Id::PumpFun => pumpfun::leg(i),
        Id::PumpSwap => pumpswap::leg(names, i),
        Id::AmmV4 => amm_v4::leg(i),
        _ => None,
    }
}

// Places become the index bytes that stand there.
fn indexed(accounts: &[u8], s: Swap) -> Swap
    ensures { result ≡ indexes accounts.now s }
{
    let index = |place: u8| wire::byte(accounts, usize::from(place));
    Swap {
        pool: index(s.pool),
        trader: index(s.trader),
        input: index(s.input),
        output: index(s.output),
        pair: s.pair.map(|pair| Pair {
            input: index(pair.input),
            output: index(pair.output),
        }),
        ..s
    }
}

// The leg of an instruction: 88 names, the key section, which program it is of, its index bytes, its data.
pub fn leg(names: &[u8], keys: &[u8], id: Id, accounts: &[u8], data: &[u8]) -> Option<Swap>
    ensures { result ≡ leg_in_numbers names.now (key_of keys.now) id accounts.now «data».now }
{
    let instruction = Instruction {
        keys,
        accounts,
        bytes: data,
    };
    let found = by_program(names, id, &instruction)?;
    Some(indexed(accounts, found))
}
