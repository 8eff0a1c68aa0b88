// An instruction, and what the protocols read of it.
ghost use Rattle.std.specs.Prelude.{◌≡◌, length};
ghost use Rattle.wire.specs.Same.{same};
ghost use Rattle.ids.specs.Keys.{key_of, account as account_of};
ghost use Rattle.swaps.specs.Data.{discriminator as discriminator_of, flag_at, numbers_at, stated_at, swap_form};

use crate::discriminators::{SWAP, SWAP_V2};
use crate::draft::in_order;

// The key section, the index byte of each account, and the data.
#[derive(Clone, Copy)]
pub(crate) struct Instruction<'a> {
    pub keys: &'a [u8],
    pub accounts: &'a [u8],
    pub bytes: &'a [u8],
}

impl<'a> Instruction<'a> {
    // The first eight bytes as one number.
    pub fn discriminator(&self) -> Option<u64>
        ensures { result ≡ discriminator_of self.now.bytes.now }
    {
        if self.bytes.len() < 8 {
            return None;
        }
        Some(wire::u64_at(self.bytes, 0))
    }

    // Whether it is `swap_v2` and not `swap`, with at least so many accounts for each.
    #[tactic(auto, unfolding(crate::specs::Data::is))]
    pub fn is_v2(&self, floor: usize, floor_v2: usize) -> Option<bool>
        ensures { result ≡ swap_form floor floor_v2 (length self.now.accounts.now) self.now.bytes.now }
    {
        let n = self.accounts.len();
        match self.discriminator()? {
            SWAP if floor <= n => Some(false),
            SWAP_V2 if floor_v2 <= n => Some(true),
            _ => None,
        }
    }

    // The byte at `at` as a bool: 0 or 1.
    pub fn flag(&self, at: usize) -> Option<bool>
        ensures { result ≡ flag_at self.now.bytes.now at }
    {
        if self.bytes.len() <= at {
            return None;
        }
        match self.bytes[at] {
            0 => Some(false),
            1 => Some(true),
            _ => None,
        }
    }

    // The two numbers at `at`, one after the other.
    pub fn numbers(&self, at: u8) -> Option<(u64, u64)>
        ensures { result ≡ numbers_at self.now.bytes.now at }
    {
        let at = usize::from(at);
        if self.bytes.len() < at + 16 {
            return None;
        }
        Some((
            wire::u64_at(self.bytes, at),
            wire::u64_at(self.bytes, at + 8),
        ))
    }

    // Amount and threshold: the numbers at `at`, exchanged where the swap is exact-out.
    pub fn stated(&self, at: u8, exact: bool) -> Option<(u64, u64)>
        ensures { result ≡ stated_at self.now.bytes.now at exact }
    {
        let (first, second) = self.numbers(at)?;
        Some(in_order(exact, first, second))
    }

    // The key of an account, zero where there is none.
    #[tactic(auto, unfolding(ids::specs::Keys::zero_key))]
    pub fn account(&self, place: u8) -> &'a [u8]
        ensures { result.now ≡ account_of (key_of self.now.keys.now) self.now.accounts.now place }
    {
        let place = usize::from(place);
        if self.accounts.len() <= place {
            return &[0; 32];
        }
        ids::key(self.keys, &[0; 32], usize::from(self.accounts[place]))
    }

    // Whether two accounts are one key.
    pub fn same_account(&self, x: u8, y: u8) -> bool
        ensures { let a = account_of (key_of self.now.keys.now) self.now.accounts.now in
            result ≡ same (a x) (a y) }
    {
        wire::equal(self.account(x), self.account(y))
    }
}
