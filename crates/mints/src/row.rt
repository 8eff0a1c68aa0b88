// A row of the table of accounts: an account, a mint, and what is known of them.
ghost use Rattle.std.specs.Prelude.{◌≡◌, ◌-◌, eqb, ltb, length};
ghost use Rattle.mints.specs.Cells.{number_of};

// What is known of an account's mint: nothing, that two were seen, that one was; or that a transfer handed one on, which may be in doubt.
#[derive(Clone, Copy)]
pub enum State {
    Unknown,
    Ambiguous,
    Recorded,
    FilledIn,
    Doubted,
}

impl State {
    #[tactic(auto, unfolding(crate::specs::Cells::number_of))]
    pub(crate) fn is_filled_in(self) -> bool
        ensures { result ≡ eqb (number_of self) 3 }
    {
        matches!(self, State::FilledIn)
    }

    // Whether there is one mint.
    #[tactic(auto, unfolding(crate::specs::Cells::number_of))]
    pub(crate) fn has_mint(self) -> bool
        ensures { result ≡ ltb 1 (number_of self) }
    {
        matches!(self, State::Recorded | State::FilledIn | State::Doubted)
    }

    // The mark as it is written: 0 recorded, 1 filled in, 2 filled in and in doubt.
    #[tactic(auto, unfolding(crate::specs::Cells::number_of))]
    pub(crate) fn mark(self) -> u8
        ensures { result ≡ number_of self - 2 }
    {
        match self {
            State::FilledIn => 1,
            State::Doubted => 2,
            _ => 0,
        }
    }
}

#[derive(Clone, Copy)]
pub struct Row {
    pub account: [u8; 32],
    pub mint: [u8; 32],
    pub state: State,
}

impl Row {
    // A row that no key has yet.
    pub(crate) const BLANK: Row = Row {
        account: [0; 32],
        mint: [0; 32],
        state: State::Unknown,
    };

    // The account as bytes.
    pub(crate) fn account(&self) -> &[u8]
        ensures { (result.now ≡ self.now.account) × (length self.now.account ≡ 32) }
    {
        &self.account
    }

    // The mint as bytes.
    pub(crate) fn mint(&self) -> &[u8]
        ensures { (result.now ≡ self.now.mint) × (length self.now.mint ≡ 32) }
    {
        &self.mint
    }
}
