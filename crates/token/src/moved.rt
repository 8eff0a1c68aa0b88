// What an instruction gives: a transfer, or why there is none.
ghost use Rattle.std.specs.Prelude.{◌≡◌};
ghost use Rattle.token.specs.Moved.{reason_number};

// The transfer that an instruction gives: index bytes of source and destination, amount, and the fee where it is known.
#[derive(Clone, Copy)]
pub struct Transfer {
    pub source: u8,
    pub destination: u8,
    pub amount: u64,
    pub fee: Option<u64>,
}

// Why an instruction gives no transfer: the first test that it fails, by its number.
#[derive(Clone, Copy)]
pub enum Reason {
    NotToken = 1,
    UnsupportedTag = 2,
    TooFewAccounts = 3,
    DataTooShort = 4,
    ZeroKey = 5,
}

impl Reason {
    pub fn number(self) -> u8
        ensures { result ≡ reason_number self }
    {
        self as u8
    }
}
