//! The ranks of rules.

use mending::{Balance, Change, Rank};

/// The changes from the first one on that lets no kind stay.
pub fn begun(changes: &[Change]) -> &[Change] {
    let first = changes.iter().position(|change| *change != Change::Keep);
    changes.get(first.unwrap_or(0)..).unwrap_or(&[])
}

/// Those of what closes or separates.
pub const CLOSING: Rank = Rank {
    put_in: 0,
    leave_out: 17,
    is_dear: false,
    balance: Balance::EVEN,
};

/// Those of other signs.
pub const SIGN: Rank = Rank {
    put_in: 1,
    leave_out: 1,
    is_dear: false,
    balance: Balance::EVEN,
};

/// Those of names and numbers.
pub const NAME: Rank = Rank {
    put_in: 2,
    leave_out: 1,
    is_dear: false,
    balance: Balance::EVEN,
};

/// Those of words.
pub const WORD: Rank = Rank {
    put_in: 3,
    leave_out: 1,
    is_dear: false,
    balance: Balance::EVEN,
};

/// Those of what opens.
pub const OPENING: Rank = Rank {
    put_in: 4,
    leave_out: 17,
    is_dear: false,
    balance: Balance::EVEN,
};

/// A parenthesis that is opened.
pub const ROUND: Balance = Balance {
    round: 1,
    square: 0,
    curly: 0,
};

/// A square bracket that is opened.
pub const SQUARE: Balance = Balance {
    round: 0,
    square: 1,
    curly: 0,
};

/// A brace that is opened.
pub const CURLY: Balance = Balance {
    round: 0,
    square: 0,
    curly: 1,
};

/// Those of what opens these brackets.
pub fn opening(balance: Balance) -> Rank {
    Rank { balance, ..OPENING }
}

/// Those of what closes these brackets.
pub fn closing(balance: Balance) -> Rank {
    Rank {
        is_dear: false,
        balance: Balance::EVEN.without(balance),
        ..CLOSING
    }
}
