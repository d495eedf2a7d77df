//! Which brackets have no partner.

/// How many more brackets of each sort are opened than closed.
#[derive(Clone, Copy, Debug, PartialEq, Eq)]
pub struct Balance {
    /// Those of `(`.
    pub round: i32,
    /// Those of `[`.
    pub square: i32,
    /// Those of `{`.
    pub curly: i32,
}

/// How many more brackets of a sort have no partner, if so many more than before are opened than
/// closed.
fn worse(before: i32, after: i32) -> usize {
    let more = after.unsigned_abs().saturating_sub(before.unsigned_abs());
    more as usize
}

impl Balance {
    /// As many of each sort are opened as are closed.
    pub const EVEN: Balance = Balance {
        round: 0,
        square: 0,
        curly: 0,
    };

    /// That of kinds and of others behind them.
    pub fn with(self, other: Balance) -> Balance {
        Balance {
            round: self.round.saturating_add(other.round),
            square: self.square.saturating_add(other.square),
            curly: self.curly.saturating_add(other.curly),
        }
    }

    /// That of kinds of which others are left out.
    pub fn without(self, other: Balance) -> Balance {
        Balance {
            round: self.round.saturating_sub(other.round),
            square: self.square.saturating_sub(other.square),
            curly: self.curly.saturating_sub(other.curly),
        }
    }

    /// How many brackets have no partner.
    pub(crate) fn alone(self) -> usize {
        let round = self.round.unsigned_abs() as usize;
        let square = self.square.unsigned_abs() as usize;
        let curly = self.curly.unsigned_abs() as usize;
        round.saturating_add(square).saturating_add(curly)
    }

    /// How many more brackets have no partner if the kinds of another balance are put in.
    pub(crate) fn unmatched_by(self, other: Balance) -> usize {
        let after = self.with(other);
        worse(self.round, after.round)
            .saturating_add(worse(self.square, after.square))
            .saturating_add(worse(self.curly, after.curly))
    }
}
