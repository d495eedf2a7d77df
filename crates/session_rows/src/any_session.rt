//! What follows from the clauses of `run` that speak of all sessions.

ghost use Rattle.session_rows.specs.Uses.{EndsAsFresh, LeavesTheOther, LeftOutAlike, MixedAlike, OpensSilently, OpensSmall, OpensUnicode, RepliesAlike, RepliesInOrder};

use crate::memory::{Ran, over};
use docs::Language;
use std::alloc::Global;

/// Runs the session of no bytes. Of every session by this language: where the messages of two
/// documents come in another order, or those of one are left out, the same is sent about the
/// other; a message about one leaves the other as it was; a question about one is answered alike,
/// whatever else is held; requests before `exit` get one reply each, in order, and an opening
/// none; a text that is typed in ends as a fresh server on it does; what is opened is Unicode, and
/// an empty text isn't too large.
pub fn promised(alloc: Global, language: Language) -> Ran
    ensures mixed { MixedAlike language.file }
    ensures left_out { LeftOutAlike language.file }
    ensures leaves { LeavesTheOther language.file }
    ensures replies { RepliesAlike language.file }
    ensures in_order { RepliesInOrder language.file }
    ensures silent { OpensSilently }
    ensures small { OpensSmall language.file }
    ensures fresh { EndsAsFresh language.file }
    ensures unicode { OpensUnicode }
{
    over(alloc, language, b"")
}
