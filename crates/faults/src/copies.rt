//! The mended copy of a document's kinds.

ghost use Rattle.std.specs.Prelude.{◌≡◌, IfOk, IfSome, List, length};
ghost use Rattle.definitions.specs.declared.Kind.{Kind as TokenKind};
ghost use Rattle.docs.specs.Docs.{IsCurrent};
ghost use Rattle.lexer.specs.Rescans.{significant_kinds};
ghost use Rattle.mending.specs.Mendings.{IsMendingOf};

use crate::signs::{begins_with_sign, brackets, of_text, opens, shortest};
use definitions::Expression;
use docs::{Doc, Language, Significant};
use grammar::Grammar;
use mending::{Balance, Mending, Rank};
use parser::Verdict;
use settings::RuleText;
use std::alloc::{AllocError, Global};

/// The copy of a document's kinds in which its faults are mended; none where it has no fault. Of
/// repairs that are as good, one comes first that puts in what closes or separates, and one comes
/// last that leaves that out, or what opens. `texts` are those of the language's rules. Refuses
/// for memory alone.
pub fn mended(
    alloc: Global,
    language: &Language,
    texts: &[Option<RuleText>],
    doc: &Doc,
) -> Result<Option<Mending>, AllocError>
    requires { IsCurrent language.now doc.now }
    ensures { IfOk result (λ found. IfSome found
        (IsMendingOf language.now.tables (significant_kinds doc.now.tokens.items))) }
{
    if let Verdict::Tree(_) = doc.parse().verdict() {
        return Ok(None);
    }
    let ranks = ranks(alloc, language.grammar(), texts)?;
    let kinds = Significant(doc.tokens());
    Ok(Some(Mending::whole(alloc, language.tables(), &ranks, &kinds)?))
}

/// The copy of a document's kinds that `mended` makes, made out of another copy of the same
/// language, such as that of the document before some changes. After a change of a few tokens a
/// call costs a look at each kind, and besides what `mended` costs near the change; after one that
/// alters what is open behind it, what `mended` costs. So keep the last copy, also while the
/// document has no fault. `texts` are those of the language's rules. Refuses for memory alone;
/// then the copy is gone.
pub fn followed(
    alloc: Global,
    language: &Language,
    texts: &[Option<RuleText>],
    doc: &Doc,
    before: Mending,
) -> Result<Mending, AllocError>
    requires current { IsCurrent language.now doc.now }
    requires copy { (kinds : List TokenKind) × IsMendingOf language.now.tables kinds before }
    ensures { IfOk result
        (IsMendingOf language.now.tables (significant_kinds doc.now.tokens.items)) }
{
    let ranks = ranks(alloc, language.grammar(), texts)?;
    let kinds = Significant(doc.tokens());
    before.follow(alloc, language.tables(), &ranks, &kinds)
}

/// The ranks of the rules of a grammar, which have these texts: of two kinds that mend a fault as
/// well, the one of the lower rank is put in, or left out. Refuses for memory alone.
pub fn ranks(
    alloc: Global,
    grammar: &Grammar,
    texts: &[Option<RuleText>],
) -> Result<Vec<Rank>, AllocError>
    ensures { IfOk result (λ ranks. length ranks.items ≡ length texts.now) }
{
    let patterns = grammar.patterns();
    let mut ranks = Vec::with_capacity(alloc, texts.len())?;
    for text in texts {
        let expression = match patterns.get(ranks.len()) {
            Some(pattern) => Some(pattern.expression()),
            None => None,
        };
        ranks.push(rank_of(alloc, text.as_ref(), expression)?)?;
    }
    Ok(ranks)
}

/// The rank of a rule of this text and this expression.
fn rank_of(
    alloc: Global,
    text: Option<&RuleText>,
    expression: Option<&Expression>,
) -> Result<Rank, AllocError> {
    match (text, expression) {
        (Some(text), _) => Ok(rank(&text.text)),
        (None, Some(expression)) => match shortest(alloc, expression)? {
            Some(text) => Ok(rank(&text)),
            None => Ok(rank_of_pattern(expression)),
        },
        (None, None) => Ok(NAME),
    }
}

/// The rank of a rule that has no text of its own, and no shortest one.
fn rank_of_pattern(expression: &Expression) -> Rank {
    let balance = brackets(expression);
    let rank = if opens(balance) {
        OPENING
    } else if begins_with_sign(expression) {
        MARKED
    } else {
        NAME
    };
    Rank { balance, ..rank }
}

/// The rank of leaving out what doesn't bear on what stands around it.
const LOOSE: u8 = 1;

/// The rank of leaving out what closes, separates or opens: without it, what stands around it is
/// part of something else. No four changes that leave none out have a higher sum.
const TEARING: u8 = 17;

/// The rank of what closes or separates.
const CLOSING: Rank = Rank {
    put_in: 0,
    leave_out: TEARING,
    is_dear: false,
    balance: Balance::EVEN,
};

/// The rank of other signs.
const SIGN: Rank = Rank {
    put_in: 1,
    leave_out: LOOSE,
    is_dear: false,
    balance: Balance::EVEN,
};

/// The rank of a name, a number, and whatever else has no text of its own.
const NAME: Rank = Rank {
    put_in: 2,
    leave_out: LOOSE,
    is_dear: false,
    balance: Balance::EVEN,
};

/// The rank of words.
const WORD: Rank = Rank {
    put_in: 3,
    leave_out: LOOSE,
    is_dear: false,
    balance: Balance::EVEN,
};

/// The rank of what has no text of its own and begins with a sign, as `@name` does. Put in, it
/// mostly makes something else of what stands behind it.
const MARKED: Rank = Rank {
    put_in: 4,
    leave_out: LOOSE,
    is_dear: true,
    balance: Balance::EVEN,
};

/// The rank of what opens. Putting it in comes after all else: then what closes has to be put in
/// too, or one that is too many is taken to close it.
const OPENING: Rank = Rank {
    put_in: TEARING + 1,
    leave_out: TEARING,
    is_dear: false,
    balance: Balance::EVEN,
};

/// Whether a text closes or separates, by a sign.
pub(crate) fn closes(text: &str) -> bool {
    matches!(text, ")" | "]" | "}" | ";" | "," | ":")
}

/// The rank of a rule of this text.
fn rank(text: &str) -> Rank {
    let rank = match text {
        "end" => CLOSING,
        _ if closes(text) => CLOSING,
        "(" | "[" | "{" => OPENING,
        _ if text.chars().all(|character| character.is_alphanumeric()) => WORD,
        _ => SIGN,
    };
    Rank {
        balance: of_text(text),
        ..rank
    }
}
