//! The colours of a whole document.

ghost use Rattle.std.specs.Prelude.{◌≡◌, ◌*◌, length, map, IfOk};
ghost use Rattle.docs.specs.Docs.{IsCurrent};
ghost use Rattle.docs.specs.Languages.{LanguageData};
ghost use Rattle.lexer.specs.Tokens.{plain};
ghost use Rattle.colours.specs.Parts.{Scans, coloured, colour_of, decoded};

use crate::encoder::Encoder;
use crate::steps::Steps;
use definitions::{Kind, Unit};
use docs::Doc;
use lexer::Tokens;
use std::alloc::{AllocError, Global};
use text::Text;

/// The colour of a kind.
pub(crate) fn colour_of(palette: &[Option<u32>], kind: Kind) -> Option<u32>
    ensures { result ≡ colour_of palette.now kind }
{
    match kind {
        Kind::Rule(rule) => *palette.get(rule)?,
        Kind::Invalid => None,
    }
}

/// The colours of all tokens of a text.
fn whole(
    alloc: Global,
    palette: &[Option<u32>],
    unit: Unit,
    text: &Text,
    tokens: &Tokens,
) -> Result<Vec<u32>, AllocError>
    ensures decoded { IfOk result (λ numbers. decoded numbers.items
        ≡ coloured unit text.now palette.now (map plain tokens.now.items)) }
    ensures whole { IfOk result (λ numbers.
        length numbers.items ≡ 5 * length (decoded numbers.items)) }
{
    let mut encoder = Encoder::new(alloc);
    let mut steps = Steps::new(alloc, text, unit, 0);
    for token in tokens.items().iter_from(0) {
        let start = steps.position();
        steps.advance(token.length() as usize)?;
        let end = steps.position();
        encoder.push_token(&steps, colour_of(palette, token.kind()), start, end)?;
    }
    Ok(encoder.numbers)
}

/// The colours of all tokens of a document: the `data` of a whole document (LSP 3.17,
/// "SemanticTokens"), five numbers for each part of a token on a line. `palette` has the colour of
/// each rule by its number, as the number of a token type in the client's legend, or none; a rule
/// past its end has none, nor has what matches no rule. Refuses for memory alone.
pub fn full(alloc: Global, palette: &[Option<u32>], doc: &Doc) -> Result<Vec<u32>, AllocError>
    ensures decoded { (language : LanguageData) → IsCurrent language doc.now
        → IfOk result (λ numbers. Scans language.file.patterns doc.now.text (λ tokens.
        decoded numbers.items ≡ coloured doc.now.unit doc.now.text palette.now tokens)) }
    ensures whole { IfOk result (λ numbers.
        length numbers.items ≡ 5 * length (decoded numbers.items)) }
{
    whole(alloc, palette, doc.unit(), doc.characters(), doc.tokens())
}
