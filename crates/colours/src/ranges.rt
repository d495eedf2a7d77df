//! The colours of some lines of a document.

ghost use Rattle.std.specs.Prelude.{◌≡◌, ◌*◌, ◌<◌, ◌≤◌, List, ◌++◌, length, take, map, IfOk, OnOk};
ghost use Rattle.definitions.specs.declared.expression.Expression.{Expression};
ghost use Rattle.definitions.specs.Text.{offset};
ghost use Rattle.definitions.specs.Tokens.{AreTokens};
ghost use Rattle.docs.specs.Docs.{IsCurrent};
ghost use Rattle.docs.specs.Languages.{LanguageData};
ghost use Rattle.lexer.specs.Tokens.{characters, plain};
ghost use Rattle.colours.specs.Parts.{Part, Scans, coloured, decoded, parts_in, within};
ghost use Rattle.colours.specs.Encoding.{AreEncoded, IsUpTo, not_above, not_below, start_of};

use crate::encoder::Encoder;
use crate::steps::Steps;
use crate::whole::colour_of;
use definitions::{Position, Unit};
use docs::Doc;
use lexer::{MoreThan, Tokens};
use std::alloc::{AllocError, Global};
use text::Text;

/// The lines `from..to`.
#[derive(Clone, Copy)]
struct Window {
    from: u32,
    to: u32,
}

impl Window {
    /// The position, or the start of the first line if that comes after it.
    fn not_above(self, position: Position) -> Position
        ensures { result ≡ not_above self.from position }
    {
        if position.line < self.from {
            return Position {
                line: self.from,
                character: 0,
            };
        }
        position
    }

    /// The position, or the start of the line below the last one if that comes before it.
    fn not_below(self, position: Position) -> Position
        ensures { result ≡ not_below self.to position }
    {
        if position.line < self.to {
            return position;
        }
        Position {
            line: self.to,
            character: 0,
        }
    }

    /// Puts the parts on these lines of what stands between two positions after those so far, if
    /// it has a colour.
    fn push(
        self,
        encoder: &mut Encoder,
        steps: &Steps<'_>,
        colour: Option<u32>,
        from: Position,
        to: Position,
    ) -> Result<(), AllocError>
        requires first { steps.now.first ≤ from.line }
        requires ends { to.line ≤ steps.now.last }
        requires last { IsUpTo encoder.old.last from }
        requires ordered { IsUpTo from to }
        requires begins { from.line < self.to }
        ensures encoded { OnOk result ((parts : List Part)
            → AreEncoded parts encoder.old.numbers.items encoder.old.last
            → AreEncoded
            (parts ++ within self.from self.to
            (parts_in steps.now.unit steps.now.text from to colour))
            encoder.new.numbers.items encoder.new.last) }
        ensures last { OnOk result (IsUpTo encoder.new.last to) }
    {
        let start = self.not_above(from);
        let end = self.not_below(to);
        if start.line > end.line {
            return Ok(());
        }
        encoder.push_token(steps, colour, start, end)
    }

    /// The colours of what stands on these lines.
    fn colours(
        self,
        alloc: Global,
        palette: &[Option<u32>],
        unit: Unit,
        text: &Text,
        tokens: &Tokens,
    ) -> Result<Vec<u32>, AllocError>
        requires { (rules : List Expression)
            × AreTokens rules text.now (map plain tokens.now.items) }
        ensures decoded { IfOk result (λ numbers. decoded numbers.items
            ≡ within self.from self.to
            (coloured unit text.now palette.now (map plain tokens.now.items))) }
        ensures whole { IfOk result (λ numbers.
            length numbers.items ≡ 5 * length (decoded numbers.items)) }
    {
        // A text is so short that no offset in it is past what `usize` counts.
        let _length = text.len();
        let mut encoder = Encoder::new(alloc);
        let (first, at) = self.first(unit, text, tokens);
        let mut steps = Steps::new(alloc, text, unit, at);
        for token in tokens.items().iter_from(first) {
            let start = steps.position();
            if start.line >= self.to {
                return Ok(encoder.numbers);
            }
            steps.advance(token.length() as usize)?;
            let end = steps.position();
            let colour = colour_of(palette, token.kind());
            self.push(&mut encoder, &steps, colour, start, end)?;
        }
        Ok(encoder.numbers)
    }

    /// The place of the first token that ends on one of these lines or below them, and the offset
    /// at which it starts.
    fn first(self, unit: Unit, text: &Text, tokens: &Tokens) -> (usize, usize)
        requires { (rules : List Expression)
            × AreTokens rules text.now (map plain tokens.now.items) }
        ensures within { result.0 ≤ length tokens.now.items }
        ensures offset { result.1 ≡ characters (take result.0 tokens.now.items) }
        ensures inside { result.1 ≤ length text.now }
        ensures above { result.1 ≤ offset unit text.now (start_of self.from) }
    {
        // A text is so short that the characters of its tokens are counted exactly.
        let _length = text.len();
        let start = Position {
            line: self.from,
            character: 0,
        };
        let goal = MoreThan::Characters(text.offset(unit, start));
        let (place, before) = tokens.items().locate(&goal);
        (place, before.characters as usize)
    }
}

/// The colours of the tokens on the lines `from..to` of a document: the `data` of a range (LSP
/// 3.17, "SemanticTokensRangeParams"), as `full` gives that of a whole document. Refuses for
/// memory alone.
pub fn lines(
    alloc: Global,
    palette: &[Option<u32>],
    doc: &Doc,
    from: u32,
    to: u32,
) -> Result<Vec<u32>, AllocError>
    requires { (language : LanguageData) × IsCurrent language doc.now }
    ensures decoded { (language : LanguageData) → IsCurrent language doc.now
        → IfOk result (λ numbers. Scans language.file.patterns doc.now.text (λ tokens.
        decoded numbers.items
        ≡ within from to (coloured doc.now.unit doc.now.text palette.now tokens))) }
    ensures whole { IfOk result (λ numbers.
        length numbers.items ≡ 5 * length (decoded numbers.items)) }
{
    let window = Window { from, to };
    window.colours(alloc, palette, doc.unit(), doc.characters(), doc.tokens())
}
