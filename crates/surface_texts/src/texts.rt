//! Texts: `text`, and the sums of `pieces`.

ghost use Rattle.std.specs.Prelude.{◌≡◌, ◌<◌, ◌↔◌, length, Err, IfOk, OnOk, OnErr, encode_utf8_all, ◌≤◌, drop, ◌+◌, ◌*◌, ℕ, List, ◌++◌, IsTrue, Option, [], ◌∷◌};
ghost use Rattle.std.specs.Str.{chars};
ghost use Rattle.definitions.specs.Text.{edit, IsText, changed, units};
ghost use Rattle.definitions.specs.Text as of;
ghost use Rattle.std.specs.List.{concat};
ghost use Rattle.definitions.specs.declared.Unit.TheVariants.{Utf8};
ghost use Rattle.pieces.specs.Sums.{count_of, sums_of, joined, most};
ghost use Rattle.pieces.specs.declared.sums.Counts.{Counts};
ghost use Rattle.pieces.specs.declared.sums.Sums.{Sums};
ghost use Rattle.pieces.specs.declared.sums.Units.{Units};
ghost use Rattle.definitions.specs.declared.Range.{Range};
ghost use Rattle.definitions.specs.declared.Unit.{Unit as Encoding};
ghost use Rattle.text.specs.declared.document.TextFault.{TextFault as Fault};

use pieces::{Piece, SHORTEST_OF_SEVERAL};
use seqtree::Seq;
use std::alloc::Global;
use text::{Chars, LONGEST_TEXT, Position, Range, Text, TextFault, Unit};

/// `Position`.
pub fn position(line: u32, character: u32) -> Position {
    Position { line, character }
}

/// `Range`.
pub fn range(start: Position, end: Position) -> Range {
    Range { start, end }
}

/// `TextFault`.
pub fn text_fault(fault: TextFault) -> u8 {
    match fault {
        TextFault::TooLarge => 1,
        TextFault::Memory => 2,
    }
}

/// `Text::open`.
pub fn open(alloc: Global, text: &str) -> Result<Text, TextFault>
    ensures opened { IfOk result (λ opened. opened ≡ chars text.now) }
    ensures limit { LONGEST_TEXT ≡ 1048576 }
    ensures too_large { (result ≡ Err TextFault.TooLarge) ↔ (LONGEST_TEXT < length text.now) }
{
    Text::open(alloc, text)
}

/// `Text::replace`.
pub fn replace(
    text: &mut Text,
    alloc: Global,
    a: usize,
    b: usize,
    new: &str,
) -> Result<(), TextFault>
    requires ordered { a ≤ b }
    requires in_range { b ≤ length text.old }
    ensures edited { OnOk result (text.new ≡ edit text.old a b (chars new.now)) }
    ensures unchanged { OnErr result (text.new ≡ text.old) }
    ensures too_large { (result ≡ Err TextFault.TooLarge)
        ↔ (LONGEST_TEXT < length (encode_utf8_all (edit text.old a b (chars new.now)))) }
{
    text.replace(alloc, a, b, new)
}

/// `Text::offset`.
pub fn offset(text: &Text, unit: Unit, position: Position) -> usize
    ensures is { result ≡ of.offset unit text.now position }
    ensures within { result ≤ length text.now }
{
    text.offset(unit, position)
}

/// `Text::position`.
pub fn position_of(text: &Text, unit: Unit, offset: usize) -> Position
    ensures { result ≡ of.position unit text.now offset }
{
    text.position(unit, offset)
}

/// `Text::len`.
pub fn len(text: &Text) -> usize
    ensures count { result ≡ length text.now }
    ensures few { result ≤ LONGEST_TEXT }
    ensures characters { IsText text.now }
{
    text.len()
}

/// `Text::bytes`.
pub fn bytes(text: &Text) -> usize
    ensures count { result ≡ length (encode_utf8_all text.now) }
    ensures few { result ≤ LONGEST_TEXT }
{
    text.bytes()
}

/// `Text::chars_from`.
pub fn chars_from(text: &Text, offset: usize) -> Chars<'_>
    ensures { result ≡ drop offset text.now }
{
    text.chars_from(offset)
}

/// `Text::pieces`.
pub fn pieces(text: &Text) -> &Seq<Piece>
    ensures text { concat result.now ≡ text.now }
    ensures few { SHORTEST_OF_SEVERAL * length result.now
        ≤ length (encode_utf8_all text.now) + SHORTEST_OF_SEVERAL }
{
    text.pieces()
}

/// `Unit`.
pub fn unit(unit: Unit) -> u8 {
    match unit {
        Unit::Utf8 => 8,
        Unit::Utf16 => 16,
        Unit::Utf32 => 32,
    }
}

/// `Chars`: its items.
pub fn next(characters: &mut Chars<'_>) -> Option<char> {
    let item: Option<char> = characters.next();
    item
}

/// `Text::span`.
pub fn span(text: &Text, unit: Unit, range: Option<Range>) -> (usize, usize)
    ensures is { result ≡ of.span unit text.now range }
    ensures edits { (s : List ℕ) →
        changed unit text.now range s ≡ edit text.now result.0 result.1 s }
    ensures ordered { result.0 ≤ result.1 }
    ensures in_range { result.1 ≤ length text.now }
{
    text.span(unit, range)
}

/// `sums_join`.
pub fn sums_join()
    ensures { (s t : List ℕ) → units Utf8 (s ++ t) ≤ most →
        sums_of (s ++ t) ≡ joined (sums_of s) (sums_of t) }
{
    pieces::sums_join();
}

/// `equal_sums_are_the_same`.
pub fn equal_sums_are_the_same()
    ensures units { (a b : Units) → IsTrue (⟦<pieces::Units as PartialEq>⟧.eq a b) ↔ (a ≡ b) }
    ensures counts { (a b : Counts) → IsTrue (⟦<pieces::Counts as PartialEq>⟧.eq a b) ↔ (a ≡ b) }
    ensures sums { (a b : Sums) → IsTrue (⟦<pieces::Sums as PartialEq>⟧.eq a b) ↔ (a ≡ b) }
{
    pieces::equal_sums_are_the_same();
}

/// `changes_keep_texts`.
pub fn changes_keep_texts()
    ensures { (encoding : Encoding) (t : List ℕ) (range : Option Range) (s : List ℕ) → IsText t
        → IsText s → IsText (changed encoding t range s) }
{
    text::changes_keep_texts();
}

/// `equal_faults_are_the_same`.
pub fn equal_text_faults_are_the_same()
    ensures { (a b : Fault) → IsTrue (⟦<text::TextFault as PartialEq>⟧.eq a b) ↔ (a ≡ b) }
{
    text::equal_faults_are_the_same();
}

/// `Units::of`.
pub fn units_of(counted: pieces::Units, unit: Unit) -> u32
    ensures { result ≡ count_of unit counted }
{
    counted.of(unit)
}

/// `of_character`.
pub fn of_character(c: char) -> pieces::Sums
    ensures { result ≡ sums_of (c ∷ []) }
{
    pieces::of_character(c)
}

/// `of_text`.
pub fn of_text(text: &str) -> pieces::Sums
    requires { length text.now ≤ most }
    ensures { result ≡ sums_of (chars text.now) }
{
    pieces::of_text(text)
}
