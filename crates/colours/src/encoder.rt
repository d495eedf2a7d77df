//! The numbers of parts, one part after another.

ghost use Rattle.std.specs.Prelude.{◌≡◌, ◌-◌, ◌≤◌, List, [], ◌∷◌, ◌++◌, OnOk};
ghost use Rattle.colours.specs.Parts.{Part, origin, part_at, parts_between, parts_in};
ghost use Rattle.colours.specs.Encoding.{AreEncoded, IsUpTo, part_if};

use crate::steps::Steps;
use definitions::Position;
use std::alloc::{AllocError, Global};

/// The numbers of the parts so far, and where the last one starts, or the start of the text.
#[derive(Drop)]
pub(crate) struct Encoder {
    pub(crate) numbers: Vec<u32>,
    pub(crate) last: Position,
}

impl Encoder {
    /// No part.
    pub(crate) fn new(alloc: Global) -> Encoder
        ensures none { AreEncoded [] result.numbers.items result.last }
        ensures last { result.last ≡ origin }
    {
        Encoder {
            numbers: Vec::new(alloc),
            last: Position {
                line: 0,
                character: 0,
            },
        }
    }

    /// One part more, which starts nowhere before the last one.
    fn push(&mut self, at: Position, length: u32, colour: u32) -> Result<(), AllocError>
        requires { IsUpTo self.old.last at }
        ensures encoded { OnOk result ((parts : List Part)
            → AreEncoded parts self.old.numbers.items self.old.last
            → AreEncoded (parts ++ part_at at length colour 0 ∷ []) self.new.numbers.items
            self.new.last) }
        ensures last { OnOk result (self.new.last ≡ at) }
    {
        let lines = at.line - self.last.line;
        let units = if lines == 0 {
            at.character - self.last.character
        } else {
            at.character
        };
        self.numbers
            .extend_from_slice(&[lines, units, length, colour, 0])?;
        self.last = at;
        Ok(())
    }

    /// One part more, from one character of a line up to another, if it isn't empty.
    fn push_on(&mut self, line: u32, start: u32, end: u32, colour: u32) -> Result<(), AllocError>
        requires { IsUpTo self.old.last (record { line = line; character = start }) }
        ensures encoded { OnOk result ((parts : List Part)
            → AreEncoded parts self.old.numbers.items self.old.last
            → AreEncoded (parts ++ part_if line start (end - start) colour)
            self.new.numbers.items self.new.last) }
        ensures last { OnOk result
            (IsUpTo self.new.last (record { line = line; character = start })) }
    {
        if start >= end {
            return Ok(());
        }
        let character = start;
        self.push(Position { line, character }, end - start, colour)
    }

    /// The parts of what stands between two positions, after those so far, if it has a colour. The
    /// walk has left the lines from the first one up to the last one.
    pub(crate) fn push_token(
        &mut self,
        steps: &Steps<'_>,
        colour: Option<u32>,
        from: Position,
        to: Position,
    ) -> Result<(), AllocError>
        requires first { steps.now.first ≤ from.line }
        requires ends { to.line ≤ steps.now.last }
        requires last { IsUpTo self.old.last from }
        requires ordered { IsUpTo from to }
        ensures encoded { OnOk result ((parts : List Part)
            → AreEncoded parts self.old.numbers.items self.old.last
            → AreEncoded (parts ++ parts_in steps.now.unit steps.now.text from to colour)
            self.new.numbers.items self.new.last) }
        ensures last { OnOk result (IsUpTo self.new.last to) }
    {
        match colour {
            Some(colour) => self.push_between(steps, colour, from, to),
            None => Ok(()),
        }
    }

    /// The parts of what stands between two positions, after those so far. The walk has left the
    /// lines from the first one up to the last one.
    #[inline(never)]
    fn push_between(
        &mut self,
        steps: &Steps<'_>,
        colour: u32,
        from: Position,
        to: Position,
    ) -> Result<(), AllocError>
        requires first { steps.now.first ≤ from.line }
        requires ends { to.line ≤ steps.now.last }
        requires last { IsUpTo self.old.last from }
        requires ordered { IsUpTo from to }
        ensures encoded { OnOk result ((parts : List Part)
            → AreEncoded parts self.old.numbers.items self.old.last
            → AreEncoded (parts ++ parts_between steps.now.unit steps.now.text colour from to)
            self.new.numbers.items self.new.last) }
        ensures last { OnOk result (IsUpTo self.new.last to) }
    {
        let mut start = from.character;
        for line in from.line..to.line {
            self.push_on(line, start, steps.end_of(line), colour)?;
            start = 0;
        }
        self.push_on(to.line, start, to.character, colour)
    }
}
