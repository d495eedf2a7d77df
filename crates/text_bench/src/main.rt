//! Makes one call of a text many times over, for `bench/text`, and prints the sum of what it
//! answers.
#![tactic(auto)]

use anyhow::{Result, bail};
use std::alloc::{AllocError, Global};
use std::env::Args;
use text::{LONGEST_TEXT, Position, Text, TextFault, Unit};

/// How many places beside one another are asked in turn.
const PLACES: usize = 8;

#[derive(Clone, Copy)]
enum Call {
    Replace,
    Offset,
    Position,
}

/// What the words after the program's name ask for.
#[derive(Clone, Copy)]
struct Request {
    call: Call,
    length: usize,
    offset: usize,
    count: usize,
}

/// Letters of the greatest length of a text, with a break in the place of each that is `length`
/// after the one before.
fn lines(alloc: Global, length: usize) -> Result<String, AllocError> {
    let mut text = String::with_capacity(alloc, LONGEST_TEXT)?;
    let mut after = 0usize;
    for _ in 0..LONGEST_TEXT {
        after = after.saturating_add(1);
        let ends = length <= after;
        text.push(if ends { '\n' } else { 'x' })?;
        if ends {
            after = 0;
        }
    }
    Ok(text)
}

/// A text of these lines.
fn opened(alloc: Global, length: usize) -> Result<Text> {
    match Text::open(alloc, lines(alloc, length)?.as_str()) {
        Ok(text) => Ok(text),
        Err(_) => bail!("a text was refused"),
    }
}

/// Puts a letter in the place of the character at `place`, where there is one.
fn replace(text: &mut Text, alloc: Global, place: usize) -> Result<(), TextFault> {
    if place < text.len() {
        text.replace(alloc, place, place + 1, "y")?;
    }
    Ok(())
}

/// Puts a letter in the place of the character at `offset` or at one beside it, `count` times.
fn replaced(text: &mut Text, alloc: Global, offset: usize, count: usize) -> Result<usize> {
    let mut sum = 0usize;
    for step in 0..count {
        if replace(text, alloc, offset.saturating_add(step % PLACES)).is_err() {
            bail!("an edit was refused");
        }
        sum = sum.wrapping_add(text.len());
    }
    Ok(sum)
}

/// Asks for the offset of the position of `offset` or of one beside it, `count` times.
fn offsets(text: &Text, offset: usize, count: usize) -> usize {
    let Position { line, character } = text.position(Unit::Utf16, offset);
    let mut sum = 0usize;
    for step in 0..count {
        let character = character.saturating_add((step % PLACES) as u32);
        sum = sum.wrapping_add(text.offset(Unit::Utf16, Position { line, character }));
    }
    sum
}

/// Asks for the position of `offset` or of one beside it, `count` times.
fn positions(text: &Text, offset: usize, count: usize) -> usize {
    let mut sum = 0usize;
    for step in 0..count {
        let place = offset.saturating_add(step % PLACES);
        let Position { line, character } = text.position(Unit::Utf16, place);
        sum = sum
            .wrapping_add(line as usize)
            .wrapping_add(character as usize);
    }
    sum
}

/// The sum of the answers of the calls.
fn sum(text: &mut Text, alloc: Global, asked: Request) -> Result<usize> {
    match asked.call {
        Call::Replace => replaced(text, alloc, asked.offset, asked.count),
        Call::Offset => Ok(offsets(text, asked.offset, asked.count)),
        Call::Position => Ok(positions(text, asked.offset, asked.count)),
    }
}

/// The sum of the answers of a new text.
fn answered(alloc: Global, asked: Request) -> Result<usize> {
    let mut text = opened(alloc, asked.length)?;
    sum(&mut text, alloc, asked)
}

/// The number that a word is.
fn number(word: Option<String>) -> Result<usize> {
    match word {
        Some(word) => Ok(word.as_str().parse::<usize>()?),
        None => bail!("usage: text_bench CALL LENGTH OFFSET COUNT"),
    }
}

/// The call that a word names.
fn call_of(word: Option<String>) -> Option<Call> {
    match word?.as_str() {
        "replace" => Some(Call::Replace),
        "offset" => Some(Call::Offset),
        "position" => Some(Call::Position),
        _ => None,
    }
}

/// Reads what the words ask for.
fn read(words: &mut Args) -> Result<Request> {
    words.next();
    let call = call_of(words.next());
    let length = number(words.next())?;
    let offset = number(words.next())?;
    let count = number(words.next())?;
    match call {
        Some(call) => Ok(Request {
            call,
            length,
            offset,
            count,
        }),
        None => bail!("no such call"),
    }
}

fn main(rt: HostRuntime) -> Result<()> {
    let asked = read(&mut std::env::args(&rt)?)?;
    println!(rt; "{}", answered(rt.alloc(), asked)?)?;
    Ok(())
}
