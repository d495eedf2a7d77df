//! The message of a fault, and what stands beside it.

ghost use Rattle.std.specs.Prelude.{◌≡◌, ◌+◌, if◌then◌else◌, IfOk, IfSome, codes, length, string_bytes, vec_len};
ghost use Rattle.wording.specs.Texts.{BeginsWith};

use crate::alternatives::Expected;
use crate::found::{Found, found_text};
use grammar::Grammar;
use settings::Settings;
use std::alloc::{AllocError, Global};

/// So many alternatives are named in a message.
const MOST: usize = 6;

/// The message of a fault: what stands there, and what was expected, which are these rules in file
/// order and perhaps the end of the text.
///
/// Refuses for memory alone.
pub fn message(
    alloc: Global,
    grammar: &Grammar,
    settings: &Settings,
    found: Found<'_>,
    rules: &[usize],
    at_end: bool,
) -> Result<String, AllocError>
    ensures { IfOk result (λ message. BeginsWith (codes "unexpected ") (string_bytes message)) }
{
    let expected = Expected {
        alloc,
        grammar,
        settings,
        rules,
        at_end,
    };
    let mut text = String::from_str(alloc, "unexpected ")?;
    text.push_str(&found_text(alloc, grammar, settings, found)?)?;
    text.push_str("; expected ")?;
    push_listed(&mut text, &expected.words()?)?;
    Ok(text)
}

/// All that was expected, each with its rule's name.
///
/// Refuses for memory alone.
pub fn every(
    alloc: Global,
    grammar: &Grammar,
    settings: &Settings,
    rules: &[usize],
    at_end: bool,
) -> Result<Vec<String>, AllocError>
    ensures { IfOk result (λ all. vec_len all ≡ length rules.now + (if at_end then 1 else 0)) }
{
    let expected = Expected {
        alloc,
        grammar,
        settings,
        rules,
        at_end,
    };
    expected.named()
}

/// The related information of a fault: all that was expected, each with its rule's name. `None`
/// where the message names each alternative by itself.
///
/// Refuses for memory alone.
pub fn related(
    alloc: Global,
    grammar: &Grammar,
    settings: &Settings,
    rules: &[usize],
    at_end: bool,
) -> Result<Option<String>, AllocError>
    ensures { IfOk result (λ all.
        IfSome all (λ text. BeginsWith (codes "expected here: ") (string_bytes text))) }
{
    let expected = Expected {
        alloc,
        grammar,
        settings,
        rules,
        at_end,
    };
    if !expected.merges() && expected.words()?.len() <= MOST {
        return Ok(None);
    }
    let mut text = String::from_str(alloc, "expected here: ")?;
    push_joined(&mut text, &expected.named()?)?;
    Ok(Some(text))
}

/// Adds alternatives as a list: all of a few, else the first ones.
fn push_listed(text: &mut String, words: &[String]) -> Result<(), AllocError>
    ensures { BeginsWith (string_bytes text.old) (string_bytes text.new) }
{
    if words.len() > MOST {
        push_joined(text, &words[..MOST])?;
        text.push_str(", ..")?;
    } else if let [before @ .., last] = words {
        push_joined(text, before)?;
        text.push_str(if before.is_empty() { "" } else { " or " })?;
        text.push_str(last)?;
    }
    Ok(())
}

/// Adds the texts, with a comma between each two.
fn push_joined(text: &mut String, words: &[String]) -> Result<(), AllocError>
    ensures { BeginsWith (string_bytes text.old) (string_bytes text.new) }
{
    let mut separator = "";
    for word in words {
        text.push_str(separator)?;
        text.push_str(word)?;
        separator = ", ";
    }
    Ok(())
}
