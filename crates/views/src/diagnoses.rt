//! What is reported of the fault of a text.

ghost use Rattle.std.specs.Prelude.{◌≡◌, ◌++◌, List, Option, IfOk, map, option_map, string_bytes};
ghost use Rattle.std.specs.Str.{chars};
ghost use Rattle.definitions.specs.Answers.{listed, message, name_or_end};
ghost use Rattle.definitions.specs.declared.Kind.TheVariants.{Rule};
ghost use Rattle.grammar.specs.Grammars.{lexicon_of};
ghost use Rattle.lexer.specs.Rescans.{significant_kinds};
ghost use Rattle.lexer.specs.Tokens.{AreTokensOf, plain};
ghost use Rattle.parser.specs.Parses.{IsParseOf, verdict_in};
ghost use Rattle.trees.specs.Cells.{Cell};
ghost use Rattle.readings.specs.Diagnostics.{IsDiagnosis, in_utf8, stored_diagnostic, shown};

use crate::parts::span_of;
use definitions::{Diagnostic, Range, Unit};
use grammar::Grammar;
use lexer::{Kind, Tokens};
use parser::{Parse, Verdict};
use std::alloc::{AllocError, Global};
use tables::{Expected, Tables};
use text::Text;

/// What is reported of the fault of a text: where it stands, and what could have stood there.
/// `None` where the text has a tree. Positions count this unit. The tables are those of the
/// grammar, and the parse is that of the tokens of the text.
///
/// Refuses for memory alone.
pub fn diagnostic(
    alloc: Global,
    grammar: &Grammar,
    tables: &Tables,
    unit: Unit,
    text: &Text,
    tokens: &Tokens,
    parse: &Parse,
) -> Result<Option<Diagnostic>, AllocError>
    requires tables { tables.now.grammar ≡ grammar.now.grammar }
    requires tokens { AreTokensOf (lexicon_of grammar.now) text.now tokens.now.items }
    requires parse { (cells : List Cell)
        × IsParseOf tables.now (significant_kinds tokens.now.items) cells parse.now }
    ensures reported { IfOk result (λ reported. (cells : List Cell)
        → IsParseOf tables.now (significant_kinds tokens.now.items) cells parse.now
        → IsDiagnosis unit grammar.now text.now (map plain tokens.now.items)
        (verdict_in cells parse.now.verdict) (option_map shown reported)) }
    ensures bytes { IfOk result (λ reported.
        option_map stored_diagnostic reported ≡ option_map in_utf8 (option_map shown reported)) }
{
    let expected = parse.expected(tables);
    match parse.verdict() {
        Verdict::Tree(_) => Ok(None),
        Verdict::FaultAt(k) => {
            let part = span_of(tokens, k);
            let message = message_of(alloc, grammar, Some(part.kind), expected)?;
            let range = Range {
                start: text.position(unit, part.start),
                end: text.position(unit, part.end),
            };
            Ok(Some(Diagnostic { range, message }))
        }
        Verdict::FaultAtEnd => {
            let message = message_of(alloc, grammar, None, expected)?;
            let end = text.position(unit, text.len());
            let range = Range { start: end, end };
            Ok(Some(Diagnostic { range, message }))
        }
    }
}

/// The message of a fault: what was found, and what could have stood there.
fn message_of(
    alloc: Global,
    grammar: &Grammar,
    found: Option<Kind>,
    looks: Expected<'_>,
) -> Result<String, AllocError>
    ensures { IfOk result (λ reported. chars (string_bytes reported)
        ≡ message grammar.now.names found (map (option_map Rule) looks.entry)) }
{
    let mut reported = String::new(alloc);
    reported.push_str("unexpected ")?;
    reported.push_str(name_or_end(grammar, found))?;
    reported.push_str("; expected ")?;
    write_looks(grammar, looks, &mut reported)?;
    Ok(reported)
}

/// Writes the names of token rules and of the end, with a comma and a space between each two.
fn write_looks(
    grammar: &Grammar,
    looks: Expected<'_>,
    reported: &mut String,
) -> Result<(), AllocError>
    ensures { IfOk result (λ _. chars (string_bytes reported.new)
        ≡ chars (string_bytes reported.old)
        ++ listed (map (name_or_end grammar.now.names) (map (option_map Rule) looks.entry))) }
{
    let mut separator = "";
    for look in looks {
        reported.push_str(separator)?;
        reported.push_str(name_or_end(grammar, look.map(Kind::Rule)))?;
        separator = ", ";
    }
    Ok(())
}

/// The name of a kind, or `end`.
fn name_or_end(grammar: &Grammar, look: Option<Kind>) -> &str
    ensures { chars result.now ≡ name_or_end grammar.now.names look }
{
    match look {
        Some(kind) => grammar.kind_name(kind),
        None => "end",
    }
}
