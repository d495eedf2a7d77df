//! The rows of tokens.

ghost use Rattle.std.specs.Prelude.{◌≡◌, map, IfOk, string_bytes};
ghost use Rattle.std.specs.Str.{chars};
ghost use Rattle.definitions.specs.Answers.{kind_name};
ghost use Rattle.views.specs.Views.{row_of, row_bytes, shared_bytes, in_utf8, rows_of};

use definitions::{Kind, Range, Row as SharedRow, Unit};
use grammar::Grammar;
use lexer::Tokens;
use std::alloc::{AllocError, Global};
use std::rc::Rc;
use text::Text;

/// A token's name, and where it stands.
#[derive(Clone, Copy, Debug, PartialEq, Eq)]
pub struct Row<'a> {
    pub name: &'a str,
    pub range: Range,
}

/// The rows of all tokens of a text, in order; positions count this unit. Refuses for memory
/// alone.
pub fn token_rows<'a>(
    alloc: Global,
    grammar: &'a Grammar,
    unit: Unit,
    text: &Text,
    tokens: &Tokens,
) -> Result<Vec<Row<'a>>, AllocError>
    ensures rows { IfOk result (λ rows.
        map row_of rows.items ≡ rows_of unit grammar.now text.now tokens.now.items) }
    ensures bytes { IfOk result (λ rows.
        map row_bytes rows.items
        ≡ map in_utf8 (rows_of unit grammar.now text.now tokens.now.items)) }
{
    let mut rows = Vec::with_capacity(alloc, tokens.count())?;
    let mut places = text.places(unit);
    for token in tokens.items().iter_from(0) {
        let start = places.position();
        places.advance(token.length() as usize);
        let end = places.position();
        let name = grammar.kind_name(token.kind());
        let range = Range { start, end };
        rows.push(Row { name, range })?;
    }
    Ok(rows)
}

/// The name of a kind, of its own.
fn name_of(alloc: Global, grammar: &Grammar, kind: Kind) -> Result<Rc<String>, AllocError>
    ensures { IfOk result (λ name.
        chars (string_bytes name.value) ≡ kind_name grammar.now.names kind) }
{
    Ok(Rc::new(alloc, String::from_str(alloc, grammar.kind_name(kind))?)?)
}

/// The names of the rules, in order.
fn names_of_rules(alloc: Global, grammar: &Grammar) -> Result<Vec<Rc<String>>, AllocError>
    ensures { IfOk result (λ names.
        map (λ name. chars (string_bytes name.value)) names.items ≡ grammar.now.names) }
{
    let mut names = Vec::with_capacity(alloc, grammar.rules())?;
    for rule in 0..grammar.rules() {
        names.push(name_of(alloc, grammar, Kind::Rule(rule))?)?;
    }
    Ok(names)
}

/// The name of a kind, which is its rule's among these, or one of its own.
fn shared_name(
    alloc: Global,
    grammar: &Grammar,
    names: &[Rc<String>],
    kind: Kind,
) -> Result<Rc<String>, AllocError>
    requires { map (λ name. chars (string_bytes name.value)) names.now ≡ grammar.now.names }
    ensures { IfOk result (λ name.
        chars (string_bytes name.value) ≡ kind_name grammar.now.names kind) }
{
    if let Kind::Rule(rule) = kind
        && let Some(name) = names.get(rule)
    {
        return name.clone();
    }
    name_of(alloc, grammar, kind)
}

/// The rows of `token_rows` with names that outlive the grammar: the tokens of a rule share one.
/// Refuses for memory alone.
pub fn shared_rows(
    alloc: Global,
    grammar: &Grammar,
    unit: Unit,
    text: &Text,
    tokens: &Tokens,
) -> Result<Vec<SharedRow>, AllocError>
    ensures { IfOk result (λ rows.
        map shared_bytes rows.items
        ≡ map in_utf8 (rows_of unit grammar.now text.now tokens.now.items)) }
{
    let names = names_of_rules(alloc, grammar)?;
    let mut rows = Vec::with_capacity(alloc, tokens.count())?;
    let mut places = text.places(unit);
    for token in tokens.items().iter_from(0) {
        let start = places.position();
        places.advance(token.length() as usize);
        let end = places.position();
        let name = shared_name(alloc, grammar, &names, token.kind())?;
        let range = Range { start, end };
        rows.push(SharedRow { name, range })?;
    }
    Ok(rows)
}
