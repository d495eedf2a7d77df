//! The text of a tree.

ghost use Rattle.std.specs.Prelude.{◌≡◌, ◌<◌, [], length, slice_index, slice_index_or, IfOk, string_bytes, encode_utf8_all};
ghost use Rattle.std.specs.Str.{chars};
ghost use Rattle.definitions.specs.TreeEdits.{plain};
ghost use Rattle.trees.specs.declared.store.Child.{Child};
ghost use Rattle.trees.specs.Cells.{tree};
ghost use Rattle.grammar.specs.Grammars.{lefts};
ghost use Rattle.views.specs.Views.{text_of, IsBegun};

use grammar::Grammar;
use std::alloc::{AllocError, Global};
use trees::{Child, Children, NodeId, Store};

/// The text of the tree of a node. A token is its kind's name. A branch is, in parentheses, the
/// name of its nonterminal and the texts of its children, with a space before each. Refuses for
/// memory alone.
pub fn tree_text(
    alloc: Global,
    grammar: &Grammar,
    store: &Store,
    root: NodeId,
) -> Result<String, AllocError>
    requires { root.index < length store.now }
    ensures text { IfOk result (λ s.
        chars (string_bytes s) ≡ text_of grammar.now (plain (tree store.now (Child.Node root)))) }
    ensures bytes { IfOk result (λ s.
        string_bytes s
        ≡ encode_utf8_all (text_of grammar.now (plain (tree store.now (Child.Node root))))) }
{
    let mut text = String::new(alloc);
    let mut open = Vec::new(alloc);
    open.push(begin(grammar, store, root, &mut text)?)?;
    while let Some(mut children) = open.pop() {
        let Some(child) = children.next() else {
            text.push(')')?;
            continue;
        };
        open.push(children)?;
        text.push(' ')?;
        match child {
            Child::Token(kind) => text.push_str(grammar.kind_name(kind))?,
            Child::Node(id) => open.push(begin(grammar, store, id, &mut text)?)?,
        }
    }
    Ok(text)
}

/// Writes a node's text up to its children, and returns these.
fn begin<'a>(
    grammar: &Grammar,
    store: &'a Store,
    id: NodeId,
    text: &mut String,
) -> Result<Children<'a>, AllocError>
    requires { id.index < length store.now }
    ensures { IfOk result (λ children.
        IsBegun grammar.now store.now id (string_bytes text.old) (string_bytes text.new) children) }
{
    text.push('(')?;
    text.push_str(name_of(grammar, store.production(id)))?;
    Ok(store.children(id))
}

/// The name of the nonterminal of a production.
fn name_of(grammar: &Grammar, production: usize) -> &str
    ensures { chars result.now
        ≡ slice_index_or grammar.now.nonterminals (slice_index (lefts grammar.now) production) [] }
{
    let nonterminal = if production < grammar.productions() {
        grammar.left(production)
    } else {
        0
    };
    if nonterminal < grammar.nonterminals() {
        grammar.nonterminal_name(nonterminal)
    } else {
        ""
    }
}
