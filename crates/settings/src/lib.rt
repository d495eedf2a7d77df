//! The settings of a language: the types of its tokens, the words of its messages, and its
//! symbols. For whoever shows documents of the language in an editor.
//!
//! `guess` makes settings from a grammar alone; `settings_files` reads them from a file. `literal`
//! is the text of a rule that has only one, `token_type` and `symbol_kind` are numbers by their
//! names, and `nothing` is an empty table.
//!
//! Words: a *type* of tokens and a *kind* of symbols are the protocol's (LSP 3.17,
//! "SemanticTokenTypes", "SymbolKind"), by number: a type by its place in `TOKEN_TYPES`, a kind by
//! its place in `SYMBOL_KINDS` and one more. A *symbol* of an outline is a node that has a name.
//!
//! Limits: those of a grammar. A call costs the grammar, and a look-up by name the names. In the
//! example `grammar` is read from the grammar file in README.md.
//!
//! ```
//! let settings = guess(alloc, grammar).ok()?;
//! let number = settings.colours.first().copied()??;
//! let name = TOKEN_TYPES.get(number as usize)?;
//! println!(rt; "NUM is a {name}").ok()
//! // NUM is a number
//! ```
#![tactic(auto)]

mod expressions;
mod guesses;
mod kinds;
mod nodes;
mod settings;

pub use definitions::Symbol;
pub use expressions::{RuleText, literal};
pub use guesses::{guess, nothing};
pub use kinds::{
    COMMENT, KEYWORD, NUMBER, OPERATOR, STRING, SYMBOL_KINDS, TOKEN_TYPES, VARIABLE, symbol_kind,
    token_type,
};
pub use settings::{NamePart, Settings, SymbolRule};
