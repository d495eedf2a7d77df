//! Why a settings file can't be used.

ghost use Rattle.std.specs.Prelude.{◌≡◌};
ghost use Rattle.settings_files.specs.declared.faults.SettingsFault.TheVariants.{Memory};

use settings::{SYMBOL_KINDS, TOKEN_TYPES};
use std::alloc::{AllocError, AllocFailed};
use std::fmt;
use thiserror::Error;

/// Why a settings file can't be used. Its `Display` says where and why, as what follows the file's
/// name and a colon.
#[derive(Debug, Drop, Error)]
pub enum SettingsFault {
    /// The text is no TOML. Line and column count from 1, the column characters.
    #[error("{message} (at line {line}, column {column})")]
    Toml {
        message: String,
        line: usize,
        column: usize,
    },
    /// What stands there is no setting.
    #[error("{place}: {mistake}")]
    Mistake {
        place: Place,
        mistake: Mistake,
    },
    /// Memory was refused, which says nothing of the file.
    #[error("memory was refused")]
    Memory,
}

/// Where in a settings file a mistake stands.
#[derive(Debug, Drop, Error)]
pub enum Place {
    /// At this key of the whole file.
    #[error("{0}")]
    Setting(String),
    /// In this table.
    #[error("[{0}]")]
    Table(&'static str),
    /// In a table, at this key.
    #[error("[{0}] {1}")]
    Entry(&'static str, String),
    /// In the table of `[[symbols]]` of this number, from 1.
    #[error("[[symbols]] number {0}")]
    Symbol(usize),
}

/// What is wrong there, and what is wanted.
#[derive(Debug, Drop)]
pub enum Mistake {
    /// There is no such setting.
    NoSetting,
    /// A string is wanted.
    NoString,
    /// A table is wanted.
    NoTable,
    /// A list of tables is wanted.
    NoTables,
    /// A text in quotes is wanted.
    NoText,
    /// A text that isn't empty is wanted.
    EmptyText,
    /// The grammar has no token rule of this name.
    NoRule(String),
    /// The protocol has no type of tokens of this name.
    NoType(String),
    /// A symbol lacks a key, or has an unknown one.
    Keys,
    /// The value of this key of a symbol has to be a text in quotes.
    NoKeyText(&'static str),
    /// A symbol's name has to be a text in quotes, or a list of such texts.
    NoNames,
    /// The node of a symbol is no nonterminal of the grammar.
    NoNode(String),
    /// A part of a symbol's name is no symbol of the grammar.
    NoPart(String),
    /// The protocol has no kind of symbols of this name.
    NoKind(String),
    /// The grammar has no token rule of this name, which a symbol is to be found with.
    NoWith(String),
}

impl fmt::Display for Mistake {
    fn fmt<W: fmt::Write>(&self, f: &mut fmt::Formatter<W>) -> fmt::Result {
        match self {
            Mistake::NoSetting => f.write_str(
                "no such setting; the settings are grammar, comment, colours, words, texts, symbols",
            ),
            Mistake::NoString => f.write_str("has to be a string"),
            Mistake::NoTable => f.write_str("has to be a table"),
            Mistake::NoTables => f.write_str("has to be a list of tables"),
            Mistake::NoText => f.write_str("has to be a text in quotes"),
            Mistake::EmptyText => f.write_str("has to be a text in quotes that isn't empty"),
            Mistake::NoRule(name) => write!(f, "{name} is no token rule of the grammar"),
            Mistake::NoType(name) => none_of(f, name, &TOKEN_TYPES),
            Mistake::Keys => f.write_str("has `node`, `name` and `kind`, and perhaps `with`"),
            Mistake::NoKeyText(key) => write!(f, "{key} has to be a text in quotes"),
            Mistake::NoNames => {
                f.write_str("name has to be a text in quotes, or a list of such texts")
            }
            Mistake::NoNode(name) => write!(f, "node: {name} is no nonterminal of the grammar"),
            Mistake::NoPart(name) => write!(
                f,
                "name: {name} is neither a token rule nor a nonterminal of the grammar",
            ),
            Mistake::NoKind(name) => {
                f.write_str("kind: ")?;
                none_of(f, name, &SYMBOL_KINDS)
            }
            Mistake::NoWith(name) => write!(f, "with: {name} is no token rule of the grammar"),
        }
    }
}

/// Writes that a text is none of these.
fn none_of<W: fmt::Write>(f: &mut fmt::Formatter<W>, text: &str, names: &[&str]) -> fmt::Result {
    write!(f, "\"{text}\" is none of")?;
    let mut separator = " ";
    for name in names {
        f.write_str(separator)?;
        f.write_str(name)?;
        separator = ", ";
    }
    Ok(())
}

impl From<AllocError> for SettingsFault {
    ghost from_gives = { λ _ e. e ≡ Memory };

    fn from(_: AllocError) -> SettingsFault {
        SettingsFault::Memory
    }
}

impl<T: Drop> From<AllocFailed<T>> for SettingsFault {
    ghost from_gives = { λ _ e. e ≡ Memory };

    fn from(_: AllocFailed<T>) -> SettingsFault {
        SettingsFault::Memory
    }
}
