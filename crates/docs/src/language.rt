//! The language of a grammar file: its scanner and its tables.

ghost use Rattle.std.specs.Prelude.{◌≡◌, length, All, IfOk, IfErr, OnErr};
ghost use Rattle.std.specs.Str.{chars};
ghost use Rattle.definitions.specs.TokenEdits.{plain_splice};
ghost use Rattle.dfa.specs.Table.{IsAutomaton};
ghost use Rattle.grammar.specs.Grammars.{lexicon_of};
ghost use Rattle.lexer.specs.Rescans.{AreTokensAfter, IsEdited};
ghost use Rattle.lexer.specs.Tokens.{AreTokensOf};
ghost use Rattle.docs.specs.Languages.{IsLanguageOf, IsLoadFault};
ghost use Rattle.docs.specs.declared.language.LoadFault.TheVariants.{Memory};

use definitions::{Edit, KindSplice};
use dfa::{Automaton, DfaFault};
use grammar::{Grammar, GrammarCause, GrammarFault};
use lexer::{Bytes, Characters, Scanner, Tokens, Whole};
use std::alloc::{AllocError, Global};
use std::fmt;
use std::marker::Model;
use tables::{Conflict, TableFault, Tables};
use text::Text;
use thiserror::Error;

/// What a grammar file defines, made ready for scanning and parsing.
#[derive(Drop)]
pub struct Language {
    scanner: Scanner,
    tables: Tables,
}

impl Model for Language {
    ghost use Rattle.std.specs.Prelude.{◌≡◌};
    ghost use Rattle.std.specs.Coded.{codes};
    ghost use Rattle.definitions.specs.contracts.expression.Expression as e;
    ghost use Rattle.docs.specs.Languages.{LanguageData};

    ghost Value = { LanguageData };

    ghost coded = { Prim.hlevel (codes, e.the_row.coded) };

    ghost view = { λ l. record { file = l.scanner; tables = l.tables } };

    ghost invariant = { λ l. l.tables.grammar ≡ l.scanner.grammar };
}

/// Why a grammar file defines no language.
#[derive(Drop, Error)]
pub enum LoadFault {
    /// The text is no grammar file.
    #[error(transparent)]
    Grammar(GrammarFault),
    /// The automaton of its token rules would have more than 4,096 states.
    #[error("the automaton would have more than 4,096 states")]
    TooManyStates,
    /// The canonical collection has more than 8,192 sets.
    #[error("the canonical collection has more than 8,192 sets")]
    TooManySets,
    /// The grammar is not LR(1). The numbers of the conflict are those of the grammar.
    #[error("the grammar isn't LR(1)")]
    Conflict(Grammar, Conflict),
    /// Memory was refused.
    #[error("memory was refused")]
    Memory,
}

impl fmt::Debug for LoadFault {
    /// Writes the variant and its fault or conflict, without the grammar.
    fn fmt<W: fmt::Write>(&self, f: &mut fmt::Formatter<W>) -> fmt::Result {
        match self {
            LoadFault::Grammar(fault) => f.debug_tuple("Grammar").field(fault).finish(),
            LoadFault::TooManyStates => f.write_str("TooManyStates"),
            LoadFault::TooManySets => f.write_str("TooManySets"),
            LoadFault::Conflict(_, conflict) => f.debug_tuple("Conflict").field(conflict).finish(),
            LoadFault::Memory => f.write_str("Memory"),
        }
    }
}

impl From<AllocError> for LoadFault {
    ghost from_gives = { λ _ e. e ≡ Memory };

    fn from(_: AllocError) -> LoadFault {
        LoadFault::Memory
    }
}

impl Language {
    /// The language of a grammar file's text, or why it defines none.
    ///
    /// Reported first is a fault of the file, then too many states of the automaton, then too many
    /// sets of the tables, then a conflict.
    pub fn load(alloc: Global, text: &str) -> Result<Language, LoadFault>
        ensures language { IfOk result (λ l. IsLanguageOf text.now l.file) }
        ensures fault { IfErr result (IsLoadFault text.now) }
    {
        let grammar = match Grammar::read(alloc, text) {
            Ok(grammar) => grammar,
            Err(
                GrammarFault {
                    cause: GrammarCause::Memory,
                    ..
                },
            ) => return Err(LoadFault::Memory),
            Err(fault) => return Err(LoadFault::Grammar(fault)),
        };
        let scanner = match Scanner::new(alloc, grammar) {
            Ok(scanner) => scanner,
            Err(DfaFault::TooManyStates) => return Err(LoadFault::TooManyStates),
            Err(DfaFault::Memory) => return Err(LoadFault::Memory),
        };
        match Tables::build(alloc, scanner.grammar()) {
            Ok(tables) => Ok(Language { scanner, tables }),
            Err(TableFault::TooManySets) => Err(LoadFault::TooManySets),
            Err(TableFault::Conflict(conflict)) => {
                Err(LoadFault::Conflict(scanner.into_grammar(), conflict))
            }
            Err(TableFault::Memory) => Err(LoadFault::Memory),
        }
    }

    /// What the file defines.
    pub fn grammar(&self) -> &Grammar
        ensures { result.now ≡ self.now.file }
    {
        self.scanner.grammar()
    }

    /// The automaton of the file's token rules.
    pub fn automaton(&self) -> &Automaton
        ensures { IsAutomaton self.now.file.patterns result.now }
    {
        self.scanner.automaton()
    }

    /// The tables of the file's grammar.
    pub fn tables(&self) -> &Tables
        ensures is { result.now ≡ self.now.tables }
        ensures grammar { self.now.tables.grammar ≡ self.now.file.grammar }
    {
        &self.tables
    }

    /// The tokens of a text, of which this is the UTF-8. Refuses for memory alone.
    pub fn scan(&self, alloc: Global, text: &Text, utf8: &str) -> Result<Tokens, AllocError>
        requires { text.now ≡ chars utf8.now }
        ensures tokens { IfOk result
            (λ r. AreTokensOf (lexicon_of self.now.file) text.now r.items) }
        ensures born { IfOk result (λ r. All (λ x. x.born ≡ 0) r.items) }
        ensures scanned { IfOk result (λ r. r.scanned ≡ length r.items) }
    {
        let (grammar, automaton) = (self.scanner.grammar(), self.scanner.automaton());
        // Where there are no more bytes than characters, all are ASCII.
        if utf8.len() == text.len() {
            return Tokens::scan(alloc, grammar, automaton, &Bytes(utf8.as_bytes()));
        }
        let characters = text.characters(alloc)?;
        Tokens::scan(alloc, grammar, automaton, &Characters(&characters))
    }

    /// Brings the tokens to the text after an edit, and returns how the kinds of the significant
    /// ones change. Refuses for memory alone, and leaves them as they were then.
    pub fn rescan(
        &self,
        alloc: Global,
        tokens: &mut Tokens,
        text: &Text,
        edit: Edit,
    ) -> Result<KindSplice, AllocError>
        requires { IsEdited (lexicon_of self.now.file) edit tokens.old.items text.now }
        ensures after { IfOk result (λ s. AreTokensAfter (lexicon_of self.now.file) edit text.now
            (plain_splice s) tokens.old tokens.new) }
        ensures err { OnErr result (tokens.new ≡ tokens.old) }
    {
        // The read opens the invariant of the text.
        let _length = text.len();
        let (grammar, automaton) = (self.scanner.grammar(), self.scanner.automaton());
        tokens.rescan(alloc, grammar, automaton, &Whole(text), edit)
    }
}
