//! Grammar files: `grammar` and `grammar_file`.

ghost use Rattle.std.specs.Prelude.{IfOk, IfErr, ◌≡◌, List, map, ◌≤◌, length, [], slice_index_or, ◌<◌, false, ◌↔◌, IsTrue};
ghost use Rattle.grammar_file.specs.Causes.{Reports, cause_of};
ghost use Rattle.grammar_file.specs.declared.fault.GrammarCause.{GrammarCause as Cause};
ghost use Rattle.grammar_file.specs.declared.fault.GrammarFault.{GrammarFault as Fault};
ghost use Rattle.grammar_file.specs.declared.fault.Limit.{Limit as Bound};
ghost use Rattle.grammar.specs.Faults.{IsFault};
ghost use Rattle.grammar.specs.Grammars.{FileGrammar, IsGrammar};
ghost use Rattle.grammar.specs.Meaning.{IsGrammarOf};
ghost use Rattle.definitions.specs.declared.Symbol.{Symbol};
ghost use Rattle.grammar.specs.Notes.{AreNotes, symbol_name};
ghost use Rattle.std.specs.Str.{chars};
ghost use Rattle.definitions.specs.Answers.{kind_name};
ghost use Rattle.definitions.specs.Tokens.{is_skipped};
ghost use Rattle.definitions.specs.Trees.{left_of, right_of};

use grammar::{Grammar, GrammarCause, GrammarFault, Kind, KindSplice, Limit, Notes, Symbol};
use patterns::{Pattern, PatternFault};
use std::alloc::Global;

/// `Kind`.
pub fn kind(kind: Kind) -> Option<usize> {
    match kind {
        Kind::Rule(rule) => Some(rule),
        Kind::Invalid => None,
    }
}

/// `Symbol`.
pub fn symbol(symbol: Symbol) -> usize {
    match symbol {
        Symbol::Rule(rule) => rule,
        Symbol::Nonterminal(nonterminal) => nonterminal,
    }
}

/// `Grammar::read`.
pub fn read(alloc: Global, text: &str) -> Result<Grammar, GrammarFault>
    ensures grammar { IfOk result (λ g. IsGrammarOf text.now g) }
    ensures fault { IfErr result (λ f. Reports f (IsFault text.now)) }
    ensures refused { IfErr result (λ f.
        Reports f (λ _ _. (g : FileGrammar) → IsGrammarOf text.now g → ⊥)) }
{
    Grammar::read(alloc, text)
}

/// `GrammarFault`.
pub fn grammar_fault(fault: GrammarFault) -> (usize, GrammarCause) {
    let GrammarFault { line, cause } = fault;
    (line, cause)
}

/// `GrammarCause`: the name at fault, if the cause has one.
pub fn grammar_cause(cause: &GrammarCause) -> Option<&str> {
    match cause {
        GrammarCause::FirstLine
        | GrammarCause::BadLine
        | GrammarCause::NoStart
        | GrammarCause::SecondStart
        | GrammarCause::BadPattern(_)
        | GrammarCause::Limit(_)
        | GrammarCause::Memory => None,
        GrammarCause::DefinedTwice(name)
        | GrammarCause::Undefined(name)
        | GrammarCause::Reserved(name)
        | GrammarCause::NotANonterminal(name)
        | GrammarCause::Unproductive(name)
        | GrammarCause::SkipInProduction(name) => Some(name.as_str()),
    }
}

/// `GrammarCause::BadPattern`.
pub fn bad_pattern(fault: PatternFault) -> GrammarCause {
    GrammarCause::BadPattern(fault)
}

/// `GrammarCause::Limit`.
pub fn limit(limit: Limit) -> GrammarCause {
    GrammarCause::Limit(limit)
}

/// `Limit`.
pub fn limits(limit: Limit) -> u8 {
    match limit {
        Limit::File => 1,
        Limit::Tokens => 2,
        Limit::Nonterminals => 3,
        Limit::Productions => 4,
        Limit::Symbols => 5,
    }
}

/// `Grammar::notes`.
pub fn notes(grammar: &Grammar) -> Notes<'_>
    ensures { (notes : List Symbol) × AreNotes grammar.now grammar.now.defined notes ×
        (result ≡ map (symbol_name grammar.now) notes) }
{
    grammar.notes()
}

/// `Grammar::patterns`.
pub fn patterns(grammar: &Grammar) -> &[Pattern]
    ensures is { result.now ≡ grammar.now.patterns }
    ensures few { length grammar.now.patterns ≤ 256 }
{
    grammar.patterns()
}

/// `KindSplice`.
pub fn splice(splice: KindSplice) -> (usize, usize, Vec<Kind>) {
    let KindSplice { from, to, kinds } = splice;
    (from, to, kinds)
}

/// `Notes`: its items.
pub fn next<'a>(notes: &mut Notes<'a>) -> Option<&'a str> {
    let item: Option<&'a str> = notes.next();
    item
}

/// `Grammar::start`.
pub fn start(grammar: &Grammar) -> usize
    ensures start { result ≡ grammar.now.grammar.start }
    ensures sound { IsGrammar grammar.now }
{
    grammar.start()
}

/// `Grammar::rules`.
pub fn rules(grammar: &Grammar) -> usize
    ensures { result ≡ length grammar.now.names }
{
    grammar.rules()
}

/// `Grammar::nonterminals`.
pub fn nonterminals(grammar: &Grammar) -> usize
    ensures { result ≡ length grammar.now.nonterminals }
{
    grammar.nonterminals()
}

/// `Grammar::productions`.
pub fn productions(grammar: &Grammar) -> usize
    ensures { result ≡ length grammar.now.grammar.productions }
{
    grammar.productions()
}

/// `Grammar::kind_name`.
pub fn kind_name(grammar: &Grammar, kind: Kind) -> &str
    ensures { chars result.now ≡ kind_name grammar.now.names kind }
{
    grammar.kind_name(kind)
}

/// `Grammar::is_skipped`.
pub fn is_skipped(grammar: &Grammar, kind: Kind) -> bool
    ensures { result ≡ is_skipped grammar.now.skips kind }
{
    grammar.is_skipped(kind)
}

/// `Grammar::nonterminal_name`.
pub fn nonterminal_name(grammar: &Grammar, nonterminal: usize) -> &str
    requires { nonterminal < length grammar.now.nonterminals }
    ensures { chars result.now ≡ slice_index_or grammar.now.nonterminals nonterminal [] }
{
    grammar.nonterminal_name(nonterminal)
}

/// `Grammar::is_fold`.
pub fn is_fold(grammar: &Grammar, nonterminal: usize) -> bool
    ensures { result ≡ slice_index_or grammar.now.folds nonterminal false }
{
    grammar.is_fold(nonterminal)
}

/// `Grammar::left`.
pub fn left(grammar: &Grammar, production: usize) -> usize
    requires { production < length grammar.now.grammar.productions }
    ensures { result ≡ left_of grammar.now.grammar production }
{
    grammar.left(production)
}

/// `Grammar::right`.
pub fn right(grammar: &Grammar, production: usize) -> &[Symbol]
    requires { production < length grammar.now.grammar.productions }
    ensures { result.now ≡ right_of grammar.now.grammar production }
{
    grammar.right(production)
}

/// `equal_faults_are_the_same`.
pub fn equal_faults_are_the_same()
    ensures limits { (a b : Bound) →
        IsTrue (⟦<grammar_file::Limit as PartialEq>⟧.eq a b) ↔ (a ≡ b) }
    ensures causes { (a b : Cause) →
        IsTrue (⟦<grammar_file::GrammarCause as PartialEq>⟧.eq a b) ↔ (cause_of a ≡ cause_of b) }
    ensures faults { (a b : Fault) →
        IsTrue (⟦<grammar_file::GrammarFault as PartialEq>⟧.eq a b)
        ↔ ((a.line ≡ b.line)
        × IsTrue (⟦<grammar_file::GrammarCause as PartialEq>⟧.eq a.cause b.cause)) }
{
    grammar_file::laws::equal_faults_are_the_same();
}
