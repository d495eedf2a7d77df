//! The tables of `[[symbols]]`, read.

ghost use Rattle.std.specs.Prelude.{◌<◌, All, IfErr, IfOk, IfSome, length};
ghost use Rattle.grammar.specs.Grammars.{IsKnown};
ghost use Rattle.settings_files.specs.Faults.{IsTomlFault};
ghost use Rattle.settings.specs.Settings.{IsKind, IsPart, IsSymbolRule};

use crate::faults::{Mistake, Place, SettingsFault};
use crate::names::{nonterminal_named, rule_named, symbol_named};
use definitions::Symbol;
use grammar::Grammar;
use settings::{NamePart, SymbolRule, symbol_kind};
use std::alloc::Global;
use toml::{Table, Value};

/// The symbols of these tables, or the first mistake.
pub fn symbol_rules(
    alloc: Global,
    grammar: &Grammar,
    rows: &[Value],
) -> Result<Vec<SymbolRule>, SettingsFault>
    ensures symbols { IfOk result (λ symbols. All (IsSymbolRule grammar.now) symbols.items) }
    ensures fault { IfErr result (λ f. ¬ IsTomlFault f) }
{
    let mut symbols = Vec::with_capacity(alloc, rows.len())?;
    for (index, row) in rows.iter().enumerate() {
        let reader = Reader {
            alloc,
            grammar,
            number: index + 1,
        };
        symbols.push(reader.symbol(row)?)?;
    }
    Ok(symbols)
}

/// Reads the table of a symbol.
#[derive(Clone, Copy)]
struct Reader<'a> {
    alloc: Global,
    grammar: &'a Grammar,
    /// The number of the table, from 1.
    number: usize,
}

impl Reader<'_> {
    fn fault(self, mistake: Mistake) -> SettingsFault
        ensures { ¬ IsTomlFault result }
    {
        SettingsFault::Mistake {
            place: Place::Symbol(self.number),
            mistake,
        }
    }

    /// The symbol of a table.
    fn symbol(self, row: &Value) -> Result<SymbolRule, SettingsFault>
        ensures value { IfOk result (IsSymbolRule self.entry.grammar.now) }
        ensures fault { IfErr result (λ f. ¬ IsTomlFault f) }
    {
        let Some(table) = row.as_table() else {
            return Err(self.fault(Mistake::NoTable));
        };
        if !table.keys().all(|key| is_key(key)) {
            return Err(self.fault(Mistake::Keys));
        }
        match (table.get("node"), table.get("name"), table.get("kind")) {
            (Some(node), Some(name), Some(kind)) => Ok(SymbolRule {
                node: self.node(node)?,
                name: self.name(name)?,
                kind: self.kind(kind)?,
                with: self.with(table)?,
            }),
            _ => Err(self.fault(Mistake::Keys)),
        }
    }

    /// The text at a key.
    fn text<'v>(self, key: &'static str, value: &'v Value) -> Result<&'v str, SettingsFault>
        ensures { IfErr result (λ f. ¬ IsTomlFault f) }
    {
        match value {
            Value::String(text) => Ok(text.as_str()),
            _ => Err(self.fault(Mistake::NoKeyText(key))),
        }
    }

    /// The nonterminal whose nodes are symbols.
    fn node(self, value: &Value) -> Result<usize, SettingsFault>
        ensures value { IfOk result (λ node. node < length self.entry.grammar.now.nonterminals) }
        ensures fault { IfErr result (λ f. ¬ IsTomlFault f) }
    {
        let name = self.text("node", value)?;
        match nonterminal_named(self.grammar, name) {
            Some(node) => Ok(node),
            None => Err(self.fault(Mistake::NoNode(String::from_str(self.alloc, name)?))),
        }
    }

    /// The number of the kind of symbols.
    fn kind(self, value: &Value) -> Result<u32, SettingsFault>
        ensures value { IfOk result IsKind }
        ensures fault { IfErr result (λ f. ¬ IsTomlFault f) }
    {
        let name = self.text("kind", value)?;
        match symbol_kind(name) {
            Some(kind) => Ok(kind),
            None => Err(self.fault(Mistake::NoKind(String::from_str(self.alloc, name)?))),
        }
    }

    /// The rule of a token that the nodes have.
    fn with(self, table: &Table) -> Result<Option<usize>, SettingsFault>
        ensures value { IfOk result (λ with.
            IfSome with (λ rule. rule < length self.entry.grammar.now.names)) }
        ensures fault { IfErr result (λ f. ¬ IsTomlFault f) }
    {
        let Some(value) = table.get("with") else {
            return Ok(None);
        };
        let name = self.text("with", value)?;
        match rule_named(self.grammar, name) {
            Some(rule) => Ok(Some(rule)),
            None => Err(self.fault(Mistake::NoWith(String::from_str(self.alloc, name)?))),
        }
    }

    /// The parts that a name stands in.
    fn name(self, value: &Value) -> Result<Vec<NamePart>, SettingsFault>
        ensures value { IfOk result (λ parts. All (IsPart self.entry.grammar.now) parts.items) }
        ensures fault { IfErr result (λ f. ¬ IsTomlFault f) }
    {
        match value {
            Value::String(name) => {
                let part = self.part(name)?;
                Ok(vec![in self.alloc; part]?)
            }
            Value::Array(names) => self.parts(names),
            _ => Err(self.fault(Mistake::NoNames)),
        }
    }

    /// The parts of these names.
    fn parts(self, names: &[Value]) -> Result<Vec<NamePart>, SettingsFault>
        ensures value { IfOk result (λ parts. All (IsPart self.entry.grammar.now) parts.items) }
        ensures fault { IfErr result (λ f. ¬ IsTomlFault f) }
    {
        let mut parts = Vec::with_capacity(self.alloc, names.len())?;
        for name in names {
            let Some(text) = name.as_str() else {
                return Err(self.fault(Mistake::NoNames));
            };
            parts.push(self.part(text)?)?;
        }
        Ok(parts)
    }

    /// The part of this name, or with a dot a part within a part.
    fn part(self, text: &str) -> Result<NamePart, SettingsFault>
        ensures value { IfOk result (IsPart self.entry.grammar.now) }
        ensures fault { IfErr result (λ f. ¬ IsTomlFault f) }
    {
        match text.split_once('.') {
            Some((part, name)) => Ok(NamePart::Within {
                part: self.symbol_of(part)?,
                name: self.symbol_of(name)?,
            }),
            None => Ok(NamePart::Whole(self.symbol_of(text)?)),
        }
    }

    /// The symbol of the grammar of this name.
    fn symbol_of(self, name: &str) -> Result<Symbol, SettingsFault>
        ensures value { IfOk result (IsKnown self.entry.grammar.now) }
        ensures fault { IfErr result (λ f. ¬ IsTomlFault f) }
    {
        match symbol_named(self.grammar, name) {
            Some(symbol) => Ok(symbol),
            None => Err(self.fault(Mistake::NoPart(String::from_str(self.alloc, name)?))),
        }
    }
}

/// Whether a symbol may have this key.
fn is_key(key: &str) -> bool {
    matches!(key, "node" | "with" | "name" | "kind")
}
