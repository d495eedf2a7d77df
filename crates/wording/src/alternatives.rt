//! What was expected, as messages name it.

ghost use Rattle.std.specs.Prelude.{◌≡◌, ◌+◌, if◌then◌else◌, IfOk, length, vec_len};

use crate::found::END;
use crate::words::{is_operator, word};
use grammar::{Grammar, Kind};
use settings::Settings;
use std::alloc::{AllocError, Global};

/// What was expected at a place: rules, in file order, and perhaps the end of the text, by a
/// grammar and the settings of its language.
#[derive(Clone, Copy)]
pub struct Expected<'a> {
    pub alloc: Global,
    pub grammar: &'a Grammar,
    pub settings: &'a Settings,
    pub rules: &'a [usize],
    pub at_end: bool,
}

impl Expected<'_> {
    /// Whether several operators are named together.
    pub fn merges(self) -> bool {
        let settings = self.settings;
        let is_first = |rule: &&usize| is_operator(settings, **rule);
        self.rules.iter().filter(is_first).count() > 1
    }

    /// What the rules are called, each word once: operators last, and together where there are
    /// several, and then the end.
    pub fn words(self) -> Result<Vec<String>, AllocError> {
        let mut words = Vec::new(self.alloc);
        self.add_words(&mut words, false)?;
        if self.merges() {
            add(&mut words, String::from_str(self.alloc, "an operator")?)?;
        } else {
            self.add_words(&mut words, true)?;
        }
        if self.at_end {
            add(&mut words, String::from_str(self.alloc, END)?)?;
        }
        Ok(words)
    }

    /// Adds what the operators are called, or what the others are.
    fn add_words(self, words: &mut Vec<String>, operators: bool) -> Result<(), AllocError> {
        for rule in self.rules {
            if is_operator(self.settings, *rule) == operators {
                add(words, word(self.alloc, self.grammar, self.settings, *rule)?)?;
            }
        }
        Ok(())
    }

    /// Each rule by what it is called, and by its name where that is something else; then the end.
    pub fn named(self) -> Result<Vec<String>, AllocError>
        ensures { IfOk result (λ all.
            vec_len all ≡ length self.entry.rules.now + (if self.entry.at_end then 1 else 0)) }
    {
        let mut all = Vec::new(self.alloc);
        for rule in self.rules {
            all.push(self.named_rule(*rule)?)?;
        }
        if self.at_end {
            all.push(String::from_str(self.alloc, END)?)?;
        }
        Ok(all)
    }

    fn named_rule(self, rule: usize) -> Result<String, AllocError> {
        let word = word(self.alloc, self.grammar, self.settings, rule)?;
        let name = self.grammar.kind_name(Kind::Rule(rule));
        if word.as_str() == name {
            Ok(word)
        } else {
            format!(in self.alloc; "{word} ({name})")
        }
    }
}

/// Adds a word that isn't there.
fn add(words: &mut Vec<String>, word: String) -> Result<(), AllocError> {
    if !words.iter().any(|other| other.as_str() == word.as_str()) {
        words.push(word)?;
    }
    Ok(())
}
