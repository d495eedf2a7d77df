//! Which rules of a grammar are brackets.

use definitions::Symbol;
use grammar::Grammar;
use settings::{RuleText, literal};
use std::alloc::{AllocError, Global};

/// The rules of an opening and of a closing bracket.
#[derive(Clone, Copy, PartialEq, Eq)]
struct Pair {
    opening: usize,
    closing: usize,
}

/// What the tokens of a rule can be.
#[derive(Clone, Copy)]
enum Role {
    /// An opening bracket, which this one closes.
    Opening(char),
    /// This closing bracket.
    Closing(char),
    /// A word, in one case or in any.
    Word,
    Other,
}

/// The brackets of a grammar: parentheses, square brackets and braces that stand in one
/// production, and two words at both ends of a production that has a nonterminal between them.
#[derive(Drop)]
pub(crate) struct Pairs {
    pairs: Vec<Pair>,
}

impl Pairs {
    /// Those of a grammar.
    pub(crate) fn of(alloc: Global, grammar: &Grammar) -> Result<Pairs, AllocError> {
        let roles = roles(alloc, grammar)?;
        let mut pairs = Pairs {
            pairs: Vec::new(alloc),
        };
        for production in 0..grammar.productions() {
            let right = grammar.right(production);
            pairs.add_signs(alloc, &roles, right)?;
            pairs.add_words(&roles, right)?;
        }
        Ok(pairs)
    }

    /// Whether a token of the first rule is closed by one of the second.
    pub(crate) fn are(&self, opening: usize, closing: usize) -> bool {
        self.pairs.contains(&Pair { opening, closing })
    }

    /// Whether tokens of a rule open something.
    pub(crate) fn open(&self, rule: usize) -> bool {
        self.pairs.iter().any(|pair| pair.opening == rule)
    }

    fn add(&mut self, opening: usize, closing: usize) -> Result<(), AllocError> {
        if !self.are(opening, closing) {
            self.pairs.push(Pair { opening, closing })?;
        }
        Ok(())
    }

    /// Adds the brackets of a right side that are signs.
    fn add_signs(
        &mut self,
        alloc: Global,
        roles: &[Role],
        right: &[Symbol],
    ) -> Result<(), AllocError> {
        let mut open: Vec<(usize, char)> = Vec::new(alloc);
        for symbol in right {
            let Symbol::Rule(rule) = *symbol else {
                continue;
            };
            match (role_of(roles, rule), open.last().copied()) {
                (Role::Opening(closer), _) => open.push((rule, closer))?,
                (Role::Closing(sign), Some((opening, closer))) if sign == closer => {
                    open.pop();
                    self.add(opening, rule)?;
                }
                _ => {}
            }
        }
        Ok(())
    }

    /// Adds the words at both ends of a right side, if they are brackets.
    fn add_words(&mut self, roles: &[Role], right: &[Symbol]) -> Result<(), AllocError> {
        if let [Symbol::Rule(first), inner @ .., Symbol::Rule(last)] = right
            && first != last
            && is_word(roles, *first)
            && is_word(roles, *last)
            && inner
                .iter()
                .any(|symbol| matches!(symbol, Symbol::Nonterminal(_)))
        {
            self.add(*first, *last)?;
        }
        Ok(())
    }
}

fn role_of(roles: &[Role], rule: usize) -> Role {
    roles.get(rule).copied().unwrap_or(Role::Other)
}

fn is_word(roles: &[Role], rule: usize) -> bool {
    matches!(role_of(roles, rule), Role::Word)
}

/// The role of each rule.
fn roles(alloc: Global, grammar: &Grammar) -> Result<Vec<Role>, AllocError> {
    let mut roles = Vec::with_capacity(alloc, grammar.rules())?;
    for pattern in grammar.patterns() {
        roles.push(match literal(alloc, pattern.expression())? {
            Some(text) => role_in(&text),
            None => Role::Other,
        })?;
    }
    Ok(roles)
}

/// The role of a rule whose tokens have this text.
fn role_in(text: &RuleText) -> Role {
    match text.text.as_str() {
        "(" => Role::Opening(')'),
        "[" => Role::Opening(']'),
        "{" => Role::Opening('}'),
        ")" => Role::Closing(')'),
        "]" => Role::Closing(']'),
        "}" => Role::Closing('}'),
        word if is_of_letters(word) => Role::Word,
        _ => Role::Other,
    }
}

/// Whether a text has letters and no other character besides `_`.
fn is_of_letters(text: &str) -> bool {
    text.chars().all(|c| c == '_' || c.is_alphabetic()) && text.chars().any(|c| c != '_')
}
