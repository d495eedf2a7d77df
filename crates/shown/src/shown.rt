//! What an editor is shown of a language.

use settings::{RuleText, Settings};

/// What an editor is shown of a language besides its texts.
#[derive(Debug, Drop)]
pub struct Shown {
    /// The name of the server, which an editor may show.
    pub name: String,
    /// The types of tokens, by their numbers (LSP 3.17, "SemanticTokensLegend").
    pub types: &'static [&'static str],
    /// The colours of rules, as numbers of types, the words of messages, and the symbols.
    pub settings: Settings,
    /// The text of each rule that is offered (`completion::texts`).
    pub texts: Vec<Option<RuleText>>,
}
