//! What may follow at the cursor: what an editor offers there (LSP 3.17, "Completion Request").
//!
//! `texts` are the texts of a language's rules, made once, and `offers_at` what of them may follow
//! at an offset of a document: the rules that the definitions expect after the kinds before the
//! word at the cursor, of those that have a text that goes on with the word, in file order.
//!
//! Words: a *word* is the letters, digits and `_` right before the cursor. Nothing is offered
//! where every letter that is typed at its start goes into a token that is there, as in a comment
//! or a string. Behind a fault it is what may follow those kinds that given repairs make of the
//! kinds before the word (`mending`); without repairs nothing is offered there.
//!
//! Limits: those of `docs`. `offers_at` costs the word, the token before it, and the way from the
//! trees of the document down to that token. Behind a fault, or where the tables don't lead down
//! that way, it costs for each token before the word the moves of the LR(1) machine, which makes
//! no tree: together about a fifth of what it costs to open that text. In the example `language`
//! is loaded from the grammar file in README.md.
//!
//! ```
//! let settings = guess(alloc, language.grammar()).ok()?;
//! let texts = texts(alloc, language.grammar(), &settings).ok()?;
//! let doc = Doc::open(alloc, language, Unit::Utf16, 1, "(1 ").ok()?;
//! for offer in &offers_at(alloc, language, &texts, &doc, &[], 3).ok()?.offers {
//!     println!(rt; "rule {}: {}", offer.rule, offer.text).ok()?;
//!     // rule 1: +
//!     // rule 3: )
//! }
//! ```
#![tactic(auto)]

mod before;
mod expected;
mod following;
mod offers;
mod places;
mod rule_texts;
mod words;

pub use offers::{Offer, Offers, offers_at};
pub use rule_texts::texts;
pub use settings::RuleText;
