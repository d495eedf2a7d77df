//! The replies about the texts of grammar files.

ghost use Rattle.std.specs.Prelude.{◌≡◌, IfOk};
ghost use Rattle.serde_json.specs.View.{view};
ghost use Rattle.docs.specs.Languages.{IsLanguageOf, IsLoadFault};
ghost use Rattle.replies.specs.Ids.{id_view};
ghost use Rattle.editor_replies.specs.Sent.{message_view};
ghost use Rattle.own_replies.specs.Replies.{is_memory, IsTold, TellsWhether};

use docs::{Language, LoadFault};
use editor_replies::{Sent, Value, faulty_grammar_value, sound_grammar_value};
use grammar_reports::report;
use rpc::Id;
use settings::guess;
use settings_files::to_toml;
use std::alloc::{AllocError, Global};

/// Whether memory was wanting.
fn is_memory(fault: &LoadFault) -> bool
    ensures { result ≡ is_memory fault.now }
{
    matches!(fault, LoadFault::Memory)
}

/// The settings that are guessed for a language, as the settings file beside its grammar.
fn guessed(alloc: Global, language: &Language) -> Result<String, AllocError> {
    let grammar = language.grammar();
    let settings = guess(alloc, grammar)?;
    to_toml(alloc, grammar, &settings, None)
}

/// What is told of a text that defines this language.
fn told_sound(alloc: Global, text: &str, language: &Language) -> Result<Value, AllocError>
    requires { IsLanguageOf text.now language.now.file }
    ensures { IfOk result (λ value. TellsWhether text.now (view value)) }
{
    let settings = guessed(alloc, language)?;
    sound_grammar_value(alloc, settings.as_str())
}

/// What is told of a text with this fault.
fn told_faulty(alloc: Global, text: &str, fault: &LoadFault) -> Result<Value, AllocError>
    requires { IsLoadFault text.now fault.now }
    ensures { IfOk result (λ value. TellsWhether text.now (view value)) }
{
    if is_memory(fault) {
        return Err(AllocError);
    }
    let report = report(alloc, fault, text)?;
    faulty_grammar_value(alloc, &report)
}

/// What is wrong with the grammar file of this text, or what settings are guessed for it.
fn grammar_told(alloc: Global, text: &str) -> Result<Value, AllocError>
    ensures { IfOk result (λ value. TellsWhether text.now (view value)) }
{
    match Language::load(alloc, text) {
        Ok(language) => told_sound(alloc, text, &language),
        Err(fault) => told_faulty(alloc, text, &fault),
    }
}

/// The reply with what is told of the grammar file of this text.
pub(crate) fn grammar_reply(alloc: Global, id: Id, text: &str) -> Result<Sent, AllocError>
    ensures { IfOk result (λ message. IsTold (id_view id) text.now (message_view message)) }
{
    Ok(Sent::Result {
        id,
        value: grammar_told(alloc, text)?,
    })
}
