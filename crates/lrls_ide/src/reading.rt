//! What the files of a language have.

use crate::files::{Files, beside};
use commands::Fault;
use completion::texts;
use docs::{Language, LoadFault};
use grammar_reports::{GrammarReport, LinePart, report};
use ide::{Shown, Written};
use settings::{Settings, TOKEN_TYPES, guess};
use settings_files::{SettingsFault, grammar_of, read};
use std::alloc::{AllocError, Global};
use std::io::ErrorKind;

/// The bytes of the file of this path.
pub fn bytes_of(rt: &HostRuntime, path: &str) -> Result<Vec<u8>, Fault> {
    match std::fs::read(rt, path) {
        Ok(bytes) => Ok(bytes),
        Err(error) if error.kind() == ErrorKind::OutOfMemory => Err(Fault::Memory),
        Err(_) => Err(Fault::CannotRead(String::from_str(rt.alloc(), path)?)),
    }
}

/// The text of the settings in a file: there may be none, or what it has may be no text.
#[derive(Drop)]
pub enum SettingsText {
    None,
    NoText,
    Text(String),
}

/// The text of the settings in the file of this path.
pub fn settings_text(rt: &HostRuntime, path: &str) -> SettingsText {
    let Ok(bytes) = std::fs::read(rt, path) else {
        return SettingsText::None;
    };
    match String::from_utf8(bytes) {
        Ok(text) => SettingsText::Text(text),
        Err(_) => SettingsText::NoText,
    }
}

/// The path of the grammar, which the settings may name.
pub fn grammar_path(
    alloc: Global,
    files: &Files,
    text: &SettingsText,
) -> Result<String, AllocError> {
    if let SettingsText::Text(text) = text
        && let Ok(Some(name)) = grammar_of(alloc, text.as_str())
    {
        return beside(alloc, files.settings.as_str(), name.as_str());
    }
    String::from_str(alloc, files.grammar.as_str())
}

/// The settings of a language, and the mistake in their file, if there is one: then they are
/// guessed.
#[derive(Drop)]
pub struct FoundSettings {
    pub settings: Settings,
    pub mistake: Option<String>,
}

/// What to say of a mistake in the settings.
fn mistake_words(alloc: Global, path: &str, mistake: &str) -> Result<String, AllocError> {
    format!(in alloc;
        "{path}: {mistake}; until it is mended, the settings are guessed from the grammar"
    )
}

/// The settings of a language, by the text of their file.
pub fn settings_of(
    alloc: Global,
    language: &Language,
    path: &str,
    text: &SettingsText,
) -> Result<FoundSettings, AllocError> {
    let mistake = match text {
        SettingsText::None => None,
        SettingsText::NoText => Some(mistake_words(alloc, path, "is not UTF-8")?),
        SettingsText::Text(text) => match read(alloc, language.grammar(), text.as_str()) {
            Ok(settings) => {
                return Ok(FoundSettings {
                    settings,
                    mistake: None,
                });
            }
            Err(SettingsFault::Memory) => return Err(AllocError),
            Err(fault) => {
                let said = format!(in alloc; "{fault}")?;
                Some(mistake_words(alloc, path, said.as_str())?)
            }
        },
    };
    Ok(FoundSettings {
        settings: guess(alloc, language.grammar())?,
        mistake,
    })
}

/// What an editor is shown of a language of this name.
pub fn shown_of(
    alloc: Global,
    language: &Language,
    name: &str,
    settings: Settings,
) -> Result<Shown, AllocError> {
    Ok(Shown {
        name: format!(in alloc; "lrls-ide {name}")?,
        types: &TOKEN_TYPES,
        texts: texts(alloc, language.grammar(), &settings)?,
        settings,
    })
}

/// What the files of a language have.
#[derive(Drop)]
pub enum Found {
    /// A language, and the mistake in its settings, if there is one.
    Language(Written, Option<String>),
    /// A grammar file with this fault.
    Fault(GrammarReport),
}

impl Found {
    /// The language, where the grammar has no fault.
    pub fn language(self) -> Option<Written> {
        match self {
            Found::Language(language, _) => Some(language),
            Found::Fault(_) => None,
        }
    }
}

/// A report that names no line.
fn without_line(alloc: Global, message: &str) -> Result<Found, AllocError> {
    Ok(Found::Fault(GrammarReport {
        message: String::from_str(alloc, message)?,
        at: LinePart {
            line: 0,
            start: 0,
            end: 0,
        },
        hint: None,
        conflict: None,
    }))
}

/// What the bytes of a grammar file have, with these settings.
fn of_bytes(
    alloc: Global,
    files: &Files,
    bytes: &[u8],
    settings: &SettingsText,
) -> Result<Found, AllocError> {
    let Ok(text) = str::from_utf8(bytes) else {
        return without_line(alloc, "the file is not UTF-8");
    };
    let language = match Language::load(alloc, text) {
        Ok(language) => language,
        Err(LoadFault::Memory) => return Err(AllocError),
        Err(fault) => return Ok(Found::Fault(report(alloc, &fault, text)?)),
    };
    let FoundSettings { settings, mistake } = settings_of(
        alloc,
        &language,
        files.settings.as_str(),
        settings,
    )?;
    let shown = shown_of(alloc, &language, files.name.as_str(), settings)?;
    Ok(Found::Language(Written { language, shown }, mistake))
}

/// What the files of a language have now. Refuses for memory alone.
pub fn find_language(rt: &HostRuntime, files: &Files) -> Result<Found, AllocError> {
    let alloc = rt.alloc();
    let settings = settings_text(rt, files.settings.as_str());
    let path = grammar_path(alloc, files, &settings)?;
    match std::fs::read(rt, path.as_str()) {
        Ok(bytes) => of_bytes(alloc, files, &bytes, &settings),
        Err(error) if error.kind() == ErrorKind::OutOfMemory => Err(AllocError),
        Err(_) => without_line(alloc, "the file can't be read"),
    }
}

/// The language of which every text is one without tokens: it is served until the grammar has no
/// fault.
pub fn blank(alloc: Global, name: &str) -> Result<Option<Written>, AllocError> {
    let text = "lrgrammar 1\nskip ANYTHING = [^\\u{0}]+ | \"\\u{0}\"\nstart Text\nText =\n";
    let Ok(language) = Language::load(alloc, text) else {
        return Ok(None);
    };
    let settings = guess(alloc, language.grammar())?;
    let shown = shown_of(alloc, &language, name, settings)?;
    Ok(Some(Written { language, shown }))
}
