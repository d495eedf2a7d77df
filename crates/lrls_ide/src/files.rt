//! The files of a language.

use crate::words::CommandLine;
use std::alloc::{AllocError, Global};

/// The paths of a language's files, and its name. The settings may be missing.
#[derive(Debug, Drop)]
pub struct Files {
    pub grammar: String,
    pub settings: String,
    pub name: String,
}

/// A path without what it ends in after its last dot, where that is in its last part.
fn stem(path: &str) -> &str {
    match path.rsplit_once('.') {
        Some((stem, end)) if !end.contains('/') && !stem.is_empty() => stem,
        _ => path,
    }
}

/// The last part of a path.
pub fn last(path: &str) -> &str {
    match path.rsplit_once('/') {
        Some((_, last)) => last,
        None => path,
    }
}

/// A path that is seen from the folder of another one.
pub fn beside(alloc: Global, path: &str, name: &str) -> Result<String, AllocError> {
    match path.rsplit_once('/') {
        Some((folder, _)) if !name.starts_with('/') => format!(in alloc; "{folder}/{name}"),
        _ => String::from_str(alloc, name),
    }
}

/// The path that the words name: a name without a dot or a slash is that of a grammar in the
/// folder of grammars, where there is one.
fn path_of(alloc: Global, line: &CommandLine) -> Result<String, AllocError> {
    let language = line.language.as_str();
    match &line.grammars {
        Some(folder) if !language.contains('/') && !language.contains('.') => {
            format!(in alloc; "{folder}/{language}.lr")
        }
        _ => String::from_str(alloc, language),
    }
}

/// The files of the language that the words name: a grammar, and beside it the settings of the
/// same name, or settings, and beside them the grammar of the same name. Refuses for memory alone.
pub fn files_of(alloc: Global, line: &CommandLine) -> Result<Files, AllocError> {
    let path = path_of(alloc, line)?;
    let stem = stem(path.as_str());
    let grammar = if path.as_str().ends_with(".toml") {
        format!(in alloc; "{stem}.lr")?
    } else {
        String::from_str(alloc, path.as_str())?
    };
    Ok(Files {
        grammar,
        settings: format!(in alloc; "{stem}.toml")?,
        name: String::from_str(alloc, last(stem))?,
    })
}
