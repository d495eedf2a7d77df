//! The files of a language, which are looked at while it is served.

use crate::files::Files;
use crate::reading::{Found, find_language, grammar_path, settings_text};
use editor_replies::{grammar_diagnostics_value, told_value};
use grammar_reports::GrammarReport;
use ide::{Looked, Notice, Watch, Written};
use percent_encoding::{AsciiSet, NON_ALPHANUMERIC, utf8_percent_encode};
use std::alloc::{AllocError, Global};
use std::mem::replace;
use std::time::SystemTime;

/// The protocol's numbers of what is told (LSP 3.17, "MessageType").
const ERROR: u32 = 1;

const INFO: u32 = 3;

/// When a file was written, and how many bytes it has; none where it isn't there.
#[derive(Clone, Copy, PartialEq, Eq)]
struct Stamp {
    written: Option<SystemTime>,
    bytes: Option<u64>,
}

/// The stamp of the file of this path.
fn stamp_of(rt: &HostRuntime, path: &str) -> Stamp {
    match std::fs::metadata(rt, path) {
        Ok(found) => Stamp {
            written: found.modified().ok(),
            bytes: Some(found.len()),
        },
        Err(_) => Stamp {
            written: None,
            bytes: None,
        },
    }
}

/// The URI of a file with this absolute path.
fn uri_of(alloc: Global, path: &str) -> Result<String, AllocError> {
    let kept: AsciiSet = NON_ALPHANUMERIC
        .remove(b'/')
        .remove(b'-')
        .remove(b'_')
        .remove(b'.')
        .remove(b'~');
    let mut uri = String::from_str(alloc, "file://")?;
    utf8_percent_encode(path, kept).append_to(&mut uri)?;
    Ok(uri)
}

/// The absolute path of a file.
fn absolute(rt: &HostRuntime, path: &str) -> Result<String, AllocError> {
    match std::path::absolute(rt, path) {
        Ok(found) => Ok(found.into_string()),
        Err(_) => String::from_str(rt.alloc(), path),
    }
}

/// The files of a language, as they were at the last look.
#[derive(Drop)]
pub struct Watched<'r> {
    rt: &'r HostRuntime,
    files: Files,
    /// The absolute paths of the grammar and of the settings.
    paths: Vec<String>,
    grammar: Stamp,
    settings: Stamp,
    /// The grammar has a fault, and the last good one is served.
    has_fault: bool,
    /// What is told at the next look.
    notices: Vec<Notice>,
}

impl<'r> Watched<'r> {
    /// The files of a language, and what was found in them: what is to be told of that is told at
    /// the first look.
    pub fn new(
        rt: &'r HostRuntime,
        files: Files,
        found: &Found,
    ) -> Result<Watched<'r>, AllocError> {
        let mut watched = Watched {
            rt,
            files,
            paths: Vec::new(rt.alloc()),
            grammar: Stamp {
                written: None,
                bytes: None,
            },
            settings: Stamp {
                written: None,
                bytes: None,
            },
            has_fault: false,
            notices: Vec::new(rt.alloc()),
        };
        watched.is_changed()?;
        watched.note(found)?;
        Ok(watched)
    }

    /// Looks at the stamps of the files, and says whether one has changed.
    fn is_changed(&mut self) -> Result<bool, AllocError> {
        let alloc = self.rt.alloc();
        let settings = stamp_of(self.rt, self.files.settings.as_str());
        if settings != self.settings || self.paths.is_empty() {
            let text = settings_text(self.rt, self.files.settings.as_str());
            let grammar = grammar_path(alloc, &self.files, &text)?;
            let mut paths = Vec::with_capacity(alloc, 2)?;
            paths.push(absolute(self.rt, grammar.as_str())?)?;
            paths.push(absolute(self.rt, self.files.settings.as_str())?)?;
            self.paths = paths;
        }
        let grammar = match self.paths.first() {
            Some(path) => stamp_of(self.rt, path.as_str()),
            None => self.grammar,
        };
        let is_changed = grammar != self.grammar || settings != self.settings;
        self.grammar = grammar;
        self.settings = settings;
        Ok(is_changed)
    }

    /// Tells this at the next look.
    fn tell(&mut self, weight: u32, text: &str) -> Result<(), AllocError> {
        let alloc = self.rt.alloc();
        let text = format!(in alloc; "lrls: {text}")?;
        self.notices.push(Notice {
            method: "window/showMessage",
            params: told_value(alloc, weight, text.as_str())?,
        })?;
        Ok(())
    }

    /// Publishes what is wrong with the grammar's file at the next look.
    fn publish(&mut self, report: Option<&GrammarReport>) -> Result<(), AllocError> {
        let alloc = self.rt.alloc();
        let uri = match self.paths.first() {
            Some(path) => uri_of(alloc, path.as_str())?,
            None => String::new(alloc),
        };
        self.notices.push(Notice {
            method: "textDocument/publishDiagnostics",
            params: grammar_diagnostics_value(alloc, uri.as_str(), report)?,
        })?;
        Ok(())
    }

    /// The name of the grammar's file.
    fn name(&self) -> &str {
        match self.paths.first() {
            Some(path) => crate::files::last(path.as_str()),
            None => "",
        }
    }

    /// What is to be told of a grammar with a fault.
    fn note_fault(&mut self, report: &GrammarReport) -> Result<(), AllocError> {
        let alloc = self.rt.alloc();
        let (name, line) = (self.name(), report.at.line.saturating_add(1));
        let message = report.message.as_str();
        let text = format!(in alloc;
            "{name}:{line}: {message}; the last good grammar is used until it is mended"
        )?;
        self.tell(ERROR, text.as_str())?;
        self.publish(Some(report))?;
        self.has_fault = true;
        Ok(())
    }

    /// What is to be told of a grammar without a fault.
    fn note_mended(&mut self) -> Result<(), AllocError> {
        if self.has_fault {
            let alloc = self.rt.alloc();
            let name = self.name();
            let text = format!(in alloc; "{name}: the grammar is mended, and used")?;
            self.publish(None)?;
            self.tell(INFO, text.as_str())?;
            self.has_fault = false;
        }
        Ok(())
    }

    /// What is to be told of what was found in the files.
    fn note(&mut self, found: &Found) -> Result<(), AllocError> {
        match found {
            Found::Fault(report) => self.note_fault(report),
            Found::Language(_, mistake) => {
                self.note_mended()?;
                match mistake {
                    Some(mistake) => self.tell(ERROR, mistake.as_str()),
                    None => Ok(()),
                }
            }
        }
    }

    /// The language that the files have from now on, where one of them has changed and the grammar
    /// has no fault.
    fn written(&mut self) -> Result<Option<Written>, AllocError> {
        if !self.is_changed()? {
            return Ok(None);
        }
        let found = find_language(self.rt, &self.files)?;
        self.note(&found)?;
        Ok(found.language())
    }

    /// What is to be told, which is told by that.
    fn told(&mut self, alloc: Global) -> Vec<Notice> {
        replace(&mut self.notices, Vec::new(alloc))
    }
}

impl Watch for Watched<'_> {
    fn paths(&self) -> &[String] {
        &self.paths
    }

    fn look(&mut self, alloc: Global) -> Result<Looked, AllocError> {
        let written = self.written()?;
        Ok(Looked {
            notices: self.told(alloc),
            written,
        })
    }
}
