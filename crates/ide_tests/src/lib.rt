//! Tests of what the server for editors shows: the settings of a language, messages, offers,
//! outlines, hovers and brackets. The rows are worked out by hand from docs/IDE.md and the
//! grammars. The crate has nothing else.
#![tactic(auto)]

#[cfg(test)]
mod faulty;
#[cfg(test)]
mod grammars;
#[cfg(test)]
mod hovers;
#[cfg(test)]
mod languages;
#[cfg(test)]
mod literals;
#[cfg(test)]
mod messages;
#[cfg(test)]
mod offers;
#[cfg(test)]
mod outlines;
#[cfg(test)]
mod settings_read;
