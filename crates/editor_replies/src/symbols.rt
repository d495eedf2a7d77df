//! The outline of a document.

ghost use Rattle.std.specs.Prelude.{◌≡◌, ◌+◌, ◌≤◌, map, option_map, OnOk};
ghost use Rattle.serde_json.specs.Data.{array};
ghost use Rattle.serde_json.specs.Events.{SendsValue, items_len};
ghost use Rattle.editor_replies.specs.Sent.{symbol_view};
ghost use Rattle.editor_replies.specs.Sending.{below, forest, inside, is_shown_at, listed_data, listed_items, nested_data, outline_result};

use crate::diagnostics::send_location;
use outline::OutlineSymbol;
use replies::send_range;
use serde::Serializer;

/// In how many others a symbol is shown at most: an editor's own reader of JSON goes only so deep.
const MOST_DEPTH: usize = 64;

/// Symbols that lie in `depth` others, with what lies in them on `levels` levels more.
#[derive(Clone, Copy)]
struct Level {
    depth: usize,
    levels: usize,
}

impl Level {
    /// Whether a symbol is shown on this level: it lies in no more than `depth` others, or this is
    /// the last level.
    fn shows(self, symbol: &OutlineSymbol) -> bool
        ensures { result ≡ is_shown_at self.levels self.depth (symbol_view symbol.now) }
    {
        self.levels == 0 || symbol.depth <= self.depth
    }

    /// How many of the symbols are shown on this level.
    fn count(self, symbols: &[OutlineSymbol]) -> usize
        ensures { result
            ≡ items_len (forest self.levels self.depth (map symbol_view symbols.now)) }
    {
        let mut count = 0;
        for symbol in symbols {
            if self.shows(symbol) {
                count += 1;
            }
        }
        count
    }

    /// Those at the head of the symbols that lie deeper than this level.
    fn inside(self, symbols: &[OutlineSymbol]) -> &[OutlineSymbol]
        ensures { map symbol_view result.now ≡ inside self.depth (map symbol_view symbols.now) }
    {
        let mut end = 0;
        for symbol in symbols {
            if symbol.depth <= self.depth {
                break;
            }
            end += 1;
        }
        &symbols[..end]
    }

    /// The symbols that are shown on this level, each with those that lie in it.
    #[cycle(forest)]
    fn send<S: Serializer>(self, symbols: &[OutlineSymbol], out: &mut S) -> Result<(), S::Error>
        requires { self.depth + self.levels ≤ 64 }
        ensures { OnOk result
            (SendsValue (array (forest self.levels self.depth (map symbol_view symbols.now)))
            (S.written out.old) (S.written out.new)) }
    {
        out.begin_seq(Some(self.count(symbols)))?;
        for (at, symbol) in symbols.iter().enumerate() {
            if self.shows(symbol) {
                let behind = &symbols[at + 1..];
                self.send_symbol(symbol, behind, out)?;
            }
        }
        out.end_seq()
    }

    /// A symbol, with those that lie in it: the deeper ones at the head of those behind it
    /// (LSP 3.17, "DocumentSymbol").
    #[cycle(forest)]
    fn send_symbol<S: Serializer>(
        self,
        symbol: &OutlineSymbol,
        behind: &[OutlineSymbol],
        out: &mut S,
    ) -> Result<(), S::Error>
        requires { self.depth + self.levels ≤ 64 }
        ensures { let inner = below self.levels self.depth (map symbol_view behind.now) in
            OnOk result (SendsValue (nested_data (symbol_view symbol.now) inner)
            (S.written out.old) (S.written out.new)) }
    {
        out.begin_map(Some(5))?;
        out.key("children")?;
        self.send_below(behind, out)?;
        out.key("kind")?;
        out.u64(symbol.kind as u64)?;
        out.key("name")?;
        out.str(symbol.name.as_str())?;
        out.key("range")?;
        send_range(symbol.range, out)?;
        out.key("selectionRange")?;
        send_range(symbol.selection, out)?;
        out.end_map()
    }

    /// What lies in a symbol that has these behind it.
    #[cycle(forest)]
    fn send_below<S: Serializer>(
        self,
        behind: &[OutlineSymbol],
        out: &mut S,
    ) -> Result<(), S::Error>
        requires { self.depth + self.levels ≤ 64 }
        ensures { let inner = below self.levels self.depth (map symbol_view behind.now) in
            OnOk result (SendsValue (array inner) (S.written out.old) (S.written out.new)) }
    {
        if self.levels == 0 {
            out.begin_seq(Some(0))?;
            return out.end_seq();
        }
        let next = Level {
            depth: self.depth + 1,
            levels: self.levels - 1,
        };
        next.send(self.inside(behind), out)
    }
}

/// A symbol without those that lie in it (LSP 3.17, "SymbolInformation").
fn send_listed<S: Serializer>(
    uri: &str,
    symbol: &OutlineSymbol,
    out: &mut S,
) -> Result<(), S::Error>
    ensures { OnOk result (SendsValue (listed_data uri.now (symbol_view symbol.now))
        (S.written out.old) (S.written out.new)) }
{
    out.begin_map(Some(3))?;
    out.key("kind")?;
    out.u64(symbol.kind as u64)?;
    out.key("location")?;
    send_location(uri, symbol.range, out)?;
    out.key("name")?;
    out.str(symbol.name.as_str())?;
    out.end_map()
}

/// The symbols one after another.
fn send_list<S: Serializer>(
    uri: &str,
    symbols: &[OutlineSymbol],
    out: &mut S,
) -> Result<(), S::Error>
    ensures { OnOk result (SendsValue (array (listed_items uri.now (map symbol_view symbols.now)))
        (S.written out.old) (S.written out.new)) }
{
    out.begin_seq(Some(symbols.len()))?;
    for symbol in symbols {
        send_listed(uri, symbol, out)?;
    }
    out.end_seq()
}

/// An outline: each symbol with those that lie in it, or where a URI is given, that of the
/// document, one after another (LSP 3.17, "Document Symbols Request").
pub(crate) fn send_outline<S: Serializer>(
    list_of: Option<&str>,
    symbols: &[OutlineSymbol],
    out: &mut S,
) -> Result<(), S::Error>
    ensures { let list_of = option_map (λ text. text.now) list_of.entry in OnOk result
        (SendsValue (outline_result list_of (map symbol_view symbols.now))
        (S.written out.old) (S.written out.new)) }
{
    match list_of {
        Some(uri) => send_list(uri, symbols, out),
        None => {
            let roots = Level {
                depth: 0,
                levels: MOST_DEPTH,
            };
            roots.send(symbols, out)
        }
    }
}
