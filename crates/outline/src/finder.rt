//! How the symbols of a document are found.

ghost use Rattle.std.specs.Prelude.{◌≡◌, All, IfOk, IfSome, OnOk};
ghost use Rattle.outline.specs.Found.{IsFound};
ghost use Rattle.outline.specs.Symbols.{IsPlaced, IsSpan, IsSpot, IsSymbolOf};

use crate::found::Found;
use crate::marks::{Fault, Span};
use crate::names::{name_among, name_of};
use crate::nodes::{Nodes, Placed, Places};
use crate::open::OpenNode;
use crate::symbols::OutlineSymbol;
use crate::walk::Walk;
use definitions::Symbol;
use docs::Doc;
use settings::{Settings, SymbolRule};
use std::alloc::{AllocError, Global};
use trees::{Child, NodeId};

/// A node that may be a symbol.
#[derive(Clone, Copy)]
struct Branch<'a> {
    production: usize,
    parts: &'a [Child],
    /// The places of its tokens.
    places: Places,
    span: Span,
}

/// What symbols are found by.
#[derive(Clone, Copy)]
pub(crate) struct Finder<'a> {
    pub(crate) alloc: Global,
    pub(crate) doc: &'a Doc,
    pub(crate) nodes: Nodes<'a>,
    pub(crate) settings: &'a Settings,
    /// The characters of the text.
    pub(crate) characters: &'a [char],
    /// The spans of the significant tokens.
    pub(crate) spans: &'a [Span],
    /// Whether nodes of each production are symbols.
    pub(crate) named: &'a [bool],
    pub(crate) fault: Fault,
}

impl<'a> Finder<'a> {
    /// What stands from the token at the first of these places up to that before the other one.
    fn span(self, places: Places) -> Option<Span>
        requires { All (IsSpan self.doc.now.unit self.doc.now.text) self.spans.now }
        ensures { IfSome result (IsSpan self.entry.doc.now.unit self.entry.doc.now.text) }
    {
        let first = self.spans.get(places.from)?;
        let last = self.spans.get(places.to.checked_sub(1)?)?;
        Some(Span {
            start: first.start,
            end: last.end,
        })
    }

    /// The symbol that a node is by a rule, if its name stands among its parts.
    fn by_rule(
        self,
        rule: &SymbolRule,
        branch: Branch<'_>,
        depth: usize,
    ) -> Result<Option<OutlineSymbol>, AllocError>
        requires spans { All (IsSpan self.doc.now.unit self.doc.now.text) self.spans.now }
        requires span { IsSpan self.doc.now.unit self.doc.now.text branch.span }
        ensures placed { let doc = self.entry.doc.now in
            IfOk result (λ found. IfSome found (IsPlaced doc.unit doc.text)) }
        ensures kind { IfOk result (λ found. IfSome found (λ s. s.kind ≡ rule.now.kind)) }
        ensures depth { IfOk result (λ found. IfSome found (λ s. s.depth ≡ depth)) }
    {
        let (from, parts) = (branch.places.from, branch.parts);
        let found = name_among(self.alloc, self.nodes, rule, parts, from)?;
        let Some(places) = found else {
            return Ok(None);
        };
        let Some(name) = self.span(places) else {
            return Ok(None);
        };
        if !branch.span.has(name) || name.is_empty() {
            return Ok(None);
        }
        let text = self.characters.get(name.start.offset..name.end.offset);
        Ok(Some(OutlineSymbol {
            name: name_of(self.alloc, text.unwrap_or(&[]))?,
            kind: rule.kind,
            depth,
            range: branch.span.range(),
            selection: name.range(),
        }))
    }

    /// The symbol that a node is, by the first rule that fits, if one does.
    fn symbol(self, branch: Branch<'_>, depth: usize) -> Result<Option<OutlineSymbol>, AllocError>
        requires spans { All (IsSpan self.doc.now.unit self.doc.now.text) self.spans.now }
        requires span { IsSpan self.doc.now.unit self.doc.now.text branch.span }
        ensures symbol { let doc = self.entry.doc.now in IfOk result (λ found.
            IfSome found (IsSymbolOf self.entry.settings.now doc.unit doc.text)) }
        ensures depth { IfOk result (λ found. IfSome found (λ s. s.depth ≡ depth)) }
    {
        let nonterminal = self.nodes.nonterminal(branch.production);
        let right = self.nodes.right(branch.production);
        for rule in &self.settings.symbols {
            if Some(rule.node) != nonterminal || !has(right, rule.with) {
                continue;
            }
            if let Some(symbol) = self.by_rule(rule, branch, depth)? {
                return Ok(Some(symbol));
            }
        }
        Ok(None)
    }

    /// Adds the symbol that a node is, if it is one.
    fn add(self, found: &mut Found, branch: Branch<'_>) -> Result<(), AllocError>
        requires spans { All (IsSpan self.doc.now.unit self.doc.now.text) self.spans.now }
        requires span { IsSpan self.doc.now.unit self.doc.now.text branch.span }
        requires found { let doc = self.doc.now in
            IsFound self.settings.now doc.unit doc.text found.old }
        ensures { let doc = self.entry.doc.now in
            OnOk result (IsFound self.entry.settings.now doc.unit doc.text found.new) }
    {
        let depth = found.depth_at(branch.places.from);
        if let Some(symbol) = self.symbol(branch, depth)? {
            found.push(symbol, branch.places.to)?;
        }
        Ok(())
    }

    /// The production of a node, if nodes of it are symbols.
    fn named_production(self, id: NodeId) -> Option<usize> {
        let production = self.nodes.production(id)?;
        match self.named.get(production) {
            Some(true) => Some(production),
            _ => None,
        }
    }

    /// Adds the symbol that a tree is, if it is one.
    fn add_node(self, found: &mut Found, tree: Placed) -> Result<(), AllocError>
        requires spans { All (IsSpan self.doc.now.unit self.doc.now.text) self.spans.now }
        requires found { let doc = self.doc.now in
            IsFound self.settings.now doc.unit doc.text found.old }
        ensures { let doc = self.entry.doc.now in
            OnOk result (IsFound self.entry.settings.now doc.unit doc.text found.new) }
    {
        let Child::Node(id) = tree.child else {
            return Ok(());
        };
        let Some(production) = self.named_production(id) else {
            return Ok(());
        };
        let Some(span) = self.span(tree.places) else {
            return Ok(());
        };
        let parts = self.nodes.parts(self.alloc, id)?;
        let branch = Branch {
            production,
            parts: &parts,
            places: tree.places,
            span,
        };
        self.add(found, branch)
    }

    /// Adds the symbols of a tree, whose first token has the place `from`.
    fn add_tree(self, found: &mut Found, root: Child, from: usize) -> Result<(), AllocError>
        requires spans { All (IsSpan self.doc.now.unit self.doc.now.text) self.spans.now }
        requires found { let doc = self.doc.now in
            IsFound self.settings.now doc.unit doc.text found.old }
        ensures { let doc = self.entry.doc.now in
            OnOk result (IsFound self.entry.settings.now doc.unit doc.text found.new) }
    {
        let mut walk = Walk::over(self.alloc, self.nodes, self.nodes.placed(root, from))?;
        'trees: for _ in 0..self.nodes.trees(root) {
            let Some(tree) = walk.next()? else {
                return Ok(());
            };
            self.add_node(found, tree)?;
        }
        Ok(())
    }

    /// Adds the symbol that an open node is, if it is one. It begins with the first of these
    /// trees, whose first token has the place `from`.
    fn add_open(
        self,
        found: &mut Found,
        node: OpenNode,
        trees: &[Child],
        from: usize,
    ) -> Result<(), AllocError>
        requires spans { All (IsSpan self.doc.now.unit self.doc.now.text) self.spans.now }
        requires fault { IsSpot self.doc.now.unit self.doc.now.text self.fault.spot }
        requires found { let doc = self.doc.now in
            IsFound self.settings.now doc.unit doc.text found.old }
        ensures { let doc = self.entry.doc.now in
            OnOk result (IsFound self.entry.settings.now doc.unit doc.text found.new) }
    {
        let to = self.fault.tokens;
        let Some(known) = self.span(Places { from, to }) else {
            return Ok(());
        };
        let is_whole = node.parts == self.nodes.right(node.production).len();
        let end = if is_whole { known.end } else { self.fault.spot };
        let start = known.start;
        let branch = Branch {
            production: node.production,
            parts: trees.get(..node.parts).unwrap_or(&[]),
            places: Places {
                from,
                to: usize::MAX,
            },
            span: Span { start, end },
        };
        self.add(found, branch)
    }

    /// Adds the symbols of the first of these trees, and before them that of the open node which
    /// begins with it, if there is one.
    fn add_root(
        self,
        found: &mut Found,
        node: Option<OpenNode>,
        trees: &[Child],
        from: usize,
    ) -> Result<(), AllocError>
        requires spans { All (IsSpan self.doc.now.unit self.doc.now.text) self.spans.now }
        requires fault { IsSpot self.doc.now.unit self.doc.now.text self.fault.spot }
        requires found { let doc = self.doc.now in
            IsFound self.settings.now doc.unit doc.text found.old }
        ensures { let doc = self.entry.doc.now in
            OnOk result (IsFound self.entry.settings.now doc.unit doc.text found.new) }
    {
        let Some(root) = trees.first() else {
            return Ok(());
        };
        let Some(node) = node else {
            return self.add_tree(found, *root, from);
        };
        self.add_open(found, node, trees, from)?;
        self.add_tree(found, *root, from)
    }

    /// The symbols of the trees on the stack, and of the nodes that are open behind them, which
    /// are given from inner to outer.
    pub(crate) fn all(self, roots: &[Child], mut open: Vec<OpenNode>) -> Result<Found, AllocError>
        requires spans { All (IsSpan self.doc.now.unit self.doc.now.text) self.spans.now }
        requires fault { IsSpot self.doc.now.unit self.doc.now.text self.fault.spot }
        ensures { let doc = self.entry.doc.now in
            IfOk result (IsFound self.entry.settings.now doc.unit doc.text) }
    {
        let mut found = Found::new(self.alloc);
        let mut from = 0;
        for at in 0..roots.len() {
            let node = take_at(&mut open, at);
            self.add_root(&mut found, node, &roots[at..], from)?;
            from = self.nodes.placed(roots[at], from).places.to;
        }
        Ok(found)
    }
}

/// Takes the last one of these nodes, if it begins at this place of the stack.
fn take_at(open: &mut Vec<OpenNode>, at: usize) -> Option<OpenNode> {
    if open.last().is_some_and(|node| node.at == at) {
        open.pop()
    } else {
        None
    }
}

/// Whether a production has a token of this rule, if one is given.
fn has(right: &[Symbol], rule: Option<usize>) -> bool {
    match rule {
        Some(rule) => right.contains(&Symbol::Rule(rule)),
        None => true,
    }
}
