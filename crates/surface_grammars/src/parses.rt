//! Parses: `parser`.

ghost use Rattle.std.specs.Prelude.{◌≡◌, ◌+◌, length, take, IfOk, OnErr, List, ◌↔◌, IsTrue, ◌≤◌, ℕ};
ghost use Rattle.definitions.specs.Nodes.{all_branches};
ghost use Rattle.trees.specs.Cells.{KeepsTrees, all_trees, forest_in, Cell};
ghost use Rattle.parser.specs.Machine.{plain_of, AreMadeBy};
ghost use Rattle.parser.specs.Stamps.{AddsNumbered, StampsKept};
ghost use Rattle.parser.specs.Parses.{IsParseOf, AreExpectedAt, verdict_in, AreStacked, all_branches_by};
ghost use Rattle.definitions.specs.TokenEdits.{plain_splice, IsSpliced, Splice};
ghost use Rattle.parser.specs.Changes.{IsParseAfter};
ghost use Rattle.definitions.specs.declared.Kind.{Kind};
ghost use Rattle.definitions.specs.Sentences.{IsVerdict, Verdict as Decided};
ghost use Rattle.parser.specs.declared.parse.Verdict.{Verdict as Answer};
ghost use Rattle.definitions.specs.Answers.{Node};
ghost use Rattle.definitions.specs.DocumentNodes.{AreDocumentTrees, IsNodeOf};
ghost use Rattle.definitions.specs.Trees.{Grammar, Tree, all_kinds};
ghost use Rattle.definitions.specs.Items.{HasNoConflict};
ghost use Rattle.definitions.specs.TreeEdits.{Built, Stamped, plain_trees};

use grammar::KindSplice;
use parser::{Parse, Verdict};
use std::alloc::{AllocError, Global};
use tables::{Expected, Tables};
use trees::{Child, Kinds, Store};

/// `Verdict`.
pub fn verdict(verdict: Verdict) -> Option<usize> {
    match verdict {
        Verdict::Tree(id) => Some(id.index),
        Verdict::FaultAt(k) => Some(k),
        Verdict::FaultAtEnd => None,
    }
}

/// `Parse::whole`.
pub fn whole<K: Kinds>(
    alloc: Global,
    tables: &Tables,
    store: &mut Store,
    kinds: &K,
) -> Result<Parse, AllocError>
    ensures parse { IfOk result (λ p. IsParseOf tables.now (K.kinds kinds.now) store.new p) }
    ensures stamps { IfOk result (λ p. AreMadeBy 0 (forest_in store.new p.stack)) }
    ensures grown { take (length store.old) store.new ≡ store.old }
    ensures count { IfOk result
        (λ p. length store.new ≡ length store.old + all_branches (plain_of store.new p.stack)) }
    ensures added { IfOk result
        (λ p. AddsNumbered 0 store.old store.new (all_trees store.new p.stack)) }
    ensures built { IfOk result (λ p. p.built ≡ all_branches (plain_of store.new p.stack)) }
    ensures number { IfOk result (λ p. p.number ≡ 0) }
    ensures kept { KeepsTrees (length store.old) store.old store.new }
    ensures refused { OnErr result (store.new ≡ store.old) }
{
    Parse::whole(alloc, tables, store, kinds)
}

/// `Parse::change`.
pub fn change<K: Kinds>(
    parse: &mut Parse,
    alloc: Global,
    tables: &Tables,
    store: &mut Store,
    kinds: &K,
    splice: KindSplice,
    number: u64,
) -> Result<(), AllocError>
    requires { (old : List Kind) × IsParseOf tables.now old store.old parse.old
        × IsSpliced (plain_splice splice) old (K.kinds kinds.now) }
    ensures changed { let change = plain_splice splice in
        let kinds = K.kinds kinds.now in
        let old = parse.old in
        IfOk result
        (λ _. IsParseAfter tables.now kinds change number store.old old store.new parse.new) }
    ensures refused { OnErr result ((parse.new ≡ parse.old) × (store.new ≡ store.old)) }
{
    parse.change(alloc, tables, store, kinds, splice, number)
}

/// `Parse::verdict`.
pub fn verdict_of(parse: &Parse) -> Verdict
    ensures { result ≡ parse.now.verdict }
{
    parse.verdict()
}

/// `Parse::expected`.
pub fn expected<'a>(parse: &Parse, tables: &'a Tables) -> Expected<'a>
    requires { (kinds : List Kind) × (cells : List Cell)
        × IsParseOf tables.now kinds cells parse.now }
    ensures { (kinds : List Kind) (cells : List Cell)
        → IsParseOf tables.now kinds cells parse.now
        → AreExpectedAt tables.now.grammar kinds (verdict_in cells parse.now.verdict) result }
{
    parse.expected(tables)
}

/// `Parse::stack`.
pub fn stack(parse: &Parse) -> &[Child]
    ensures { result.now ≡ parse.now.stack }
{
    parse.stack()
}

/// `Parse::counts`.
pub fn counts(parse: &Parse) -> (usize, usize)
    ensures branches { result.0 ≡ parse.now.branches }
    ensures built { result.1 ≡ parse.now.built }
{
    parse.counts()
}

/// `equal_verdicts_are_the_same`.
pub fn equal_verdicts_are_the_same()
    ensures { (a b : Answer) → IsTrue (⟦<parser::Verdict as PartialEq>⟧.eq a b) ↔ (a ≡ b) }
{
    parser::laws::equal_verdicts_are_the_same();
}

/// `stack_has_the_nodes_of_the_document`.
pub fn stack_has_the_nodes_of_the_document()
    ensures { (g : Grammar) (kinds : List Kind) (v : Decided) (stack : List Tree)
        → IsVerdict g kinds v → AreStacked g kinds v stack
        → (trees : List Tree) × AreDocumentTrees g kinds v trees
        × ((n : Node) → IsNodeOf g stack n ↔ IsNodeOf g trees n)
        × (length (all_kinds stack) ≤ length kinds) }
{
    parser::laws::stack_has_the_nodes_of_the_document();
}

/// `stack_unique`.
pub fn stack_unique()
    ensures { (g : Grammar) → HasNoConflict g → (kinds : List Kind) (v w : Decided)
        (one two : List Tree) → IsVerdict g kinds v → IsVerdict g kinds w
        → AreStacked g kinds v one → AreStacked g kinds w two → one ≡ two }
{
    parser::laws::stack_unique();
}

/// `built_nodes_lie_in_no_kept_one`.
pub fn built_nodes_lie_in_no_kept_one()
    ensures count { (s : Splice) (old : List Tree) (number : ℕ) (new : List Stamped)
        → StampsKept number s old new
        → Built s old 0 (plain_trees new) (all_branches_by number new) }
    ensures unique { (s : Splice) (old new : List Tree) (m n : ℕ) → Built s old 0 new m
        → Built s old 0 new n → m ≡ n }
{
    parser::laws::built_nodes_lie_in_no_kept_one();
}
