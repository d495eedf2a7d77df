//! What is proved of verdicts, as contracts of functions that do nothing.

ghost use Rattle.std.specs.Prelude.{◌≡◌, ◌↔◌, ◌≤◌, ℕ, IsTrue, List, length};
ghost use Rattle.definitions.specs.declared.Kind.{Kind};
ghost use Rattle.definitions.specs.Answers.{Node};
ghost use Rattle.definitions.specs.DocumentNodes.{AreDocumentTrees, IsNodeOf};
ghost use Rattle.definitions.specs.Trees.{Grammar, Tree, all_kinds};
ghost use Rattle.definitions.specs.Items.{HasNoConflict};
ghost use Rattle.definitions.specs.Sentences.{IsVerdict, Verdict};
ghost use Rattle.definitions.specs.TokenEdits.{Splice};
ghost use Rattle.definitions.specs.TreeEdits.{Built, Stamped, plain_trees};
ghost use Rattle.parser.specs.Parses.{AreStacked, all_branches_by};
ghost use Rattle.parser.specs.Stamps.{StampsKept};
ghost use Rattle.parser.specs.declared.parse.Verdict.{Verdict as Answer};

use theory::laws::{document_trees_unique, verdict_unique};

/// The parser's verdicts are equal by `==` exactly where they are the same: no part of them is
/// left out.
pub fn equal_verdicts_are_the_same()
    ensures { (a b : Answer) → IsTrue (⟦<crate::Verdict as PartialEq>⟧.eq a b) ↔ (a ≡ b) }
{}

/// What stands on the parser's stack has the nodes of the document's trees, at their places, and
/// no more kinds than the document: the last leaf before a fault is no node.
pub fn stack_has_the_nodes_of_the_document()
    ensures { (g : Grammar) (kinds : List Kind) (v : Verdict) (stack : List Tree)
        → IsVerdict g kinds v → AreStacked g kinds v stack
        → (trees : List Tree) × AreDocumentTrees g kinds v trees
        × ((n : Node) → IsNodeOf g stack n ↔ IsNodeOf g trees n)
        × (length (all_kinds stack) ≤ length kinds) }
{}

/// Without a conflict, what stands on the stack of a list of kinds is one list of trees.
pub fn stack_unique()
    ensures { (g : Grammar) → HasNoConflict g → (kinds : List Kind) (v w : Verdict)
        (one two : List Tree) → IsVerdict g kinds v → IsVerdict g kinds w
        → AreStacked g kinds v one → AreStacked g kinds w two → one ≡ two }
{
    verdict_unique();
    document_trees_unique();
}

/// What an edit builds is the number of the branches that lie in no kept node: those that carry
/// its number, where exactly these carry it.
pub fn built_nodes_lie_in_no_kept_one()
    ensures count { (s : Splice) (old : List Tree) (number : ℕ) (new : List Stamped)
        → StampsKept number s old new
        → Built s old 0 (plain_trees new) (all_branches_by number new) }
    ensures unique { (s : Splice) (old new : List Tree) (m n : ℕ) → Built s old 0 new m
        → Built s old 0 new n → m ≡ n }
{}
