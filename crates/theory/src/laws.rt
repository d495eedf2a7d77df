//! What is proved of grammars, of LR(1) items and of the machines, as contracts of functions that
//! do nothing.

ghost use Rattle.std.specs.Prelude.{◌≡◌, ◌↔◌, ℕ, List, [], ◌∷◌, ◌++◌, Option, Some, None};
ghost use Rattle.definitions.specs.declared.Kind.{Kind};
ghost use Rattle.definitions.specs.declared.Symbol.{Symbol};
ghost use Rattle.definitions.specs.Trees.{Grammar, HasDistinctProductions, Tree, HaveRoots, yield, all_kinds};
ghost use Rattle.definitions.specs.Sentences.{AllProductive, IsSentence, IsViable, Verdict, IsVerdict};
ghost use Rattle.definitions.specs.Derivations.{IsLr1};
ghost use Rattle.definitions.specs.Items.{Item, IsValid, HasNoConflict};
ghost use Rattle.definitions.specs.Settled.{IsSettled};
ghost use Rattle.definitions.specs.DocumentNodes.{AreDocumentTrees};
ghost use Rattle.theory.specs.Closure.{ByRules, IsFirst};
ghost use Rattle.theory.specs.First.{MayFollow};
ghost use Rattle.theory.specs.Machine.{look_at, Run, IsStackAfter, StackHasMove};
ghost use Rattle.theory.specs.Reuse.{CanReuse, Goes_on};
ghost use Rattle.theory.specs.Laws.{HasOneTreeEach, StampsExactly};

/// The items valid for a prefix are those of its set by the usual rules: start, goto and closure.
pub fn items_by_rules()
    ensures { (g : Grammar) (prefix : List Symbol) (i : Item) →
        ByRules g prefix i ↔ IsValid g prefix i }
{}

/// FIRST by the usual rules is FIRST by trees, where each symbol is productive and the symbols
/// have trees.
pub fn first_by_rules()
    ensures { (g : Grammar) → AllProductive g → (symbols : List Symbol) (ts : List Tree) →
        HaveRoots g ts symbols → (look : Option ℕ) (a : Option ℕ) →
        MayFollow g symbols look a ↔ IsFirst g symbols look a }
{}

/// A grammar without a conflict is LR(1) in Knuth's sense.
pub fn no_conflict_lr1()
    ensures { (g : Grammar) → HasNoConflict g → IsLr1 g }
{}

/// A grammar that is LR(1) in Knuth's sense has no conflict, where its symbols are productive and
/// no production is there twice.
pub fn lr1_no_conflict()
    ensures { (g : Grammar) → AllProductive g → HasDistinctProductions g → IsLr1 g →
        HasNoConflict g }
{}

/// Without a conflict, and where each symbol is productive, a root that some derivation uses and a
/// yield have at most one tree.
pub fn one_tree_of_used()
    ensures { (g : Grammar) → HasNoConflict g → AllProductive g → HasOneTreeEach g }
{}

/// Without a conflict, kinds have at most one verdict.
pub fn verdict_unique()
    ensures { (g : Grammar) → HasNoConflict g → (x : List Kind) (v : Verdict) (w : Verdict) →
        IsVerdict g x v → IsVerdict g x w → v ≡ w }
{}

/// Kinds with which a sentence begins settle some list of trees; without a conflict they settle
/// one only, whichever sentence begins with them.
pub fn settled_unique()
    ensures exists { (g : Grammar) (x : List Kind) → IsViable g x →
        (lefts : List Tree) × IsSettled g x lefts }
    ensures unique { (g : Grammar) → HasNoConflict g →
        (x : List Kind) (one : List Tree) (two : List Tree) → IsSettled g x one →
        IsSettled g x two → one ≡ two }
{}

/// Without a conflict, a document has at most one list of trees.
pub fn document_trees_unique()
    ensures { (g : Grammar) → HasNoConflict g →
        (x : List Kind) (v : Verdict) (w : Verdict) (one : List Tree) (two : List Tree) →
        IsVerdict g x v → IsVerdict g x w → AreDocumentTrees g x v one →
        AreDocumentTrees g x w two → one ≡ two }
{}

/// Kinds with which a sentence begins lead the machine to a stack; without a conflict, and where
/// each symbol is productive, it has a move on a kind there exactly where some sentence goes on
/// with that kind: a fault is found at once, and the moves are what is expected.
pub fn move_iff_viable()
    ensures reached { (g : Grammar) (x : List Kind) → IsViable g x →
        (stack : List Tree) × IsStackAfter g x stack }
    ensures moves { (g : Grammar) → HasNoConflict g → AllProductive g →
        (x : List Kind) (stack : List Tree) (k : Kind) → IsStackAfter g x stack →
        StackHasMove g stack (Some k) ↔ IsViable g (x ++ (k ∷ [])) }
{}

/// Without a conflict, and where each symbol is productive, the machine has a move on the end
/// exactly where the kinds that it has read are a sentence.
pub fn move_iff_sentence()
    ensures { (g : Grammar) → HasNoConflict g → AllProductive g →
        (x : List Kind) (stack : List Tree) → IsStackAfter g x stack →
        StackHasMove g stack None ↔ IsSentence g x }
{}

/// Where each symbol is productive and the reuse test passes, the plain machine reads the tree's
/// yield and comes to that very tree.
pub fn reuse_is_run()
    ensures { (g : Grammar) → AllProductive g → (stack : List Tree) (t : Tree) (rest : List Kind) →
        CanReuse g stack t rest → Run g (look_at rest None) stack (yield t) (stack ++ (t ∷ [])) }
{}

/// Where each symbol is productive, what the incremental machine reads to the end the plain one
/// reads, and both come to the same trees.
pub fn incremental_is_plain()
    ensures { (g : Grammar) → AllProductive g → (input : List Tree) (stack : List Tree) →
        Goes_on g [] input stack [] → Run g None [] (all_kinds input) stack }
{}

/// Without a conflict, and where each symbol is productive: where the incremental machine reads
/// what an edit leaves of the old trees, comes to what a parse answers, and stamps what it makes
/// with the edit's number, exactly the branches that lie in no kept node carry that number.
pub fn stamps_exact()
    ensures { (g : Grammar) → HasNoConflict g → AllProductive g → StampsExactly g }
{}
