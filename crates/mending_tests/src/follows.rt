//! Mended copies that follow random edits: each is the one that is made anew.

ghost use Rattle.std.specs.Prelude.{List};
ghost use Rattle.definitions.specs.declared.Kind.{Kind as TokenKind};
ghost use Rattle.mending.specs.Mendings.{IsMendingOf};

use crate::ranks::{CLOSING, CURLY, NAME, ROUND, SIGN, SQUARE, WORD, begun, closing, opening};
use definitions::Kind;
use grammar::Grammar;
use mending::{Balance, Change, Listed, Mending, Rank};
use std::alloc::Global;
use std::process::Abort;
use tables::Tables;
use worked::{LISTS, SUMS};

/// A list that is right recursive.
const CHAINS: &str = r#"lrgrammar 1
token NAME = [a-z]+
token COMMA = ","
token LB = "["
token RB = "]"
start Chain
Chain = Item
Chain = Item COMMA Chain
Item = NAME
Item = LB Chain RB
Item = LB RB
"#;

/// Statements in braces.
const BLOCKS: &str = r#"lrgrammar 2
token SEMICOLON = ";"
token COMMA = ","
token RP = ")"
token RB = "}"
token LB = "{"
token LP = "("
token ASSIGN = "="
token PLUS = "+"
token LET = "let"
token IF = "if"
token ELSE = "else"
token NAME = [a-z]+
token NUMBER = [0-9]+
start Program
Program = Statement*
Block = LB Statement* RB
Statement = LET NAME ASSIGN Sum SEMICOLON
Statement = Sum SEMICOLON
Statement = IF Sum Block
Statement = IF Sum Block ELSE Block
Statement = Block
Sum = Sum PLUS Atom
Sum = Atom
Atom = NAME
Atom = NUMBER
Atom = LP Sum RP
Atom = NAME LP RP
Atom = NAME LP Arguments RP
Arguments = Sum
Arguments = Arguments COMMA Sum
"#;

/// Two beginnings of a text, of which the second one has another end too.
const BEGINNINGS: &str = r#"lrgrammar 2
token LONG = "long"
token SHORT = "short"
token NAME = "name"
token COLON = ":"
token COMMA = ","
token DOT = "."
token END = "end"
start Text
Text = LONG NAME* COLON COMMA END
Text = SHORT NAME* COLON COMMA END
Text = SHORT NAME* DOT END
"#;

/// Numbers that look random (Knuth, "The Art of Computer Programming", 3.3.4).
#[derive(Drop)]
struct Random {
    state: u64,
}

impl Random {
    /// One below a limit.
    fn below(&mut self, limit: usize) -> usize {
        self.state = self
            .state
            .wrapping_mul(6364136223846793005)
            .wrapping_add(1442695040888963407);
        ((self.state >> 33) as usize) % limit.max(1)
    }
}

/// A grammar that is tried.
#[derive(Clone, Copy)]
struct Tried<'a> {
    tables: &'a Tables,
    ranks: &'a [Rank],
    /// What sentences are made of.
    pieces: &'a [&'a [usize]],
    /// The rule between two of these, if there is one.
    between: Option<usize>,
}

/// Adds the kinds of rules.
fn add(rt: &impl Abort, kinds: &mut Vec<Kind>, rules: &[usize]) {
    for rule in rules {
        kinds.push(Kind::Rule(*rule)).expect(rt, "memory");
    }
}

/// A sentence of at least so many kinds.
fn sentence(
    rt: &impl Abort,
    alloc: Global,
    tried: Tried<'_>,
    random: &mut Random,
    least: usize,
) -> Vec<Kind> {
    let mut kinds = Vec::new(alloc);
    for _ in 0..least {
        if least <= kinds.len() {
            break;
        }
        if let (false, Some(rule)) = (kinds.is_empty(), tried.between) {
            add(rt, &mut kinds, &[rule]);
        }
        let number = random.below(tried.pieces.len());
        add(
            rt,
            &mut kinds,
            tried.pieces.get(number).expect(rt, "a piece"),
        );
    }
    kinds
}

fn anew(rt: &impl Abort, alloc: Global, tried: Tried<'_>, kinds: &[Kind]) -> Mending
    ensures { IsMendingOf tried.entry.tables.now kinds.now result }
{
    Mending::whole(alloc, tried.tables, tried.ranks, &Listed { kinds }).expect(rt, "a mending")
}

/// Any kind.
fn any_kind(tried: Tried<'_>, random: &mut Random) -> Kind {
    match random.below(40) {
        0 => Kind::Invalid,
        _ => Kind::Rule(random.below(tried.ranks.len())),
    }
}

/// Kinds after an edit at about this place.
fn edited(
    rt: &impl Abort,
    alloc: Global,
    tried: Tried<'_>,
    random: &mut Random,
    kinds: &[Kind],
    place: usize,
) -> Vec<Kind> {
    let from = place.saturating_add(random.below(7)).min(kinds.len());
    let to = from.saturating_add(random.below(3)).min(kinds.len());
    let mut new = Vec::from_slice(alloc, &kinds[..from]).expect(rt, "memory");
    for _ in 0..random.below(3) {
        new.push(any_kind(tried, random)).expect(rt, "memory");
    }
    new.extend_from_slice(&kinds[to..]).expect(rt, "memory");
    new
}

/// The copy that followed is the one that is made anew.
fn assert_same(rt: &impl Abort, one: &Mending, other: &Mending) {
    assert!(rt; one.kinds() == other.kinds());
    assert!(rt; one.repairs() == other.repairs());
    assert!(rt; one.tree().is_some() == other.tree().is_some());
}

/// Follows an edit that leaves these kinds.
fn follow(
    rt: &impl Abort,
    alloc: Global,
    tried: Tried<'_>,
    mending: Mending,
    kinds: &[Kind],
) -> Mending
    requires { (old : List TokenKind) × IsMendingOf tried.tables.now old mending }
    ensures { IsMendingOf tried.entry.tables.now kinds.now result }
{
    let listed = Listed { kinds };
    let followed = mending
        .follow(alloc, tried.tables, tried.ranks, &listed)
        .expect(rt, "a mending");
    assert_same(rt, &followed, &anew(rt, alloc, tried, kinds));
    followed
}

/// Follows edits of sentences of so many kinds with a few faults, each of which is taken back.
fn follow_edits(rt: &impl Abort, alloc: Global, tried: Tried<'_>, least: usize, rounds: usize) {
    let mut random = Random { state: 7 };
    for _ in 0..rounds {
        let mut kinds = sentence(rt, alloc, tried, &mut random, least);
        for _ in 0..random.below(4) {
            let place = random.below(kinds.len());
            kinds = edited(rt, alloc, tried, &mut random, &kinds, place);
        }
        let mut mending = anew(rt, alloc, tried, &kinds);
        for _ in 0..8 {
            let place = random.below(kinds.len());
            let new = edited(rt, alloc, tried, &mut random, &kinds, place);
            mending = follow(rt, alloc, tried, mending, &new);
            mending = follow(rt, alloc, tried, mending, &kinds);
        }
    }
}

#[test]
fn copies_of_sums_follow_edits(rt: HostRuntime) {
    let grammar = Grammar::read(rt.alloc(), SUMS).expect(&rt, "a grammar");
    let tables = Tables::build(rt.alloc(), &grammar).expect(&rt, "tables");
    let tried = Tried {
        tables: &tables,
        ranks: &[NAME, SIGN, opening(ROUND), closing(ROUND)],
        pieces: &[&[0], &[2, 0, 1, 0, 3], &[2, 2, 0, 3, 1, 0, 3]],
        between: Some(1),
    };
    follow_edits(&rt, rt.alloc(), tried, 400, 2);
}

#[test]
fn copies_of_lists_follow_edits(rt: HostRuntime) {
    let grammar = Grammar::read(rt.alloc(), LISTS).expect(&rt, "a grammar");
    let tables = Tables::build(rt.alloc(), &grammar).expect(&rt, "tables");
    let tried = Tried {
        tables: &tables,
        ranks: &[NAME, NAME],
        pieces: &[&[0], &[1]],
        between: None,
    };
    follow_edits(&rt, rt.alloc(), tried, 400, 2);
}

#[test]
fn copies_of_chains_follow_edits(rt: HostRuntime) {
    let grammar = Grammar::read(rt.alloc(), CHAINS).expect(&rt, "a grammar");
    let tables = Tables::build(rt.alloc(), &grammar).expect(&rt, "tables");
    let tried = Tried {
        tables: &tables,
        ranks: &[NAME, CLOSING, opening(SQUARE), closing(SQUARE)],
        pieces: &[&[0], &[2, 0, 1, 0, 3], &[2, 3]],
        between: Some(1),
    };
    follow_edits(&rt, rt.alloc(), tried, 400, 2);
}

#[test]
fn copies_of_blocks_follow_edits(rt: HostRuntime) {
    let grammar = Grammar::read(rt.alloc(), BLOCKS).expect(&rt, "a grammar");
    let tables = Tables::build(rt.alloc(), &grammar).expect(&rt, "tables");
    let tried = Tried {
        tables: &tables,
        ranks: &[
            CLOSING,
            CLOSING,
            closing(ROUND),
            closing(CURLY),
            opening(CURLY),
            opening(ROUND),
            SIGN,
            SIGN,
            WORD,
            WORD,
            WORD,
            NAME,
            NAME,
        ],
        pieces: &[
            &[8, 11, 6, 12, 7, 11, 0],
            &[11, 5, 11, 1, 12, 2, 0],
            &[9, 11, 4, 12, 0, 3],
            &[9, 11, 4, 9, 11, 4, 11, 0, 3, 3, 10, 4, 8, 11, 6, 11, 0, 3],
            &[4, 12, 0, 12, 0, 3],
        ],
        between: None,
    };
    follow_edits(&rt, rt.alloc(), tried, 400, 3);
}

/// The kinds with this rule in the place of the first one.
fn beginning_with(rt: &impl Abort, alloc: Global, kinds: &[Kind], rule: usize) -> Vec<Kind> {
    let mut new = Vec::with_capacity(alloc, kinds.len()).expect(rt, "memory");
    add(rt, &mut new, &[rule]);
    new.extend_from_slice(kinds.get(1..).unwrap_or(&[]))
        .expect(rt, "memory");
    new
}

/// The copy has one repair, of these changes.
fn assert_changed(rt: &impl Abort, mending: &Mending, changes: &[Change]) {
    assert!(rt; mending.repairs().len() == 1);
    assert!(rt;
        begun(&mending.repairs()[0].changes) == changes,
        "{:?}",
        mending.repairs()
    );
}

#[test]
fn a_repair_far_behind_an_edit_is_found_anew_on_another_stack(rt: HostRuntime) {
    let alloc = rt.alloc();
    let grammar = Grammar::read(alloc, BEGINNINGS).expect(&rt, "a grammar");
    let tables = Tables::build(alloc, &grammar).expect(&rt, "tables");
    let tried = Tried {
        tables: &tables,
        ranks: &[WORD, WORD, NAME, CLOSING, CLOSING, SIGN, CLOSING],
        pieces: &[],
        between: None,
    };
    let mut long = Vec::new(alloc);
    add(&rt, &mut long, &[0]);
    for _ in 0..400 {
        add(&rt, &mut long, &[2]);
    }
    add(&rt, &mut long, &[6]);
    let short = beginning_with(&rt, alloc, &long, 1);
    let mut mending = anew(&rt, alloc, tried, &long);
    assert_changed(&rt, &mending, &[Change::PutIn(3), Change::PutIn(4)]);
    mending = follow(&rt, alloc, tried, mending, &short);
    assert_changed(&rt, &mending, &[Change::PutIn(5)]);
    mending = follow(&rt, alloc, tried, mending, &long);
    assert_changed(&rt, &mending, &[Change::PutIn(3), Change::PutIn(4)]);
}

/// Statements by which braces are no strangers to names, `if` and a name, and then so many
/// statements of a name.
fn headless(rt: &impl Abort, alloc: Global, count: usize) -> Vec<Kind> {
    let mut kinds = Vec::new(alloc);
    for _ in 0..2 {
        add(
            rt,
            &mut kinds,
            &[9, 11, 4, 11, 0, 3, 11, 0, 9, 11, 4, 3, 11, 0],
        );
    }
    add(rt, &mut kinds, &[9, 11]);
    for _ in 0..count {
        add(rt, &mut kinds, &[11, 0]);
    }
    kinds
}

/// Ranks by which braces are put in before all else; they count as such, or not.
fn bracing(counts: bool) -> [Rank; 13] {
    let curly = if counts { CURLY } else { Balance::EVEN };
    let opens = Rank {
        balance: curly,
        ..CLOSING
    };
    [
        SIGN,
        SIGN,
        SIGN,
        closing(curly),
        opens,
        WORD,
        WORD,
        WORD,
        WORD,
        WORD,
        WORD,
        WORD,
        WORD,
    ]
}

/// The first repair of the copy has these changes.
fn assert_begins(rt: &impl Abort, mending: &Mending, changes: &[Change]) {
    assert!(rt; mending.repairs().len() > 0);
    assert!(rt;
        begun(&mending.repairs()[0].changes) == changes,
        "{:?}",
        mending.repairs()[0]
    );
}

#[test]
fn a_bracket_is_put_in_with_its_partner(rt: HostRuntime) {
    let alloc = rt.alloc();
    let grammar = Grammar::read(alloc, BLOCKS).expect(&rt, "a grammar");
    let tables = Tables::build(alloc, &grammar).expect(&rt, "tables");
    let kinds = headless(&rt, alloc, 200);
    let rows: [(bool, &[Change]); 2] = [
        (false, &[Change::PutIn(4)]),
        (true, &[Change::PutIn(4), Change::PutIn(3)]),
    ];
    for (counts, changes) in &rows {
        let tried = Tried {
            tables: &tables,
            ranks: &bracing(*counts),
            pieces: &[],
            between: None,
        };
        assert_begins(&rt, &anew(&rt, alloc, tried, &kinds), changes);
    }
}

#[test]
fn a_partner_far_behind_counts_for_a_repair_before_it(rt: HostRuntime) {
    let alloc = rt.alloc();
    let grammar = Grammar::read(alloc, BLOCKS).expect(&rt, "a grammar");
    let tables = Tables::build(alloc, &grammar).expect(&rt, "tables");
    let tried = Tried {
        tables: &tables,
        ranks: &bracing(true),
        pieces: &[],
        between: None,
    };
    let open = headless(&rt, alloc, 400);
    let mut closed = headless(&rt, alloc, 400);
    add(&rt, &mut closed, &[3]);
    let pair = [Change::PutIn(4), Change::PutIn(3)];
    let mut mending = anew(&rt, alloc, tried, &open);
    assert_changed(&rt, &mending, &pair);
    mending = follow(&rt, alloc, tried, mending, &closed);
    assert_changed(&rt, &mending, &[Change::PutIn(4)]);
    mending = follow(&rt, alloc, tried, mending, &open);
    assert_changed(&rt, &mending, &pair);
}
