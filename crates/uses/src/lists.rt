//! Examples of lists, of pieces, of patterns and of stores of trees.

use lexer::{Kind, ShortKind, Token};
use patterns::Pattern;
use pieces::{Piece, Sums, of_text};
use runs::Runs;
use seqtree::{Seq, Slots, cut_up};
use std::alloc::Global;
use trees::{Child, Store};

/// The example of `seqtree`.
pub fn use_seqtree(rt: &HostRuntime, alloc: Global) -> Option<()> {
    let mut pieces: Seq<Piece> = Seq::new();
    let text = String::from_str(alloc, "1+2").ok()?;
    let slots = Slots::make(alloc, cut_up(alloc, text).ok()?).ok()?;
    let _gone = pieces.replace(0, 0, slots);
    println!(rt; "{} piece", pieces.len()).ok()?;
    // 1 piece
    Some(())
}

/// The example of `runs`.
pub fn use_runs(rt: &HostRuntime, alloc: Global) -> Option<()> {
    let number = Token {
        born: 0,
        length: 2,
        reach: 3,
        short_kind: ShortKind::Rule(0),
        skipped: false,
    };
    let mut list: Runs<Token> = Runs::new();
    list.replace(alloc, 0, 0, &[number, number]).ok()?;
    println!(rt; "{} characters", list.total().characters).ok()?;
    // 4 characters
    Some(())
}

/// The example of `patterns`.
pub fn use_patterns(rt: &HostRuntime, alloc: Global) -> Option<()> {
    if let Err(fault) = Pattern::read(alloc, r#""ab" [z-a]"#) {
        println!(rt; "a fault at character {}", fault.at).ok()?;
    }
    // a fault at character 6
    Some(())
}

/// The example of `pieces`.
pub fn use_pieces(rt: &HostRuntime, alloc: Global) -> Option<()> {
    let text = String::from_str(alloc, "1+\n2").ok()?;
    let pieces: Vec<Piece> = cut_up(alloc, text).ok()?;
    println!(rt; "{} piece", pieces.len()).ok()?;
    // 1 piece
    if let Sums::Filled(sums) = of_text("1+\n2") {
        println!(rt; "{} break", sums.breaks).ok()?;
    }
    // 1 break
    Some(())
}

/// The example of `trees`.
pub fn use_trees(rt: &HostRuntime, alloc: Global) -> Option<()> {
    let mut store = Store::new(alloc);
    let number = Child::Token(Kind::Rule(0));
    let atom = store.branch(alloc, 2, &[number], 0).ok()?;
    let sum = store.branch(alloc, 1, &[Child::Node(atom)], 0).ok()?;
    let (tokens, nodes) = (store.tokens(sum), store.size(sum));
    println!(rt; "{tokens} token below {nodes} nodes").ok()?;
    // 1 token below 2 nodes
    Some(())
}
