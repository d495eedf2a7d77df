//! The gotos and the moves of the states so far.
ghost use Rattle.std.specs.Prelude.{◌≡◌, ◌+◌, ◌<◌, ◌∷◌, ◌++◌, [], None, OnOk, length};
ghost use Rattle.tables.specs.Actions.{AddsMoves, AreMade};
ghost use Rattle.item_sets.specs.Collection.{AreStates};

use crate::decisions::{Clash, Decided, Moves, moves_of};
use crate::rows::{GotoRow, Gotos};
use item_sets::{StateNumber, States, close};
use productions::AugmentedGrammar;
use std::alloc::{AllocError, Global};
use std::marker::Model;

/// A state, and two of its items that conflict.
#[derive(Clone, Copy)]
pub struct ClashAt {
    /// The number of the state.
    pub state: StateNumber,
    /// The two items.
    pub clash: Clash,
}

/// The gotos and the moves of the first states, and the first conflict, after which the moves are
/// not complete.
#[derive(Drop)]
pub struct Progress {
    /// Where the nonterminals lead from each of the states.
    pub gotos: Vec<Gotos>,
    /// The moves of the states.
    pub moves: Vec<Moves>,
    /// The first conflict, if there was one.
    pub clash: Option<ClashAt>,
}

impl Model for Progress {
    ghost use Rattle.tables.specs.Actions.{Made};

    ghost Value = { Made };

    ghost view = { λ a. record { gotos = a.gotos.items; moves = a.moves.items; clash = a.clash } };
}

impl Progress {
    /// No state yet.
    pub fn new(alloc: Global) -> Progress
        ensures { result ≡ record { gotos = []; moves = []; clash = None } }
    {
        Progress {
            gotos: Vec::new(alloc),
            moves: Vec::new(alloc),
            clash: None,
        }
    }

    /// How many states have their gotos.
    pub fn len(&self) -> usize
        ensures { result ≡ length self.now.gotos }
    {
        self.gotos.len()
    }

    /// Adds the gotos of the next state, and its moves or its conflict.
    fn add(&mut self, gotos: Gotos, decided: Decided) -> Result<(), AllocError>
        ensures gotos { OnOk result (self.new.gotos ≡ self.old.gotos ++ gotos ∷ []) }
        ensures moves { OnOk result (AddsMoves self.old self.new decided) }
    {
        let state = StateNumber {
            index: self.gotos.len(),
        };
        self.gotos.push(gotos)?;
        match decided {
            Decided::Moves(moves) => self.moves.push(moves)?,
            Decided::Clash(clash) => {
                if self.clash.is_none() {
                    self.clash = Some(ClashAt { state, clash });
                }
            }
        }
        Ok(())
    }
}

/// Makes the gotos and the moves of the next state, to which its symbols may add states.
pub fn advance(
    alloc: Global,
    grammar: &AugmentedGrammar,
    states: &mut States,
    made: &mut Progress,
) -> Result<(), AllocError>
    requires states { AreStates grammar.now states.old }
    requires made { AreMade grammar.now states.old.kernels made.old }
    requires more { length made.old.gotos < length states.old.kernels }
    ensures states { OnOk result (AreStates grammar.now states.new) }
    ensures made { OnOk result (AreMade grammar.now states.new.kernels made.new) }
    ensures longer { OnOk result (length made.new.gotos ≡ length made.old.gotos + 1) }
{
    let state = StateNumber { index: made.len() };
    let items = close(alloc, grammar, states.kernel(state))?;
    let to = states.gotos(alloc, grammar, &items, state)?;
    let row = GotoRow::new(to);
    let decided = moves_of(alloc, grammar, &items, &row)?;
    let gotos = row.gotos(alloc, grammar.rules())?;
    made.add(gotos, decided)?;
    Ok(())
}
