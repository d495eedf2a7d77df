//! What is proved of readings, as contracts of functions that do nothing.

ghost use Rattle.definitions.specs.Items.{HasNoConflict};
ghost use Rattle.grammar.specs.Grammars.{FileGrammar};
ghost use Rattle.readings.specs.Answers.{AlwaysAnswers, AnswersOnce};
ghost use Rattle.readings.specs.Edits.{AlwaysCounts, CountsOnce};
ghost use Rattle.readings.specs.Layers.{LayersAnswer};

use definitions::laws::{expected_unique, folds_unique, selection_unique, tokens_unique};
use theory::laws::{document_trees_unique, verdict_unique};

/// By a grammar without a conflict each text has at most one reading, and each reading at most one
/// answer to each question.
pub fn answers_are_unique()
    ensures { (file : FileGrammar) → HasNoConflict file.grammar → AnswersOnce file }
{
    tokens_unique();
    verdict_unique();
    document_trees_unique();
    expected_unique();
    folds_unique();
    selection_unique();
}

/// Where the layers have what answers are made of, each text that fits has a reading, and each
/// reading an answer to each question.
pub fn answers_exist()
    ensures { (file : FileGrammar) → LayersAnswer file → AlwaysAnswers file }
{}

/// Where answers are unique, each edit makes one number of tokens and of nodes, and each document
/// has one list of counts, but for the nodes in memory.
pub fn edits_are_counted_once()
    ensures { (file : FileGrammar) → AnswersOnce file → CountsOnce file }
{}

/// Where answers exist, each edit makes some number of tokens and of nodes, if the texts before
/// and after it fit.
pub fn edits_are_counted()
    ensures { (file : FileGrammar) → AlwaysAnswers file → AlwaysCounts file }
{}
