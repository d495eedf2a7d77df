//! What is proved of answers and of faults, as contracts of functions that do nothing.

ghost use Rattle.std.specs.Prelude.{◌≡◌, ◌↔◌, IsTrue};
ghost use Rattle.docs.specs.declared.doc.DocFault.{DocFault as Fault};
ghost use Rattle.readings.specs.Answers.{AlwaysAnswers, AnswersOnce};
ghost use Rattle.readings.specs.Edits.{AlwaysCounts, CountsOnce};

use crate::language::Language;
use lexer::each_text_has_tokens;
use readings::laws::{
    answers_are_unique, answers_exist, edits_are_counted, edits_are_counted_once,
};
use tables::laws::{each_list_has_a_verdict, each_viable_list_has_expected};
use theory::laws::settled_unique;
use views::{each_offset_has_a_selection, trees_have_folds};

/// Each text that fits has a reading by the language, and each reading one answer to each
/// question. Of each edit one answer is given, where the texts before and after it fit.
pub fn always_answers(language: &Language)
    ensures always { AlwaysAnswers language.now.file }
    ensures once { AnswersOnce language.now.file }
    ensures counts { CountsOnce language.now.file }
    ensures counted { AlwaysCounts language.now.file }
{
    each_text_has_tokens();
    each_list_has_a_verdict();
    each_viable_list_has_expected();
    settled_unique();
    trees_have_folds();
    each_offset_has_a_selection();
    answers_exist();
    answers_are_unique();
    edits_are_counted();
    edits_are_counted_once();
    language.tables().moves_are_decided();
    // The reads say what is known of the tables and of the automaton.
    let _start = language.tables().start();
    let _automaton = language.automaton();
}

/// Faults of documents are equal by `==` exactly where they are the same.
pub fn equal_faults_are_the_same()
    ensures { (a b : Fault) → IsTrue (⟦<crate::DocFault as PartialEq>⟧.eq a b) ↔ (a ≡ b) }
{}
