//! A grammar file, line by line.

ghost use Rattle.std.specs.Prelude.{◌≡◌, [], drop, IfOk, IfErr, OnOk};
ghost use Rattle.std.specs.Str.Lines.{lines};
ghost use Rattle.grammar_line.specs.Statements.{statements, first_line_version, version_of};
ghost use Rattle.grammar_file.specs.Faults.{IsWhole, HaveReferents, IsFileFault};
ghost use Rattle.grammar_line.specs.Kept.{texts};
ghost use Rattle.grammar_file.specs.Kept.{IsRead, IsWrittenOut};
ghost use Rattle.grammar_file.specs.Causes.{Reports};

use crate::fault::{GrammarCause, GrammarFault, Limit};
use crate::references::test_references;
use crate::statements::File;
use crate::written_out::write_out;
use grammar_line::Version;
use std::alloc::{AllocError, Global};

/// The most bytes of a file.
const LARGEST_FILE: usize = 65_536;

/// What the lines of a file say, where no line has a fault, there is a start, and each name that
/// is used is defined; or the first fault. After the lines stand the productions of the marked
/// words.
///
/// Reported first is a file of more than 65,536 bytes, then a first line that is neither
/// `lrgrammar 1` nor `lrgrammar 2`, then the first line with a fault of its own, then that there
/// is no start, and then the first line that uses a name wrongly.
pub fn read_file<'a>(alloc: Global, text: &'a str) -> Result<File<'a>, GrammarFault>
    ensures whole { IfOk result (λ _. IsWhole text.now) }
    ensures written { IfOk result (λ file. IsWrittenOut file (statements text.now)) }
    ensures referents { IfOk result (λ _.
        HaveReferents (statements text.now) (statements text.now)) }
    ensures fault { IfErr result (λ f. Reports f (IsFileFault text.now)) }
{
    let mut file = File::new(alloc);
    fill(alloc, &mut file, text).and(Ok(file))
}

/// Fills an empty file with what the text says.
fn fill<'a>(alloc: Global, file: &mut File<'a>, text: &'a str) -> Result<(), GrammarFault>
    requires { IsRead file.old [] }
    ensures whole { OnOk result (IsWhole text.now) }
    ensures written { OnOk result (IsWrittenOut file.new (statements text.now)) }
    ensures referents { OnOk result (HaveReferents (statements text.now) (statements text.now)) }
    ensures fault { IfErr result (λ f. Reports f (IsFileFault text.now)) }
{
    read_lines(alloc, file, text)?;
    test_references(alloc, &file.names, &file.statements)?;
    write_out(alloc, &mut file.statements, &mut file.names)?;
    Ok(())
}

/// Adds the lines of the text, which have a start, to an empty file.
fn read_lines<'a>(alloc: Global, file: &mut File<'a>, text: &'a str) -> Result<(), GrammarFault>
    requires { IsRead file.old [] }
    ensures whole { OnOk result (IsWhole text.now) }
    ensures read { OnOk result (IsRead file.new (statements text.now)) }
    ensures fault { IfErr result (λ f. Reports f (IsFileFault text.now)) }
{
    if LARGEST_FILE < text.len() {
        return Err(GrammarFault {
            line: 0,
            cause: GrammarCause::Limit(Limit::File),
        });
    }
    let lines = lines_of(alloc, text)?;
    let Some(version) = version_of(&lines) else {
        return Err(GrammarFault {
            line: 1,
            cause: GrammarCause::FirstLine,
        });
    };
    file.add_lines(alloc, version, after_first(&lines))?;
    if !file.names.started {
        return Err(GrammarFault {
            line: 0,
            cause: GrammarCause::NoStart,
        });
    }
    Ok(())
}

fn lines_of(alloc: Global, text: &str) -> Result<Vec<&str>, AllocError>
    ensures { IfOk result (λ found. texts found.items ≡ lines text.now) }
{
    text.lines().collect(alloc)
}

fn after_first<'l, 'a>(lines: &'l [&'a str]) -> &'l [&'a str]
    ensures { result.now ≡ drop 1 lines.now }
{
    match lines {
        [] => lines,
        [_, rest @ ..] => rest,
    }
}

/// The version that the first line gives, if it gives one.
fn version_of(lines: &[&str]) -> Option<Version>
    ensures { result ≡ version_of (texts lines.now) }
{
    match lines {
        [] => None,
        [first, ..] => first_line_version(first),
    }
}

fn first_line_version(line: &str) -> Option<Version>
    ensures { result ≡ first_line_version line.now }
{
    match line {
        "lrgrammar 1" => Some(Version::One),
        "lrgrammar 2" => Some(Version::Two),
        _ => None,
    }
}
