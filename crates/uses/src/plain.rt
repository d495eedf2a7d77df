//! Examples of plain values, of laws and of frames.

use definitions::{Position, Range};
use frames::Decoder;
use readings::laws::answers_are_unique;
use std::alloc::Global;
use theory::laws::one_tree_of_used;

/// The example of `definitions`.
pub fn use_definitions(rt: &HostRuntime) -> Option<()> {
    let at = Position {
        line: 1,
        character: 4,
    };
    let place = Range { start: at, end: at };
    println!(rt; "line {}", place.end.line).ok()?;
    // line 1
    Some(())
}

/// The example of `theory`.
pub fn use_theory() {
    one_tree_of_used();
}

/// The example of `readings`.
pub fn use_readings() {
    answers_are_unique();
}

/// The example of `frames`.
pub fn use_frames(rt: &HostRuntime, alloc: Global) -> Option<()> {
    let mut decoder = Decoder::new(alloc);
    let frames = decoder.feed(alloc, b"Content-Length: 2\r\n\r\n{}").ok()?;
    let (count, may_end) = (frames.len(), decoder.finish().is_ok());
    println!(rt; "{count} frame; may end here: {may_end}").ok()?;
    // 1 frame; may end here: true
    Some(())
}
