//! Changes of a text as edits.

ghost use Rattle.std.specs.Prelude.{◌≡◌, ◌≤◌, ◌<◌, ◌-◌, ◌↔◌, Err, encode_utf8_all, length, IfOk, OnOk};
ghost use Rattle.std.specs.Str.{chars};
ghost use Rattle.definitions.specs.Text.{IsText, edit};
ghost use Rattle.docs.specs.Settling.{LeadsTo};

use definitions::Edit;
use std::alloc::Global;
use text::{Text, TextFault};

/// Puts `new` in the place of the characters from one offset up to another, and returns the edit
/// of this number that it is. `TooLarge` exactly where the text would have more than 1,048,576
/// bytes in UTF-8.
pub fn put(
    alloc: Global,
    text: &mut Text,
    from: usize,
    to: usize,
    new: &str,
    number: u64,
) -> Result<Edit, TextFault>
    requires ordered { from ≤ to }
    requires in_range { to ≤ length text.old }
    ensures edited { OnOk result (text.new ≡ edit text.old from to (chars new.now)) }
    ensures made { let inserted = length (chars new.now) in IfOk result (λ made. made
        ≡ record { at = from; removed = to - from; inserted = inserted; number = number }) }
    ensures leads { IfOk result (λ made. LeadsTo text.old made text.new) }
    ensures few { IfOk result (λ made. made.inserted ≤ 1048576) }
    ensures characters { IsText text.old }
    ensures short { length text.old ≤ 1048576 }
    ensures too_large { (result ≡ Err TextFault.TooLarge)
        ↔ (1048576 < length (encode_utf8_all (edit text.old from to (chars new.now)))) }
{
    let before = text.len();
    text.replace(alloc, from, to, new)?;
    Ok(Edit {
        at: from,
        removed: to - from,
        // Counted by the lengths, since counting the characters of `new` would walk over it.
        inserted: text.len() - (before - (to - from)),
        number,
    })
}
