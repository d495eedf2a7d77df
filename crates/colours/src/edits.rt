//! What changes of the numbers of a document's colours.

ghost use Rattle.std.specs.Prelude.{◌≡◌, ◌≢◌, ◌↔◌, ◌+◌, ◌-◌, ◌%◌, ◌<◌, ◌≤◌, None, IfSome, length, take, drop, slice_index};
ghost use Rattle.colours.specs.Deltas.{applied};

/// How many numbers say a part.
const GROUP: usize = 5;

/// An edit of a list of numbers: from place `start` on, `delete_count` of them give way to others
/// (LSP 3.17, "SemanticTokensEdit").
#[derive(Clone, Copy, Debug)]
pub struct DataEdit<'a> {
    pub start: usize,
    pub delete_count: usize,
    pub numbers: &'a [u32],
}

/// The edit that makes the new numbers of the old ones; none exactly where they are the same. It
/// leaves all groups of five alone that both begin with, and of the others all that both end with.
pub fn delta<'a>(old: &[u32], new: &'a [u32]) -> Option<DataEdit<'a>>
    ensures applied { applied result old.now ≡ new.now }
    ensures none { (result ≡ None) ↔ (old.now ≡ new.now) }
    ensures within { IfSome result (λ edit. edit.start + edit.delete_count ≤ length old.now) }
    ensures groups { IfSome result (λ edit. (edit.start % 5 ≡ 0)
        × ((length old.now - (edit.start + edit.delete_count)) % 5 ≡ 0)) }
    ensures front { IfSome result (λ edit.
        take (edit.start + 5) old.now ≢ take (edit.start + 5) new.now) }
    ensures back { IfSome result (λ edit.
        let kept = length old.now - (edit.start + edit.delete_count) in
        edit.start + kept + 5 ≤ length old.now → edit.start + kept + 5 ≤ length new.now
        → drop (length old.now - (kept + 5)) old.now
        ≢ drop (length new.now - (kept + 5)) new.now) }
{
    let same = front(old, new);
    if same == old.len() && same == new.len() {
        return None;
    }
    let start = same - same % GROUP;
    let (left, right) = (&old[start..], &new[start..]);
    let common = back(left, right);
    let kept = common - common % GROUP;
    Some(DataEdit {
        start,
        delete_count: left.len() - kept,
        numbers: &right[..right.len() - kept],
    })
}

/// How many numbers both begin with.
fn front(a: &[u32], b: &[u32]) -> usize
    ensures left { result ≤ length a.now }
    ensures right { result ≤ length b.now }
    ensures same { take result a.now ≡ take result b.now }
    ensures most { result < length a.now → result < length b.now
        → slice_index a.now result ≢ slice_index b.now result }
{
    let mut count = 0;
    while count < a.len() && count < b.len() && a[count] == b[count] {
        count += 1;
    }
    count
}

/// How many numbers both end with.
fn back(a: &[u32], b: &[u32]) -> usize
    ensures left { result ≤ length a.now }
    ensures right { result ≤ length b.now }
    ensures same { drop (length a.now - result) a.now ≡ drop (length b.now - result) b.now }
    ensures most { result < length a.now → result < length b.now
        → slice_index a.now (length a.now - 1 - result)
        ≢ slice_index b.now (length b.now - 1 - result) }
{
    let mut count = 0;
    while count < a.len() && count < b.len() && a[a.len() - 1 - count] == b[b.len() - 1 - count] {
        count += 1;
    }
    count
}
