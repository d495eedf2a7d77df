//! Positions and offsets in all three units against values of another program.
//!
//! The texts have breaks of all three sorts and characters of one to four bytes, moved so that the
//! border of two pieces falls at each place among them. The sums are what this program of Python
//! 3 prints, with its own encoders:
//!
//! ```text
//! import bisect, re
//! starts = [(line, 0) for line in range(1, 8)]
//! places = [(0, 0), (0, 998), (0, 1010), (0, 1022), *starts, (6, 1000)]
//! for code, size in ("utf-8", 1), ("utf-16-le", 2), ("utf-32-le", 4):
//!     for n in range(1000, 1025):
//!         text = "x" * n + "\r\né€😀\ré\n\n😀\r\r\ny" + "z" * (2024 - n)
//!         breaks = [m.span() for m in re.finditer("\r\n|\r|\n", text)]
//!         lines = list(zip([0] + [b for _, b in breaks], [a for a, _ in breaks] + [len(text)]))
//!         units = lambda a, b: len(text[a:b].encode(code)) // size
//!         positions = offsets = 0
//!         for o in [*range(995, 1045), *range(2000, 2050)]:
//!             line = sum(b <= o for _, b in breaks)
//!             start, end = lines[line]
//!             positions += o * (10000 * line + units(start, min(o, end)))
//!         for line, first in places:
//!             start, end = lines[line] if line < len(lines) else (len(text), len(text))
//!             after = [units(start, o) for o in range(start, end + 1)]
//!             for c in range(first, first + 12):
//!                 offsets += (10000 * line + c) * (start + bisect.bisect_right(after, c) - 1)
//!         print((positions, offsets), end=",\n")
//! ```

ghost use Rattle.std.specs.Prelude.{◌<◌, ◌≤◌};

use crate::checks::{expect_at, open};
use crate::documents::filled;
use std::alloc::Global;
use std::process::Abort;
use text::{Position, Text, Unit};

/// For each number of letters the sum over positions and the sum over offsets, in UTF-8.
const UTF8: &[(u64, u64); 25] = &[
    (8450540530, 5776205399),
    (8390921431, 5779491422),
    (8331245351, 5782776444),
    (8271512293, 5786060464),
    (8211722260, 5789343481),
    (8151875255, 5792625494),
    (8091971281, 5795906502),
    (8032010341, 5799186504),
    (7971992438, 5802465499),
    (7911917575, 5805743486),
    (7851785755, 5809020464),
    (7791596981, 5812296432),
    (7731351256, 5815571389),
    (7671048583, 5818845334),
    (7610688965, 5822118266),
    (7550272405, 5825329173),
    (7489798906, 5828478055),
    (7429268471, 5831564912),
    (7368681103, 5834589744),
    (7308036805, 5837552551),
    (7247335580, 5840453333),
    (7186577431, 5843292090),
    (7125762361, 5846068822),
    (7064890373, 5848783529),
    (7003961470, 5851436211),
];

/// The same in UTF-16.
const UTF16: &[(u64, u64); 25] = &[
    (8450528463, 5776395445),
    (8390909352, 5779681468),
    (8331233260, 5782966490),
    (8271500190, 5786250510),
    (8211710145, 5789533527),
    (8151863128, 5792815540),
    (8091959142, 5796096548),
    (8031998190, 5799376550),
    (7971980275, 5802655545),
    (7911905400, 5805933532),
    (7851773568, 5809210510),
    (7791584782, 5812486478),
    (7731339045, 5815761435),
    (7671036360, 5819035380),
    (7610676730, 5822308312),
    (7550260158, 5825519219),
    (7489786647, 5828668101),
    (7429256200, 5831754958),
    (7368668820, 5834779790),
    (7308024510, 5837742597),
    (7247323273, 5840643379),
    (7186565112, 5843482136),
    (7125750030, 5846258868),
    (7064878030, 5848973575),
    (7003949115, 5851626257),
];

/// The same in UTF-32.
const UTF32: &[(u64, u64); 25] = &[
    (8450526448, 5776445449),
    (8390907335, 5779731472),
    (8331231241, 5783016494),
    (8271498169, 5786300514),
    (8211708122, 5789583531),
    (8151861103, 5792865544),
    (8091957115, 5796146552),
    (8031996161, 5799426554),
    (7971978244, 5802705549),
    (7911903367, 5805983536),
    (7851771533, 5809260514),
    (7791582745, 5812536482),
    (7731337006, 5815811439),
    (7671034319, 5819085384),
    (7610674687, 5822358316),
    (7550258113, 5825569223),
    (7489784600, 5828718105),
    (7429254151, 5831804962),
    (7368666769, 5834829794),
    (7308022457, 5837792601),
    (7247321218, 5840693383),
    (7186563055, 5843532140),
    (7125747971, 5846308872),
    (7064875969, 5849023579),
    (7003947052, 5851676261),
];

/// What stands between the letters.
const BREAKS: &str = "\r\n\u{e9}\u{20ac}\u{1f600}\r\u{e9}\n\n\u{1f600}\r\r\ny";

/// Lines, and characters in them, near the ends of the lines and past the last one.
const PLACES: &[(u32, u32)] = &[
    (0, 0),
    (0, 998),
    (0, 1_010),
    (0, 1_022),
    (1, 0),
    (2, 0),
    (3, 0),
    (4, 0),
    (5, 0),
    (6, 0),
    (7, 0),
    (6, 1_000),
];

/// So many letters, and 2,024 with those after what stands between. With [`BREAKS`] these are
/// 2,048 bytes: two pieces.
fn text_around(rt: &impl Abort, alloc: Global, count: usize, between: &str) -> Text {
    let before = filled(rt, alloc, 'x', count);
    let after = filled(rt, alloc, 'z', 2_024usize.saturating_sub(count));
    let text = format!(in alloc; "{before}{between}{after}").expect(rt, "memory");
    open(rt, alloc, text.as_str())
}

/// The number that stands for a position in the sums.
fn number(position: Position) -> u64 {
    (position.line as u64) * 10_000 + position.character as u64
}

/// The positions of fifty offsets, each times its offset.
fn sum_of_positions(text: &Text, unit: Unit, first: u32) -> u64
    requires { first ≤ 2100 }
{
    let mut sum = 0u64;
    for offset in first..first + 50 {
        let position = number(text.position(unit, offset as usize));
        sum = sum.wrapping_add(position.wrapping_mul(offset as u64));
    }
    sum
}

/// The offsets of twelve positions of a line, each times the number of its position.
fn sum_of_twelve(text: &Text, unit: Unit, line: u32, first: u32) -> u64 {
    let mut sum = 0u64;
    for step in 0u32..12 {
        let character = first.saturating_add(step);
        let position = Position { line, character };
        let offset = text.offset(unit, position) as u64;
        sum = sum.wrapping_add(number(position).wrapping_mul(offset));
    }
    sum
}

/// The offsets of the positions at and after [`PLACES`].
fn sum_of_offsets(text: &Text, unit: Unit) -> u64 {
    let mut sum = 0u64;
    for (line, first) in PLACES {
        sum = sum.wrapping_add(sum_of_twelve(text, unit, *line, *first));
    }
    sum
}

/// Whether the positions near the breaks and near the end, and the offsets, add up to these.
fn has_sums(text: &Text, unit: Unit, sums: (u64, u64)) -> bool {
    let near_breaks = sum_of_positions(text, unit, 995);
    let near_end = sum_of_positions(text, unit, 2_000);
    near_breaks.wrapping_add(near_end) == sums.0 && sum_of_offsets(text, unit) == sums.1
}

/// Whether a text has the sums of this row in each unit.
fn has_row(text: &Text, row: usize) -> bool
    requires { row < 25 }
{
    has_sums(text, Unit::Utf8, UTF8[row])
        && has_sums(text, Unit::Utf16, UTF16[row])
        && has_sums(text, Unit::Utf32, UTF32[row])
}

fn expect_row(rt: &impl Abort, text: Text, row: usize)
    requires { row < 25 }
{
    expect_at(rt, has_row(&text, row), row);
}

#[test]
fn opened_texts_have_the_sums_of_another_program(rt: HostRuntime) {
    for row in 0usize..25 {
        let text = text_around(&rt, rt.alloc(), 1_000 + row, BREAKS);
        expect_row(&rt, text, row);
    }
}

/// A text in which an edit puts the breaks after so many letters.
fn edited(rt: &impl Abort, alloc: Global, count: usize) -> Text {
    let mut text = text_around(rt, alloc, count, "");
    assert!(rt; count <= text.len());
    text.replace(alloc, count, count, BREAKS)
        .expect(rt, "an edit");
    text
}

#[test]
fn edited_texts_have_the_sums_of_another_program(rt: HostRuntime) {
    for row in 0usize..25 {
        expect_row(&rt, edited(&rt, rt.alloc(), 1_000 + row), row);
    }
}
