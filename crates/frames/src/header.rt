//! The header part of a frame (LSP 3.17, "Header Part").

ghost use Rattle.std.specs.Prelude.{◌≡◌, ◌↔◌, ◌+◌, ◌-◌, ◌<◌, ◌≤◌, length, take, drop, IfSome, IfOk, IfErr, IsTrue, Ok, Err, is_some, option_map, position, ◌==◌};
ghost use Rattle.std.specs.Option.{option_or, option_map_or};
ghost use Rattle.std.specs.List.{list_all};
ghost use Rattle.std.specs.Char.{is_ascii_digit};
ghost use Rattle.std.specs.Str.Parse.{digits_value};
ghost use Rattle.frames.specs.Frames.{start_of, IsStreamFault};
ghost use Rattle.frames.specs.Kept.{StartIsWithin, HoldsNone};
ghost use Rattle.frames.specs.Header.{through, header_size, is_name_byte, is_value_byte, trim, is_number, is_content_length, is_content_type, is_utf8_type, length_value, field_at, field_of, line_length, length_fault, line_fault, header_length};

use crate::fault::FrameFault;

/// The most bytes that a header part has.
pub const LONGEST_HEADER: usize = 4096;

/// The longest content.
pub const LONGEST_CONTENT: usize = 16_777_216;

/// What the bytes of a stream begin with.
#[derive(Clone, Copy)]
pub enum Start {
    /// The header part isn't whole yet.
    NeedsMore,
    /// The header part is faulty.
    Fails(FrameFault),
    /// A header part of this size announces a content of this length.
    Announces(usize, usize),
}

/// The bytes from a place on.
pub fn bytes_from(bytes: &[u8], from: usize) -> &[u8]
    requires { from ≤ length bytes.now }
    ensures { result.now ≡ drop from bytes.now }
{
    &bytes[from..]
}

/// How many bytes lead through the first `needle`.
fn through(needle: &[u8], bytes: &[u8]) -> Option<usize>
    ensures value { result ≡ through needle.now bytes.now }
    ensures low { IfSome result (λ n. length needle.now ≤ n) }
    ensures high { IfSome result (λ n. n ≤ length bytes.now) }
{
    for start in 0..bytes.len() {
        if bytes[start..].starts_with(needle) {
            return Some(start + needle.len());
        }
    }
    None
}

/// The size of the header part at the start.
fn header_size(bytes: &[u8]) -> Option<usize>
    ensures value { result ≡ header_size bytes.now }
    ensures low { IfSome result (λ n. 2 ≤ n) }
    ensures high { IfSome result (λ n. n ≤ length bytes.now) }
{
    if bytes.starts_with(b"\r\n") {
        return Some(2);
    }
    through(b"\r\n\r\n", bytes)
}

fn is_name_byte(byte: u8) -> bool
    ensures { result ≡ is_name_byte byte }
{
    byte.is_ascii_alphanumeric() || byte == b'-'
}

fn is_value_byte(byte: u8) -> bool
    ensures { result ≡ is_value_byte byte }
{
    (b' ' <= byte && byte <= b'~') || byte == b'\t'
}

/// The value without the spaces and tabs at its ends: it has no other white space.
fn trim(value: &[u8]) -> &[u8]
    requires { IsTrue (list_all is_value_byte value.now) }
    ensures { result.now ≡ trim value.now }
{
    value.trim_ascii()
}

fn is_content_length(name: &[u8]) -> bool
    ensures { result ≡ is_content_length name.now }
{
    name.eq_ignore_ascii_case(b"content-length")
}

fn is_content_type(name: &[u8]) -> bool
    ensures { result ≡ is_content_type name.now }
{
    name.eq_ignore_ascii_case(b"content-type")
}

/// The two types of content that name UTF-8.
fn is_utf8_type(value: &[u8]) -> bool
    ensures { result ≡ is_utf8_type value.now }
{
    value == b"application/vscode-jsonrpc; charset=utf-8".as_slice()
        || value == b"application/vscode-jsonrpc; charset=utf8".as_slice()
}

fn has_name_bytes(name: &[u8]) -> bool
    ensures { result ≡ list_all is_name_byte name.now }
{
    name.iter().all(|b| is_name_byte(*b))
}

fn has_value_bytes(value: &[u8]) -> bool
    ensures { result ≡ list_all is_value_byte value.now }
{
    value.iter().all(|b| is_value_byte(*b))
}

fn has_digits(value: &[u8]) -> bool
    ensures { result ≡ list_all is_ascii_digit value.now }
{
    value.iter().all(|b| b.is_ascii_digit())
}

/// One to eight digits.
fn is_number(value: &[u8]) -> bool
    ensures { result ≡ is_number value.now }
{
    !value.is_empty() && value.len() <= 8 && has_digits(value)
}

/// The number that the digits write.
fn number_of(digits: &[u8]) -> usize
    requires { IsTrue (is_number digits.now) }
    ensures { result ≡ digits_value 10 digits.now }
{
    let mut number: usize = 0;
    for digit in digits {
        number = number * 10 + (*digit - b'0') as usize;
    }
    number
}

/// A length in one to eight digits, up to the longest content's.
fn length_value(value: &[u8]) -> Option<usize>
    ensures value { result ≡ length_value value.now }
    ensures bound { IfSome result (λ n. n ≤ 16777216) }
{
    if !is_number(value) {
        return None;
    }
    let number = number_of(value);
    if number <= LONGEST_CONTENT {
        Some(number)
    } else {
        None
    }
}

/// The name and the value that a colon parts.
fn field_at(line: &[u8], colon: usize) -> Option<(&[u8], &[u8])>
    requires { colon < length line.now }
    ensures { option_map (λ f. (f.0.now, f.1.now)) result ≡ field_at line.now colon }
{
    let name = &line[..colon];
    let value = &line[colon + 1..];
    if !name.is_empty() && has_name_bytes(name) && has_value_bytes(value) {
        Some((name, trim(value)))
    } else {
        None
    }
}

fn colon_in(line: &[u8]) -> Option<usize>
    ensures place { result ≡ position (λ b. b == 58) line.now }
    ensures bound { IfSome result (λ colon. colon < length line.now) }
{
    line.iter().position(|b| *b == b':')
}

/// The name and the value of a field line.
fn field_of(line: &[u8]) -> Option<(&[u8], &[u8])>
    ensures { option_map (λ f. (f.0.now, f.1.now)) result ≡ field_of line.now }
{
    match colon_in(line) {
        Some(colon) => field_at(line, colon),
        None => None,
    }
}

/// The length that a `Content-Length` with this value gives, where `given` was given before it; or
/// its fault.
fn add_length(given: Option<usize>, value: &[u8]) -> Result<Option<usize>, FrameFault>
    ensures { result ≡ option_map_or Err
        (length_fault (is_some given) (length_value value.now)) (Ok (length_value value.now)) }
{
    if given.is_some() {
        return Err(FrameFault::SecondLength);
    }
    match length_value(value) {
        Some(length) => Ok(Some(length)),
        None => Err(FrameFault::BadLength),
    }
}

/// The length given up to this line, where `given` was given before it; or the line's fault.
fn add_line(given: Option<usize>, line: &[u8]) -> Result<Option<usize>, FrameFault>
    ensures { result ≡ option_map_or Err
        (line_fault (is_some given) line.now) (Ok (option_or given (line_length line.now))) }
{
    let Some((name, value)) = field_of(line) else {
        return Err(FrameFault::BadField);
    };
    if is_content_length(name) {
        add_length(given, value)
    } else if is_content_type(name) && !is_utf8_type(value) {
        Err(FrameFault::BadCharset)
    } else {
        Ok(given)
    }
}

/// The length that a whole header part gives, or the fault of its first faulty line.
fn header_length(part: &[u8]) -> Result<usize, FrameFault>
    ensures value { result ≡ header_length part.now }
    ensures bound { IfOk result (λ n. n ≤ 16777216) }
    ensures fault { IfErr result IsStreamFault }
{
    // The CR LF that ends the header part ends no field line.
    let mut rest = &part[..part.len().saturating_sub(2)];
    let mut given = None;
    while let Some(size) = through(b"\r\n", rest) {
        given = add_line(given, &rest[..size - 2])?;
        rest = bytes_from(rest, size);
    }
    given.ok_or(FrameFault::NoLength)
}

/// As many bytes as a header part has at most.
fn longest_header_of(bytes: &[u8]) -> &[u8]
    ensures { result.now ≡ take 4096 bytes.now }
{
    if bytes.len() < LONGEST_HEADER {
        bytes
    } else {
        &bytes[..LONGEST_HEADER]
    }
}

/// What the bytes begin with.
pub fn start_of(bytes: &[u8]) -> Start
    ensures value { result ≡ start_of bytes.now }
    ensures within { StartIsWithin result bytes.now }
{
    let prefix = longest_header_of(bytes);
    match header_size(prefix) {
        Some(size) => match header_length(&prefix[..size]) {
            Ok(length) => Start::Announces(size, length),
            Err(fault) => Start::Fails(fault),
        },
        None => {
            if bytes.len() < LONGEST_HEADER {
                Start::NeedsMore
            } else {
                Start::Fails(FrameFault::LongHeader)
            }
        }
    }
}

/// Whether the header part isn't whole yet, of bytes whose first `searched` hold no blank line.
pub fn needs_more(bytes: &[u8], searched: usize) -> bool
    requires within { searched ≤ length bytes.now }
    requires searched { HoldsNone bytes.now searched }
    ensures start { IsTrue result ↔ (start_of bytes.now ≡ Start.NeedsMore) }
    ensures holds { IsTrue result → HoldsNone bytes.now (length bytes.now) }
{
    if LONGEST_HEADER <= bytes.len() || bytes.starts_with(b"\r\n") {
        return false;
    }
    // The last three may begin a blank line.
    let unsearched = bytes_from(bytes, searched.saturating_sub(3));
    through(b"\r\n\r\n", unsearched).is_none()
}
