//! Why a stream isn't split into frames, and why a device stops.

use thiserror::Error;

/// What is wrong with a stream of frames (LSP 3.17, "Base Protocol").
///
/// What is wrong with a header part is reported once it is whole, and the first faulty line
/// decides.
#[derive(Clone, Copy, Debug, PartialEq, Eq, Error)]
pub enum FrameFault {
    /// A line that is no field: a name of ASCII letters, digits and `-`, a colon, and a value of
    /// bytes from 0x20 to 0x7E and tabs.
    #[error("F1")]
    BadField,
    /// A header part with no faulty line and no `Content-Length`.
    #[error("F2")]
    NoLength,
    /// A second `Content-Length` in one header part, whatever its value.
    #[error("F3")]
    SecondLength,
    /// A length that isn't 1 to 8 digits, or is over 16,777,216.
    #[error("F4")]
    BadLength,
    /// A `Content-Type` other than `application/vscode-jsonrpc; charset=utf-8`, or the same with
    /// `utf8`.
    #[error("F5")]
    BadCharset,
    /// The stream ends within a frame.
    #[error("F6")]
    Truncated,
    /// Memory was refused.
    #[error("F7")]
    Memory,
    /// 4,096 bytes that begin with no whole header part.
    #[error("F8")]
    LongHeader,
}

/// A device failed to read, write or flush.
#[derive(Clone, Copy, Debug, PartialEq, Eq, Error)]
#[error("device fault")]
pub struct DeviceFault;
