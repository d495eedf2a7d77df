//! What faults are called in print.

ghost use Rattle.std.specs.Prelude.{◌≡◌};
ghost use Rattle.commands.specs.Texts.{frame_code};

use frames::FrameFault;

/// The code of a fault of frames.
pub fn frame_code(fault: FrameFault) -> &'static str
    ensures { result.now ≡ frame_code fault }
{
    match fault {
        FrameFault::BadField => "F1",
        FrameFault::NoLength => "F2",
        FrameFault::SecondLength => "F3",
        FrameFault::BadLength => "F4",
        FrameFault::BadCharset => "F5",
        FrameFault::Truncated => "F6",
        FrameFault::Memory => "F7",
        FrameFault::LongHeader => "F8",
    }
}
