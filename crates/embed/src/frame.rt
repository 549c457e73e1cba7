ghost use Rattle.std.specs.Prelude.{◌≡◌};
ghost use Rattle.embed.specs.Frames.{frame_of};

use fixed_units::MathBox;

/// The box of an element as C has it: all lengths in 1/1024 px.
#[repr(C)]
#[derive(Clone, Copy, Debug, PartialEq, Eq)]
pub struct Frame {
    pub width: i64,
    pub ascent: i64,
    pub descent: i64,
    pub ink_ascent: i64,
    pub ink_descent: i64,
    pub italic: i64,
    pub accent: i64,
}

impl Frame {
    /// The same lengths.
    pub fn of(frame: MathBox) -> Frame
        ensures { result ≡ frame_of frame }
    {
        Frame {
            width: frame.width,
            ascent: frame.ascent,
            descent: frame.descent,
            ink_ascent: frame.ink_ascent,
            ink_descent: frame.ink_descent,
            italic: frame.italic,
            accent: frame.accent,
        }
    }
}
