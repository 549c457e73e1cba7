ghost use Rattle.std.specs.Prelude.{◌≡◌};
ghost use Rattle.font_metrics.specs.Texts.{axis_text};

use op_dictionary::Axis;

/// `block` or `inline`
pub fn axis_text(axis: Axis) -> &'static str
    ensures { result.now ≡ axis_text axis }
{
    match axis {
        Axis::Block => "block",
        Axis::Inline => "inline",
    }
}
