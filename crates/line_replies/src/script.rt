ghost use Rattle.std.specs.Prelude.{◌≡◌};
ghost use Rattle.math_tree.specs.Forms.{is_white_space};

/// Whether a line has no byte but tabs, form feeds, carriage returns and spaces.
#[tactic(auto, unfolding(math_tree::specs::Forms::is_white_space))]
pub fn is_white_space(line: &[u8]) -> bool
    ensures { result ≡ is_white_space line.now }
{
    line.iter().all(|byte| byte.is_ascii_whitespace())
}
