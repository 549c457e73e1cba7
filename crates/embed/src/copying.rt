ghost use Rattle.std.specs.Prelude.{◌≡◌, ◌<◌, ◌≤◌, length};
ghost use Rattle.embed.specs.Calls.{Copies, Puts};

use crate::answer::Answer;

/// Copies a text to the front of a buffer, and tells its length.
pub fn copy_to(text: &[u8], out: &mut [u8], len: &mut usize)
    requires { length text.now ≤ length out.old }
    ensures { Copies text.now out.old out.new len.new }
{
    out[..text.len()].copy_from_slice(text);
    *len = text.len();
}

/// Copies a text to the front of a buffer where there is room for it, and tells its length.
pub fn put(text: &[u8], out: &mut [u8], len: &mut usize) -> Answer
    ensures { Puts text.now out.old out.new len.new result }
{
    if out.len() < text.len() {
        *len = text.len();
        return Answer::Short;
    }
    copy_to(text, out, len);
    Answer::Done
}
