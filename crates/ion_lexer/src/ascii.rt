ghost use Rattle.std.specs.Prelude.{◌≡◌, ◌<◌, All, IfOk};

use ion_values::{OutOfMemory, Text};
use std::alloc::Global;
use std::str;

/// The text of ASCII characters.
pub fn ascii(alloc: Global, bytes: &[u8]) -> Result<Text, OutOfMemory>
    requires { All (λ b. b < 128) bytes.now }
    ensures { IfOk result (λ t. t ≡ bytes.now) }
{
    // ASCII is UTF-8.
    let text = unsafe { str::from_utf8_unchecked(bytes) };
    Text::from_text(alloc, text)
}
