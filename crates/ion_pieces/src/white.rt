//! Where white space ends.
ghost use Rattle.std.specs.Prelude.{◌≡◌, ◌≤◌, ◌<◌, length, take};
ghost use Rattle.ion_model.specs.Blanks.{is_space};
ghost use Rattle.ion_pieces.specs.Fronts.{EndsWhite};

/// The length of the bytes up to the last white space and with it, 0 if there is none.
pub fn white_end(bytes: &[u8]) -> usize
    ensures within { result ≤ length bytes.now }
    ensures ends { 0 < result → EndsWhite (take result bytes.now) }
{
    let mut end = bytes.len();
    while end > 0 {
        if is_space(bytes[end - 1]) {
            return end;
        }
        end -= 1;
    }
    0
}

/// Whether a byte is white space.
fn is_space(b: u8) -> bool
    ensures { result ≡ is_space b }
{
    matches!(b, b' ' | b'\t'..=b'\r')
}
