ghost use Rattle.std.specs.Prelude.{◌≡◌, ◌≤◌, length, not, IfSome};
ghost use Rattle.std.specs.List.{prefix_len};
ghost use Rattle.ion_model.specs.Blanks.{is_space, is_line_end, line_comment, to_close, block_comment};
ghost use Rattle.ion_model.specs.Spans.{span_of};

use ion_model::Lexed;

/// Whether a byte is white space.
pub fn is_space(b: u8) -> bool
    ensures { result ≡ is_space b }
{
    matches!(b, b' ' | b'\t'..=b'\r')
}

/// `//` and what follows it on its line.
pub fn line_comment(bytes: &[u8]) -> Lexed
    requires { 2 ≤ length bytes.now }
    ensures value { result ≡ line_comment bytes.now }
    ensures within { span_of result ≤ length bytes.now }
{
    let (_, rest) = bytes.split_at(2);
    Lexed::Blank(1 + line_bytes(rest))
}

/// How many bytes there are before the line's end.
fn line_bytes(bytes: &[u8]) -> usize
    ensures value { result ≡ prefix_len (λ b. not (is_line_end b)) bytes.now }
    ensures within { result ≤ length bytes.now }
{
    bytes.iter().take_while(|b| !is_line_end(**b)).count()
}

/// Whether a byte ends a line.
fn is_line_end(b: u8) -> bool
    ensures { result ≡ is_line_end b }
{
    b == b'\n' || b == b'\r'
}

/// `/*` and what follows it up to the first `*/`.
pub fn block_comment(bytes: &[u8]) -> Lexed
    requires { 2 ≤ length bytes.now }
    ensures value { result ≡ block_comment bytes.now }
    ensures within { span_of result ≤ length bytes.now }
{
    let (_, rest) = bytes.split_at(2);
    match to_close(rest) {
        Some(more) => Lexed::Blank(1 + more),
        None => Lexed::Cut,
    }
}

/// How many bytes there are to the end of the first `*/`, or None where there is none.
fn to_close(bytes: &[u8]) -> Option<usize>
    ensures value { result ≡ to_close bytes.now }
    ensures within { IfSome result (λ n. n ≤ length bytes.now) }
{
    for at in 0..bytes.len() {
        let (_, rest) = bytes.split_at(at);
        if rest.starts_with(b"*/".as_slice()) {
            return Some(at + 2);
        }
    }
    None
}
