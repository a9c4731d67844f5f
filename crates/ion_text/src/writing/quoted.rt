//! Texts between quotes, symbols and clobs.
ghost use Rattle.std.specs.Prelude.{◌≡◌, ◌∷◌, [], ◌<◌, ◌≤◌, encode_utf8, fold, OnOk};
ghost use Rattle.std.specs.Char.{digit_char};
ghost use Rattle.std.specs.List.{flat_map, list_all, list_any};
ghost use Rattle.ion_model.specs.Quoted.{begins_name, clob_escape, clob_text, continues_name, escape, hex_escape, is_bare, is_control, is_identifier, is_keyword, quoted, string_text, symbol_text};
ghost use Rattle.ion_text.specs.Escapes.{has_escape};

use super::sink::TextSink;

/// Puts an ASCII character.
pub fn put_ascii<S: TextSink>(out: &mut S, byte: u8) -> Result<(), S::Fault>
    requires { byte < 128 }
    ensures { OnOk result (out.new ≡ fold S.with_byte out.old (byte ∷ [])) }
{
    out.push(char::from(byte))
}

fn put_hex_digit<S: TextSink>(out: &mut S, digit: u8) -> Result<(), S::Fault>
    requires { digit < 16 }
    ensures { OnOk result (out.new ≡ fold S.with_byte out.old (digit_char digit ∷ [])) }
{
    if digit < 10 {
        put_ascii(out, b'0' + digit)
    } else {
        put_ascii(out, b'a' + (digit - 10))
    }
}

fn put_hex<S: TextSink>(out: &mut S, byte: u8) -> Result<(), S::Fault>
    ensures { OnOk result (out.new ≡ fold S.with_byte out.old (hex_escape byte)) }
{
    out.push_str("\\x")?;
    put_hex_digit(out, byte / 16)?;
    put_hex_digit(out, byte % 16)
}

// An ASCII character of a text between the quotes.
fn put_escaped_ascii<S: TextSink>(out: &mut S, quote: u8, byte: u8) -> Result<(), S::Fault>
    requires { byte < 128 }
    ensures { OnOk result (out.new ≡ fold S.with_byte out.old (escape quote byte)) }
{
    if byte == quote || byte == b'\\' {
        out.push_str("\\")?;
        return put_ascii(out, byte);
    }
    match byte {
        b'\n' => out.push_str("\\n"),
        b'\r' => out.push_str("\\r"),
        b'\t' => out.push_str("\\t"),
        _ if is_control(byte) => put_hex(out, byte),
        _ => put_ascii(out, byte),
    }
}

// A character of a text between the quotes.
fn put_escaped<S: TextSink>(out: &mut S, quote: u8, character: char) -> Result<(), S::Fault>
    requires { quote < 128 }
    ensures { OnOk result (out.new ≡ fold S.with_byte out.old (flat_map (escape quote) (encode_utf8 character))) }
{
    if character.is_ascii() {
        put_escaped_ascii(out, quote, character as u8)
    } else {
        out.push(character)
    }
}

fn put_each<S: TextSink>(out: &mut S, quote: u8, text: &str) -> Result<(), S::Fault>
    requires { quote < 128 }
    ensures { OnOk result (out.new ≡ fold S.with_byte out.old (flat_map (escape quote) text.now)) }
{
    for character in text.chars() {
        put_escaped(out, quote, character)?;
    }
    Ok(())
}

fn is_control(byte: u8) -> bool
    ensures { result ≡ is_control byte }
{
    byte < 32 || byte == 127
}

fn has_escape(quote: u8, byte: u8) -> bool
    ensures { result ≡ has_escape quote byte }
{
    byte == quote || byte == b'\\' || is_control(byte)
}

fn have_escapes(quote: u8, bytes: &[u8]) -> bool
    ensures { result ≡ list_any (has_escape quote) bytes.now }
{
    bytes.iter().any(|byte| has_escape(quote, *byte))
}

// What stands between the quotes, at once where no byte of it is escaped.
fn put_inner<S: TextSink>(out: &mut S, quote: u8, text: &str) -> Result<(), S::Fault>
    requires { quote < 128 }
    ensures { OnOk result (out.new ≡ fold S.with_byte out.old (flat_map (escape quote) text.now)) }
{
    if have_escapes(quote, text.as_bytes()) {
        put_each(out, quote, text)
    } else {
        out.push_str(text)
    }
}

fn put_quoted<S: TextSink>(out: &mut S, quote: u8, text: &str) -> Result<(), S::Fault>
    requires { quote < 128 }
    ensures { OnOk result (out.new ≡ fold S.with_byte out.old (quoted quote text.now)) }
{
    put_ascii(out, quote)?;
    put_inner(out, quote, text)?;
    put_ascii(out, quote)
}

/// Puts the text of a string.
pub fn put_string<S: TextSink>(out: &mut S, text: &str) -> Result<(), S::Fault>
    ensures { OnOk result (out.new ≡ fold S.with_byte out.old (string_text text.now)) }
{
    put_quoted(out, b'"', text)
}

fn does_begin_name(byte: u8) -> bool
    ensures { result ≡ begins_name byte }
{
    byte.is_ascii_uppercase() || byte.is_ascii_lowercase() || byte == b'_'
}

fn does_continue_name(byte: u8) -> bool
    ensures { result ≡ continues_name byte }
{
    does_begin_name(byte) || byte.is_ascii_digit() || byte == b'$'
}

fn all_continue_names(bytes: &[u8]) -> bool
    ensures { result ≡ list_all continues_name bytes.now }
{
    bytes.iter().all(|byte| does_continue_name(*byte))
}

fn is_identifier_text(bytes: &[u8]) -> bool
    ensures { result ≡ is_identifier bytes.now }
{
    match bytes {
        [] => false,
        [first, more @ ..] => does_begin_name(*first) && all_continue_names(more),
    }
}

fn stands_bare(text: &str) -> bool
    ensures { result ≡ is_bare text.now }
{
    is_identifier_text(text.as_bytes()) && !is_keyword_text(text)
}

fn is_keyword_text(text: &str) -> bool
    ensures { result ≡ is_keyword text.now }
{
    text == "null" || text == "true" || text == "false" || text == "nan"
}

/// Puts the text of a symbol, which has quotes only where it needs them.
pub fn put_symbol<S: TextSink>(out: &mut S, text: &str) -> Result<(), S::Fault>
    ensures { OnOk result (out.new ≡ fold S.with_byte out.old (symbol_text text.now)) }
{
    if stands_bare(text) {
        out.push_str(text)
    } else {
        put_quoted(out, b'\'', text)
    }
}

fn put_clob_byte<S: TextSink>(out: &mut S, byte: u8) -> Result<(), S::Fault>
    ensures { OnOk result (out.new ≡ fold S.with_byte out.old (clob_escape byte)) }
{
    if byte == b'"' || byte == b'\\' {
        out.push_str("\\")?;
        return put_ascii(out, byte);
    }
    if 32 <= byte && byte <= 126 {
        put_ascii(out, byte)
    } else {
        put_hex(out, byte)
    }
}

/// Puts the text of a clob.
pub fn put_clob<S: TextSink>(out: &mut S, bytes: &[u8]) -> Result<(), S::Fault>
    ensures { OnOk result (out.new ≡ fold S.with_byte out.old (clob_text bytes.now)) }
{
    out.push_str("{{\"")?;
    for byte in bytes {
        put_clob_byte(out, *byte)?;
    }
    out.push_str("\"}}")
}
