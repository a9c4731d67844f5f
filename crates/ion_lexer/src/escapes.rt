//! Escapes in the texts between quotes. Each function reads what stands behind a backslash.
ghost use Rattle.std.specs.Prelude.{◌≡◌, ◌++◌, ◌<◌, drop, option_map, IfSome, IsTrue, OnOk};
ghost use Rattle.std.specs.Char.Utf16.{is_high_surrogate, is_low_surrogate};
ghost use Rattle.ion_model.specs.Escapes.{character, clob_escape, hex2, hex4, hex8, hex_digit, letter, line_end, paired, second_unit, simple_escape, text_escape, unit};
ghost use Rattle.ion_lexer.specs.Pieces.{bytes_of, piece_of};

use containers::OutOfMemory;

/// What a piece of a text gives.
#[derive(Clone, Copy)]
pub enum Given {
    Nothing,
    Byte(u8),
    Character(char),
}

/// A piece of a text: what it gives, and how many of its bytes follow the first.
#[derive(Clone, Copy)]
pub struct Piece {
    pub given: Given,
    pub more: usize,
}

/// Puts what a piece gives at the end, a character as UTF-8.
pub fn put(out: &mut Vec<u8>, given: Given) -> Result<(), OutOfMemory>
    ensures { OnOk result (out.new.items ≡ out.old.items ++ bytes_of given) }
{
    match given {
        Given::Nothing => {}
        Given::Byte(byte) => out.push(byte)?,
        Given::Character(character) => {
            let mut buffer = [0; 4];
            out.extend_from_slice(character.encode_utf8(&mut buffer).as_bytes())?;
        }
    }
    Ok(())
}

/// The bytes after the first `count`.
pub fn behind(bytes: &[u8], count: usize) -> &[u8]
    ensures { result.now ≡ drop count bytes.now }
{
    if count < bytes.len() {
        &bytes[count..]
    } else {
        &[]
    }
}

fn hex_digit(byte: u8) -> Option<u32>
    ensures value { result ≡ hex_digit byte }
    ensures fits { IfSome result (λ digit. digit < 16) }
{
    char::from(byte).to_digit(16)
}

fn hex2(bytes: &[u8]) -> Option<u8>
    ensures { result ≡ hex2 bytes.now }
{
    let [high, low, ..] = bytes else {
        return None;
    };
    let high = hex_digit(*high)?;
    let low = hex_digit(*low)?;
    Some((high * 16 + low) as u8)
}

fn hex4(bytes: &[u8]) -> Option<u16>
    ensures { result ≡ hex4 bytes.now }
{
    let high = hex2(bytes)?;
    let low = hex2(behind(bytes, 2))?;
    Some(u16::from(high) * 256 + u16::from(low))
}

fn hex8(bytes: &[u8]) -> Option<u32>
    ensures { result ≡ hex8 bytes.now }
{
    let high = hex4(bytes)?;
    let low = hex4(behind(bytes, 4))?;
    Some(u32::from(high) * 65536 + u32::from(low))
}

fn character(more: usize, code: u32) -> Option<Piece>
    ensures { option_map piece_of result ≡ character more code }
{
    let character = char::from_u32(code)?;
    Some(Piece {
        given: Given::Character(character),
        more,
    })
}

fn second_unit(bytes: &[u8]) -> Option<u16>
    ensures { result ≡ second_unit bytes.now }
{
    match bytes {
        [b'\\', b'u', digits @ ..] => hex4(digits),
        _ => None,
    }
}

fn is_high_surrogate(code: u16) -> bool
    ensures { result ≡ is_high_surrogate code }
{
    0xD800 <= code && code < 0xDC00
}

fn is_low_surrogate(code: u16) -> bool
    ensures { result ≡ is_low_surrogate code }
{
    0xDC00 <= code && code < 0xE000
}

fn paired(high: u16, low: u16) -> Option<Piece>
    requires { IsTrue (is_high_surrogate high) }
    ensures { option_map piece_of result ≡ paired high low }
{
    if !is_low_surrogate(low) {
        return None;
    }
    let code = 0x10000 + (u32::from(high) - 0xD800) * 0x400 + (u32::from(low) - 0xDC00);
    character(11, code)
}

fn unit(behind: &[u8], code: u16) -> Option<Piece>
    ensures { option_map piece_of result ≡ unit behind.now code }
{
    if !is_high_surrogate(code) {
        return character(5, u32::from(code));
    }
    let low = second_unit(behind)?;
    paired(code, low)
}

/// How many bytes the line's end in front has, or 0 where there is none.
pub fn line_end(bytes: &[u8]) -> usize
    ensures { result ≡ line_end bytes.now }
{
    match bytes {
        [b'\r', b'\n', ..] => 2,
        [b'\r' | b'\n', ..] => 1,
        _ => 0,
    }
}

fn letter(byte: u8) -> Option<u8>
    ensures { result ≡ letter byte }
{
    match byte {
        b'a' => Some(7),
        b'b' => Some(8),
        b't' => Some(b'\t'),
        b'n' => Some(b'\n'),
        b'f' => Some(12),
        b'r' => Some(b'\r'),
        b'v' => Some(11),
        b'0' => Some(0),
        b'"' | b'\'' | b'?' | b'\\' | b'/' => Some(byte),
        _ => None,
    }
}

fn simple_escape(bytes: &[u8]) -> Option<Piece>
    ensures { option_map piece_of result ≡ simple_escape bytes.now }
{
    let [first, ..] = bytes else {
        return None;
    };
    let len = line_end(bytes);
    if len == 0 {
        let byte = letter(*first)?;
        Some(Piece {
            given: Given::Byte(byte),
            more: 1,
        })
    } else {
        Some(Piece {
            given: Given::Nothing,
            more: len,
        })
    }
}

/// The escape of a text whose backslash stands before these bytes, or None where it is ill-formed.
pub fn text_escape(bytes: &[u8]) -> Option<Piece>
    ensures { option_map piece_of result ≡ text_escape bytes.now }
{
    let [first, digits @ ..] = bytes else {
        return None;
    };
    match *first {
        b'x' => {
            let code = hex2(digits)?;
            character(3, u32::from(code))
        }
        b'u' => {
            let code = hex4(digits)?;
            unit(behind(digits, 4), code)
        }
        b'U' => {
            let code = hex8(digits)?;
            character(9, code)
        }
        _ => simple_escape(bytes),
    }
}

/// The escape of a clob whose backslash stands before these bytes, or None where it is ill-formed.
pub fn clob_escape(bytes: &[u8]) -> Option<Piece>
    ensures { option_map piece_of result ≡ clob_escape bytes.now }
{
    let [first, digits @ ..] = bytes else {
        return None;
    };
    if *first != b'x' {
        return simple_escape(bytes);
    }
    let byte = hex2(digits)?;
    Some(Piece {
        given: Given::Byte(byte),
        more: 3,
    })
}
