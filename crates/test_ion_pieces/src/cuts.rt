//! Texts that are cut at every byte, or into pieces of the same length.

use ion_pieces::PieceReader;
use ion_text::{ReadFault, read_stream, write};
use ion_values::{IonFault, Text, Values};
use std::alloc::Global;
use std::test::Fail;

/// The deepest nesting that the texts may have.
const DEEPEST: u32 = 3;

/// What parts the texts.
const END: &str = "\n====\n";

const TEXTS: &str = r#"$ion_1_0 {a:1,b:2.50,c:[x,y,'''
one ''' '''two}}''']} $ion_1_0
// a comment {{ "with" 'all' [marks
/* another, of
 two lines */ first::second::'third one'::{name : "text\n\u00e9 é 漢字 \\"}
null null.int null.symbol true false nan_ -0x7f 1_000 -1.5d-3 2000-01-01T00:00:00.123+01:00
====
{{ dGV4dA== }} {{ "a clob }} \x7f" }} {{'''two
''' '''parts'''}} (a + b -- c) ' ' "" ''::''
====
'''long ''' /* between */ '''string'''
{'''na''' '''me''':[]} $ion_symbol_table::[]
====
  {a:{b:{c:1}}} [1,
2 , 3] trailing//comment
====
a b c 1e5 {
====
[[[[]]]]
====
{a:1
====
"a string without an end
 over lines
====
{{ not base64 }}
====
x:: 
====
$ion_symbol_table::{} later
====
1 2000-13-01T 3 é
====
// a comment at the end
====
/* one that does not end
====
+inf -inf
====
+infinite -info"#;

/// Puts what a text came to at its end behind the values before.
fn put_end(alloc: Global, ended: Result<Values, ReadFault>, out: &mut Text) -> Option<()> {
    match ended {
        Ok(values) => put_all(alloc, values, out),
        Err(ReadFault::Ion(IonFault { at, kind })) => {
            *out = Text::from_string(format!(in alloc; "{kind:?} at {at}").ok()?);
            Some(())
        }
        Err(ReadFault::OutOfMemory) => None,
    }
}

fn put_all(alloc: Global, values: Values, out: &mut Text) -> Option<()> {
    for value in values.as_slice() {
        let text = write(alloc, value).ok()?;
        out.push_str(text.as_str()).ok()?;
        out.push_str(" | ").ok()?;
    }
    Some(())
}

/// What a whole text gives, or its fault.
fn whole(alloc: Global, text: &[u8]) -> Option<Text> {
    let mut out = Text::new(alloc);
    put_end(alloc, read_stream(alloc, text, DEEPEST), &mut out)?;
    Some(out)
}

/// What two pieces give.
fn in_two(alloc: Global, front: &[u8], back: &[u8]) -> Option<Text> {
    let mut out = Text::new(alloc);
    let (values, reader) = PieceReader::new(alloc, DEEPEST).take(alloc, front).ok()?;
    put_all(alloc, values, &mut out)?;
    let (values, reader) = reader.take(alloc, back).ok()?;
    put_all(alloc, values, &mut out)?;
    put_end(alloc, reader.finish(alloc), &mut out)?;
    Some(out)
}

/// What pieces of this length give.
fn in_many(alloc: Global, text: &[u8], len: usize) -> Option<Text> {
    if len == 0 {
        return None;
    }
    let mut out = Text::new(alloc);
    let mut reader = PieceReader::new(alloc, DEEPEST);
    for piece in text.chunks(len) {
        let (values, next) = reader.take(alloc, piece).ok()?;
        put_all(alloc, values, &mut out)?;
        reader = next;
    }
    put_end(alloc, reader.finish(alloc), &mut out)?;
    Some(out)
}

/// The first cut that changes what a text gives, if there is one.
fn bad_cut(alloc: Global, text: &[u8]) -> Option<Option<usize>> {
    let whole = whole(alloc, text)?;
    for at in 0..text.len() {
        let (front, back) = text.split_at(at);
        if in_two(alloc, front, back)?.as_str() != whole.as_str() {
            return Some(Some(at));
        }
    }
    Some(None)
}

/// The first length of pieces that changes what a text gives, if there is one.
fn bad_len(alloc: Global, text: &[u8]) -> Option<Option<usize>> {
    let whole = whole(alloc, text)?;
    for len in 1..10 {
        if in_many(alloc, text, len)?.as_str() != whole.as_str() {
            return Some(Some(len));
        }
    }
    Some(None)
}

#[test]
fn cuts_change_nothing(rt: HostRuntime) -> Result<(), Fail> {
    for text in TEXTS.split(END) {
        assert_eq!(rt;
            bad_cut(rt.alloc(), text.as_bytes()).ok_or("memory")?,
            None,
            "{text}"
        );
    }
    Ok(())
}

#[test]
fn lengths_change_nothing(rt: HostRuntime) -> Result<(), Fail> {
    for text in TEXTS.split(END) {
        assert_eq!(rt;
            bad_len(rt.alloc(), text.as_bytes()).ok_or("memory")?,
            None,
            "{text}"
        );
    }
    Ok(())
}

/// Bytes that aren't UTF-8 are told before a token that is refused before them.
#[test]
fn bytes_come_before_tokens(rt: HostRuntime) -> Result<(), Fail> {
    let text = b"1 1e5 \xc3\xa9 [ \xe6\xbc rest of it ";
    let whole = whole(rt.alloc(), text).ok_or("memory")?;
    assert_eq!(rt; whole.as_str(), "NotUtf8 at 11");
    assert_eq!(rt; bad_cut(rt.alloc(), text).ok_or("memory")?, None);
    assert_eq!(rt; bad_len(rt.alloc(), text).ok_or("memory")?, None);
    Ok(())
}

/// Values are handed out before the text ends.
#[test]
fn values_come_early(rt: HostRuntime) -> Result<(), Fail> {
    let reader = PieceReader::new(rt.alloc(), DEEPEST);
    let (values, reader) = reader.take(rt.alloc(), b"1 2 [3, ").ok().ok_or("memory")?;
    assert_eq!(rt; values.len(), 2);
    let (values, reader) = reader.take(rt.alloc(), b"4] x").ok().ok_or("memory")?;
    assert_eq!(rt; values.len(), 1);
    let values = reader.finish(rt.alloc()).ok().ok_or("a fault")?;
    assert_eq!(rt; values.len(), 1);
    Ok(())
}
