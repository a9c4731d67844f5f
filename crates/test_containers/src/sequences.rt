//! Sequences, texts and boxes grow, and give back what they are made of.
use containers::{Boxed, Bytes, Sequence, Text};
use std::alloc::Global;

fn grown(alloc: Global) -> Option<Sequence<u32>> {
    let mut list = Sequence::from_vec(vec![in alloc; 5u32].ok()?);
    list.set(0, 7);
    list.push(6).ok()?;
    Some(list)
}

fn is_seven(items: Vec<u32>) -> bool {
    items.as_slice() == [7].as_slice()
}

fn is_given_back(mut list: Sequence<u32>) -> bool {
    let is_grown = list.as_slice() == [7, 6].as_slice();
    let last = list.pop();
    let is_seven = is_seven(list.into_vec());
    is_grown && is_seven && last == Some(6)
}

fn is_list_given_back(alloc: Global) -> Option<bool> {
    let list = grown(alloc)?;
    Some(is_given_back(list))
}

fn has_its_second_byte(alloc: Global) -> Option<bool> {
    let bytes: Bytes = Sequence::from_slice(alloc, &[1, 2]).ok()?;
    Some(bytes.get(1) == Some(&2))
}

fn grown_text(alloc: Global) -> Option<Text> {
    let mut text = Text::from_text(alloc, "a").ok()?;
    text.push_str("b").ok()?;
    text.push('é').ok()?;
    Some(text)
}

fn is_text_given_back(alloc: Global) -> Option<bool> {
    let text = grown_text(alloc)?;
    let length = text.copy(alloc).ok()?.len();
    let is_whole = text.into_string().as_str() == "abé";
    Some(is_whole && length == 4)
}

fn is_content_given_back(alloc: Global) -> Option<bool> {
    let boxed = Boxed::new(alloc, 9u8).ok()?;
    let is_nine = *boxed.get() == 9;
    Some(boxed.into_inner() == 9 && is_nine)
}

#[test]
fn lists_and_texts_give_back_what_they_are_made_of(rt: HostRuntime) {
    assert!(rt; is_list_given_back(rt.alloc()) == Some(true));
    assert!(rt; has_its_second_byte(rt.alloc()) == Some(true));
    assert!(rt; is_text_given_back(rt.alloc()) == Some(true));
    assert!(rt; is_content_given_back(rt.alloc()) == Some(true));
}
