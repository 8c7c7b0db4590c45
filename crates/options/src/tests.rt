// Tests: the options and files that words are.
use super::items::items_in;
use super::kinds::Item;
use std::test::Fail;

#[test]
fn options_their_words_and_files(rt: HostRuntime) -> Result<(), Fail> {
    let heap = rt.alloc();
    let mut words = Vec::new(heap);
    for word in ["-x", "--room", "-9", "-", "--", "--room"] {
        words.push(String::from_str(heap, word)?)?;
    }
    let items = items_in(heap, &["--room"], &words)?;
    let wanted = [
        Item::Plain("-x"),
        Item::With("--room", "-9"),
        Item::File("-"),
        Item::File("--room"),
    ];
    assert_eq!(rt; items.as_slice(), wanted.as_slice());
    let waiting = items_in(heap, &["--room"], &words[..2])?;
    let wanted = [Item::Plain("-x"), Item::Without("--room")];
    assert_eq!(rt; waiting.as_slice(), wanted.as_slice());
    Ok(())
}
