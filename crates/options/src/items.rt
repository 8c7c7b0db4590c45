// Options and files, from the words of a command line.
ghost use Rattle.std.specs.Prelude.{◌≡◌, ◌++◌, map, IfOk, string_bytes, OnOk};
ghost use Rattle.std.specs.Option.{option_map, option_to_list};
ghost use Rattle.options.specs.Items.{is_file, wants_in, meant, awaited, item_at, after, unmet, items_in, Any as AnyWord};

use super::kinds::{Item, Next};
use std::alloc::{AllocError, Global};

// Whether a word that may be an option is the name of a file, or `-`.
fn is_file(word: &str) -> bool
    ensures { result ≡ is_file word.now }
{
    word == "-" || !word.starts_with('-')
}

// Whether an option is one of those that want a word behind them.
fn wants(takes: &[&str], option: &str) -> bool
    ensures { result ≡ wants_in (map (λ x. x.now) takes.now) option.now }
{
    takes.contains(&option)
}

// What a word is that may be an option, and what the next word is.
fn sort_any<'a>(takes: &[&str], word: &'a str) -> (Option<Item<'a>>, Next<'a>)
    ensures item { option_map meant result.0 ≡ item_at (map (λ x. x.now) takes.now) AnyWord word.now }
    ensures next { awaited result.1 ≡ after (map (λ x. x.now) takes.now) AnyWord word.now }
{
    if word == "--" {
        return (None, Next::File);
    }
    if is_file(word) {
        return (Some(Item::File(word)), Next::Any);
    }
    if wants(takes, word) {
        return (None, Next::Of(word));
    }
    (Some(Item::Plain(word)), Next::Any)
}

// What a word is, and what the next word is.
fn sort_word<'a>(takes: &[&str], next: Next<'a>, word: &'a str) -> (Option<Item<'a>>, Next<'a>)
    ensures item { option_map meant result.0 ≡ item_at (map (λ x. x.now) takes.now) (awaited next.entry) word.now }
    ensures next { awaited result.1 ≡ after (map (λ x. x.now) takes.now) (awaited next.entry) word.now }
{
    match next {
        Next::Any => sort_any(takes, word),
        Next::Of(option) => (Some(Item::With(option, word)), Next::Any),
        Next::File => (Some(Item::File(word)), Next::File),
    }
}

// An option whose word doesn't come.
fn unmet_of<'a>(next: Next<'a>) -> Option<Item<'a>>
    ensures { option_to_list (option_map meant result) ≡ unmet (awaited next.entry) }
{
    match next {
        Next::Of(option) => Some(Item::Without(option)),
        Next::Any | Next::File => None,
    }
}

// One more, if there is one.
fn add<'a>(items: &mut Vec<Item<'a>>, item: Option<Item<'a>>) -> Result<(), AllocError>
    ensures { OnOk result (map meant items.new.items ≡ map meant items.old.items ++ option_to_list (option_map meant item.entry)) }
{
    items.extend(item)
}

/// The options and files that some words are, in their order. The options of `takes` want a word behind them, whatever that says. `--` makes
/// names of files of all words behind it; a word that begins with `-`, but for `-` itself, is an option.
pub fn items_in<'a>(
    heap: Global,
    takes: &[&str],
    words: &'a [String],
) -> Result<Vec<Item<'a>>, AllocError>
    ensures { IfOk result (λ v. map meant v.items ≡ items_in (map (λ x. x.now) takes.now) (map string_bytes words.now)) }
{
    let mut items = Vec::new(heap);
    let mut next = Next::Any;
    for word in words {
        let (item, then) = sort_word(takes, next, word.as_str());
        add(&mut items, item)?;
        next = then;
    }
    add(&mut items, unmet_of(next))?;
    Ok(items)
}
