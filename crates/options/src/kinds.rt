// What the words of a command line are.

/// What a program is asked for before all else.
#[derive(Clone, Copy, PartialEq, Eq, Debug)]
pub enum Asked {
    Help,
    Version,
    /// Neither: it is to do its work.
    Work,
}

/// What some words of a command line stand for.
#[derive(Clone, Copy, PartialEq, Eq, Debug)]
pub enum Item<'a> {
    /// The name of a file, or `-` for standard input.
    File(&'a str),
    /// An option that wants no word behind it, known or not.
    Plain(&'a str),
    /// An option and the word behind it.
    With(&'a str, &'a str),
    /// An option that wants a word behind it, where there is none.
    Without(&'a str),
}

/// What the next word is.
#[derive(Clone, Copy)]
pub(crate) enum Next<'a> {
    /// Whatever it says itself.
    Any,
    /// The word that belongs to an option.
    Of(&'a str),
    /// The name of a file, whatever it says.
    File,
}
