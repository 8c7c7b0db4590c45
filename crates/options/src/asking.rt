// What a program is asked for before all else: help, or its version.
ghost use Rattle.std.specs.Prelude.{◌≡◌, map, string_bytes};
ghost use Rattle.options.specs.Asking.{stands_in, asked_in};

use super::kinds::Asked;

/// Whether an option stands among some words, before `--`.
fn stands_in(words: &[String], option: &str) -> bool
    ensures { result ≡ stands_in option.now (map string_bytes words.now) }
{
    words
        .iter()
        .find(|word| word.as_str() == option || word.as_str() == "--")
        .is_some_and(|word| word.as_str() == option)
}

/// What the words ask for before all else: help, if `--help` stands anywhere before `--`, or else the version, if `--version` does.
pub fn asked_in(words: &[String]) -> Asked
    ensures { result ≡ asked_in (map string_bytes words.now) }
{
    if stands_in(words, "--help") {
        return Asked::Help;
    }
    if stands_in(words, "--version") {
        return Asked::Version;
    }
    Asked::Work
}
