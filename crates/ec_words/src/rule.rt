//! The rule of words, as a test.

ghost use Rattle.std.specs.Prelude.{◌≡◌, ◌≤◌, ◌&&◌, ◌||◌, not, codes, map, string_bytes, length, is_some, take, drop};
ghost use Rattle.std.specs.Str.{bytes_eq};
ghost use Rattle.std.specs.List.{list_any};
ghost use Rattle.ec_words.specs.Table.{options_of, needs_output};
ghost use Rattle.ec_words.specs.Rule.{is_operand, operands, options, value_of, are_options, takes_count, is_line};

use crate::table::{Verb, has_option, needs_output, takes_many};

/// Whether a word can be positional or a value: it isn't empty, and doesn't begin with `-`.
pub fn is_operand(word: &str) -> bool
    ensures { result ≡ is_operand word.now }
{
    match word.as_bytes() {
        [] => false,
        [first, ..] => *first != b'-',
    }
}

/// How many positional words the words begin with.
fn count_operands(words: &[String]) -> usize
    ensures within { result ≤ length words.now }
    ensures front { take result (map string_bytes words.now) ≡ operands (map string_bytes words.now) }
    ensures back { drop result (map string_bytes words.now) ≡ options (map string_bytes words.now) }
{
    let mut count = 0;
    while count < words.len() && is_operand(words[count].as_str()) {
        count += 1;
    }
    count
}

/// Whether the words, of which every second one is a name, have an option of this name.
fn has_value(name: &str, words: &[String]) -> bool
    ensures { result ≡ is_some (value_of name.now (map string_bytes words.now)) }
{
    let mut rest = words;
    while let [n, _, more @ ..] = rest {
        if n.as_str() == name {
            return true;
        }
        rest = more;
    }
    false
}

/// Whether a name and a value are an option of the command whose name isn't among those that follow.
fn is_option(verb: Verb, name: &str, value: &str, more: &[String]) -> bool
    ensures { result ≡ (list_any (λ option. bytes_eq option name.now) (options_of verb)
        && (is_operand value.now && not (is_some (value_of name.now (map string_bytes more.now))))) }
{
    has_option(verb, name) && (is_operand(value) && !has_value(name, more))
}

/// Whether the words are options of the command, each a name and a value, and no name twice.
fn are_options(verb: Verb, words: &[String]) -> bool
    ensures { result ≡ are_options (options_of verb) (map string_bytes words.now) }
{
    let mut rest = words;
    while let [name, value, more @ ..] = rest {
        if !is_option(verb, name.as_str(), value.as_str(), more) {
            return false;
        }
        rest = more;
    }
    rest.is_empty()
}

/// Whether the command takes this many positional words.
fn takes_count(verb: Verb, count: usize) -> bool
    ensures { result ≡ takes_count verb count }
{
    if takes_many(verb) {
        count > 0
    } else {
        count == 1
    }
}

/// Whether the option `-o` is among the options, where the command must have it.
fn has_required(verb: Verb, options: &[String]) -> bool
    ensures { result ≡ (not (needs_output verb) || is_some (value_of (codes "-o") (map string_bytes options.now))) }
{
    !needs_output(verb) || has_value("-o", options)
}

/// Whether the words after the command's name are as its row of the table says.
pub fn is_line(verb: Verb, words: &[String]) -> bool
    ensures { result ≡ is_line verb (map string_bytes words.now) }
{
    let count = count_operands(words);
    let options = &words[count..];
    takes_count(verb, count) & are_options(verb, options) & has_required(verb, options)
}
