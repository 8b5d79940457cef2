//! The table of commands: their names, how many words they take, and their options.

ghost use Rattle.std.specs.Prelude.{◌≡◌};
ghost use Rattle.std.specs.Str.{bytes_eq};
ghost use Rattle.std.specs.List.{list_any};
ghost use Rattle.ec_words.specs.Table.{verb_of, takes_many, options_of, needs_output};

/// What a command does.
#[derive(Clone, Copy)]
pub enum Verb {
    Check,
    Interp,
    Compile,
    Link,
    Build,
    Run,
    Exec,
    Gen,
    Many,
}

/// The command of this name.
pub fn verb_of(word: &str) -> Option<Verb>
    ensures { result ≡ verb_of word.now }
{
    if word == "check" {
        return Some(Verb::Check);
    }
    if word == "interp" {
        return Some(Verb::Interp);
    }
    if word == "compile" {
        return Some(Verb::Compile);
    }
    if word == "link" {
        return Some(Verb::Link);
    }
    if word == "build" {
        return Some(Verb::Build);
    }
    if word == "run" {
        return Some(Verb::Run);
    }
    if word == "exec" {
        return Some(Verb::Exec);
    }
    if word == "gen" {
        return Some(Verb::Gen);
    }
    (word == "many").then_some(Verb::Many)
}

/// Whether the command takes one positional word or more, and not exactly one.
pub fn takes_many(verb: Verb) -> bool
    ensures { result ≡ takes_many verb }
{
    match verb {
        Verb::Run => false,
        Verb::Gen => false,
        Verb::Many => false,
        _ => true,
    }
}

/// Whether the command must have the option `-o`, as each that may have it must.
pub fn needs_output(verb: Verb) -> bool
    ensures { result ≡ needs_output verb }
{
    match verb {
        Verb::Compile => true,
        Verb::Link => true,
        Verb::Build => true,
        Verb::Exec => true,
        Verb::Many => true,
        _ => false,
    }
}

/// Whether the word names an option of the command.
pub fn has_option(verb: Verb, word: &str) -> bool
    ensures { result ≡ list_any (λ name. bytes_eq name word.now) (options_of verb) }
{
    match verb {
        Verb::Check => false,
        Verb::Interp => "--fuel" == word,
        Verb::Compile => "-o" == word || "-m" == word,
        Verb::Link => "-o" == word || "--stack" == word,
        Verb::Build => "-o" == word || "-m" == word || "--stack" == word,
        Verb::Run => "--base" == word || "--fuel" == word,
        Verb::Exec => {
            "-o" == word
                || "-m" == word
                || "--stack" == word
                || "--base" == word
                || "--fuel" == word
        }
        Verb::Gen => "--size" == word,
        Verb::Many => "-o" == word,
    }
}
