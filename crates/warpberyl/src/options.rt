// What the words behind the program's name ask for.
use std::error::Error;
use std::fmt;

#[derive(Drop)]
pub(crate) enum Job<'a> {
    Help,
    Demo,
    // a file, or the standard input; whether to go on after errors is an option of its own
    Play {
        keep_going: bool,
        file: Option<&'a str>,
    },
}

// The word at which there is nothing to do.
#[derive(Clone, Copy, Debug)]
pub(crate) enum Misuse<'a> {
    UnknownOption(&'a str),
    UnexpectedWord(&'a str),
}

impl fmt::Display for Misuse<'_> {
    fn fmt<W: fmt::Write>(&self, f: &mut fmt::Formatter<W>) -> fmt::Result {
        match self {
            Misuse::UnknownOption(word) => write!(f, "unknown option {word}"),
            Misuse::UnexpectedWord(word) => write!(f, "unexpected word {word}"),
        }
    }
}

fn play(keep_going: bool, file: Option<&str>) -> Job<'_> {
    Job::Play { keep_going, file }
}

fn one_word(word: &str) -> Result<Job<'_>, Misuse<'_>> {
    match word {
        "--help" => Ok(Job::Help),
        "--demo" => Ok(Job::Demo),
        "--keep-going" => Ok(play(true, None)),
        _ if word.starts_with('-') => Err(Misuse::UnknownOption(word)),
        _ => Ok(play(false, Some(word))),
    }
}

// A file is the last word, and only `--keep-going` may stand before it.
fn two_words<'a>(first: &'a str, last: &'a str) -> Result<Job<'a>, Misuse<'a>> {
    one_word(first)?;
    if first != "--keep-going" || last.starts_with('-') {
        return Err(Misuse::UnexpectedWord(last));
    }
    Ok(play(true, Some(last)))
}

impl<'a> TryFrom<&'a [String]> for Job<'a> {
    type Error = Misuse<'a>;

    fn try_from(words: &'a [String]) -> Result<Job<'a>, Misuse<'a>> {
        match words {
            [] => Ok(play(false, None)),
            [word] => one_word(word.as_str()),
            [first, last] => two_words(first.as_str(), last.as_str()),
            [_, _, word, ..] => Err(Misuse::UnexpectedWord(word.as_str())),
        }
    }
}
