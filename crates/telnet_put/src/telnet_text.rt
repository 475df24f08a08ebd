//! Reading the command of a line.
ghost use Rattle.std.specs.Prelude.{◌≡◌, ◌∷◌, true, codes, is_some, IfSome, Some as Asks};
ghost use Rattle.line_stream.specs.Lines.{whole_line};
ghost use Rattle.tsd_base.specs.Words.{words_of};
ghost use Rattle.telnet_put.specs.TelnetCommands.{request_of};
ghost use Rattle.telnet_put.specs.Requests.{request_of_line, request_of_word, request_of_words};

use crate::telnet_command::Command;
use line_stream::line::{LONGEST_LINE, is_blank, text_of};
use tsd_base::words::next_word;

/// Whether a line that an LF ended, without its LF, asks anything: it doesn't where it is blank.
pub fn asks(line: &[u8]) -> bool
    ensures { result ≡ is_some (request_of_line (whole_line line.now)) }
{
    line.len() > LONGEST_LINE || !is_blank(text_of(line, true))
}

/// The command of a line that an LF ended, without its LF, and that isn't blank.
pub fn read_command(line: &[u8]) -> Command<'_>
    requires { is_some (request_of_line (whole_line line.now)) ≡ true }
    ensures { request_of_line (whole_line line.now) ≡ Asks (request_of result) }
{
    if line.len() > LONGEST_LINE {
        return Command::TooLong;
    }
    read_text(text_of(line, true))
}

/// The command of a text.
fn read_text(text: &[u8]) -> Command<'_>
    ensures { request_of result ≡ request_of_words (words_of text.now) }
{
    match behind_put(text) {
        Some(rest) => Command::Put { text: rest },
        None => read_words(text),
    }
}

/// What stands behind `put` and a space, where a text begins with them.
fn behind_put(text: &[u8]) -> Option<&[u8]>
    ensures { IfSome result (λ rest. words_of text.now ≡ codes "put" ∷ words_of rest.now) }
{
    text.strip_prefix(b"put ".as_slice())
}

/// The command of a text, by its first word.
#[inline(always)]
fn read_words(text: &[u8]) -> Command<'_>
    ensures { request_of result ≡ request_of_words (words_of text.now) }
{
    let Some((word, rest)) = next_word(text) else {
        return Command::Other;
    };
    if word == b"put".as_slice() {
        return Command::Put { text: rest };
    }
    read_word(word)
}

/// The command of a first word that isn't `put`.
fn read_word(word: &[u8]) -> Command<'static>
    ensures { request_of result ≡ request_of_word word.now }
{
    if word == b"version".as_slice() {
        return Command::Version;
    }
    if word == b"help".as_slice() {
        return Command::Help;
    }
    if word == b"stats".as_slice() {
        return Command::Stats;
    }
    if word == b"dropcaches".as_slice() {
        return Command::DropCaches;
    }
    if word == b"exit".as_slice() {
        return Command::Exit;
    }
    if word == b"diediedie".as_slice() {
        return Command::Die;
    }
    Command::Other
}
