//! Names of clients.

ghost use Rattle.std.specs.Prelude.{◌≡◌};
ghost use Rattle.std.specs.Char.{is_ascii_alphanumeric};
ghost use Rattle.std.specs.List.{list_all};
ghost use Rattle.scripts.specs.Name.{is_command_word, is_name, name_of};

use std::marker::Model;

/// The most bytes of a client's name in a script.
const MAX_NAME: usize = 8;

/// A client's name: 1 to `MAX_NAME` ASCII letters and digits, except command words.
#[derive(Drop)]
pub struct Name<'a> {
    text: &'a str,
}

impl<'a> Model for Name<'a> {
    ghost use Rattle.octet_io.specs.Number.{Octets};

    ghost Value = { Octets };

    ghost view = { λ name. name.text.now };
}

impl<'a> Name<'a> {
    /// Reads a name, or returns `None` if the word is none.
    #[tactic(auto, unfolding(crate::specs::Name::name_of))]
    pub fn read(word: &'a str) -> Option<Name<'a>>
        ensures { result ≡ name_of word.now }
    {
        if is_name(word) {
            Some(Name { text: word })
        } else {
            None
        }
    }

    /// Returns the name as text.
    pub fn as_str(&self) -> &'a str
        ensures { result.now ≡ self.now }
    {
        self.text
    }
}

#[tactic(auto, unfolding(crate::specs::Name::is_name))]
fn is_name(word: &str) -> bool
    ensures { result ≡ is_name word.now }
{
    if word.is_empty() || word.len() > MAX_NAME {
        return false;
    }
    !is_command_word(word) && has_only_letters_and_digits(word)
}

fn has_only_letters_and_digits(word: &str) -> bool
    ensures { result ≡ list_all is_ascii_alphanumeric word.now }
{
    word.bytes().all(|octet| octet.is_ascii_alphanumeric())
}

#[tactic(auto, unfolding(crate::specs::Name::is_command_word))]
fn is_command_word(word: &str) -> bool
    ensures { result ≡ is_command_word word.now }
{
    match word {
        "connect"
        | "drop"
        | "encrypt"
        | "clear"
        | "hold"
        | "done"
        | "update"
        | "allow"
        | "deny"
        | "tick"
        | "replace" => true,
        _ => false,
    }
}
