//! Lines of a text, and words of a line.

ghost use Rattle.std.specs.Prelude.{◌≡◌, ◌<◌, ◌∷◌, [], length, IfSome, IfNone};
ghost use Rattle.std.specs.Option.{option_map};
ghost use Rattle.text_words.specs.Split.{lines_of, parts_of, parts_view, words_of};

/// Splits a text at its first line feed. Returns `None` if it has none.
pub fn first_line(text: &str) -> Option<(&str, &str)>
    ensures first { IfSome result
        (λ parts. lines_of text.now ≡ parts.0.now ∷ lines_of parts.1.now) }
    ensures only { IfNone result (lines_of text.now ≡ text.now ∷ []) }
    ensures shorter { IfSome result (λ parts. length parts.1.now < length text.now) }
{
    text.split_once('\n')
}

/// Splits a line at its first space. Returns `None` if it has none.
#[tactic(auto, unfolding(crate::specs::Split::parts_of))]
pub fn first_word(line: &str) -> Option<(&str, &str)>
    ensures parts { option_map parts_view result ≡ parts_of line.now }
    ensures first { IfSome result
        (λ parts. words_of line.now ≡ parts.0.now ∷ words_of parts.1.now) }
    ensures only { IfNone result (words_of line.now ≡ line.now ∷ []) }
{
    line.split_once(' ')
}
