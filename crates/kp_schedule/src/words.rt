//! A line's words, and the numbers and values among them.

ghost use Rattle.std.specs.Prelude.{◌≡◌, ◌<◌, ◌∷◌, MatchOption, length, decimal};
ghost use Rattle.kp_schedule.specs.Grammar.{IsNumber, Reads};
ghost use Rattle.kp_schedule.specs.Words.{words, words_behind, texts};

/// The words of a line, at most as many as a line has that is understood.
#[derive(Clone, Copy, Debug)]
pub enum Words<'a> {
    One(&'a str),
    Two(&'a str, &'a str),
    Three(&'a str, &'a str, &'a str),
    Four(&'a str, &'a str, &'a str, &'a str),
}

/// The first word, and what stands behind the blank that ends it.
fn cut_word(line: &str) -> (&str, Option<&str>)
    ensures { words line.now ≡ result.0.now ∷ words_behind result.1 }
{
    match line.split_once(' ') {
        Some((word, behind)) => (word, Some(behind)),
        None => (line, None),
    }
}

/// The words of a line, unless they are too many. Between two words stands one blank.
pub(crate) fn words_of(line: &str) -> Option<Words<'_>>
    ensures { MatchOption result (4 < length (words line.now)) (λ ws. texts ws ≡ words line.now) }
{
    let (first, behind) = cut_word(line);
    let Some(behind) = behind else {
        return Some(Words::One(first));
    };
    let (second, behind) = cut_word(behind);
    let Some(behind) = behind else {
        return Some(Words::Two(first, second));
    };
    let (third, behind) = cut_word(behind);
    let Some(behind) = behind else {
        return Some(Words::Three(first, second, third));
    };
    let (fourth, behind) = cut_word(behind);
    match behind {
        None => Some(Words::Four(first, second, third, fourth)),
        Some(_) => None,
    }
}

/// A number in decimal digits, with no sign and no leading zero but `0` itself.
pub fn number_of(word: &str) -> Option<u64>
    ensures { Reads IsNumber decimal word.now result }
{
    if word.starts_with('+') {
        return None;
    }
    if word.len() > 1 && word.starts_with('0') {
        return None;
    }
    word.parse().ok()
}
