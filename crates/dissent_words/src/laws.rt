//! Laws of the words. Nobody calls this function: its contract states them.
ghost use Rattle.dissent_words.specs.Laws.{PlainWordsAreRead};

/// Plain words ask for what their values ask for: each option of a command once, as `--option value` or
/// `--option=value`, in any order, and then the addresses where the command has them, with no value empty or beginning
/// with `-`.
pub fn plain_words_are_read()
    ensures { PlainWordsAreRead }
{}
