// The law of plain words. The function does nothing: its clause is the law.
ghost use Rattle.command_words.specs.Laws.{PlainWordsAreRead};

/// Three names, and behind them a script, are read as they stand where no two are equal and none begins with a hyphen.
pub fn plain_words_are_read()
    ensures { PlainWordsAreRead }
{}
