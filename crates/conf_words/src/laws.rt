// Laws of the definitions.
ghost use Rattle.conf_words.specs.Laws.{ReadsItsWords, TellsOpenQuotes};

/// The words that are read are those that a text has, so it has one list of words at most.
pub fn words_are_read()
    ensures { ReadsItsWords }
{}

/// A quote is told as open exactly where the text leaves one open.
pub fn open_quotes_are_told()
    ensures { TellsOpenQuotes }
{}
