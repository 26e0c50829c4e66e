// Laws of the form of words, as the contract of a function that does nothing.
ghost use Rattle.std.specs.Prelude.{◌≡◌, Option};
ghost use Rattle.tm_words.specs.Words as said;
ghost use Rattle.tm_words.specs.declared.command.Command.{Command};
ghost use Rattle.tm_words.specs.Form as form;

/// Words ask for one command, or for none, and it can be told for which.
pub fn words_ask(words: &[String], round_alone: bool)
    ensures told { (o : Option Command) × form.Ask round_alone (said.bytes_of_words words.now) o }
    ensures one { (o p : Option Command) → form.Ask round_alone (said.bytes_of_words words.now) o
        → form.Ask round_alone (said.bytes_of_words words.now) p → o ≡ p }
{
    let _ = words;
    let _ = round_alone;
}
