//! The words that ask for a command's help.
ghost use Rattle.std.specs.Prelude.{◌≡◌, map, option_map};
ghost use Rattle.cli_words.specs.CommandLine.{help_topic};

/// Returns the command whose help `help COMMAND` asks for. `help help` asks for the help of none.
pub fn help_topic<'a>(words: &[&'a str]) -> Option<&'a str>
    ensures { option_map (λ t. t.now) result ≡ help_topic (map (λ w. w.now) words.now) }
{
    if words.len() != 2 || words[0] != "help" || words[1] == "help" {
        return None;
    }
    Some(words[1])
}
