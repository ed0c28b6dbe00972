//! Reads the command line.
ghost use Rattle.celcheck_cli.specs.Words.{command_of, command_of_one, command_of_two, command_of_three, command_view};
ghost use Rattle.std.specs.Prelude.{◌≡◌, map, option_map, string_bytes};

/// The paths that `check` is given.
#[derive(Clone, Copy)]
pub(crate) struct Named<'w> {
    pub(crate) schema: &'w str,
    pub(crate) object: &'w str,
    pub(crate) old: Option<&'w str>,
}

/// A command with its arguments.
#[derive(Clone, Copy)]
pub(crate) enum Command<'w> {
    Check(Named<'w>),
    /// The source of an expression.
    Eval(&'w str),
    /// The paths of a policy and of an object.
    Vap { policy: &'w str, object: &'w str },
    /// The path of a schema.
    Lint(&'w str),
}

/// Returns the command in these words, if they are one: `check SCHEMA OBJECT [OLD]`, `eval TEXT`,
/// `vap POLICY OBJECT` or `lint SCHEMA`.
#[tactic(auto, unfolding(crate::specs::Words::command_of))]
pub(crate) fn command_in(words: &[String]) -> Option<Command<'_>>
    ensures { option_map command_view result ≡ command_of (map string_bytes words.now) }
{
    match words {
        [command, word] => with_one(command.as_str(), word.as_str()),
        [command, first, second] => with_two(command.as_str(), first.as_str(), second.as_str()),
        [command, first, second, third] => with_three(
            command.as_str(),
            first.as_str(),
            second.as_str(),
            third.as_str(),
        ),
        _ => None,
    }
}

fn with_one<'w>(command: &str, word: &'w str) -> Option<Command<'w>>
    ensures { option_map command_view result ≡ command_of_one command.now word.now }
{
    if command == "eval" {
        Some(Command::Eval(word))
    } else if command == "lint" {
        Some(Command::Lint(word))
    } else {
        None
    }
}

fn with_two<'w>(command: &str, first: &'w str, second: &'w str) -> Option<Command<'w>>
    ensures { option_map command_view result ≡ command_of_two command.now first.now second.now }
{
    if command == "check" {
        Some(Command::Check(Named {
            schema: first,
            object: second,
            old: None,
        }))
    } else if command == "vap" {
        Some(Command::Vap {
            policy: first,
            object: second,
        })
    } else {
        None
    }
}

fn with_three<'w>(
    command: &str,
    first: &'w str,
    second: &'w str,
    third: &'w str,
) -> Option<Command<'w>>
    ensures { option_map command_view result ≡ command_of_three command.now first.now second.now third.now }
{
    if command == "check" {
        Some(Command::Check(Named {
            schema: first,
            object: second,
            old: Some(third),
        }))
    } else {
        None
    }
}
