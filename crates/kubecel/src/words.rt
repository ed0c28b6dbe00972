//! Defines and reads the command line.
ghost use Rattle.clap.specs.Matches.{found_of};
ghost use Rattle.kubecel.specs.Words.{IsOption, Texts, Understands, admit_words, all_of, check_words, command, command_of, file, files, flag, form_named, form_names, is_set, objects, one_or_more, output, output_of, policy, program_words, recursive, required, review_words, text_form, words};
ghost use Rattle.kubecel_cli.specs.Commands.{command_view};
ghost use Rattle.std.specs.Prelude.{◌≡◌, IfOk, codes, map};

use clap::{Arg, ArgAction, ArgMatches, Command as Words};
use kubecel_cli::{Admit, Check, Command, Output};
use std::alloc::{AllocError, Global};

/// The names of the forms of output.
static FORMS: [&str; 4] = ["text", "json", "github", "junit"];

/// An option that takes the path of a file.
fn file<'a>(alloc: Global, name: &'a str, help: &'a str) -> Arg<'a>
    ensures { IsOption (file name.entry.now) result }
{
    Arg::new(alloc, name)
        .long(name)
        .value_name("FILE")
        .action(ArgAction::Set)
        .help(help)
}

/// An option that takes the path of a file and may be given several times.
fn files<'a>(alloc: Global, name: &'a str, help: &'a str) -> Arg<'a>
    ensures { IsOption (files name.entry.now) result }
{
    file(alloc, name, help).action(ArgAction::Append)
}

/// An option without a value.
fn flag<'a>(alloc: Global, name: &'a str, help: &'a str) -> Arg<'a>
    ensures { IsOption (flag name.entry.now) result }
{
    Arg::new(alloc, name)
        .long(name)
        .action(ArgAction::SetTrue)
        .help(help)
}

/// The option for the form of output, one of these.
fn output<'a>(alloc: Global, forms: &'a [&'a str]) -> Arg<'a>
    ensures { IsOption (output forms.entry) result }
{
    Arg::new(alloc, "output")
        .long("output")
        .value_name("FORM")
        .action(ArgAction::Set)
        .value_parser(forms)
        .default_value("text")
        .help("The format of the output")
}

/// The option for files of definitions, where others may follow.
fn crds<'a>(alloc: Global) -> Arg<'a>
    ensures { IsOption (files (codes "crds")) result }
{
    files(
        alloc,
        "crds",
        "A file with CustomResourceDefinitions; may be given several times",
    )
}

/// The same option, which is needed, where nothing follows that could be taken for one of its
/// files.
fn all_crds<'a>(alloc: Global) -> Arg<'a>
    ensures { IsOption (one_or_more (required (files (codes "crds")))) result }
{
    crds(alloc).required(true).num_args(1..).help(
        "Files with CustomResourceDefinitions; may be given several times",
    )
}

/// The option for the folders within folders. The script around this program walks folders.
fn recursive<'a>(alloc: Global) -> Arg<'a>
    ensures { IsOption recursive result }
{
    flag(
        alloc,
        "recursive",
        "Takes the files of the folders within a folder too",
    )
    .short('R')
}

/// The arguments for files of objects.
fn objects<'a>(alloc: Global) -> Arg<'a>
    ensures { IsOption objects result }
{
    Arg::new(alloc, "objects")
        .value_name("FILE")
        .required(true)
        .num_args(1..)
        .action(ArgAction::Append)
        .help("Files with objects, and with CustomResourceDefinitions; - is standard input")
}

/// The argument for the file of a policy.
fn policy<'a>(alloc: Global) -> Arg<'a>
    ensures { IsOption policy result }
{
    Arg::new(alloc, "policy")
        .value_name("POLICY")
        .required(true)
        .action(ArgAction::Set)
        .help("A file with a ValidatingAdmissionPolicy; - is standard input")
}

/// A command with the options that all commands have.
fn command<'a>(
    alloc: Global,
    forms: &'a [&'a str],
    name: &'a str,
    about: &'a str,
) -> Result<Words<'a>, AllocError>
    ensures { IfOk result (Understands (command forms.entry name.entry.now)) }
{
    Words::new(alloc, name)
        .about(about)
        .arg(output(alloc, forms))
}

/// The command line of `check`.
fn check_words<'a>(alloc: Global, forms: &'a [&'a str]) -> Result<Words<'a>, AllocError>
    ensures { IfOk result (Understands (check_words forms.entry)) }
{
    command(
        alloc,
        forms,
        "check",
        "Checks objects against their CustomResourceDefinitions",
    )?
    .arg(crds(alloc))?
    .arg(files(alloc, "old", "Files with the old objects, for oldSelf"))?
    .arg(flag(
        alloc,
        "ignore-missing-crds",
        "Skips objects without a CustomResourceDefinition; at least one object needs to have one",
    ))?
    .arg(flag(
        alloc,
        "allow-none",
        "Ends with status 0 if there is nothing to judge",
    ))?
    .arg(recursive(alloc))?
    .arg(objects(alloc))
}

/// The command line of `review`.
fn review_words<'a>(alloc: Global, forms: &'a [&'a str]) -> Result<Words<'a>, AllocError>
    ensures { IfOk result (Understands (review_words forms.entry)) }
{
    command(
        alloc,
        forms,
        "review",
        "Reviews CustomResourceDefinitions for mistakes",
    )?
    .arg(all_crds(alloc))?
    .arg(recursive(alloc))
}

/// The command line of `admit`.
fn admit_words<'a>(alloc: Global, forms: &'a [&'a str]) -> Result<Words<'a>, AllocError>
    ensures { IfOk result (Understands (admit_words forms.entry)) }
{
    command(
        alloc,
        forms,
        "admit",
        "Evaluates a ValidatingAdmissionPolicy for a request",
    )?
    .arg(policy(alloc))?
    .arg(file(alloc, "request", "An AdmissionReview"))?
    .arg(file(alloc, "object", "The object, for object"))?
    .arg(file(alloc, "old", "The old object, for oldObject"))?
    .arg(file(alloc, "params", "The parameter resource, for params"))?
    .arg(file(
        alloc,
        "namespace",
        "The object's namespace, for namespaceObject",
    ))
}

/// The program's command line without its commands.
fn program_words<'a>(alloc: Global) -> Words<'a>
    ensures { Understands program_words result }
{
    Words::new(alloc, "kubecel")
        .about(
            "Checks Kubernetes objects against their CEL rules, without a cluster. FILE holds a document, a List, or several documents, as JSON or YAML, or is a folder of such files.",
        )
        .after_help(
            "Exit status: 0 if everything was judged and passes, 1 if a rule fails, 2 if something couldn't be judged.",
        )
        .version("0.3.1")
        .subcommand_required(true)
        .arg_required_else_help(true)
}

/// Builds the whole command line of the program.
pub fn words<'a>(alloc: Global) -> Result<Words<'a>, AllocError>
    ensures { IfOk result (λ c. (forms : Texts) × (map (λ s. s.now) forms.now ≡ form_names)
        × Understands (words forms) c) }
{
    let forms = FORMS.as_slice();
    program_words(alloc)
        .subcommand(check_words(alloc, forms)?)?
        .subcommand(review_words(alloc, forms)?)?
        .subcommand(admit_words(alloc, forms)?)
}

/// Returns all values of an option or argument. Empty if it wasn't given.
pub fn all_of<'m, 'a>(found: &'m ArgMatches<'a>, name: &str) -> &'m [&'a str]
    ensures { map (λ s. s.now) result.now ≡ all_of (found_of found.now) name.now }
{
    found.get_strs(name).unwrap_or_default()
}

/// Reports whether an option without a value was given.
fn is_set(found: &ArgMatches<'_>, name: &str) -> bool
    ensures { result ≡ is_set (found_of found.now) name.now }
{
    match found.get_str(name) {
        Some(value) => value == "true",
        None => false,
    }
}

/// Returns the command of this name with its arguments.
pub fn command_of<'m, 'a>(name: &str, found: &'m ArgMatches<'a>) -> Command<'m, 'a>
    ensures { command_view result ≡ command_of name.now (found_of found.now) }
{
    match name {
        "check" => Command::Check(Check {
            crds: all_of(found, "crds"),
            olds: all_of(found, "old"),
            objects: all_of(found, "objects"),
            ignores_missing: is_set(found, "ignore-missing-crds"),
            allows_none: is_set(found, "allow-none"),
        }),
        "review" => Command::Review(all_of(found, "crds")),
        _ => Command::Admit(Admit {
            policy: found.get_str("policy").unwrap_or(""),
            request: found.get_str("request"),
            object: found.get_str("object"),
            old: found.get_str("old"),
            params: found.get_str("params"),
            namespace: found.get_str("namespace"),
        }),
    }
}

/// The form of plain text, which has colours on a terminal.
fn text_form(is_terminal: bool) -> Output
    ensures { result ≡ text_form is_terminal }
{
    if is_terminal {
        Output::Coloured
    } else {
        Output::Text
    }
}

/// The form of output with this name. Text for any other name.
fn form_named(name: &str, is_terminal: bool) -> Output
    ensures { result ≡ form_named name.now is_terminal }
{
    match name {
        "json" => Output::Json,
        "github" => Output::Github,
        "junit" => Output::Junit,
        _ => text_form(is_terminal),
    }
}

/// Returns the requested form of output. Text has colours on a terminal.
pub fn output_of(found: &ArgMatches<'_>, is_terminal: bool) -> Output
    ensures { result ≡ output_of (found_of found.now) is_terminal }
{
    match found.get_str("output") {
        Some(name) => form_named(name, is_terminal),
        None => text_form(is_terminal),
    }
}
