//! The words of the command line.
ghost use Rattle.std.specs.Prelude.{◌≡◌, ◌≢◌, Some, IfErr, IfOk, codes, option_map, false};
ghost use Rattle.clap.specs.Words.{app_of, rule_of, subcommand_rows_of};
ghost use Rattle.clap.specs.declared.builder.command.Command.TheViews.{out-Command as fields_of};
ghost use Rattle.r6_command.specs.CommandLine.{SaysNoCommand, asked_of, said, texts};
ghost use Rattle.clap.specs.Values.{kind_of};
ghost use Rattle.clap.specs.declared.error.kind.ErrorKind.TheVariants.{OutOfMemory};
ghost use Rattle.r6_command.specs.declared.invocation.Paths.TheVariants.{Config};
ghost use Rattle.r6_command.specs.Grammar.{Finds, asked_in, grammar, named, path_rule, program, with_command, with_one_path, with_paths, with_two_paths};

use crate::fault::CommandFault;
use clap::{Arg, ArgMatches, Command, Error};
use std::alloc::{AllocError, Global};

/// What a command line asks for: a command, with the paths that it was given.
#[derive(Clone, Copy, Debug)]
pub enum Invocation<'a> {
    /// Prints the layout of the array of a settings file.
    Geometry { config: &'a str },
    /// Makes the device files of a settings file.
    Create { config: &'a str },
    /// Reads every row of the devices and counts the classes.
    Verify { config: &'a str },
    /// Plays the events of a script against the cores of an array in memory.
    Simulate { script: &'a str },
    /// Serves the requests of a script over the devices of a settings file.
    Run { config: &'a str, script: &'a str },
}

impl<'a> Invocation<'a> {
    ghost use Rattle.r6_command.specs.CommandLine.{config_of, script_of};

    /// The settings file that the command reads.
    pub fn config(&self) -> Option<&'a str>
        ensures { option_map (λ path. path.now) result ≡ config_of (asked_of self.now) }
    {
        match *self {
            Invocation::Geometry { config } => Some(config),
            Invocation::Create { config } => Some(config),
            Invocation::Verify { config } => Some(config),
            Invocation::Simulate { .. } => None,
            Invocation::Run { config, .. } => Some(config),
        }
    }

    /// The script that the command reads.
    pub fn script(&self) -> Option<&'a str>
        ensures { option_map (λ path. path.now) result ≡ script_of (asked_of self.now) }
    {
        match *self {
            Invocation::Simulate { script } => Some(script),
            Invocation::Run { script, .. } => Some(script),
            _ => None,
        }
    }
}

// Which paths a command has.
#[derive(Clone, Copy)]
enum Paths {
    Config,
    Script,
    Both,
}

// The program's name, whatever its file is called.
const NAME: &str = "raid6";

const VERSION: &str = "0.1.0";

// The ids of a command's paths: the first and, where it has one, the second.
const FIRST: &str = "first";

const SECOND: &str = "second";

fn path<'a>(alloc: Global, id: &'a str, label: &'a str, help: &'a str) -> Arg<'a>
    ensures rule { rule_of result ≡ path_rule id.entry.now }
    ensures local { result.global ≡ false }
{
    Arg::new(alloc, id)
        .value_name(label)
        .help(help)
        .required(true)
}

fn with_config<'a>(alloc: Global, name: &'a str) -> Result<Command<'a>, AllocError>
    ensures app { IfOk result (λ made. app_of made ≡ with_one_path name.entry.now) }
    ensures local { IfOk result (λ made. (fields_of made).has_globals ≡ false) }
{
    Command::new(alloc, name).arg(path(alloc, FIRST, "CONFIG", "The settings file, in TOML"))
}

fn with_script<'a>(alloc: Global, name: &'a str) -> Result<Command<'a>, AllocError>
    ensures app { IfOk result (λ made. app_of made ≡ with_one_path name.entry.now) }
    ensures local { IfOk result (λ made. (fields_of made).has_globals ≡ false) }
{
    Command::new(alloc, name).arg(path(alloc, FIRST, "SCRIPT", "The script"))
}

fn with_both<'a>(alloc: Global, name: &'a str) -> Result<Command<'a>, AllocError>
    ensures app { IfOk result (λ made. app_of made ≡ with_two_paths name.entry.now) }
    ensures local { IfOk result (λ made. (fields_of made).has_globals ≡ false) }
{
    with_config(alloc, name)?.arg(path(alloc, SECOND, "SCRIPT", "The script"))
}

fn program<'a>(alloc: Global) -> Result<Command<'a>, AllocError>
    ensures { IfOk result (λ made. app_of made ≡ program) }
{
    Command::new(alloc, NAME)
        .version(VERSION)
        .about("A RAID-6 array over 4 to 32 slots, laid out as Linux md lays it out.")
        .subcommand_required(true)
        .arg_required_else_help(true)
        .disable_help_subcommand(true)
        .bin_name(NAME)
}

fn with_paths<'a>(alloc: Global, name: &'a str, paths: Paths) -> Result<Command<'a>, AllocError>
    ensures app { IfOk result (λ made. app_of made ≡ with_paths paths name.entry.now) }
    ensures local { IfOk result (λ made. (fields_of made).has_globals ≡ false) }
{
    match paths {
        Paths::Config => with_config(alloc, name),
        Paths::Script => with_script(alloc, name),
        Paths::Both => with_both(alloc, name),
    }
}

fn with_shown<'a>(
    alloc: Global,
    program: Command<'a>,
    name: &'a str,
    paths: Paths,
    about: &'a str,
) -> Result<Command<'a>, AllocError>
    ensures { IfOk result (λ made. app_of made ≡ with_command (app_of program.entry) paths name.entry.now) }
{
    program.subcommand(with_paths(alloc, name, paths)?.about(about))
}

// The program with the commands that have a settings file and nothing else.
fn with_settings<'a>(alloc: Global, program: Command<'a>) -> Result<Command<'a>, AllocError>
    ensures { IfOk result (λ made. app_of made ≡ with_command (with_command (with_command (app_of program.entry)
        Config (codes "geometry")) Config (codes "create")) Config (codes "verify")) }
{
    let program = with_shown(
        alloc,
        program,
        "geometry",
        Paths::Config,
        "Print the array's layout",
    )?;
    let program = with_shown(
        alloc,
        program,
        "create",
        Paths::Config,
        "Make the array's device files, of zeros",
    )?;
    with_shown(
        alloc,
        program,
        "verify",
        Paths::Config,
        "Read every row of the device files, and count the rows by class",
    )
}

fn grammar<'a>(alloc: Global) -> Result<Command<'a>, AllocError>
    ensures { IfOk result (λ made. app_of made ≡ grammar) }
{
    let program = with_settings(alloc, program(alloc)?)?;
    let program = with_shown(
        alloc,
        program,
        "simulate",
        Paths::Script,
        "Play a script against an array in memory",
    )?;
    with_shown(
        alloc,
        program,
        "run",
        Paths::Both,
        "Give the array on the device files the events of a script",
    )
}

fn matched<'a>(alloc: Global, words: &'a [String]) -> Result<ArgMatches<'a>, Error>
    ensures err { IfErr result (λ error. kind_of error ≢ OutOfMemory → SaysNoCommand (texts words.entry.now)) }
    ensures ok { IfOk result (λ matches. Finds (texts words.entry.now) (subcommand_rows_of matches)) }
{
    grammar(alloc)?.try_get_matches_from(words)
}

fn named<'a>(name: &str, first: Option<&'a str>, second: Option<&'a str>) -> Option<Invocation<'a>>
    ensures { option_map asked_of result
        ≡ named name.now (option_map (λ path. path.now) first.entry) (option_map (λ path. path.now) second.entry) }
{
    let first = first?;
    match name {
        "geometry" => Some(Invocation::Geometry { config: first }),
        "create" => Some(Invocation::Create { config: first }),
        "verify" => Some(Invocation::Verify { config: first }),
        "simulate" => Some(Invocation::Simulate { script: first }),
        "run" => {
            let script = second?;
            Some(Invocation::Run {
                config: first,
                script,
            })
        }
        _ => None,
    }
}

fn asked<'a>(matches: &ArgMatches<'a>) -> Option<Invocation<'a>>
    ensures { option_map asked_of result ≡ asked_in (subcommand_rows_of matches.now) }
{
    match matches.subcommand() {
        Some((name, paths)) => named(name, paths.get_str(FIRST), paths.get_str(SECOND)),
        None => None,
    }
}

/// Reads what a command line asks for. The first word is the program's own name.
pub fn command<'a>(alloc: Global, words: &'a [String]) -> Result<Invocation<'a>, CommandFault>
    ensures err { IfErr result (λ fault. fault ≢ CommandFault.Memory → SaysNoCommand (texts words.entry.now)) }
    ensures ok { IfOk result (λ invocation. said (texts words.entry.now) ≡ Some (asked_of invocation)) }
{
    let matches = matched(alloc, words)?;
    match asked(&matches) {
        Some(invocation) => Ok(invocation),
        None => unreachable!(),
    }
}
