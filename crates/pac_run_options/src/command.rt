//! The command line as `clap` knows it: the subcommands, and what each takes.

ghost use Rattle.std.specs.Prelude.{◌≡◌, ◌∷◌, ◌++◌, IfOk, Ok, [], codes, map, true};
ghost use Rattle.clap.specs.Simple.{new_shape};
ghost use Rattle.clap.specs.Words.{app_of, kind_of, rule_of};
ghost use Rattle.pac_run_options.specs.CommandLine as line;
ghost use Rattle.pac_run_options.specs.CommandLineProofs as command_line_proofs;
ghost use Rattle.pac_run_options.specs.Rows.{told_argument};

use clap::error::ErrorKind;
use clap::{Arg, ArgAction, Command, Error};
use std::alloc::{AllocError, Global};

/// An argument of a subcommand: its name first, and what the help says of it last.
#[derive(Clone, Copy)]
enum Argument<'a> {
    /// A word that stands by itself and has to be given; the help calls its value by the second text.
    Place(&'a str, &'a str, &'a str),
    /// `--name FILE`, which has to be given.
    Required(&'a str, &'a str),
    /// `--name FILE`, which may be given.
    Optional(&'a str, &'a str),
    /// `--name` alone, which may be given.
    Flag(&'a str, &'a str),
    /// `--dip N`, a byte, 201 where it isn't given.
    Switches,
}

/// The whole command line. A subcommand is required, and there is one level of them.
pub fn pacboard<'a>(alloc: Global) -> Result<Command<'a>, AllocError>
    ensures { IfOk result (λ command. app_of command ≡ line.pacboard) }
{
    let subcommands = subcommands(alloc)?;
    program(alloc).subcommands(subcommands)
}

/// The program before its subcommands.
fn program<'a>(alloc: Global) -> Command<'a>
    ensures { app_of result ≡ record {
      top = record (new_shape (codes "pacboard"))
          { has_version = true; subcommand_required = true; disable_help_subcommand = true };
      subs = [];
    } }
{
    Command::new(alloc, "pacboard")
        .version("0.1")
        .about("Assembles and runs programs for Namco's Pac-Man main board")
        .subcommand_required(true)
        .disable_help_subcommand(true)
}

/// The subcommands, in the order of the help. A failure is handed on to the end: a way out here, with commands to drop, would cost far
/// more to check.
fn subcommands<'a>(alloc: Global) -> Result<Vec<Command<'a>>, AllocError>
    ensures { IfOk result (λ commands. map app_of commands.items
        ≡ map command_line_proofs.app_of_command
        (line.asm_command ∷ line.run_command ∷ line.debug_command ∷ line.dis_command ∷ [])) }
{
    let commands = with_one_more(Ok(Vec::new(alloc)), asm_command(alloc));
    let commands = with_one_more(commands, run_command(alloc, "run"));
    let commands = with_one_more(commands, debug_command(alloc));
    with_one_more(commands, dis_command(alloc))
}

/// A list with one more item at its end, where both were made and there was memory for that. It is generic, since the parts of a type
/// that isn't known are no part of the check.
fn with_one_more<T: Drop>(
    items: Result<Vec<T>, AllocError>,
    item: Result<T, AllocError>,
) -> Result<Vec<T>, AllocError>
    ensures { IfOk result (λ r. (old : _) × (new : _) × (items ≡ Ok old) × (item ≡ Ok new)
        × (r.items ≡ old.items ++ new ∷ [])) }
{
    let mut items = items?;
    items.push(item?)?;
    Ok(items)
}

/// `asm SOURCE --rom FILE --listing FILE`.
fn asm_command<'a>(alloc: Global) -> Result<Command<'a>, AllocError>
    ensures { IfOk result (λ command. app_of command
        ≡ command_line_proofs.app_of_command line.asm_command) }
{
    subcommand(
        alloc,
        "asm",
        "Assembles a source into a ROM and its listing",
        &[],
        &[
            Argument::Place("source", "SOURCE", "The source"),
            Argument::Required("rom", "Gets the 16,384 bytes of the ROM"),
            Argument::Required("listing", "Gets the listing"),
        ],
    )
}

/// `run`, by the name that the usage gives it: the options of a run, and the states that it begins and ends with,
/// `[--load FILE] [--save FILE]`.
fn run_command<'a>(alloc: Global, name: &'a str) -> Result<Command<'a>, AllocError>
    ensures { IfOk result (λ command. app_of command
        ≡ command_line_proofs.app_of_command (line.command name.entry.now line.play_rules)) }
{
    subcommand(
        alloc,
        name,
        "Runs a ROM set by a script, and writes its pictures and its sound",
        &run_options(),
        &[
            Argument::Optional(
                "load",
                "The state file that the run begins with, in place of power-on",
            ),
            Argument::Optional("save", "Gets the state of the board at the run's end"),
        ],
    )
}

/// `debug` with the options of a run and `--commands FILE`.
fn debug_command<'a>(alloc: Global) -> Result<Command<'a>, AllocError>
    ensures { IfOk result (λ command. app_of command
        ≡ command_line_proofs.app_of_command line.debug_command) }
{
    subcommand(
        alloc,
        "debug",
        "Runs a ROM set as run does, and does a debugger's commands on the run",
        &run_options(),
        &[Argument::Required("commands", "The debugger's commands, a line each")],
    )
}

/// `dis FILE`.
fn dis_command<'a>(alloc: Global) -> Result<Command<'a>, AllocError>
    ensures { IfOk result (λ command. app_of command
        ≡ command_line_proofs.app_of_command line.dis_command) }
{
    subcommand(
        alloc,
        "dis",
        "Disassembles a file",
        &[],
        &[Argument::Place("file", "FILE", "The file, of 1 to 65,536 bytes")],
    )
}

/// The options of a run: `--set FILE --script FILE --frames FILE --wave FILE --listing FILE [--source FILE] [--whole] [--dip N]`.
fn run_options<'a>() -> [Argument<'a>; 8]
    ensures { map told_argument result ≡ line.run_rules }
{
    [
        Argument::Required("set", "The manifest of the ROM set"),
        Argument::Required("script", "The script of inputs"),
        Argument::Required("frames", "Gets the pictures, as PPM"),
        Argument::Required("wave", "Gets the sound, as WAV"),
        Argument::Required("listing", "Gets the listing"),
        Argument::Optional("source", "The source that stands for the set's program"),
        Argument::Flag(
            "whole",
            "Leaves the outputs as they were unless all of them are whole",
        ),
        Argument::Switches,
    ]
}

/// A subcommand with its description, and with what it takes: what others take too, and then its own.
fn subcommand<'a>(
    alloc: Global,
    name: &'a str,
    about: &'a str,
    shared: &[Argument<'a>],
    own: &[Argument<'a>],
) -> Result<Command<'a>, AllocError>
    ensures { IfOk result (λ command. app_of command ≡ command_line_proofs.app_of_command
        (line.command name.entry.now (map told_argument shared.now ++ map told_argument own.now))) }
{
    let mut arguments = Vec::new(alloc);
    add_arguments(alloc, &mut arguments, shared)?;
    add_arguments(alloc, &mut arguments, own)?;
    Command::new(alloc, name).about(about).args(arguments)
}

/// Adds arguments by their rows.
fn add_arguments<'a>(
    alloc: Global,
    arguments: &mut Vec<Arg<'a>>,
    rows: &[Argument<'a>],
) -> Result<(), AllocError>
    ensures { IfOk result (λ _. map rule_of arguments.new.items ≡ map rule_of arguments.old.items
        ++ map told_argument rows.now) }
{
    for row in rows {
        add(arguments, argument_of(alloc, *row))?;
    }
    Ok(())
}

/// Adds an item at the end of a list; generic for the same reason.
fn add<T: Drop>(items: &mut Vec<T>, item: T) -> Result<(), AllocError>
    ensures { IfOk result (λ _. items.new.items ≡ items.old.items ++ item ∷ []) }
{
    items.push(item)?;
    Ok(())
}

/// An argument by its row.
fn argument_of<'a>(alloc: Global, row: Argument<'a>) -> Arg<'a>
    ensures { rule_of result ≡ told_argument row.entry }
{
    match row {
        Argument::Place(name, value, help) => place(alloc, name, value, help, true),
        Argument::Required(name, help) => option(alloc, name, "FILE", help, true),
        Argument::Optional(name, help) => option(alloc, name, "FILE", help, false),
        Argument::Flag(name, help) => flag(alloc, name, help),
        Argument::Switches => dip_option(alloc),
    }
}

/// `--dip N`, a byte, 201 where it isn't given.
fn dip_option<'a>(alloc: Global) -> Arg<'a>
    ensures { rule_of result ≡ line.dip_option }
{
    option(
        alloc,
        "dip",
        "N",
        "The DIP switches, a byte from 0 to 255",
        false,
    )
    .value_parser(clap::value_parser!(u8))
    .default_value("201")
}

/// `--name` alone.
fn flag<'a>(alloc: Global, name: &'a str, help: &'a str) -> Arg<'a>
    ensures { rule_of result ≡ line.flag name.entry.now }
{
    Arg::new(alloc, name)
        .help(help)
        .long(name)
        .action(ArgAction::SetTrue)
}

/// `--name VALUE`.
fn option<'a>(
    alloc: Global,
    name: &'a str,
    value: &'a str,
    help: &'a str,
    required: bool,
) -> Arg<'a>
    ensures { rule_of result ≡ record (line.option name.entry.now) { required = required } }
{
    place(alloc, name, value, help, required).long(name)
}

/// An argument with one value: a word that stands by itself.
fn place<'a>(alloc: Global, name: &'a str, value: &'a str, help: &'a str, required: bool) -> Arg<'a>
    ensures { rule_of result ≡ record (line.argument name.entry.now) { required = required } }
{
    Arg::new(alloc, name)
        .value_name(value)
        .help(help)
        .required(required)
}

/// The error of DIP switches that are given beside a state to begin with, in the form in which `clap` tells such a conflict.
pub fn dip_conflict(alloc: Global) -> Result<Error, AllocError>
    ensures { IfOk result (λ error. kind_of error ≡ ErrorKind.ArgumentConflict) }
{
    error_of(
        run_command(alloc, "pacboard run"),
        ErrorKind::ArgumentConflict,
        "the argument '--dip <N>' cannot be used with '--load <FILE>'",
    )
}

/// The error of words in which `clap` misses nothing, and that don't say all that a request needs. By what `clap` states there are none.
pub fn lack(alloc: Global) -> Result<Error, AllocError>
    ensures { IfOk result (λ error. kind_of error ≡ ErrorKind.MissingRequiredArgument) }
{
    error_of(
        pacboard(alloc),
        ErrorKind::MissingRequiredArgument,
        "the words don't say all that is needed",
    )
}

/// An error of a command that was made.
fn error_of(
    command: Result<Command<'_>, AllocError>,
    kind: ErrorKind,
    message: &str,
) -> Result<Error, AllocError>
    ensures { IfOk result (λ error. kind_of error ≡ kind) }
{
    match command {
        Ok(command) => told(command, kind, message),
        Err(error) => Err(error),
    }
}

/// An error of a command, which is dropped by one call: each way out costs a check as much as what is dropped on it has parts.
fn told(mut command: Command<'_>, kind: ErrorKind, message: &str) -> Result<Error, AllocError>
    ensures { IfOk result (λ error. kind_of error ≡ kind) }
{
    let error = command.error(kind, message);
    drop(command);
    error
}
