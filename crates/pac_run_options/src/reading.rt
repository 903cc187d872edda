//! From the words of a command line to what they ask for.

ghost use Rattle.std.specs.Prelude.{◌≡◌, IfOk, Some, codes, map, option_and_then, option_map};
ghost use Rattle.clap.specs.Takes.{is_given};
ghost use Rattle.clap.specs.Words.{FailsBy, first_of, found_of, one_of, rows_of};
ghost use Rattle.clap.specs.Words.{subcommand_rows_of};
ghost use Rattle.pac_run_options.specs.CommandLine as line;
ghost use Rattle.pac_run_options.specs.CommandLineProofs as command_line_proofs;

use crate::command::{dip_conflict, lack, pacboard};
use crate::request::{AsmFiles, DebugFiles, PlayFiles, Request, RunFiles};
use clap::parser::ValueSource;
use clap::{ArgMatches, Error};
use std::alloc::Global;
use std::convert::AsStr;

/// Reads the words of a command line, the program's name first.
///
/// An error is `clap`'s own, whose text says what is wrong or is the help or version that was asked for. Words that `clap`
/// accepts are refused where they give a run both a state to begin with and the DIP switches, which stand in that state.
pub fn options<'a, S: AsStr>(alloc: Global, words: &'a [S]) -> Result<Request<'a>, Error>
    ensures asked { IfOk result (λ request. line.request_of (map S.text words.entry.now)
        ≡ Some (command_line_proofs.told_request request)) }
    ensures refused { FailsBy (line.faults_of (map S.text words.entry.now)) result }
{
    let matches = pacboard(alloc)?.try_get_matches_from(words)?;
    asked(alloc, &matches)
}

/// What words ask for in which `clap` finds no fault, unless they are refused.
fn asked<'a>(alloc: Global, matches: &ArgMatches<'a>) -> Result<Request<'a>, Error>
    ensures asked { IfOk result (λ request.
        option_and_then line.asked_command (subcommand_rows_of matches.now)
        ≡ Some (command_line_proofs.told_request request)) }
    ensures refused { FailsBy (line.own_faults_of (subcommand_rows_of matches.now)) result }
{
    refuse_conflict(alloc, matches)?;
    match request(matches) {
        Some(request) => Ok(request),
        None => Err(lack(alloc)?),
    }
}

/// Refuses the DIP switches beside a state that a run begins with.
fn refuse_conflict(alloc: Global, matches: &ArgMatches<'_>) -> Result<(), Error>
    ensures { FailsBy (line.conflict_of (subcommand_rows_of matches.now)) result }
{
    match matches.subcommand() {
        Some(("run", values)) if has_conflict(values) => Err(dip_conflict(alloc)?),
        _ => Ok(()),
    }
}

/// Whether both a state to begin with and the DIP switches are given.
fn has_conflict(values: &ArgMatches<'_>) -> bool
    ensures { result ≡ line.has_conflict (rows_of (found_of values.now)) }
{
    is_given(values, "load") && is_given(values, "dip")
}

/// Whether the words give an option, and it hasn't only its default.
fn is_given(values: &ArgMatches<'_>, id: &str) -> bool
    ensures { result ≡ is_given id.now (rows_of (found_of values.now)) }
{
    match values.value_source(id) {
        Some(ValueSource::DefaultValue) => false,
        Some(ValueSource::CommandLine) => true,
        None => values.contains_id(id),
    }
}

/// The first text of an argument, where the words give one.
fn text<'a>(values: &ArgMatches<'a>, id: &str) -> Option<&'a str>
    ensures { option_map (λ one. one.now) result
        ≡ first_of id.now (rows_of (found_of values.now)) }
{
    values.get_str(id)
}

/// The DIP switches, where their text is a number that a byte has.
fn dip_switches(values: &ArgMatches<'_>) -> Option<u8>
    ensures { result
        ≡ option_and_then line.byte_of_text (one_of (codes "dip") (rows_of (found_of values.now))) }
{
    values.get_one::<u8>("dip")
}

/// What the matches of a command line ask for.
fn request<'a>(matches: &ArgMatches<'a>) -> Option<Request<'a>>
    ensures { option_map command_line_proofs.told_request result
        ≡ option_and_then line.asked_command (subcommand_rows_of matches.now) }
{
    let (name, values) = matches.subcommand()?;
    match name {
        "asm" => asm_files(values).map(Request::Asm),
        "run" => play_files(values).map(Request::Run),
        "debug" => debug_files(values).map(Request::Debug),
        "dis" => dis_file(values).map(Request::Dis),
        _ => None,
    }
}

/// The files of `asm`, where all are there.
fn asm_files<'a>(values: &ArgMatches<'a>) -> Option<AsmFiles<'a>>
    ensures { option_map command_line_proofs.told_asm result
        ≡ line.asked_asm (rows_of (found_of values.now)) }
{
    let source = text(values, "source")?;
    let rom = text(values, "rom")?;
    let listing = text(values, "listing")?;
    Some(AsmFiles {
        source,
        rom,
        listing,
    })
}

/// The files of `run`, where all are there that have to be.
fn play_files<'a>(values: &ArgMatches<'a>) -> Option<PlayFiles<'a>>
    ensures { option_map command_line_proofs.told_play result
        ≡ line.asked_play (rows_of (found_of values.now)) }
{
    let run = run_files(values)?;
    Some(PlayFiles {
        run,
        load: text(values, "load"),
        save: text(values, "save"),
    })
}

/// The files and switches of a run, where all are there that have to be.
fn run_files<'a>(values: &ArgMatches<'a>) -> Option<RunFiles<'a>>
    ensures { option_map command_line_proofs.told_run result
        ≡ line.asked_run (rows_of (found_of values.now)) }
{
    let set = text(values, "set")?;
    let script = text(values, "script")?;
    let frames = text(values, "frames")?;
    let wave = text(values, "wave")?;
    let listing = text(values, "listing")?;
    let dip = dip_switches(values)?;
    Some(RunFiles {
        set,
        script,
        frames,
        wave,
        listing,
        source: text(values, "source"),
        whole: is_given(values, "whole"),
        dip,
    })
}

/// The file of `dis`, where it is there.
fn dis_file<'a>(values: &ArgMatches<'a>) -> Option<&'a str>
    ensures { option_map (λ file. file.now) result
        ≡ line.asked_dis (rows_of (found_of values.now)) }
{
    text(values, "file")
}

/// The files of `debug`, where all are there.
fn debug_files<'a>(values: &ArgMatches<'a>) -> Option<DebugFiles<'a>>
    ensures { option_map command_line_proofs.told_debug result
        ≡ line.asked_debug (rows_of (found_of values.now)) }
{
    let run = run_files(values)?;
    let commands = text(values, "commands")?;
    Some(DebugFiles { run, commands })
}
