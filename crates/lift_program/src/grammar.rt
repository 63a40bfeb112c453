//! The grammar of the program's words: its commands and their arguments, and the text that lists
//! them.

ghost use Rattle.std.specs.Prelude.{◌≡◌, false, IfOk};
ghost use Rattle.clap.specs.Words.{App, app_of, rule_of, with_subcommand};
ghost use Rattle.lift_program.specs.Words.{liftd_app, bare_app, format_app, show_app};
ghost use Rattle.lift_program.specs.Words.{serve_app, word_rule, option_rule, flag_rule, IsCommand};

use clap::{Arg, ArgAction, Command};
use std::alloc::{AllocError, Global};

/// How the program is called.
pub const HELP: &str = "liftd, the group controller of a lift group

  liftd [replay]
      carries out the script on standard input
  liftd format <image> <building> [--half <n>]
      makes an empty journal of two halves of n sectors, 64 to 1000000 (64)
  liftd show <image> <building>
      prints the open calls of a journal
  liftd serve <image> <building> --port <p> --sessions <n>
              [--policy etd|fewest|wait] [--absent-last]
      serves kiosks and cars at port p of this machine, until n connections
      (1 to 1000000) have ended; by the last option a car that isn't connected,
      or hasn't said since where it is, takes calls that no other may take

Status 0: done. 1: a fault, told in a line on standard error, or a bad script.
2: other words, as these are.
";

/// A plain word that has to be there.
fn word<'a>(alloc: Global, name: &'a str) -> Arg<'a>
    ensures rule { rule_of result ≡ word_rule name.now }
    ensures local { result.global ≡ false }
{
    Arg::new(alloc, name).required(true)
}

/// An option, with its value in the next word or after `=`.
fn option<'a>(alloc: Global, name: &'a str) -> Arg<'a>
    ensures rule { rule_of result ≡ option_rule name.now }
    ensures local { result.global ≡ false }
{
    Arg::new(alloc, name).long(name)
}

/// An option without a value.
fn flag<'a>(alloc: Global, name: &'a str) -> Arg<'a>
    ensures rule { rule_of result ≡ flag_rule name.now }
    ensures local { result.global ≡ false }
{
    Arg::new(alloc, name).long(name).action(ArgAction::SetTrue)
}

/// `format <image> <building> [--half n]`.
fn format_command<'a>(alloc: Global) -> Result<Command<'a>, AllocError>
    ensures { IfOk result (IsCommand format_app) }
{
    Command::new(alloc, "format")
        .arg(word(alloc, "image"))?
        .arg(word(alloc, "building"))?
        .arg(option(alloc, "half"))
}

/// `show <image> <building>`.
fn show_command<'a>(alloc: Global) -> Result<Command<'a>, AllocError>
    ensures { IfOk result (IsCommand show_app) }
{
    Command::new(alloc, "show")
        .arg(word(alloc, "image"))?
        .arg(word(alloc, "building"))
}

/// `serve <image> <building> --port <p> --sessions <n> [--policy <name>] [--absent-last]`.
fn serve_command<'a>(alloc: Global) -> Result<Command<'a>, AllocError>
    ensures { IfOk result (IsCommand serve_app) }
{
    Command::new(alloc, "serve")
        .arg(word(alloc, "image"))?
        .arg(word(alloc, "building"))?
        .arg(option(alloc, "port"))?
        .arg(option(alloc, "sessions"))?
        .arg(option(alloc, "policy"))?
        .arg(flag(alloc, "absent-last"))
}

/// The program by itself, whose first word is not its name.
fn bare<'a>(alloc: Global) -> Command<'a>
    ensures { app_of result ≡ bare_app }
{
    Command::new(alloc, "liftd").no_binary_name(true)
}

/// A program with one command more, where that could be made.
fn with_command<'a>(
    program: Command<'a>,
    command: Result<Command<'a>, AllocError>,
) -> Result<Command<'a>, AllocError>
    ensures { IfOk result (λ more. (app : App) → IfOk command.entry (IsCommand app)
        → app_of more ≡ with_subcommand (app_of program.entry) app.top) }
{
    program.subcommand(command?)
}

/// The program with its commands.
pub fn grammar<'a>(alloc: Global) -> Result<Command<'a>, AllocError>
    ensures { IfOk result (λ command. app_of command ≡ liftd_app) }
{
    let program = with_command(bare(alloc), Ok(Command::new(alloc, "replay")))?;
    let program = with_command(program, format_command(alloc))?;
    let program = with_command(program, show_command(alloc))?;
    with_command(program, serve_command(alloc))
}
