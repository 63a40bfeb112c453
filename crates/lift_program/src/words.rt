//! What the program's words ask for.

ghost use Rattle.std.specs.Prelude.{◌≤◌, ◌↔◌, ℕ, map, option_map, IfOk, IfSome, IfNone, IsTrue};
ghost use Rattle.clap.specs.Words.{Text, rows_of, found_of, subcommand_rows_of};
ghost use Rattle.lift_program.specs.Words.{AskForRequest, AsksForHelp, AsksNothing, IsCount, IsFor};
ghost use Rattle.lift_program.specs.Words.{IsFormat, IsShow, IsHalf, IsRequestInRange, IsOver};
ghost use Rattle.lift_program.specs.Words.{IsAbsentLast, IsPolicy, IsServe};
ghost use Rattle.lift_policy.specs.declared.policies.Shipped.{Shipped as ShippedValue};

use crate::refused::{NoMemory, matches_of};
use clap::ArgMatches;
use lift_base::LEAST_HALF;
use lift_base::text::number_up_to;
use lift_policy::{Dispatching, Etd, Shipped};
use std::alloc::Global;
use std::convert::AsStr;

/// What the program is to do.
#[derive(Clone, Copy)]
pub enum Request<'a> {
    /// Carry out a script.
    Replay,
    /// Make an empty journal in the file `image`, for the building in the file `building`.
    Format {
        image: &'a str,
        building: &'a str,
        /// The sectors of half of it, 64 to 1,000,000.
        half: u32,
    },
    /// Show the open calls of the journal in the file `image`, which is of the building in the file
    /// `building`.
    Show {
        image: &'a str,
        building: &'a str,
    },
    /// Serve the building in the file `building` on a port of this machine, with the journal in the
    /// file `image`.
    Serve {
        image: &'a str,
        building: &'a str,
        /// 1 to 65,535.
        port: u16,
        /// How many connections are to end, 1 to 1,000,000.
        sessions: u32,
        /// By which policy, and whether absent cars come last.
        policy: Dispatching<Shipped>,
    },
}

const MOST_PORT: u32 = 65_535;

const MOST_SESSIONS: u32 = 1_000_000;

const MOST_HALF: u32 = 1_000_000;

/// The sectors that a word names; 64 where it is absent.
fn half_of(word: Option<&str>) -> Option<u32>
    ensures some { IfSome result (λ half. IsHalf (option_map (λ w. w.now) word.entry) half) }
    ensures limits { IfSome result (λ half. (LEAST_HALF ≤ half) × (half ≤ 1000000)) }
    ensures none { IfNone result ((half : ℕ) → IsHalf (option_map (λ w. w.now) word.entry) half
        → ⊥) }
{
    let Some(word) = word else {
        return Some(LEAST_HALF);
    };
    let half = number_up_to(word, MOST_HALF)?;
    if half < LEAST_HALF { None } else { Some(half) }
}

/// The image and the building that a command is over.
fn files_of<'a>(matches: &ArgMatches<'a>) -> Option<(&'a str, &'a str)>
    ensures some { IfSome result (λ files.
        IsOver (rows_of (found_of matches.now)) files.0.now files.1.now) }
    ensures none { IfNone result ((image building : Text)
        → IsOver (rows_of (found_of matches.now)) image building → ⊥) }
{
    let image = matches.get_str("image")?;
    let building = matches.get_str("building")?;
    Some((image, building))
}

/// What the words after `format` ask for.
fn format_of<'a>(matches: &ArgMatches<'a>) -> Option<Request<'a>>
    ensures some { IfSome result (λ request. IsFormat (rows_of (found_of matches.now)) request) }
    ensures range { IfSome result (λ request. IsRequestInRange request) }
    ensures none { IfNone result (AsksNothing (IsFormat (rows_of (found_of matches.now)))) }
{
    let (image, building) = files_of(matches)?;
    let half = half_of(matches.get_str("half"))?;
    Some(Request::Format {
        image,
        building,
        half,
    })
}

/// What the words after `show` ask for.
fn show_of<'a>(matches: &ArgMatches<'a>) -> Option<Request<'a>>
    ensures some { IfSome result (λ request. IsShow (rows_of (found_of matches.now)) request) }
    ensures range { IfSome result (λ request. IsRequestInRange request) }
    ensures none { IfNone result (AsksNothing (IsShow (rows_of (found_of matches.now)))) }
{
    let (image, building) = files_of(matches)?;
    Some(Request::Show { image, building })
}

/// The number, from 1 to `most`, that an option's word names.
fn count_of(word: Option<&str>, most: u32) -> Option<u32>
    ensures some { IfSome result (λ count.
        IsCount most (option_map (λ w. w.now) word.entry) count) }
    ensures limits { IfSome result (λ count. (1 ≤ count) × (count ≤ most)) }
    ensures none { IfNone result ((count : ℕ)
        → IsCount most (option_map (λ w. w.now) word.entry) count → ⊥) }
{
    let word = word?;
    let count = number_up_to(word, most)?;
    if count < 1 { None } else { Some(count) }
}

/// The policy that an option's word names; that of the least cost where it is absent.
fn policy_of(word: Option<&str>) -> Option<Shipped>
    ensures some { IfSome result (λ policy. IsPolicy (option_map (λ w. w.now) word.entry) policy) }
    ensures none { IfNone result ((policy : ShippedValue)
        → IsPolicy (option_map (λ w. w.now) word.entry) policy → ⊥) }
{
    match word {
        None => Some(Shipped::Etd(Etd)),
        Some(word) => Shipped::named(word),
    }
}

/// Whether an option without a value is there.
#[tactic(auto, using(crate::proofs::Rows::there_if, crate::proofs::Rows::not_there))]
fn is_there(word: Option<&str>) -> bool
    ensures { IsAbsentLast (option_map (λ w. w.now) word.entry) result }
{
    match word {
        Some(word) => word == "true",
        None => false,
    }
}

/// What the words after `serve` ask for.
fn serve_of<'a>(matches: &ArgMatches<'a>) -> Option<Request<'a>>
    ensures some { IfSome result (λ request. IsServe (rows_of (found_of matches.now)) request) }
    ensures range { IfSome result (λ request. IsRequestInRange request) }
    ensures none { IfNone result (AsksNothing (IsServe (rows_of (found_of matches.now)))) }
{
    let (image, building) = files_of(matches)?;
    let port = count_of(matches.get_str("port"), MOST_PORT)?;
    let sessions = count_of(matches.get_str("sessions"), MOST_SESSIONS)?;
    let policy = policy_of(matches.get_str("policy"))?;
    let absent_last = is_there(matches.get_str("absent-last"));
    Some(Request::Serve {
        image,
        building,
        port: port as u16,
        sessions,
        policy: Dispatching {
            policy,
            absent_last,
        },
    })
}

/// What the words ask for, by the command among them.
fn found_in<'a>(matches: &ArgMatches<'a>) -> Option<Request<'a>>
    ensures some { IfSome result (λ request. IsFor (subcommand_rows_of matches.now) request) }
    ensures range { IfSome result (λ request. IsRequestInRange request) }
    ensures none { IfNone result (AsksNothing (IsFor (subcommand_rows_of matches.now))) }
{
    match matches.subcommand() {
        None => Some(Request::Replay),
        Some((name, matches)) => match name.as_bytes() {
            b"replay" => Some(Request::Replay),
            b"format" => format_of(matches),
            b"show" => show_of(matches),
            b"serve" => serve_of(matches),
            _ => None,
        },
    }
}

/// Whether the words ask for help, and for nothing else.
pub fn asks_for_help<S: AsStr>(words: &[S]) -> bool
    ensures { IsTrue result ↔ AsksForHelp (map S.text words.now) }
{
    match words {
        [word] => word.as_str() == "--help",
        _ => false,
    }
}

/// What the words after the program's name ask for; none where they are those of no command, or
/// ask for help.
pub fn request_of<'a, S: AsStr>(
    alloc: Global,
    words: &'a [S],
) -> Result<Option<Request<'a>>, NoMemory>
    ensures asked { IfOk result (λ found.
        IfSome found (λ request. AskForRequest (map S.text words.now) request)) }
    ensures range { IfOk result (λ found. IfSome found (λ request. IsRequestInRange request)) }
    ensures other { IfOk result (λ found.
        IfNone found (AsksNothing (AskForRequest (map S.text words.now)))) }
{
    match matches_of(alloc, words)? {
        Some(matches) => Ok(found_in(&matches)),
        None => Ok(None),
    }
}
