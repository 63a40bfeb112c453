//! The program `liftd`: it carries out scripts, makes journals on files, shows what they hold, and
//! serves a lift group on a port.
#![tactic(auto)]

use lift_base::text::Watched;
use lift_disk::SystemOpener;
use lift_program::{Host, Invocation, Openers, no_words, start};
use std::process::ExitCode;
use std::{env, io};

/// The words after the program's name.
fn words_given(rt: &HostRuntime) -> io::Result<Vec<String>> {
    let words = env::args(rt)?.skip(1).collect(rt.alloc())?;
    Ok(words)
}

/// What the program opens its building, its image and its socket by.
fn openers(rt: &HostRuntime) -> Openers<Host<'_>, SystemOpener<'_>, Host<'_>> {
    Openers {
        building: Host::new(rt),
        image: SystemOpener::new(rt),
        socket: Host::new(rt),
    }
}

fn main(rt: HostRuntime) -> ExitCode {
    let mut output = Watched::new(rt.stdout());
    let mut errors = Watched::new(rt.stderr());
    let status = match words_given(&rt) {
        Ok(words) => {
            let (end, _errors, _input) = start(
                &rt,
                Invocation::new(openers(&rt), words.as_slice(), rt.stdin()),
                rt.alloc(),
                &mut output,
                errors,
            );
            end.status()
        }
        Err(error) => no_words(error, &mut errors).status(),
    };
    ExitCode::from(status)
}
