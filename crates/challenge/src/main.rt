// Challenges a policy: requests that beat it, with what it did at each, and what a schedule that knew them would have fetched.
#![tactic(auto)]

mod faults;
mod help;
mod input;

use console::Asked;
use contest::{contest_told, settings_with};
use faults::{Fault, Told};
use help::HELP;
use input::read_all;
use options::Program;
use std::fs;
use std::process::ExitCode;
use trace::Settings;

fn main(rt: HostRuntime) -> ExitCode {
    let asked = match console::ask(&rt, Program::Challenge) {
        Ok(asked) => asked,
        Err(status) => return status,
    };
    let name = asked.file().unwrap_or("standard input");
    let ended = challenge(&rt, &asked).map_err(|fault| Told { name, fault });
    console::status(&rt, ended)
}

// Does what is asked.
fn challenge(rt: &HostRuntime, asked: &Asked) -> Result<(), Fault> {
    let given = asked.given;
    if given.help {
        return rt.print(HELP).map_err(Fault::Output);
    }
    let own = own_settings(rt, asked)?;
    let policy = given.policy.map(|kind| usize::from(u8::from(kind)));
    let settings = settings_with(given.places, given.rival, given.rounds, policy, own);
    contest_told(rt.alloc(), settings, given.detail(), &mut rt.stdout()).map_err(Fault::Contest)
}

// The settings of the file that is named, or of standard input where no options say what to do.
fn own_settings(rt: &HostRuntime, asked: &Asked) -> Result<Option<Settings>, Fault> {
    if let Some(path) = asked.file() {
        let mut file = fs::open(rt, path).map_err(Fault::Input)?;
        return Ok(Some(read_all(&mut file)?));
    }
    let given = asked.given;
    if given.file.is_none()
        && (given.places.is_some()
            || given.rival.is_some()
            || given.rounds.is_some()
            || given.policy.is_some())
    {
        return Ok(None);
    }
    Ok(Some(read_all(&mut rt.stdin())?))
}
