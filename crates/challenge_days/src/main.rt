// Challenges of many settings, each against the three policies: what is written is held to the file stdout.
#![tactic(auto)]

use contest::contest;
use std::io;
use std::process::ExitCode;
use trace::{PolicyKind, Settings};

// k, h and how many rounds: a row of three numbers for each day, which one loop takes apart, since names in each row would only repeat these.
const DAYS: [(u16, u16, u16); 8] = [
    (3, 3, 9),
    (1, 1, 4),
    (5, 2, 3),
    (9, 6, 4),
    (4, 3, 0),
    (3, 0, 1),
    (3, 4, 1),
    (4097, 1, 1),
];

// What is said of a challenge, a refusal too, is told on standard output, so that nothing is told on standard error: a fault is the status
// alone.
fn main(rt: HostRuntime) -> ExitCode {
    match challenge_all(&rt) {
        Ok(()) => ExitCode::SUCCESS,
        Err(_) => ExitCode::FAILURE,
    }
}

// Every setting, against each policy.
fn challenge_all(rt: &HostRuntime) -> anyhow::Result<()> {
    for (capacity, places, rounds) in DAYS {
        for kind in PolicyKind::ALL {
            let settings = Settings {
                capacity,
                places,
                rounds,
                policy: u8::from(kind),
            };
            head(rt, settings)?;
            contest(rt.alloc(), settings, &mut rt.stdout())?;
        }
    }
    Ok(())
}

// What is challenged.
fn head(rt: &HostRuntime, settings: Settings) -> io::Result<()> {
    let Settings {
        capacity: k,
        places: h,
        rounds,
        policy,
    } = settings;
    println!(rt; "{k} places, {h} beside it, {rounds} rounds, policy {policy}:")
}
