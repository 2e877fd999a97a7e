// The settings of a challenge that are asked for.
ghost use Rattle.std.specs.Prelude.{◌≡◌, min};
ghost use Rattle.std.specs.Option.{unwrap_or};
ghost use Rattle.contest.specs.Asked.{settings_with};

use trace::{PLACES, PolicyKind, Settings};

// A number that is given, as large as it can be where it has no room in two bytes, and else the one that stands there.
fn given_over(given: Option<usize>, own: u16) -> u16
    ensures value { result ≡ min (unwrap_or given own) 65535 }
{
    given.map_or(own, |n| u16::try_from(n).unwrap_or(u16::MAX))
}

// The settings of a challenge where its numbers are given or not: what is not given is as in the settings of a file, or, where there is none,
// 40 places, as many for the schedule, ten rounds and LRU. The policy is a number, as this public parameter has been: it takes any number still.
pub fn settings_with(
    places: Option<usize>,
    rival: Option<usize>,
    rounds: Option<usize>,
    policy: Option<usize>,
    own: Option<Settings>,
) -> Settings
    ensures value { result ≡ settings_with places rival rounds policy own }
{
    let base = own.unwrap_or(Settings {
        capacity: PLACES,
        places: given_over(places, PLACES),
        rounds: 10,
        policy: u8::from(PolicyKind::Lru),
    });
    Settings {
        capacity: given_over(places, base.capacity),
        places: given_over(rival, base.places),
        rounds: given_over(rounds, base.rounds),
        policy: policy.map_or(base.policy, |n| u8::try_from(n).unwrap_or(u8::MAX)),
    }
}
