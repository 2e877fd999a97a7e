// The seven bytes that say which policy is challenged, and how long.
ghost use Rattle.std.specs.Prelude.{◌≡◌};
ghost use Rattle.trace.specs.Settings.{settings_of};

#[derive(Clone, Copy, Debug, PartialEq, Eq)]
pub struct Settings {
    // how many places the policy has
    pub capacity: u16,
    // how many places the schedule beside it has
    pub places: u16,
    // how many rounds are played
    pub rounds: u16,
    // the policy's number as it was read, which may be no `PolicyKind`'s: an option may stand over it, and it is refused after all options
    pub policy: u8,
}

// The settings that the bytes are, where they are seven. An `Option`, since how many bytes there are is all that can be wrong, and the caller
// knows it.
pub fn read_settings(bytes: &[u8]) -> Option<Settings>
    ensures value { result ≡ settings_of bytes.now }
{
    let [a, b, c, d, e, f, policy] = bytes else {
        return None;
    };
    Some(Settings {
        capacity: u16::from_le_bytes([*a, *b]),
        places: u16::from_le_bytes([*c, *d]),
        rounds: u16::from_le_bytes([*e, *f]),
        policy: *policy,
    })
}
