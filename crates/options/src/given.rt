// The options that are given, with their values.
ghost use Rattle.std.specs.Prelude.{◌≡◌, cond, Some, None};

use crate::names::Opt;
use crate::values::{MOST_PLACES, MOST_ROUNDS, Wrong, names_file, number_within};
use trace::{Detail, PolicyKind};

#[derive(Clone, Copy, Debug, Default, PartialEq, Eq)]
pub struct Given {
    // the place of the argument that names what is read: no `&str`, since the clause of `read` says by value what was given
    pub file: Option<usize>,
    pub help: bool,
    // this, `pack` and `unpack` are flags as they are given, each by its name in the definitions; what they come to together is play's `Task`
    pub text: bool,
    pub places: Option<usize>,
    pub report: Option<usize>,
    pub pack: bool,
    pub unpack: bool,
    pub summary: bool,
    // the place of the argument that names the picture, likewise
    pub svg: Option<usize>,
    pub rival: Option<usize>,
    pub rounds: Option<usize>,
    pub policy: Option<PolicyKind>,
}

// The options of which one is in the other's way.
const APART: [(Opt, Opt); 6] = [
    (Opt::Unpack, Opt::Pack),
    (Opt::Unpack, Opt::Text),
    (Opt::Unpack, Opt::Summary),
    (Opt::Unpack, Opt::Svg),
    (Opt::Pack, Opt::Summary),
    (Opt::Pack, Opt::Svg),
];

impl Given {
    ghost use Rattle.std.specs.List.{find};
    ghost use Rattle.options.specs.Arguments.{has, detail, flag, switched, with_value, both, apart, settled};

    // Whether the option was given.
    pub fn has(&self, option: Opt) -> bool
        ensures value { result ≡ has self.now option }
    {
        match option {
            Opt::File => self.file.is_some(),
            Opt::Help => self.help,
            Opt::Text => self.text,
            Opt::Places => self.places.is_some(),
            Opt::Report => self.report.is_some(),
            Opt::Pack => self.pack,
            Opt::Unpack => self.unpack,
            Opt::Summary => self.summary,
            Opt::Svg => self.svg.is_some(),
            Opt::Rival => self.rival.is_some(),
            Opt::Rounds => self.rounds.is_some(),
            Opt::Policy => self.policy.is_some(),
        }
    }

    // How much is said.
    pub fn detail(&self) -> Detail
        ensures value { result ≡ detail self.now }
    {
        if self.summary {
            Detail::Summary
        } else {
            Detail::Requests
        }
    }

    // With an option that takes no value; none where it takes one.
    pub(crate) fn switched(self, option: Opt) -> Option<Given>
        ensures value { result ≡ cond (flag option) (Some (switched option self)) None }
    {
        let mut given = self;
        match option {
            // no word names it
            Opt::File => {}
            Opt::Help => given.help = true,
            Opt::Text => given.text = true,
            Opt::Pack => given.pack = true,
            Opt::Unpack => given.unpack = true,
            Opt::Summary => given.summary = true,
            _ => return None,
        }
        Some(given)
    }

    // With the value that the option takes from the word, which is argument i.
    pub(crate) fn with_value(self, option: Opt, i: usize, word: &str) -> Option<Given>
        ensures value { result ≡ with_value option i word.now self }
    {
        let mut given = self;
        match option {
            Opt::Places => given.places = Some(number_within(1, MOST_PLACES, word)?),
            Opt::Report => given.report = Some(number_within(1, MOST_PLACES, word)?),
            Opt::Rival => given.rival = Some(number_within(1, MOST_PLACES, word)?),
            Opt::Rounds => given.rounds = Some(number_within(0, MOST_ROUNDS, word)?),
            Opt::Policy => given.policy = Some(word.parse().ok()?),
            Opt::Svg if names_file(word) => given.svg = Some(i),
            _ => return None,
        }
        Some(given)
    }

    // The first two options that do not go together.
    fn clash(&self) -> Option<(Opt, Opt)>
        ensures value { result ≡ find (both self.now) apart }
    {
        APART
            .iter()
            .copied()
            .find(|(a, b)| self.has(*a) && self.has(*b))
    }

    // What was given, or two options that do not go together.
    pub(crate) fn settled(self) -> Result<Given, Wrong>
        ensures value { result ≡ settled self }
    {
        match self.clash() {
            Some((a, b)) => Err(Wrong::Together(a, b)),
            None => Ok(self),
        }
    }
}
