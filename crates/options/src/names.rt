// The names of the programs and of their options.
ghost use Rattle.std.specs.Prelude.{◌≡◌, Some};
ghost use Rattle.options.specs.Names.{program_name, name_of, options_of, find};

use std::fmt;

#[derive(Clone, Copy, Debug, PartialEq, Eq)]
pub enum Program {
    Play,
    Challenge,
}

#[derive(Clone, Copy, Debug, PartialEq, Eq)]
pub enum Opt {
    // the argument that is no option: what is read
    File,
    Help,
    Text,
    Places,
    Report,
    Pack,
    Unpack,
    Summary,
    Svg,
    Rival,
    Rounds,
    Policy,
}

impl Program {
    fn name(self) -> &'static str
        ensures value { result.now ≡ program_name self }
    {
        match self {
            Program::Play => "play",
            Program::Challenge => "challenge",
        }
    }

    // The options that it takes.
    fn options(self) -> &'static [Opt]
        ensures value { result.now ≡ options_of self }
    {
        match self {
            Program::Play => &[
                Opt::Help,
                Opt::Text,
                Opt::Places,
                Opt::Report,
                Opt::Pack,
                Opt::Unpack,
                Opt::Summary,
                Opt::Svg,
            ],
            Program::Challenge => &[
                Opt::Help,
                Opt::Places,
                Opt::Rival,
                Opt::Rounds,
                Opt::Policy,
                Opt::Summary,
            ],
        }
    }

    // The option that the word names.
    pub(crate) fn option(self, word: &str) -> Option<Opt>
        ensures value { result ≡ find (options_of self) word.now }
    {
        self.options()
            .iter()
            .copied()
            .find(|option| option.name() == word)
    }
}

impl Opt {
    fn name(self) -> &'static str
        ensures value { result.now ≡ name_of self }
    {
        match self {
            Opt::File => "FILE",
            Opt::Help => "--help",
            Opt::Text => "--text",
            Opt::Places => "--places",
            Opt::Report => "--report",
            Opt::Pack => "--pack",
            Opt::Unpack => "--unpack",
            Opt::Summary => "--summary",
            Opt::Svg => "--svg",
            Opt::Rival => "--rival",
            Opt::Rounds => "--rounds",
            Opt::Policy => "--policy",
        }
    }
}

impl fmt::Display for Program {
    ghost output = { λ p. Some (program_name p) };

    fn fmt<W: fmt::Write>(&self, f: &mut fmt::Formatter<W>) -> fmt::Result {
        f.write_str(self.name())
    }
}

impl fmt::Display for Opt {
    ghost output = { λ o. Some (name_of o) };

    fn fmt<W: fmt::Write>(&self, f: &mut fmt::Formatter<W>) -> fmt::Result {
        f.write_str(self.name())
    }
}
