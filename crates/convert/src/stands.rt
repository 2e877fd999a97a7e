// That the way there and back gives the same day: a theorem, which the check proves. Nothing runs.
ghost use Rattle.convert.specs.Claims.{InPieces, TextBack, BytesBack, HeaderBack, ThereAndBack, TextThere};

#[tactic(auto, using(crate::proofs::Backs::claims))]
pub fn there_and_back_stands()
    ensures pieces { InPieces }
    ensures text { TextBack }
    ensures bytes { BytesBack }
    ensures header { HeaderBack }
    ensures whole { ThereAndBack }
    ensures there { TextThere }
{}
