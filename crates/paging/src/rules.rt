// Rules as online policies.
ghost use Rattle.paging.specs.Rules.{RulesProper};

// LRU, first come first gone, and the rules that fail keep a cache of k places, with no page twice.
pub fn rules_proper_stands()
    ensures { RulesProper }
{}
