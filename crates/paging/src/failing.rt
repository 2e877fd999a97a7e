// Rules that fail: as many fetches as one likes where a schedule with as many places has at most k + 1.
ghost use Rattle.paging.specs.Failing.{LeastRequestedFails, LastRequestedFails, DirectMappedFails};

// The least requested goes.
pub fn least_requested_fails_stands()
    ensures { LeastRequestedFails }
{}

// The page requested last goes.
pub fn last_requested_fails_stands()
    ensures { LastRequestedFails }
{}

// A page stands at its number modulo k and nowhere else.
pub fn direct_mapped_fails_stands()
    ensures { DirectMappedFails }
{}
