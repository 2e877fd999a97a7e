// What a cache did at a request, by what it shows before and after.
ghost use Rattle.std.specs.Prelude.{◌≡◌, ◌+◌, ◌<◌, ◌^◌, ◌∷◌, length};
ghost use Rattle.paging.specs.Lists.{has};
ghost use Rattle.telling.specs.Told.{gone, said};

use trace::Line;

// Whether a page is one of these. Most caches have one that stays where it was, at `at`, or one place further back, so it is looked for there
// first.
#[tactic(auto, using(paging::proofs::Appends::has_at))]
fn stays(pages: &[u64], page: u64, at: usize) -> bool
    requires inside { at + 1 < 2 ^ 64 }
    ensures value { result ≡ has pages.now page }
{
    pages.get(at) == Some(&page) || pages.get(at + 1) == Some(&page) || rows::holds(pages, page)
}

// The first page shown before that is not shown after.
fn missing(before: &[u64], after: &[u64]) -> Option<u64>
    ensures value { result ≡ gone before.now after.now }
{
    before
        .iter()
        .enumerate()
        .find(|(i, page)| !stays(after, **page, *i))
        .map(|(_, page)| *page)
}

// The line of a request for a page.
pub fn tell(page: u64, before: &[u64], after: &[u64]) -> Line
    ensures value { result ≡ said page before.now after.now }
{
    if rows::holds(before, page) {
        return Line::Here(page);
    }
    match missing(before, after) {
        None => Line::Fetched(page),
        Some(gone) => Line::FetchedFor { page, gone },
    }
}
