// The rules that the caches of a schedule keep.

// Whether a cache of h places may hold these pages after a request, where it held those before.
pub fn may_follow(pages: &[u64], before: &[u64], page: u64, h: usize) -> bool {
    let each = pages.iter().enumerate().all(|(i, x)| !pages[..i].contains(x)
        && (*x == page || before.contains(x)));
    pages.len() <= h && pages.contains(&page) && each
}
