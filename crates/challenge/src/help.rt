// What `--help` says: a page.
pub(crate) const HELP: &str = "\
usage: challenge [OPTION].. [FILE]

Challenges a policy that keeps a cache: requests are chosen against it, each of
which it has to fetch, and a schedule that knows them is kept beside it. There
is a line for each request, and at the end how many were asked, how many the
policy (keeper) fetched and how many the schedule (rival).

  --places K  the policy has K places, 1 to 4096 (40)
  --rival H   the schedule has H places, 1 to K (K)
  --rounds N  how many rounds of requests, 0 to 65535 (10)
  --policy P  lru; fifo, first come first gone; lfu, the least requested (lru)
  --summary   the last line alone
  --help      this page

With none of the first four, or with FILE, the settings are read from FILE or
standard input: K, H and N in two bytes each, low byte first, and one byte for
the policy, 0, 1 or 2. Options count for more than FILE.

  bin/challenge --places 3 --rival 2 --rounds 4 --policy fifo
";
