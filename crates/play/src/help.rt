// What `--help` says: a page.
pub(crate) const HELP: &str = "\
usage: play [OPTION].. [FILE]

Plays a trace of page requests through an LRU cache, with a line for each
request and then, for each number of places, what the cache fetches and the
fewest fetches that anybody who knew the trace could do with. FILE is a trace;
without one, or with -, standard input is read.

  --text      the trace is text: page numbers with blanks between, # a comment
  --places K  the cache has K places, 1 to 4096 (as the trace says; text: 40)
  --report M  report on 1 to M places, 1 to 4096 (as the trace says; text: K)
  --pack      write the trace in bytes and play nothing; FILE is text
  --unpack    write the trace as text and play nothing; FILE is in bytes
  --summary   a paragraph in place of the line for each request
  --svg OUT   draw the report as a picture, and write it to the file OUT
  --help      this page

In bytes a trace has K and M in two bytes each and then four bytes for each
page, low byte first.

  printf '1 2 3 1 4 1 2 5 3 1' | bin/play --text --places 3 --summary
";
