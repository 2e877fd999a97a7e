// Cases of this program.
use traces::{Case, LARGEST_PAGE, Requests};

// Short traces, and a row with more room. Those of report_days have other capacities, rooms and requests, which its stdout shows.
pub const EDGES: [Case; 4] = [
    Case {
        name: "no request",
        requests: Requests::Listed(&[]),
        m: 3,
        room: 6,
    },
    Case {
        name: "one request",
        requests: Requests::Listed(&[0]),
        m: 3,
        room: 6,
    },
    LARGEST_PAGE,
    Case {
        name: "a longer row",
        requests: Requests::Listed(&[5, 5, 6, 5]),
        m: 2,
        room: 9,
    },
];

// A page, a trace and a number of capacities that are all refused.
pub const BAD_THRICE: [Case; 1] = [Case {
    name: "a page, 4097 requests, no capacity",
    requests: Requests::Listed(&[0x1_0000_0000; 4097]),
    m: 0,
    room: 0,
}];
