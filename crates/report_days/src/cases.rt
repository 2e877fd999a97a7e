// Cases of this program.
use traces::{Case, LARGEST_PAGE, Requests};

// Short traces, and a row with more room. Those of curve_days have other capacities, rooms and requests, which its stdout shows.
pub const EDGES: [Case; 4] = [
    Case {
        name: "no request",
        requests: Requests::Listed(&[]),
        m: 2,
        room: 4,
    },
    Case {
        name: "one request",
        requests: Requests::Listed(&[0]),
        m: 2,
        room: 4,
    },
    LARGEST_PAGE,
    Case {
        name: "a longer row",
        requests: Requests::Listed(&[5, 6, 5, 7, 6]),
        m: 2,
        room: 9,
    },
];
