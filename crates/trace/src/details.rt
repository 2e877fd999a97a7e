// How much is told of requests.
#[derive(Clone, Copy, Debug, PartialEq, Eq)]
pub enum Detail {
    // a line for each
    Requests,
    // what it comes to alone
    Summary,
}
