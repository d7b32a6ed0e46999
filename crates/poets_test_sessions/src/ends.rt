//! Contracts that are ended.

use crate::table::Line::{self, Row, Steps};

pub(crate) const ENDS: [Line; 6] = [
    Row("a contract is ended once"),
    Steps(
        "register a = Success => registered 1
show a => events 0, may end yes, ended no, residual Success
end a => ended now
end a => already ended
",
    ),
    Row("an ended contract takes no transmission"),
    Steps(
        "register c = transmit(a, b, r, t | kind(r) = Oil). Success + Success => registered 1
transmit c ann bob 1 Oil @2006-01-02 => recorded 1, may end yes
end c => ended now
show c => events 1, may end yes, ended yes, residual Success
transmit c ann bob 1 Oil @2006-01-01 => ended
register e = transmit(a, b, r, t | kind(r) = Oil). Success => registered 2
end e => not performed
show e => events 0, may end no, ended no, residual transmit(a, b, r, t | kind(r) = Oil). Success
",
    ),
    Row("contracts keep apart"),
    Steps(
        "end c => no contract c
register c = Success => registered 1
register d = transmit(a, b, r, t | true). Success => registered 2
transmit d ann bob 1 Oil @2006-01-01 => recorded 1, may end yes
show c => events 0, may end yes, ended no, residual Success
end c => ended now
show d => events 1, may end yes, ended no, residual Success
",
    ),
];
