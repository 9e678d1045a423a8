//! Bytes and what stands at their front, with the values of RFC 9112 and the limits.
use http_wire::{Next, NoMemory, next_request};
use std::alloc::Global;
use std::test::Fail;

/// Bytes, and what stands at their front.
struct FrontRow {
    bytes: &'static [u8],
    front: Front,
}

/// What stands at the front of bytes, in short.
#[derive(Clone, Copy, Debug, PartialEq, Eq)]
enum Front {
    /// A whole request of so many bytes.
    Whole(usize),
    /// A part of a request.
    Part,
    /// What is refused with this status.
    Refused(u16),
}

/// Line ends, the version, lengths, and fields of similar names.
const FRONTS: [FrontRow; 14] = [
    FrontRow {
        bytes: b"GET / HTTP/1.1\r\n\r\nGET",
        front: Front::Whole(18),
    },
    FrontRow {
        bytes: b"GET / HTTP/1.1\n\n",
        front: Front::Whole(16),
    },
    FrontRow {
        bytes: b"\r\nGET / HTTP/1.1\r\n\r\n",
        front: Front::Whole(20),
    },
    FrontRow {
        bytes: b"GET / HTTP/1.1\r\n\r",
        front: Front::Part,
    },
    FrontRow {
        bytes: b"\r\n\r\nGET / HTTP/1.1\r\n\r\n",
        front: Front::Refused(400),
    },
    FrontRow {
        bytes: b"GET / HTTP/1.2\r\n\r\n",
        front: Front::Refused(400),
    },
    FrontRow {
        bytes: b"GET / HTTP/1.1\r\nContent-Length:\r\n\r\n",
        front: Front::Refused(400),
    },
    FrontRow {
        bytes: b"GET / HTTP/1.1\r\nContent-Length: +5\r\n\r\n",
        front: Front::Refused(400),
    },
    FrontRow {
        bytes: b"GET / HTTP/1.1\r\nTransfer-Encoding: x\r\nContent-Length: 999999\r\n\r\n",
        front: Front::Refused(400),
    },
    FrontRow {
        bytes: b"GET / HTTP/1.1\r\nContent-Length: 99999999999999999999\r\n\r\n",
        front: Front::Refused(413),
    },
    FrontRow {
        bytes: b"GET / HTTP/1.1\r\nContent-Length: 262144\r\n\r\n",
        front: Front::Part,
    },
    FrontRow {
        bytes: b"GET / HTTP/1.1\r\nContent-Length: 00002\r\n\r\nab",
        front: Front::Whole(43),
    },
    FrontRow {
        bytes: b"GET / HTTP/1.1\r\nContent-Lengths: 7\r\n\r\n",
        front: Front::Whole(38),
    },
    FrontRow {
        bytes: b"GET / HTTP/1.1\r\nTransfer-Encodings: x\r\n\r\n",
        front: Front::Whole(41),
    },
];

/// What stands at the front of the bytes.
fn front_of(alloc: Global, bytes: &[u8]) -> Result<Front, NoMemory> {
    match next_request(alloc, bytes)? {
        Next::Whole(_request, n) => Ok(Front::Whole(n)),
        Next::Partial => Ok(Front::Part),
        Next::Refused(status) => Ok(Front::Refused(status)),
    }
}

#[test]
fn fronts_are_those_of_the_rules(rt: HostRuntime) -> Result<(), Fail> {
    for row in &FRONTS {
        assert_eq!(rt; front_of(rt.alloc(), row.bytes)?, row.front);
    }
    Ok(())
}
