// What no clause says: that calls succeed, and worked values.
use crate::made::{bytes, failing, same};
use connections::{MemWire, Wire};
use http_plain::{Begun, Demand, ExchangeFault, RequestFault, ask_wire, demand_in, read_request};
use outside::Failed;
use small_types::{List, Target, Text};
use std::alloc::{AllocError, Global};
use std::process::Abort;
use std::test::Fail;

// What a request asks for, in words.
fn shown_demand(alloc: Global, request: &[u8]) -> Result<String, AllocError> {
    match demand_in(alloc, request)? {
        Demand::Silent => String::from_str(alloc, "silent"),
        Demand::Refused { why } => {
            let code = why.code();
            format!(in alloc; "{code}")
        }
        Demand::File { name, whole } => {
            let name = name.as_str();
            format!(in alloc; "{name} {whole}")
        }
    }
}

// So many copies of a text between two others.
fn repeated(
    alloc: Global,
    start: &[u8],
    text: &[u8],
    count: usize,
    end: &[u8],
) -> Result<Vec<u8>, AllocError> {
    let mut made = start.to_vec(alloc)?;
    for _ in 0..count {
        made.extend_from_slice(text)?;
    }
    made.extend_from_slice(end)?;
    Ok(made)
}

// Whether a text is that one.
fn is_text(shown: &String, wanted: &str) -> bool {
    same(shown.as_bytes(), wanted.as_bytes())
}

// Requests, and what they ask for.
const REQUESTS: &[(&str, &str)] = &[
    ("", "silent"),
    ("G", "400"),
    (
        "GET /App.application HTTP/1.1\r\nHost: h\r\n\r\n",
        "App.application true",
    ),
    (
        "HEAD /App.application HTTP/1.1\r\nhOST: h\r\n\r\nmore",
        "App.application false",
    ),
    ("POST /App.application HTTP/1.1\r\nHost: h\r\n\r\n", "405"),
    ("get /App.application HTTP/1.1\r\nHost: h\r\n\r\n", "405"),
    ("GET /a/b?c=/../ HTTP/1.1\r\nHost: h\r\n\r\n", "a/b true"),
    ("GET /%41pp%5Cx HTTP/1.0\r\n\r\n", "App/x true"),
    ("GET /../x HTTP/1.1\r\nHost: h\r\n\r\n", "400"),
    ("GET / HTTP/1.1\r\nHost: h\r\n\r\n", "400"),
    ("GET a HTTP/1.1\r\nHost: h\r\n\r\n", "400"),
    ("GET /a HTTP/1.1\r\n\r\n", "400"),
    ("POST /a HTTP/1.1\r\nHost: h\r\nHost: h\r\n\r\n", "400"),
    ("GET /a HTTP/1.1\nHost: h\n\n", "400"),
    ("GET /a HTTP/1.1\nHost: h\n\nx\r\n\r\n", "400"),
];

#[test]
fn requests_ask(rt: HostRuntime) -> Result<(), Fail> {
    for (request, wanted) in REQUESTS {
        let shown = shown_demand(rt.alloc(), request.as_bytes())?;
        assert!(rt; is_text(&shown, wanted), "{request}");
    }
    Ok(())
}

// So many copies of a text between two others, and what that comes to.
#[derive(Drop)]
struct Long {
    start: &'static [u8],
    text: &'static [u8],
    count: usize,
    end: &'static [u8],
    wanted: &'static str,
}

const LONG_REQUESTS: &[Long] = &[
    Long {
        start: b"GET /a HTTP/1.0\r\n",
        text: b"x: y\r\n",
        count: 64,
        end: b"\r\n",
        wanted: "a true",
    },
    Long {
        start: b"GET /a HTTP/1.0\r\n",
        text: b"x: y\r\n",
        count: 65,
        end: b"\r\n",
        wanted: "400",
    },
    // 65,536 bytes.
    Long {
        start: b"GET /a HTTP/1.0\r\nx:",
        text: b"y",
        count: 65_513,
        end: b"\r\n\r\n",
        wanted: "a true",
    },
    Long {
        start: b"GET /a HTTP/1.0\r\nx:",
        text: b"y",
        count: 65_514,
        end: b"\r\n\r\n",
        wanted: "431",
    },
    Long {
        start: b"",
        text: b"y",
        count: 65_535,
        end: b"",
        wanted: "400",
    },
];

fn asks(alloc: Global, case: &Long) -> Result<bool, AllocError> {
    let request = repeated(alloc, case.start, case.text, case.count, case.end)?;
    let shown = shown_demand(alloc, &request)?;
    Ok(is_text(&shown, case.wanted))
}

#[test]
fn long_requests_ask(rt: HostRuntime) -> Result<(), Fail> {
    for (number, case) in LONG_REQUESTS.iter().enumerate() {
        assert!(rt; asks(rt.alloc(), case)?, "case {number}");
    }
    Ok(())
}

// What the head of a request says, in words.
fn shown_request(alloc: Global, bytes: &[u8]) -> Result<String, AllocError> {
    let asked = match read_request(alloc, bytes) {
        Ok(asked) => asked,
        Err(RequestFault::Malformed) => return String::from_str(alloc, "malformed"),
        Err(RequestFault::Memory) => return Err(AllocError),
    };
    let method = asked.method.as_str();
    let target = asked.target.as_str();
    let version = asked.version;
    let hosts = asked.hosts;
    format!(in alloc; "{method} {target} {version} {hosts}")
}

// Requests, and what their heads say.
const HEADS: &[(&str, &str)] = &[
    (
        "GET /a?b HTTP/1.1\r\nhost: h\r\nA: c\r\nHOST: i\r\n\r\n",
        "GET /a?b 1 2",
    ),
    ("A * HTTP/1.0\r\n\r\n", "A * 0 0"),
    ("PUT /\u{e9} HTTP/1.1\r\nHost:\r\n\r\n", "PUT /\u{e9} 1 1"),
    ("A * HTTP/1.0\r\n\r\nx", "malformed"),
    ("A * HTTP/1.0\r\n", "malformed"),
    ("A * HTTP/2.0\r\n\r\n", "malformed"),
    ("A * HTTP/1.1\r\nHost : h\r\n\r\n", "malformed"),
];

#[test]
fn requests_are_read(rt: HostRuntime) -> Result<(), Fail> {
    for (request, wanted) in HEADS {
        let shown = shown_request(rt.alloc(), request.as_bytes())?;
        assert!(rt; is_text(&shown, wanted), "{request}");
    }
    Ok(())
}

// A wire that receives and sends one byte at a time, and counts what it was asked.
#[derive(Drop)]
struct OneByte {
    wire: MemWire,
}

impl Wire for OneByte {
    ghost use Rattle.std.specs.Prelude.{ℕ, List, [], None};
    ghost use Rattle.connections.specs.MemWire.{wire_faults};

    ghost tells = { ⊥ };

    ghost over = { λ _. [] };

    ghost present = { λ _. None };

    ghost count = { λ w. wire_faults w.wire };

    fn connect(&mut self, host: &Text, port: u16) -> Result<(), Failed> {
        self.wire.connect(host, port)
    }

    fn receive(&mut self, buf: &mut [u8]) -> Result<usize, Failed> {
        self.wire.receive(&mut buf[..1])
    }

    fn send(&mut self, bytes: &[u8]) -> Result<usize, Failed> {
        self.wire.send(&bytes[..1])
    }

    fn faults(&self) -> u64 {
        self.wire.faults()
    }
}

// A target on a host.
fn target(alloc: Global, port: u16) -> Result<Target, AllocError> {
    Ok(Target {
        host: Text::from_string(String::from_str(alloc, "h.example")?),
        port,
        path: Text::from_string(String::from_str(alloc, "/a?b")?),
    })
}

// What an answer gave, in words.
fn shown_begun(alloc: Global, begun: Begun) -> Result<String, AllocError> {
    let length = begun.length;
    let early = String::from_utf8(begun.early.into_vec()).unwrap_or(String::new(alloc));
    let early = early.as_str();
    format!(in alloc; "{length} {early}")
}

// What an exchange comes to over a wire, in words.
fn shown_exchange<W: Wire>(alloc: Global, wire: &mut W, port: u16) -> Result<String, AllocError> {
    let target = target(alloc, port)?;
    match ask_wire(alloc, wire, &target) {
        Ok(begun) => shown_begun(alloc, begun),
        Err(ExchangeFault::Memory) => Err(AllocError),
        Err(fault) => format!(in alloc; "{fault:?}"),
    }
}

// A wire of one answer, one of whose calls fails.
fn wire_of(alloc: Global, answer: &[u8], number: u64) -> Result<MemWire, AllocError> {
    let answers = List::from_vec(vec![in alloc; bytes(alloc, answer)?]?);
    Ok(MemWire::new(alloc, answers, failing(alloc, number)?))
}

// What an answer comes to whole.
fn at_once(alloc: Global, answer: &[u8]) -> Result<String, AllocError> {
    let mut wire = wire_of(alloc, answer, 0)?;
    shown_exchange(alloc, &mut wire, 80)
}

// What an answer comes to byte by byte.
fn slowly(alloc: Global, answer: &[u8]) -> Result<String, AllocError> {
    let mut wire = OneByte {
        wire: wire_of(alloc, answer, 0)?,
    };
    shown_exchange(alloc, &mut wire, 80)
}

// Answers, and what they come to whole and byte by byte.
const ANSWERS: &[(&str, &str, &str)] = &[
    (
        "HTTP/1.1 200 OK\r\nContent-Length: 3\r\n\r\nab",
        "3 ab",
        "3 ",
    ),
    (
        "HTTP/1.0 200\r\ncontent-length: 03 \r\nCONTENT-LENGTH: 3\r\n\r\nabcd",
        "3 abc",
        "3 ",
    ),
    (
        "HTTP/1.1 200 OK\r\nContent-Length: 3\r\nContent-Length: 4\r\n\r\nabcd",
        "Malformed",
        "Malformed",
    ),
    (
        "HTTP/1.1 404 No\r\nContent-Length: 3\r\nContent-Length: 4\r\n\r\n",
        "Malformed",
        "Malformed",
    ),
    (
        "HTTP/1.1 200 OK\r\nContent-Length: 00000000000000000003\r\n\r\n",
        "Malformed",
        "Malformed",
    ),
    (
        "HTTP/1.1 200 OK\r\nContent-Length: 9999999999999999999\r\n\r\nx",
        "9999999999999999999 x",
        "9999999999999999999 ",
    ),
    (
        "HTTP/1.1 200 OK\r\nContent-Length: +3\r\n\r\n",
        "Malformed",
        "Malformed",
    ),
    (
        "HTTP/1.1 404 Not Found\r\nTransfer-Encoding: chunked\r\n\r\n",
        "Missing",
        "Missing",
    ),
    (
        "HTTP/1.1 206 Partial\r\nContent-Length: 3\r\n\r\nabc",
        "Status { code: 206 }",
        "Status { code: 206 }",
    ),
    (
        "HTTP/1.1 200 OK\r\nContent-Encoding: gzip\r\nContent-Length: 3\r\n\r\nabc",
        "Encoded",
        "Encoded",
    ),
    (
        "HTTP/1.1 200 OK\r\ncontent-encoding: identity\r\nContent-Length: 0\r\n\r\nabc",
        "0 ",
        "0 ",
    ),
    (
        "HTTP/1.1 200 OK\r\ntransfer-encoding: chunked\r\nContent-Length: 3\r\n\r\n3\r\nabc\r\n",
        "Encoded",
        "Encoded",
    ),
    ("HTTP/1.1 200 OK\r\n\r\nabc", "NoLength", "NoLength"),
    ("HTTP/1.1 200 OK\r\nContent-Length: 3\r\n", "Cut", "Cut"),
    ("", "Cut", "Cut"),
    (
        "\r\n\r\nHTTP/1.1 200 OK\r\nContent-Length: 3\r\n\r\n",
        "Malformed",
        "Malformed",
    ),
    (
        "HTTP/1.1 200 OK\nContent-Length: 3\n\nab\r\n\r\n",
        "Malformed",
        "Malformed",
    ),
];

#[test]
fn answers_give(rt: HostRuntime) -> Result<(), Fail> {
    for (answer, wanted, _) in ANSWERS {
        let shown = at_once(rt.alloc(), answer.as_bytes())?;
        assert!(rt; is_text(&shown, wanted), "{answer}");
    }
    Ok(())
}

#[test]
fn answers_give_byte_by_byte(rt: HostRuntime) -> Result<(), Fail> {
    for (answer, _, wanted) in ANSWERS {
        let shown = slowly(rt.alloc(), answer.as_bytes())?;
        assert!(rt; is_text(&shown, wanted), "{answer}");
    }
    Ok(())
}

const LONG_ANSWERS: &[Long] = &[
    Long {
        start: b"HTTP/1.1 200 OK\r\nContent-Length: 3\r\n",
        text: b"x: y\r\n",
        count: 63,
        end: b"\r\nab",
        wanted: "3 ab",
    },
    Long {
        start: b"HTTP/1.1 200 OK\r\nContent-Length: 3\r\n",
        text: b"x: y\r\n",
        count: 64,
        end: b"\r\nab",
        wanted: "Malformed",
    },
    Long {
        start: b"",
        text: b"\r\n",
        count: 32_768,
        end: b"\r\n\r\n",
        wanted: "Malformed",
    },
    Long {
        start: b"",
        text: b"y",
        count: 65_536,
        end: b"\r\n\r\n",
        wanted: "HeadTooLong",
    },
    Long {
        start: b"",
        text: b"y",
        count: 65_535,
        end: b"",
        wanted: "Cut",
    },
];

fn gives(alloc: Global, case: &Long) -> Result<bool, AllocError> {
    let answer = repeated(alloc, case.start, case.text, case.count, case.end)?;
    let shown = at_once(alloc, &answer)?;
    Ok(is_text(&shown, case.wanted))
}

#[test]
fn long_answers_give(rt: HostRuntime) -> Result<(), Fail> {
    for (number, case) in LONG_ANSWERS.iter().enumerate() {
        assert!(rt; gives(rt.alloc(), case)?, "case {number}");
    }
    Ok(())
}

// An exchange with that port over a wire of which one call fails: what it comes to, the count of faults by then,
// and what was sent.
#[derive(Drop)]
struct Failing {
    port: u16,
    failing: u64,
    wanted: &'static str,
    faults: u64,
    sent: &'static str,
}

const ASKED: &str =
    "GET /a?b HTTP/1.1\r\nHost: h.example\r\nAccept-Encoding: identity\r\nConnection: close\r\n\r\n";

const ASKED_ELSEWHERE: &str =
    "GET /a?b HTTP/1.1\r\nHost: h.example:8080\r\nAccept-Encoding: identity\r\nConnection: close\r\n\r\n";

const FAILING: &[Failing] = &[
    Failing {
        port: 80,
        failing: 0,
        wanted: "3 abc",
        faults: 0,
        sent: ASKED,
    },
    Failing {
        port: 8080,
        failing: 0,
        wanted: "3 abc",
        faults: 0,
        sent: ASKED_ELSEWHERE,
    },
    Failing {
        port: 80,
        failing: 1,
        wanted: "ReadFault",
        faults: 1,
        sent: "",
    },
    Failing {
        port: 80,
        failing: 2,
        wanted: "WriteFault",
        faults: 1,
        sent: "",
    },
    Failing {
        port: 80,
        failing: 3,
        wanted: "ReadFault",
        faults: 1,
        sent: ASKED,
    },
];

// Whether that was sent, over all connections.
fn was_sent(alloc: Global, wire: &MemWire, wanted: &str) -> Result<bool, AllocError> {
    let mut sent = Vec::new(alloc);
    for text in wire.sent().as_slice() {
        sent.extend_from_slice(text.as_slice())?;
    }
    Ok(same(&sent, wanted.as_bytes()))
}

fn assert_failing(
    rt: &(impl Abort + AllocGlobal),
    number: usize,
    case: &Failing,
) -> Result<(), AllocError> {
    let alloc = rt.alloc();
    let answer = b"HTTP/1.1 200 OK\r\nContent-Length: 3\r\n\r\nabc";
    let mut wire = wire_of(alloc, answer, case.failing)?;
    let shown = shown_exchange(alloc, &mut wire, case.port)?;
    assert!(rt; is_text(&shown, case.wanted), "case {number}");
    assert!(rt; wire.faults() == case.faults, "case {number}: faults");
    assert!(rt; was_sent(alloc, &wire, case.sent)?, "case {number}: sent");
    Ok(())
}

#[test]
fn wires_fail(rt: HostRuntime) -> Result<(), Fail> {
    for (number, case) in FAILING.iter().enumerate() {
        assert_failing(&rt, number, case)?;
    }
    Ok(())
}
