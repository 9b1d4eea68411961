// What is answered without a file.
ghost use Rattle.std.specs.Prelude.{◌≡◌};
ghost use Rattle.http_plain.specs.Served.{refusal, refusal_code};

use crate::status::{
    STATUS_BAD_REQUEST, STATUS_FIELDS_TOO_LARGE, STATUS_METHOD_NOT_ALLOWED, STATUS_NOT_FOUND,
};

/// Why a request is answered without a file.
#[derive(Clone, Copy, Debug, PartialEq, Eq)]
pub enum Refusal {
    /// 400: the request is no request head of at most 64 fields, has not one `Host`, or its target names no file.
    BadRequest,
    /// 404: no such file stands in the folder.
    NotFound,
    /// 405: the method is neither GET nor HEAD.
    MethodNotAllowed,
    /// 431: the first 65,536 bytes hold no end of a head.
    FieldsTooLarge,
}

impl Refusal {
    /// Its code.
    pub fn code(self) -> u16
        ensures { result ≡ refusal_code self }
    {
        match self {
            Refusal::BadRequest => STATUS_BAD_REQUEST,
            Refusal::NotFound => STATUS_NOT_FOUND,
            Refusal::MethodNotAllowed => STATUS_METHOD_NOT_ALLOWED,
            Refusal::FieldsTooLarge => STATUS_FIELDS_TOO_LARGE,
        }
    }

    /// The whole answer. It takes no memory.
    pub fn text(self) -> &'static [u8]
        ensures { result.now ≡ refusal self }
    {
        match self {
            Refusal::BadRequest =>
                b"HTTP/1.1 400 Bad Request\r\nContent-Length: 0\r\nConnection: close\r\n\r\n",
            Refusal::NotFound =>
                b"HTTP/1.1 404 Not Found\r\nContent-Length: 0\r\nConnection: close\r\n\r\n",
            Refusal::MethodNotAllowed =>
                b"HTTP/1.1 405 Method Not Allowed\r\nAllow: GET, HEAD\r\nContent-Length: 0\r\nConnection: close\r\n\r\n",
            Refusal::FieldsTooLarge =>
                b"HTTP/1.1 431 Request Header Fields Too Large\r\nContent-Length: 0\r\nConnection: close\r\n\r\n",
        }
    }
}
