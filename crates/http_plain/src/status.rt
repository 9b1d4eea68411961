// The statuses of answers, each once.

/// The file is found. Its bytes follow the head for GET.
pub const STATUS_OK: u16 = 200;

/// The request is no request head, has not one `Host`, or its target names no file.
pub const STATUS_BAD_REQUEST: u16 = 400;

/// No such file stands in the folder.
pub const STATUS_NOT_FOUND: u16 = 404;

/// The method is neither GET nor HEAD.
pub const STATUS_METHOD_NOT_ALLOWED: u16 = 405;

/// The first bytes of the request, as many as a head may have, hold no end of a head.
pub const STATUS_FIELDS_TOO_LARGE: u16 = 431;
