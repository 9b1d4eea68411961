// What holds of every link over HTTP.
ghost use Rattle.http_link.specs.Laws.{AnswersAreHeard, HttpIsFolder};

/// What a link over HTTP answers is what the answer that it heard gives, and nothing else.
pub fn answers_are_heard()
    ensures { AnswersAreHeard }
{}

/// Where a host of a folder's files answers 200 to the request of a link over HTTP, for a target of visible ASCII, the
/// link gives the bytes that a link to the folder gives.
pub fn http_is_folder()
    ensures { HttpIsFolder }
{}
