// What holds of refused texts, with no code.
ghost use Rattle.audit_list.specs.Text.{OneRefusal};

/// Bytes are refused at one line at most.
pub fn bytes_are_refused_at_one_line()
    ensures { OneRefusal }
{}
