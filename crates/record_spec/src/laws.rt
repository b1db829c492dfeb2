//! The laws of records: each function is empty, and its contract is the law.
ghost use Rattle.record_spec.specs.RecordLaws.{ComesAlone, FrontsAreTrue, FrontsGoOn, OneLine, OneWay, RefutedExactly};

/// A text is one line at most; a line leads to one point only; bytes come in only where no frame waits; and what is at the front of a record that fits is true.
pub fn records_are_checked_line_by_line()
    ensures text { OneLine }
    ensures one { OneWay }
    ensures alone { ComesAlone }
    ensures fronts { FrontsAreTrue }
{}

/// The lines of a record that are true so far go on to a record that fits; so a line is refuted exactly where no record that fits has it there.
pub fn true_lines_go_on()
    ensures fronts { FrontsGoOn }
    ensures refuted { RefutedExactly }
{}
