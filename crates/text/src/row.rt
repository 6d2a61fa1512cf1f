use record::RawRecord;

// A part of a line: the place where it begins and the place after it, as a row does not hold its line.
#[derive(Clone, Copy)]
pub struct Span {
    pub from: usize,
    pub to: usize,
}

// A catalogue row: where the record's name stands in the line, and the record, sound or not.
#[derive(Clone, Copy)]
pub struct Row {
    pub name: Span,
    pub record: RawRecord,
}
