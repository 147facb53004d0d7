// The leaves that write: into the front of the buffer they are lent, below a limit.
use crate::reading::reading;
use cases::headers::ARG;
use sequences::oriented::{put_oriented, put_reversed};
use sequences::preview::put_preview;
use sequences::repeated::put_repeated;
use writers::numbers::put_decimal;
use writers::pieces::put_number_line;
use writers::writer::Writer;

// The word of a header that says the limit.
const LIMIT: usize = 3;

// The place that a writer of this name answers, or what another leaf answers.
pub fn writing(name: &[u8], row: &[usize; 24], text: &[u8], out: &mut [u8]) -> [usize; 4] {
    let arg = row[ARG];
    let mut w = Writer::new(out, row[LIMIT]);
    match name {
        b"put_preview" => put_preview(&mut w, text),
        b"put_reversed" => put_reversed(&mut w, text),
        b"put_oriented" => put_oriented(&mut w, text, arg),
        b"put_repeated" => put_repeated(&mut w, text, arg),
        b"put_decimal" => put_decimal(&mut w, arg as u64),
        b"put_number_line" => put_number_line(&mut w, text, arg as u64),
        _ => return reading(name, row, text),
    }
    [w.at, 0, 0, 0]
}
