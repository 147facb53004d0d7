// What the two programs print (document 01, "The four services").
#![tactic(auto)]

ghost use Rattle.std.specs.Prelude.{◌≡◌, length, ltb};
ghost use Rattle.writers.specs.Writers.{Wrote};
ghost use Rattle.console.specs.Printed.{refusal_text, LongText, ShownIs};

use reader::answers::Answer;
use refusals::reason::Reason;
use refusals::refusal::Refusal;
use writers::pieces::put_number_lines;
use writers::writer::Writer;

// The lines of a refusal, at the front of `out` as far as there is room.
pub fn put_refusal(out: &mut [u8], a: Answer) -> usize
    ensures { Wrote (length out.old) out.old 0 (refusal_text a) out.new result }
{
    let lines: [(&[u8], u64); 4] = [
        (b"refused", a.number as u64),
        (b"line", a.line as u64),
        (b"from", a.from as u64),
        (b"length", a.length as u64),
    ];
    let limit = out.len();
    let mut w = Writer::new(out, limit);
    put_number_lines(&mut w, &lines);
    w.at
}

// Is the text too long for a program?
pub fn is_long(text: &[u8]) -> bool
    ensures { result ≡ ltb 2048 (length text.now) }
{
    2048 < text.len()
}

// The lines of the refusal of a text that is too long, at the front of `out` as far as there is room.
pub fn refuse_long(out: &mut [u8]) -> usize
    ensures { LongText out.old out.new result }
{
    put_refusal(out, Answer::from(Err(Refusal::of(Reason::LongText))))
}

// How many bytes at the front of `out` are to be printed: the answer that stands there, or the lines of the refusal that are put there.
pub fn show(out: &mut [u8], a: Answer) -> usize
    ensures { ShownIs out.old out.new a result }
{
    if a.number == 0 {
        return a.length;
    }
    put_refusal(out, a)
}
