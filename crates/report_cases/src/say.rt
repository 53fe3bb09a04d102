// A text through the report: its name, and the report's output as it stands.
ghost use Rattle.std.specs.Prelude.{◌≤◌, length};

use arrayvec::ArrayString;
use report_text::REPORT_ROOM;
use std::io;

// A whole text, after a line that says what it shows.
pub fn report(rt: &impl Print, about: &str, text: &str) -> io::Result<()> {
    let mut out = [0; REPORT_ROOM];
    println!(rt; "{about}")?;
    let end = report_text::report(text.as_bytes(), &mut out);
    rt.write_all(&out[..end])
}

// A text with both lines of names: its line of settings and the lines of its positions are handed in.
pub fn block(rt: &impl Print, about: &str, settings: &str, positions: &str) -> io::Result<()>
    requires { (length settings.now ≤ 100) × (length positions.now ≤ 300) }
{
    let mut text = ArrayString::<512>::new();
    text.push_str("m ceiling scale limit criterion operand\n");
    text.push_str(settings);
    text.push_str("\nposition frozen llr\n");
    text.push_str(positions);
    report(rt, about, text.as_str())
}

// Document 01's positions with other settings.
pub fn settings(rt: &impl Print, about: &str, settings: &str) -> io::Result<()>
    requires { length settings.now ≤ 100 }
{
    block(rt, about, settings, "0 1 5\n1 0 -3\n")
}

// Document 01's settings with other positions.
pub fn positions(rt: &impl Print, about: &str, positions: &str) -> io::Result<()>
    requires { length positions.now ≤ 300 }
{
    block(rt, about, "1 31 16 10 1 0", positions)
}
