//! The line behind each answer, by which whoever talks knows that it has come to its end, and what became of his line.

ghost use Rattle.std.specs.Prelude.{◌≡◌, ◌++◌, length, take, OnOk, OnErr, string_bytes, codes, decimal};
ghost use Rattle.sim_talk.specs.Marks.{AppendsLine, ok_line, refused_line};

use sim_base::{OutOfMemory, push_decimal};

/// Appends that so many lines were good by now, or leaves the text as it was.
pub fn push_ok(number: u64, out: &mut String) -> Result<(), OutOfMemory>
    ensures { AppendsLine result (ok_line number) (string_bytes out.old) (string_bytes out.new) }
{
    push_mark("ok ", number, out)
}

/// Appends that the line which would have been this one is refused, or leaves the text as it was.
pub fn push_refused(number: u64, out: &mut String) -> Result<(), OutOfMemory>
    ensures { AppendsLine result (refused_line number) (string_bytes out.old) (string_bytes out.new) }
{
    push_mark("refused ", number, out)
}

// Appends a line of this beginning and a number, or leaves the text as it was.
fn push_mark(word: &str, number: u64, out: &mut String) -> Result<(), OutOfMemory>
    ensures { AppendsLine result (word.now ++ (decimal number ++ codes "\n")) (string_bytes out.old) (string_bytes out.new) }
{
    let length = out.len();
    match append_mark(word, number, out) {
        Ok(()) => Ok(()),
        Err(stop) => {
            out.truncate(length);
            Err(stop)
        }
    }
}

// After an error a part of the line may stand behind the old text.
fn append_mark(word: &str, number: u64, out: &mut String) -> Result<(), OutOfMemory>
    ensures ok { OnOk result (string_bytes out.new ≡ string_bytes out.old ++ (word.now ++ (decimal number ++ codes "\n"))) }
    ensures err { OnErr result (take (length (string_bytes out.old)) (string_bytes out.new) ≡ string_bytes out.old) }
{
    out.push_str(word)?;
    push_decimal(number, out)?;
    out.push_str("\n")?;
    Ok(())
}
