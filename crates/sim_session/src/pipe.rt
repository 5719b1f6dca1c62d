//! The line of a pipe: how long the frames are that lie in it.

ghost use Rattle.std.specs.Prelude.{OnOk, string_bytes, ◌++◌, ◌≡◌};
ghost use Rattle.{sim_report.specs.Appending.Appends, sim_session.specs.Endings.lengths_text, sim_session.specs.Endings.pipe_line};

use sim_base::OutOfMemory;
use sim_wire::Bytes;

/// Appends the line of a pipe of a client, `up` or `down` by its word, or leaves the text as it was. The frames in it come as
/// they are to be heard, the first one first.
pub fn push_pipe(
    client: u8,
    word: &str,
    frames: &[Bytes],
    out: &mut String,
) -> Result<(), OutOfMemory>
    ensures { Appends result out.old out.new (pipe_line client word.now frames.now) }
{
    let mut line = String::new(*out.allocator());
    write_pipe(client, word, frames, &mut line)?;
    out.push_str(line.as_str())?;
    Ok(())
}

// The line is written as a text of its own, of which nothing is said after an error, here and below.
fn write_pipe(
    client: u8,
    word: &str,
    frames: &[Bytes],
    line: &mut String,
) -> Result<(), OutOfMemory>
    ensures { OnOk result (string_bytes line.new ≡ string_bytes line.old ++ pipe_line client word.now frames.now) }
{
    write!(line, "pipe {client} {word}")?;
    write_lengths(frames, line)?;
    line.push_str("\n")?;
    Ok(())
}

fn write_lengths(frames: &[Bytes], line: &mut String) -> Result<(), OutOfMemory>
    ensures { OnOk result (string_bytes line.new ≡ string_bytes line.old ++ lengths_text frames.now) }
{
    for frame in frames {
        let length = frame.as_slice().len();
        write!(line, " {length}")?;
    }
    Ok(())
}
