//! A talk over an input and a sink: each line is read in pieces, and texts are kept while whole lines still stand in what was read. All of
//! them are written before the input is read again, so whoever waits for an answer before he sends the next line has it. An input and a
//! sink know nothing of each other, so it tells no order of what passed, but the bytes of both, where they tell them.

ghost use Rattle.std.specs.Prelude.{◌≡◌, ◌⊎◌, [], IfOk, OnOk};
ghost use Rattle.sim_talk.specs.LineTalk.{Comes, Ends, HearCounts, IsText, piped, Readies, SettlesTo, TakesOf, TellCounts, TellsTo, WriteCounts};
ghost use Rattle.sim_talk.specs.{Halves.KeepsInput, Halves.KeepsOutput, Talks.Hears, Talks.Settles, Talks.Tells};
ghost use Rattle.{sim_store.specs.Sink.SinkCounts, sim_talk.specs.Lines.HearsOf, sim_talk.specs.Lines.IsWithinLine, sim_talk.specs.Lines.ReadCounts};

use crate::ahead::{Ahead, PIECE, Poured};
use crate::kept::Kept;
use crate::{HearFault, Source, Talk, TalkFault};
use sim_base::{Global, OutOfMemory};
use sim_store::{Failed, Sink};

/// Lines of an input, each of at most so many bytes, and texts to a sink.
#[derive(Drop)]
pub struct LineTalk<S: Source + Drop, K: Sink + Drop> {
    source: S,
    sink: K,
    ahead: Ahead,
    kept: Kept,
    most: usize,
}

impl<S: Source + Drop, K: Sink + Drop> LineTalk<S, K> {
    ghost use Rattle.{sim_talk.specs.{Ahead.bytes_ahead, Kept.bytes_kept}, std.specs.Io.KnownBytes.prepend_known};

    /// Nothing was heard or told yet. It takes the memory for a piece of the input, and for what is kept.
    pub fn new(
        alloc: Global,
        source: S,
        sink: K,
        most: usize,
    ) -> Result<LineTalk<S, K>, OutOfMemory>
        ensures coming { IfOk result (λ talk. prepend_known (bytes_ahead talk.ahead) (S.left talk.source) ≡ S.left source) }
        ensures told { IfOk result (λ talk. K.told talk.sink ≡ K.told sink) }
        ensures kept { IfOk result (λ talk. bytes_kept talk.kept ≡ []) }
        ensures most { IfOk result (λ talk. talk.most ≡ most) }
        ensures read { IfOk result (λ talk. S.faults talk.source ≡ S.faults source) }
        ensures written { IfOk result (λ talk. K.faults talk.sink ≡ K.faults sink) }
    {
        let ahead = Ahead::new(alloc)?;
        let kept = Kept::new(alloc)?;
        Ok(LineTalk {
            source,
            sink,
            ahead,
            kept,
            most,
        })
    }

    /// The sink, with what was written.
    pub fn sink(&self) -> &K
        ensures { result.now ≡ self.now.sink }
    {
        &self.sink
    }

    // Makes ready to hear: where no line ends in what was read, what is kept is written.
    fn make_ready(&mut self) -> Result<(), Failed>
        ensures ready { OnOk result (IsWithinLine (bytes_ahead self.new.ahead) → bytes_kept self.new.kept ≡ []) }
        ensures passed { Readies result
            (piped (bytes_ahead self.old.ahead) (S.left self.old.source) (K.told self.old.sink) (bytes_kept self.old.kept) self.old.most
            (S.faults self.old.source) (K.faults self.old.sink))
            (piped (bytes_ahead self.new.ahead) (S.left self.new.source) (K.told self.new.sink) (bytes_kept self.new.kept) self.new.most
            (S.faults self.new.source) (K.faults self.new.sink)) }
        ensures faults { TellCounts result (K.faults self.old.sink) (K.faults self.new.sink) }
        ensures input { KeepsInput self.old self.new }
    {
        if self.ahead.has_end() {
            return Ok(());
        }
        self.settle()
    }

    // The next line, without what ends it. No more of the input is read than the pieces in which it lies, and none where it stands in
    // what was read.
    fn read_line(&mut self, line: &mut Vec<u8>) -> Result<bool, HearFault>
        requires { IsWithinLine (bytes_ahead self.old.ahead) → bytes_kept self.old.kept ≡ [] }
        ensures taken { HearsOf self.old.most result line.new.items (prepend_known (bytes_ahead self.old.ahead) (S.left self.old.source))
            (prepend_known (bytes_ahead self.new.ahead) (S.left self.new.source)) }
        ensures order { (self.new.source ≡ self.old.source) ⊎ (bytes_kept self.old.kept ≡ []) }
        ensures faults { ReadCounts result (S.faults self.old.source) (S.faults self.new.source) }
        ensures output { KeepsOutput self.old self.new }
    {
        line.clear();
        'pieces: loop {
            match self.ahead.pour(self.most, line)? {
                Poured::Whole => return text_of(line),
                Poured::TooLong => return Err(HearFault::TooLong),
                Poured::Open => {}
            }
            if self.read_piece()? == 0 {
                return end_of(line);
            }
        }
    }

    // How many bytes come as the next piece. It alone reads the input, and nothing is kept then.
    fn read_piece(&mut self) -> Result<usize, Failed>
        requires { bytes_kept self.old.kept ≡ [] }
        ensures comes { Comes result (S.left self.old.source) (S.left self.new.source) (bytes_ahead self.old.ahead) (bytes_ahead self.new.ahead) }
        ensures counts { SinkCounts result (S.faults self.old.source) (S.faults self.new.source) }
        ensures output { KeepsOutput self.old self.new }
    {
        let mut piece = [0; PIECE];
        let count = self.source.read(&mut piece)?;
        self.ahead.hold(&piece[..count]);
        Ok(count)
    }
}

// What is heard of a line that has come to its end.
fn text_of(line: &[u8]) -> Result<bool, HearFault>
    ensures { IsText result line.now }
{
    match std::str::from_utf8(line) {
        Ok(_) => Ok(true),
        Err(_) => Err(HearFault::NoText),
    }
}

// What is heard of a line at the end of the input.
fn end_of(line: &[u8]) -> Result<bool, HearFault>
    ensures { Ends result line.now }
{
    if line.is_empty() {
        Ok(false)
    } else {
        Err(HearFault::CutOff)
    }
}

impl<S: Source + Drop, K: Sink + Drop> Talk for LineTalk<S, K> {
    ghost use Rattle.{sim_talk.specs.{Ahead.bytes_ahead, Kept.bytes_kept}, std.specs.Io.KnownBytes.prepend_known};

    ghost history = { λ s. piped (bytes_ahead s.ahead) (S.left s.source) (K.told s.sink) (bytes_kept s.kept) s.most (S.faults s.source) (K.faults s.sink) };

    /// Takes the next line of what was read. Where none ends there, what is kept is written, and then the input is read.
    fn hear(&mut self, line: &mut Vec<u8>) -> Result<bool, TalkFault>
        ensures passed { Hears result line.new.items
            (piped (bytes_ahead self.old.ahead) (S.left self.old.source) (K.told self.old.sink) (bytes_kept self.old.kept) self.old.most
            (S.faults self.old.source) (K.faults self.old.sink))
            (piped (bytes_ahead self.new.ahead) (S.left self.new.source) (K.told self.new.sink) (bytes_kept self.new.kept) self.new.most
            (S.faults self.new.source) (K.faults self.new.sink)) }
        ensures taken { TakesOf self.old.most result line.new.items (prepend_known (bytes_ahead self.old.ahead) (S.left self.old.source))
            (prepend_known (bytes_ahead self.new.ahead) (S.left self.new.source)) }
        ensures order { (self.new.source ≡ self.old.source) ⊎ (bytes_kept self.new.kept ≡ []) }
        ensures faults { HearCounts result (S.faults self.old.source) (S.faults self.new.source) }
        ensures written { WriteCounts result (K.faults self.old.sink) (K.faults self.new.sink) }
        ensures most { self.new.most ≡ self.old.most }
    {
        self.make_ready()?;
        Ok(self.read_line(line)?)
    }

    /// Keeps the text, and writes to the sink what has no room.
    fn tell(&mut self, text: &[u8]) -> Result<(), Failed>
        ensures passed { Tells result text.now
            (piped (bytes_ahead self.old.ahead) (S.left self.old.source) (K.told self.old.sink) (bytes_kept self.old.kept) self.old.most
            (S.faults self.old.source) (K.faults self.old.sink))
            (piped (bytes_ahead self.new.ahead) (S.left self.new.source) (K.told self.new.sink) (bytes_kept self.new.kept) self.new.most
            (S.faults self.new.source) (K.faults self.new.sink)) }
        ensures told { TellsTo K.Sink result text.now (bytes_kept self.old.kept) (bytes_kept self.new.kept) self.old.sink self.new.sink }
        ensures input { KeepsInput self.old self.new }
    {
        self.kept.tell(&mut self.sink, text)
    }

    /// Writes to the sink all that is kept.
    fn settle(&mut self) -> Result<(), Failed>
        ensures passed { Settles result
            (piped (bytes_ahead self.old.ahead) (S.left self.old.source) (K.told self.old.sink) (bytes_kept self.old.kept) self.old.most
            (S.faults self.old.source) (K.faults self.old.sink))
            (piped (bytes_ahead self.new.ahead) (S.left self.new.source) (K.told self.new.sink) (bytes_kept self.new.kept) self.new.most
            (S.faults self.new.source) (K.faults self.new.sink)) }
        ensures settles { SettlesTo K.Sink result (bytes_kept self.old.kept) self.old.sink self.new.sink }
        ensures kept { bytes_kept self.new.kept ≡ [] }
        ensures input { KeepsInput self.old self.new }
    {
        self.kept.settle(&mut self.sink)
    }
}
