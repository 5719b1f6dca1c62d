//! Lines that come in pieces of any size, each fault of a line, texts that are told in part, and the server as a talk in memory.

use sim_live::{RelayRules, relay};
use sim_store::MemSink;
use sim_talk::{HearFault, LineTalk, MemSource, MemTalk, Piece, Talk, TalkFault, json_of};
use std::alloc::Global;
use std::test::Fail;

// A talk over these bytes, that come in pieces of so many.
fn talk_of(
    alloc: Global,
    bytes: &[u8],
    piece: usize,
    most: usize,
) -> Result<LineTalk<MemSource, MemSink>, Fail> {
    let source = MemSource::new(alloc, bytes, piece)?;
    let sink = MemSink::new(alloc, 3)?;
    Ok(LineTalk::new(alloc, source, sink, most)?)
}

#[test]
fn lines_are_heard_whatever_the_pieces(rt: HostRuntime) -> Result<(), Fail> {
    let alloc = rt.alloc();
    for piece in 1..=9usize {
        let mut talk = talk_of(alloc, b"ab\n\ncde\n", piece, 3)?;
        let mut line = Vec::new(alloc);
        for wanted in [b"ab".as_slice(), b"".as_slice(), b"cde".as_slice()] {
            assert_eq!(rt; talk.hear(&mut line), Ok(true), "in {piece}");
            assert_eq!(rt; line.as_slice(), wanted, "in {piece}");
        }
        assert_eq!(rt; talk.hear(&mut line), Ok(false), "in {piece}");
    }
    Ok(())
}

#[test]
fn each_fault_of_a_line_has_its_name(rt: HostRuntime) -> Result<(), Fail> {
    let alloc = rt.alloc();
    let cases = [
        (b"abc".as_slice(), HearFault::CutOff),
        (b"abcd".as_slice(), HearFault::TooLong),
        (b"abcd\n".as_slice(), HearFault::TooLong),
        (b"a\xffc\n".as_slice(), HearFault::NoText),
    ];
    for (bytes, fault) in cases {
        for piece in 1..=6usize {
            let mut talk = talk_of(alloc, bytes, piece, 3)?;
            let mut line = Vec::new(alloc);
            let wanted = Err(TalkFault::Unheard { fault });
            assert_eq!(rt; talk.hear(&mut line), wanted, "in {piece}");
        }
    }
    Ok(())
}

#[test]
fn a_read_that_fails_is_a_fault(rt: HostRuntime) -> Result<(), Fail> {
    let alloc = rt.alloc();
    let mut source = MemSource::new(alloc, b"a\nb\n", 2)?;
    source.fail_at(2)?;
    let mut talk = LineTalk::new(alloc, source, MemSink::new(alloc, 3)?, 3)?;
    let mut line = Vec::new(alloc);
    assert_eq!(rt; talk.hear(&mut line), Ok(true));
    let wanted = Err(TalkFault::Unheard {
        fault: HearFault::Failed,
    });
    assert_eq!(rt; talk.hear(&mut line), wanted);
    Ok(())
}

#[test]
fn answers_are_kept_until_the_input_is_read(rt: HostRuntime) -> Result<(), Fail> {
    let alloc = rt.alloc();
    let mut talk = talk_of(alloc, b"a\nb\nc", 4, 3)?;
    let mut line = Vec::new(alloc);
    for told in [b"x".as_slice(), b"y".as_slice()] {
        assert_eq!(rt; talk.hear(&mut line), Ok(true));
        assert_eq!(rt; talk.tell(told), Ok(()));
        assert_eq!(rt; talk.sink().told(), b"".as_slice());
    }
    let wanted = Err(TalkFault::Unheard {
        fault: HearFault::CutOff,
    });
    assert_eq!(rt; talk.hear(&mut line), wanted);
    assert_eq!(rt; talk.sink().told(), b"xy".as_slice());
    Ok(())
}

#[test]
fn a_text_is_written_whole_or_is_a_fault(rt: HostRuntime) -> Result<(), Fail> {
    let alloc = rt.alloc();
    let mut talk = talk_of(alloc, b"a\n", 1, 3)?;
    let mut line = Vec::new(alloc);
    assert_eq!(rt; talk.tell(b"ab"), Ok(()));
    assert_eq!(rt; talk.settle(), Ok(()));
    assert_eq!(rt; talk.sink().told(), b"ab".as_slice());
    assert_eq!(rt; talk.tell(b"cd"), Ok(()));
    assert_eq!(rt; talk.hear(&mut line), Err(TalkFault::Untold));
    assert_eq!(rt; talk.settle(), Ok(()));
    assert_eq!(rt; talk.sink().told(), b"ab".as_slice());
    Ok(())
}

// What passed, each piece behind a sign.
fn passed_in(alloc: Global, talk: &MemTalk) -> Result<Vec<u8>, Fail> {
    let mut all = Vec::new(alloc);
    for piece in talk.passed() {
        match piece {
            Piece::Heard { line } => {
                all.push(b'<')?;
                all.extend_from_slice(line)?;
            }
            Piece::Told { text } => {
                all.push(b'>')?;
                all.extend_from_slice(text)?;
            }
        }
    }
    Ok(all)
}

// The lines, of which the last comes first, and an output of so much room.
fn relayed(alloc: Global, room: usize) -> Result<(Result<(), TalkFault>, Vec<u8>), Fail> {
    let rules = RelayRules {
        clients: 2,
        active: 1,
        delay: 1,
        turns: 3,
    };
    let mut coming = Vec::new(alloc);
    coming.push(b"no line".to_vec(alloc)?)?;
    coming.push(b"[2,\"bytes\",\"0100000001\"]".to_vec(alloc)?)?;
    let mut talk = MemTalk::new(alloc, coming, None, room);
    let ended = relay(alloc, rules, &mut talk);
    Ok((ended, passed_in(alloc, &talk)?))
}

#[test]
fn each_answer_is_told_before_the_next_line_is_heard(rt: HostRuntime) -> Result<(), Fail> {
    let alloc = rt.alloc();
    let (ended, passed) = relayed(alloc, 100)?;
    let wanted =
        b">released 1\n<[2,\"bytes\",\"0100000001\"]>post 1 020000000102\nok 1\n<no line>refused 2\n>released 1\n";
    assert_eq!(rt; ended, Ok(()));
    assert_eq!(rt; passed.as_slice(), wanted.as_slice());
    let (ended, passed) = relayed(alloc, 15)?;
    assert_eq!(rt; ended, Err(TalkFault::Untold));
    assert_eq!(rt;
        passed.as_slice(),
        b">released 1\n<[2,\"bytes\",\"0100000001\"]>post".as_slice()
    );
    Ok(())
}

#[test]
fn words_become_json(rt: HostRuntime) -> Result<(), Fail> {
    let alloc = rt.alloc();
    let cases = [
        (b"play 1".as_slice(), b"[\"play\",1]".as_slice()),
        (b" up  2 ".as_slice(), b"[\"up\",2]".as_slice()),
        (
            b"order 1 walk 2,3 to 6.5 2".as_slice(),
            b"[\"order\",1,\"walk\",[2,3],\"6.5\",2]".as_slice(),
        ),
        (
            b"order 1 stop -".as_slice(),
            b"[\"order\",1,\"stop\",[]]".as_slice(),
        ),
        (
            b"order 1 train 5 0".as_slice(),
            b"[\"order\",1,\"train\",5,0]".as_slice(),
        ),
        (b"".as_slice(), b"[]".as_slice()),
    ];
    for (words, wanted) in cases {
        assert_eq!(rt; json_of(alloc, words)?.as_slice(), wanted);
    }
    Ok(())
}
