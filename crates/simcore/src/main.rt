//! The program: it makes the four systems of each rig, picks the real files, standard input and standard output, and hands them to the
//! run or to the talk. Whatever the edge does is done in `sim_edge`, and whatever can be decided is decided below that.
#![tactic(auto)]

ghost use Rattle.sim_edge.specs.{Talked.IsTalk, Words.talk_of};

use sim_base::OutOfMemory;
use sim_census::Census;
use sim_edge::{
    Asked, Ending, FileShelf, InSource, OutSink, SystemFiles, add_rig, asked_of, exit_number,
    help_of, most_of, run_with, talk_number, talk_with, words_of,
};
use sim_ground::{Ground, Rooms};
use sim_range::Range;
use sim_system::{Rig, System};
use sim_talk::{LineTalk, PromptTalk};
use sim_top::Status;
use sim_watch::Watch;
use std::io::IsTerminal;
use std::process::ExitCode;
use std::rc::Rc;
use std::{env, io};

fn main(rt: HostRuntime) -> ExitCode {
    let Ok(words) = words_of(rt.alloc(), env::args(&rt)) else {
        return ExitCode::from(exit_number(Err(OutOfMemory)));
    };
    ExitCode::from(match asked_of(&words) {
        Some(asked) => talk_number(talk_words(&rt, asked)),
        None => exit_number(run_words(&rt, &words)),
    })
}

// Runs the words of the command line with eight rigs of new systems. The boxes are made in this body, since a function may hand
// out none.
fn run_words(rt: &HostRuntime, words: &[String]) -> Result<Status, OutOfMemory> {
    let alloc = rt.alloc();
    let rooms = Rc::new(alloc, Rooms::new())?;
    let mut rigs = Vec::with_capacity(alloc, 8)?;
    for _ in 0..8u8 {
        let ground: Box<dyn System> = Box::new(alloc, Ground::sharing(alloc, rooms.clone()?))?;
        let range: Box<dyn System> = Box::new(alloc, Range::looking(alloc))?;
        let watch: Box<dyn System> = Box::new(alloc, Watch::new(alloc))?;
        let census: Box<dyn System> = Box::new(alloc, Census::new(alloc))?;
        add_rig(&mut rigs, Rig::new(ground, range, watch, census))?;
    }
    let mut shelf = FileShelf::new(SystemFiles::new(rt));
    let mut out = OutSink::new(io::writer(rt));
    run_with(alloc, words, &mut shelf, &mut out, rigs)
}

// Talks by standard input and output, with a prompt where somebody sits at a terminal.
fn talk_words(rt: &HostRuntime, asked: Asked<'_>) -> Result<Ending, OutOfMemory>
    requires { IsTalk (talk_of asked) }
{
    let alloc = rt.alloc();
    let rooms = Rc::new(alloc, Rooms::new())?;
    let mut rigs = Vec::with_capacity(alloc, 8)?;
    for _ in 0..8u8 {
        let ground: Box<dyn System> = Box::new(alloc, Ground::sharing(alloc, rooms.clone()?))?;
        let range: Box<dyn System> = Box::new(alloc, Range::looking(alloc))?;
        let watch: Box<dyn System> = Box::new(alloc, Watch::new(alloc))?;
        let census: Box<dyn System> = Box::new(alloc, Census::new(alloc))?;
        add_rig(&mut rigs, Rig::new(ground, range, watch, census))?;
    }
    let mut shelf = FileShelf::new(SystemFiles::new(rt));
    let source = InSource::new(rt.stdin());
    let sink = OutSink::new(io::writer(rt));
    let mut other = LineTalk::new(alloc, source, sink, most_of(&asked))?;
    if !rt.stdin().is_terminal() {
        return talk_with(alloc, asked, &mut shelf, &mut other, rigs);
    }
    let mut prompted = PromptTalk::new(alloc, other, help_of(&asked));
    talk_with(alloc, asked, &mut shelf, &mut prompted, rigs)
}
