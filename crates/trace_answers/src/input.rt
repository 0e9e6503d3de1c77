// An input answered line by line, in whatever pieces it comes.
ghost use Rattle.std.specs.Prelude.{◌≡◌, ◌+◌, ◌≤◌, length};
ghost use Rattle.numbers.specs.Promise.{Gives1};
ghost use Rattle.trace_answers.specs.Input.{Gives5, answering_none, held_now, is_open, next_piece, nothing_waits, goes_on, with_cut, shown_by, answer_line, answer_piece};

use crate::{follow_held, put_followed};
use numbers::Answer;
use trace_readers::{Followed, Trace};
use trace_text::{Cut, take_line};

// How the answering stands: what the last line was answered and left, how far the piece was taken and how many bytes of the line have come,
// the lines answered, and how far the room for answers is filled.
#[derive(Clone, Copy)]
pub struct Answering {
    pub followed: Followed,
    pub cut: Cut,
    pub lines: u64,
    pub filled: usize,
}

impl Answering {
    // Before the input's first byte.
    pub fn start() -> Answering
        ensures { result ≡ answering_none }
    {
        Answering {
            followed: Trace::start().refused(Answer::done()),
            cut: Cut::default(),
            lines: 0,
            filled: 0,
        }
    }

    // How many bytes of the line under way have come.
    fn held(self) -> usize
        ensures { result ≡ held_now self }
    {
        if self.cut.ended { 0 } else { self.cut.held }
    }

    // Whether a line has begun and not ended.
    pub fn is_open(self) -> bool
        ensures { result ≡ is_open self }
    {
        self.held() != 0
    }

    fn with_cut(self, cut: Cut) -> Answering
        ensures { result ≡ with_cut cut self }
    {
        Answering { cut, ..self }
    }

    // The next piece, from its start.
    pub fn at_next_piece(self) -> Answering
        ensures { result ≡ next_piece self }
    {
        self.with_cut(Cut { at: 0, ..self.cut })
    }

    // What was put has been written: the room is free again.
    pub fn with_nothing_waiting(self) -> Answering
        ensures { result ≡ nothing_waits self }
    {
        Answering { filled: 0, ..self }
    }

    // The answer to a line is put. The count of lines stays at the largest number.
    fn shown(self, cut: Cut, followed: Followed, out: &mut [u8]) -> Answering
        ensures { Gives1 result out.new (shown_by cut followed self out.old) }
    {
        let lines = self.lines.saturating_add(1);
        let filled = put_followed(out, self.filled, lines, followed);
        Answering {
            followed,
            cut,
            lines,
            filled,
        }
    }

    // One line of the piece, or what the piece has of it. Where it has ended, it is followed and its answer put.
    // The five rooms stay parameters: what is promised of each speaks of it before and after, which a struct of `&mut`s says no plainer.
    pub fn answer_line(
        self,
        piece: &[u8],
        line: &mut [u8],
        out: &mut [u8],
        store: &mut [u8],
        large: &mut [u64],
        small: &mut [u64],
    ) -> Answering
        ensures { Gives5 result line.new out.new store.new large.new small.new (answer_line self piece.now line.old out.old store.old large.old small.old) }
    {
        let cut = take_line(piece, self.cut.at, line, self.held());
        if !cut.ended {
            return self.with_cut(cut);
        }
        let trace = self.followed.trace;
        let followed = follow_held(trace, line, cut.held, store, large, small);
        self.shown(cut, followed, out)
    }

    // Whether the piece has more, and the room for answers enough for one: 256 bytes, which is more than any has.
    fn goes_on(self, piece: &[u8], out: &[u8]) -> bool
        ensures { result ≡ goes_on self piece.now out.now }
    {
        self.cut.at < piece.len() && 255 < out.len().saturating_sub(self.filled)
    }

    // The lines of the piece, one after the other, as long as there is room for an answer.
    pub fn answer_piece(
        self,
        piece: &[u8],
        line: &mut [u8],
        out: &mut [u8],
        store: &mut [u8],
        large: &mut [u64],
        small: &mut [u64],
    ) -> Answering
        ensures { Gives5 result line.new out.new store.new large.new small.new (answer_piece self piece.now line.old out.old store.old large.old small.old) }
    {
        let mut answering = self;
        while answering.goes_on(piece, out) {
            answering = answering.answer_line(piece, line, out, store, large, small);
        }
        answering
    }
}
