// What a reader record shows, against what the crate showed: all of it.
use crate::line::{Numbers, is_so};
use crate::reader::Reader;
use numbers::{Answer, Cursor, FragmentCursor, NextNumber, Refusal};

// As many runs as the line says, `a..b` for the numbers a, a + 1, .. up to before b, and no number past them.
fn walked<F: Fn(Cursor) -> NextNumber>(line: &mut Numbers, next: F) -> Option<()>
    requires { F.IsAlwaysCallable next }
{
    let mut cursor = Cursor::default();
    for _ in 0..line.next()? {
        let start = line.next()?;
        for n in start..line.next()? {
            let r = next(cursor);
            cursor = r.cursor;
            is_so(r.number.rank() == n)?;
        }
    }
    is_so(next(cursor).answer == Answer::refused(Refusal::Nothing))
}

// The 64 words of a sample: those of the line, and zeros.
fn entry_shown(line: &mut Numbers, words: &[u64]) -> Option<()> {
    let count = line.next()? as usize;
    let told = line.several(count)?;
    for (k, word) in words.iter().enumerate() {
        is_so(*word == told.get(k).copied().unwrap_or(0))?;
    }
    Some(())
}

impl Reader {
    // Every requested fragment, by sample: 64 words for each.
    fn fragments_shown(&self, line: &mut Numbers) -> Option<()> {
        let held = self.proxy.frag_count.min(16);
        line.expect(held as u64)?;
        for (sample, words) in self
            .samples
            .iter()
            .zip(self.words.chunks_exact(64))
            .take(held)
        {
            line.expect(*sample)?;
            entry_shown(line, words)?;
        }
        Some(())
    }

    // The next requested fragment: 0 stands for no answer in the line, as in the library.
    fn fragment_shown(&self, line: &mut Numbers, from: u64) -> Option<()> {
        let r = self
            .proxy
            .next_frag_requested(&self.samples, &self.words, FragmentCursor { from });
        line.expect(r.fragment.rank())?;
        line.expect(r.sample.rank())
    }

    // The questions on requested fragments.
    fn pieces_shown(&self, line: &mut Numbers) -> Option<()> {
        self.fragment_shown(line, 0)?;
        let from = line.next()?;
        self.fragment_shown(line, from)?;
        let any = self
            .proxy
            .repair_frags_requested(&self.samples, &self.words);
        line.expect(u64::from(any.yes))
    }

    // The next unsent number, and the next of the pending gap.
    fn next_unsent(&self, cursor: Cursor) -> NextNumber {
        self.proxy
            .next_unsent_change(&self.unsent[..self.room()], cursor)
    }

    fn next_gap(&self, cursor: Cursor) -> NextNumber {
        self.proxy.next_pending_gap(&self.gaps, cursor)
    }

    // The whole record.
    pub(crate) fn is_shown(&self, line: &mut Numbers) -> Option<()> {
        line.expect(self.proxy.all_acked_before.rank())?;
        line.expect(
            self.proxy
                .first_unsent_change(&self.unsent[..self.room()])
                .number
                .rank(),
        )?;
        walked(line, |cursor| self.next_unsent(cursor))?;
        walked(line, |cursor| self.next_gap(cursor))?;
        self.fragments_shown(line)?;
        let from = line.number()?.rank();
        line.expect(self.next_unsent(Cursor { from }).number.rank())?;
        line.expect(self.next_gap(Cursor { from }).number.rank())?;
        self.pieces_shown(line)
    }
}
