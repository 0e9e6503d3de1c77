// What a send buffer shows, against what the crate showed: all of it.
use crate::line::{Numbers, is_so};
use crate::writer::Writer;
use numbers::{Answer, Refusal};

impl Writer {
    // One fetch: whether the sample is there, and its bytes.
    fn fetch_shown(&self, line: &mut Numbers) -> Option<()> {
        let n = line.number()?;
        let store = &self.store[..self.size()];
        let found = self.flow.locate(store.len(), &self.lens[..self.slots()], n);
        if found.answer == Answer::refused(Refusal::Nothing) {
            return line.expect(0);
        }
        is_so(found.answer.is_done())?;
        line.expect(1)?;
        let part = found.part(store);
        line.expect(part.len() as u64)?;
        for byte in part {
            line.expect(u64::from(*byte))?;
        }
        Some(())
    }

    // Whether all is acknowledged through a number.
    fn through_shown(&self, line: &mut Numbers) -> Option<()> {
        let told = self.flow.is_acked_through(line.number()?);
        is_so(told.answer.is_done())?;
        line.expect(u64::from(told.yes))
    }

    // The whole buffer: the last number and the first, and as many fetches and questions as the line says.
    pub(crate) fn is_shown(&self, line: &mut Numbers) -> Option<()> {
        line.expect(self.flow.last_change_sequence_number().number.rank())?;
        line.expect(self.flow.first_change_sequence_number().number.rank())?;
        for _ in 0..line.next()? {
            self.fetch_shown(line)?;
        }
        for _ in 0..line.next()? {
            self.through_shown(line)?;
        }
        Some(())
    }
}
