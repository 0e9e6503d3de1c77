// The lines of the list, and the numbers of a line.
use numbers::SequenceNumber;

// The list, from a line on: at its place stands the place of the next line, and then come its numbers. It stays one list with places in it, so that a damaged
// one is read as it always was: a first line that is too short goes on in what stands after it.
#[derive(Drop)]
pub(crate) struct Lines<'a> {
    pub all: &'a [u64],
    pub place: usize,
}

// Numbers that are read one after the other.
#[derive(Drop)]
pub(crate) struct Numbers<'a> {
    pub rest: &'a [u64],
}

impl<'a> Lines<'a> {
    // The numbers from here on, whatever their line; the next line is then the one after this.
    pub(crate) fn head(&mut self) -> Numbers<'a> {
        let start = self.place.saturating_add(1);
        self.place = self.all.get(self.place).copied().unwrap_or(0) as usize;
        Numbers {
            rest: self.all.get(start..).unwrap_or(&[]),
        }
    }

    // The numbers of this line alone, or None where the list ends in it.
    pub(crate) fn call(&mut self) -> Option<Numbers<'a>> {
        let start = self.place.saturating_add(1);
        self.place = self.all.get(self.place).copied().unwrap_or(0) as usize;
        let rest = self.all.get(start..self.place)?;
        Some(Numbers { rest })
    }
}

impl<'a> Numbers<'a> {
    // The next number. A line that has none left is not as the crate's.
    pub(crate) fn next(&mut self) -> Option<u64> {
        let (first, rest) = self.rest.split_first()?;
        self.rest = rest;
        Some(*first)
    }

    // The next number; where none is left, 0. A damaged head is read so, as it always was.
    pub(crate) fn next_or_0(&mut self) -> u64 {
        self.next().unwrap_or(0)
    }

    // The next numbers, so many.
    pub(crate) fn several(&mut self, count: usize) -> Option<&'a [u64]> {
        let (front, rest) = self.rest.split_at_checked(count)?;
        self.rest = rest;
        Some(front)
    }

    // A signed number, from its two's complement.
    pub(crate) fn number(&mut self) -> Option<SequenceNumber> {
        Some(SequenceNumber(self.next()?.cast_signed()))
    }

    // The lower half of a number.
    pub(crate) fn half(&mut self) -> Option<u32> {
        Some((self.next()? % (1 << 32)) as u32)
    }

    // The eight words of a set.
    pub(crate) fn words(&mut self) -> Option<[u32; 8]> {
        let mut words = [0; 8];
        for word in words.iter_mut() {
            *word = self.half()?;
        }
        Some(words)
    }

    // The next number is n, or the line is not as the crate's.
    pub(crate) fn expect(&mut self, n: u64) -> Option<()> {
        is_so(self.next()? == n)
    }

    // The line has no more.
    pub(crate) fn ends(&self) -> Option<()> {
        is_so(self.rest.is_empty())
    }
}

// What was compared is as the crate's, or the call is not.
pub(crate) fn is_so(same: bool) -> Option<()> {
    same.then_some(())
}
