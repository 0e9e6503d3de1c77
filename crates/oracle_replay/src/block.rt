// A block of the list: a reader or a writer, with its calls.
use crate::line::{Lines, Numbers};

// What calls are made on.
pub(crate) trait Replayed {
    // The call of one line is made, and what it shows is compared with the line: None where something is not as the crate's.
    fn replay(&mut self, line: &mut Numbers) -> Option<()>;
}

// How many calls of a block, from the first on, are as the crate's. After one that isn't, no more are made, but their lines are passed over.
pub(crate) fn replay_calls<R: Replayed + Drop>(
    record: Option<R>,
    lines: &mut Lines,
    calls: u64,
) -> u64 {
    let Some(mut record) = record else {
        return 0;
    };
    let mut same = 0;
    for i in 0..calls {
        let line = lines.call();
        if same == i
            && let Some(mut line) = line
            && record.replay(&mut line).is_some()
        {
            same += 1;
        }
    }
    same
}
