// Sets as RTPS writes them: made from numbers, and read. A name for each kind: C has no type parameters.
ghost use Rattle.std.specs.Prelude.{◌≡◌};
ghost use Rattle.numbers.specs.Promise.{Gives1};
ghost use Rattle.number_sets.specs.Bits.{members};
ghost use Rattle.number_sets.specs.Calls.{sequence_set, sequence_rows, fragment_set, fragment_rows, members_listed};
ghost use Rattle.number_sets.specs.Calls.{next_member, next_fragment_member, of_numbers, of_fragments};

use number_sets::{FragmentNumberSet, Listed, SequenceNumberSet, WrittenFragments, WrittenNumbers};
use numbers::{Cursor, FragmentCursor, FragmentNumber, NextFragment, NextNumber, SequenceNumber};

#[unsafe(no_mangle)]
pub extern "C" fn sintemuno_set_of_numbers(base: SequenceNumber, numbers: &[u64]) -> WrittenNumbers
    ensures { result ≡ of_numbers base numbers.now }
{
    SequenceNumberSet::of_numbers(base, numbers)
}

#[unsafe(no_mangle)]
pub extern "C" fn sintemuno_set_list_members(set: SequenceNumberSet, out: &mut [u64]) -> Listed
    ensures { Gives1 result out.new (members_listed (sequence_rows set) (members (sequence_set set)) out.old) }
{
    set.list_members(out)
}

#[unsafe(no_mangle)]
pub extern "C" fn sintemuno_set_next_member(set: SequenceNumberSet, at: Cursor) -> NextNumber
    ensures { result ≡ next_member set at }
{
    set.next_member(at)
}

#[unsafe(no_mangle)]
pub extern "C" fn sintemuno_fragment_set_of_numbers(
    base: FragmentNumber,
    numbers: &[u64],
) -> WrittenFragments
    ensures { result ≡ of_fragments base numbers.now }
{
    FragmentNumberSet::of_numbers(base, numbers)
}

#[unsafe(no_mangle)]
pub extern "C" fn sintemuno_fragment_set_list_members(
    set: FragmentNumberSet,
    out: &mut [u64],
) -> Listed
    ensures { Gives1 result out.new (members_listed (fragment_rows set) (members (fragment_set set)) out.old) }
{
    set.list_members(out)
}

#[unsafe(no_mangle)]
pub extern "C" fn sintemuno_fragment_set_next_member(
    set: FragmentNumberSet,
    at: FragmentCursor,
) -> NextFragment
    ensures { result ≡ next_fragment_member set at }
{
    set.next_member(at)
}
