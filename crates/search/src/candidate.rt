// What a candidate tries.
ghost use Rattle.std.specs.Prelude.{◌≡◌, cond, ◌≤◌, eqb};
ghost use Rattle.std.specs.Int.Bits.{bit_xor};
ghost use Rattle.preference.specs.Candidates.{switched};
ghost use Rattle.search.specs.Candidates.{CandidatesOf, passes};

use atoms::AtomSet;
use evaluation::levels::unlocks;
use preference::Search;

// How many candidates some members have.
pub(crate) fn candidates(members: usize) -> usize
    requires { members ≤ 16 }
    ensures { CandidatesOf members result }
{
    1usize << members
}

// One member, where the candidate's bit for it is 1.
fn flip(set: u16, member: u16, bit: usize) -> u16
    ensures { result ≡ cond (eqb bit 1) (bit_xor set member) set }
{
    if bit == 1 { set ^ member } else { set }
}

// The base with the members switched whose bits the candidate's number has. The members come with a count, as in `Search`.
pub fn switched(base: u16, members: &[u16; 16], count: usize, n: usize) -> u16
    requires { count ≤ 16 }
    ensures { result ≡ switched base members.now count n }
{
    let mut set = base;
    for j in 0..count {
        set = flip(set, members[j], (n >> j) % 2);
    }
    set
}

// It unlocks the request.
pub(crate) fn opens(search: &Search, n: usize) -> bool
    ensures { result ≡ passes search.now n }
{
    let credentials = AtomSet::credentials(switched(search.shown, search.members, search.count, n));
    unlocks(search.rules, search.request, credentials)
}
