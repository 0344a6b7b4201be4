// The search with weights and a limit, for C.
#![tactic(auto)]

ghost use Rattle.std.specs.Prelude.{◌≡◌, ◌<◌, ◌^◌, ◌≤◌};
ghost use Rattle.records.specs.Policies.{policy_of};
ghost use Rattle.arrays.specs.Arrays.{level_count};
ghost use Rattle.preference.specs.Candidates.{switched};
ghost use Rattle.preference.specs.InArrays.{LockedRequest, opens_in};
ghost use Rattle.preference.specs.Order.{trials};
ghost use Rattle.search.specs.Types.{result_of};
ghost use Rattle.probe.specs.Reply.{ProbeInput, accepted_reply, found_reply, result_reply, search_reply};

use arrays::{LevelRules, RuleArrays};
use atoms::{AtomSet, FIRST_DERIVED, LAST_DERIVED};
use evaluation::levels::unlocks;
use layout::access_rules;
use policy::examine;
use preference::Search;
use question::members::{without, write_members};
use search::candidate::switched;
use search::first;
use search::result::SearchResult;

// The answers of the C interface are numbers, as its document and `search_reply` have them. Zero: the shown set alone unlocks the request.
const OPEN: u64 = 0;

// The limit comes first.
const SPENT: u64 = 2;

// The policy, or the request.
const REFUSED: u64 = 3;

// The search over the subsets of `within` without the shown set. Weight j is that of member j of it, counted from the lowest.
#[unsafe(no_mangle)]
pub extern "C" fn probe_search(
    policy: &[u8],
    request: u16,
    shown: u16,
    within: u16,
    weights: &[u8; 16],
    limit: u32,
) -> u64
    ensures answer { result ≡ search_reply policy.now request shown within weights.now limit }
    ensures unchanged { (policy.now ≡ policy.now) × (weights.now ≡ weights.now) }
{
    let Ok(levels) = examine(policy) else {
        return REFUSED;
    };
    if request < u16::from(FIRST_DERIVED) {
        return REFUSED;
    }
    if request > u16::from(LAST_DERIVED) {
        return REFUSED;
    }
    let service = request as u8;
    let rest = without(within, shown);
    accepted(policy, &levels, service, shown, rest, weights, limit)
}

// Under an accepted policy, whose access rules keep these levels. Nothing of what may be asked is shown.
fn accepted(
    policy: &[u8],
    levels: &[u8; 64],
    request: u8,
    shown: u16,
    within: u16,
    weights: &[u8; 16],
    limit: u32,
) -> u64
    requires { ProbeInput policy.now levels.now request shown within }
    ensures { result ≡ accepted_reply (policy_of policy.now) request shown within weights.now limit }
{
    let mut laid = RuleArrays::EMPTY;
    let starts = access_rules(policy, levels, &mut laid);
    let rules = LevelRules {
        rules: &laid,
        starts: &starts,
    };
    let credentials = AtomSet::credentials(shown);
    if unlocks(&rules, request, credentials) {
        return OPEN;
    }
    found(&rules, request, shown, within, weights, limit)
}

// By rules in arrays. The shown set alone does not unlock the request.
fn found(
    rules: &LevelRules,
    request: u8,
    shown: u16,
    within: u16,
    weights: &[u8; 16],
    limit: u32,
) -> u64
    requires { LockedRequest level_count rules.now.rules.now.heads rules.now.rules.now.positive rules.now.rules.now.negated rules.now.starts.now
        request shown within }
    ensures { result ≡ found_reply (opens_in level_count rules.now.rules.now.heads rules.now.rules.now.positive
        rules.now.rules.now.negated rules.now.starts.now request shown) within weights.now limit }
{
    let mut members = [0u16; 16];
    write_members(&mut members, within);
    let count = AtomSet::credentials(within).count() as usize;
    let search = Search {
        rules,
        request,
        shown,
        members: &members,
        count,
    };
    let answer = first(&search, weights, limit as usize);
    reply(answer, &members, count)
}

// The search's answer as a number: the place from bit 8, and the asked set from bit 32.
fn reply(answer: SearchResult, members: &[u16; 16], count: usize) -> u64
    requires { (count ≤ 16) × (trials (result_of answer) < 2 ^ 32) }
    ensures { result ≡ result_reply (switched 0 members.now count) (result_of answer) }
{
    match answer {
        SearchResult::Found { candidate, place } => {
            let asked = switched(0, members, count, candidate);
            256 * (place as u64) + 4294967296 * u64::from(asked)
        }
        SearchResult::Nothing { tried } => 1 + 256 * (tried as u64),
        SearchResult::Spent => SPENT,
    }
}
