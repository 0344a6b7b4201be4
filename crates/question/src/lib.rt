// The question: the preferred one of what may be asked (document 01, "Sessions"; document 02, R-2).
#![tactic(auto)]

ghost use Rattle.std.specs.Prelude.{◌≡◌, ◌≤◌};
ghost use Rattle.arrays.specs.Arrays.{level_count};
ghost use Rattle.preference.specs.InArrays.{LockedRequest, preferred_in};
ghost use Rattle.question.specs.Types.{result_asks, found_of};

use arrays::LevelRules;
use atoms::AtomSet;
use members::{write_members, write_weights};
use preference::Search;
use search::candidate::switched;
use search::first;
use search::result::SearchResult;

pub mod members;

// What is asked: a set of credentials.
#[derive(Clone, Copy)]
pub struct Question {
    pub asks: u16,
}

// As many candidates as sixteen members have, the empty one apart.
const NO_LIMIT: usize = 65535;

// The preferred question, or none that unlocks. Credential k weighs weights[k]. Nothing of what may be asked is shown, and the shown set alone does not
// unlock the request.
pub fn preferred(
    rules: &LevelRules,
    request: u8,
    shown: u16,
    within: u16,
    weights: &[u8; 16],
) -> Option<Question>
    requires { LockedRequest level_count rules.now.rules.now.heads rules.now.rules.now.positive rules.now.rules.now.negated rules.now.starts.now
        request shown within }
    ensures { found_of result ≡ preferred_in level_count rules.now.rules.now.heads rules.now.rules.now.positive
        rules.now.rules.now.negated rules.now.starts.now request shown within weights.now }
{
    let mut members = [0u16; 16];
    write_members(&mut members, within);
    let count = AtomSet::credentials(within).count() as usize;
    let mut member_weights = [0u8; 16];
    write_weights(&mut member_weights, within, weights);
    let search = Search {
        rules,
        request,
        shown,
        members: &members,
        count,
    };
    let answer = first(&search, &member_weights, NO_LIMIT);
    asked(answer, &members, count)
}

// The question that a candidate stands for.
fn asked(answer: SearchResult, members: &[u16; 16], count: usize) -> Option<Question>
    requires { count ≤ 16 }
    ensures { found_of result ≡ result_asks members.now count answer }
{
    match answer {
        SearchResult::Found { candidate, .. } => {
            let asks = switched(0, members, count, candidate);
            Some(Question { asks })
        }
        SearchResult::Nothing { .. } | SearchResult::Spent => None,
    }
}
