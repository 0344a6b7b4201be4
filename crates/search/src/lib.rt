// The search: the first candidate in order of cost that unlocks the request, and its place, within a limit.
#![tactic(auto)]

ghost use Rattle.std.specs.Prelude.{◌≡◌, false, ◌^◌};
ghost use Rattle.preference.specs.Order.{cost_of, searched};
ghost use Rattle.search.specs.Candidates.{passes};
ghost use Rattle.search.specs.Types.{result_of};

use arrays::{LevelRules, RuleArrays};
use blocks::by_blocks;
use candidate::candidates;
use preference::Search;
use relevance::keep_relevant;
use result::{SearchResult, nothing};
use singles::one_by_one;

mod blocks;
pub mod candidate;
pub mod result;
mod singles;

// Of so many members the candidates are tried one by one; of so many they are one block.
const FEW: usize = 3;

const ONE_BLOCK: usize = 8;

// A candidate costs 17 times the weight of the members that it switches and the count of its ones: member j weighs weights[j]. The shown set alone does
// not unlock the request.
#[tactic(auto, using(crate::proofs::AnswerLaws::answer_zero))]
pub fn first(search: &Search, weights: &[u8; 16], limit: usize) -> SearchResult
    requires { passes search.now 0 ≡ false }
    ensures { result_of result ≡ searched (cost_of weights.now) (passes search.now) (2 ^ search.now.count) limit }
{
    if limit == 0 {
        return nothing(candidates(search.count) - 1, limit);
    }
    if search.count <= FEW {
        return one_by_one(search, weights, limit);
    }
    if search.count <= ONE_BLOCK {
        return by_blocks(search, weights, limit);
    }
    by_relevant_rules(search, weights, limit)
}

// With the rules alone that bear on the request: to find them takes about as long as to evaluate a block.
fn by_relevant_rules(search: &Search, weights: &[u8; 16], limit: usize) -> SearchResult
    ensures { result_of result ≡ searched (cost_of weights.now) (passes search.now) (2 ^ search.now.count) limit }
{
    let mut kept = RuleArrays::EMPTY;
    let starts = keep_relevant(search.rules, search.request, &mut kept);
    let rules = LevelRules {
        rules: &kept,
        starts: &starts,
    };
    let fewer = Search {
        rules: &rules,
        request: search.request,
        shown: search.shown,
        members: search.members,
        count: search.count,
    };
    by_blocks(&fewer, weights, limit)
}
