// How an accepted round ends.
ghost use Rattle.std.specs.Prelude.{◌≡◌};
ghost use Rattle.records.specs.Policies.{policy_of};
ghost use Rattle.form.specs.WrittenForm.{WellFormed};
ghost use Rattle.policy.specs.Types.{AcceptedWith};
ghost use Rattle.rounds.specs.Endings.{ending, obtainable};
ghost use Rattle.rounds.specs.Rounds.{phase_after};
ghost use Rattle.rounds.specs.Sessions.{Service};
ghost use Rattle.session.specs.Types.{ending_of, phase_of};

use crate::answer::Ending;
use crate::{Phase, Verdict};
use arrays::{LevelRules, RuleArrays};
use atoms::AtomSet;
use disclosure::disclosable_of;
use evaluation::levels::unlocks;
use layout::access_rules;
use question::members::without;
use question::preferred;
use weights::weight_table;

// Under an accepted policy, whose access rules keep these levels, once these credentials are shown and declined: grant, or the preferred question, or deny where there is none.
pub(crate) fn ending(
    policy: &[u8],
    levels: &[u8; 64],
    request: u16,
    shown: u16,
    declined: u16,
) -> Ending
    requires { AcceptedWith policy.now levels.now × Service request }
    ensures { ending_of result ≡ ending (policy_of policy.now) request shown declined }
{
    let mut laid = RuleArrays::EMPTY;
    let starts = access_rules(policy, levels, &mut laid);
    let rules = LevelRules {
        rules: &laid,
        starts: &starts,
    };
    let service = request as u8;
    let credentials = AtomSet::credentials(shown);
    if unlocks(&rules, service, credentials) {
        return Ending::Grant;
    }
    let within = obtainable(policy, shown, declined);
    let weights = weight_table(policy);
    match preferred(&rules, service, shown, within, &weights) {
        Some(question) => Ending::Ask(question),
        None => Ending::Deny,
    }
}

// What may be asked: disclosable, and neither shown nor declined.
fn obtainable(policy: &[u8], shown: u16, declined: u16) -> u16
    requires { WellFormed policy.now }
    ensures { result ≡ obtainable (policy_of policy.now) shown declined }
{
    let disclosed = disclosable_of(policy, shown);
    without(without(disclosed, shown), declined)
}

// Closed with a verdict, or waiting on the question.
pub(crate) fn phase_after(ending: Ending) -> Phase
    ensures { phase_of result ≡ phase_after (ending_of ending) }
{
    match ending {
        Ending::Grant => Phase::Closed(Verdict::Granted),
        Ending::Deny => Phase::Closed(Verdict::Denied),
        Ending::Ask(question) => Phase::Waiting(question),
    }
}
