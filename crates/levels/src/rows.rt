// A policy's access rules gathered by head.
ghost use Rattle.records.specs.Records.{whole_records};
ghost use Rattle.levels.specs.Levels.{AccessHeads, Low};
ghost use Rattle.levels.specs.Rows.{Gathered, Tested};

use crate::layers::Layers;
use atoms::AtomSet;
use records::{ACCESS, record_at};

// Row h has the atoms in the bodies of head h, and those of them that are negated: as numbers, of which specs/Graphs speaks.
#[derive(Clone, Copy)]
pub struct Rows {
    pub bodies: [u64; 64],
    pub negated: [u64; 64],
    pub heads: AtomSet,
}

pub(crate) fn rows_of(policy: &[u8]) -> Rows
    requires { AccessHeads policy.now }
    ensures { Gathered policy.now (whole_records policy.now) result.bodies result.negated result.heads.bits }
{
    let mut rows = Rows {
        bodies: [0u64; 64],
        negated: [0u64; 64],
        heads: AtomSet::EMPTY,
    };
    // Beside the rows, not in them: it would be stored and read again for each record.
    let mut heads = AtomSet::EMPTY;
    for k in 0..policy.len() / 18 {
        let parsed = record_at(policy, k);
        if parsed.kind == ACCESS {
            let h = usize::from(parsed.head);
            let not = parsed.negated;
            let all = parsed.positive.union(not);
            let body = AtomSet {
                bits: rows.bodies[h],
            };
            let negated = AtomSet {
                bits: rows.negated[h],
            };
            rows.bodies[h] = body.union(all).bits;
            rows.negated[h] = negated.union(not).bits;
            heads = heads.union(AtomSet::one(parsed.head));
        }
    }
    rows.heads = heads;
    rows
}

impl Rows {
    // No head has a negated atom on its own level.
    #[tactic(auto, using(crate::proofs::MemberLaws::testing_met, atoms::proofs::ListedLaws::first_low))]
    pub(crate) fn test(&self, layers: &Layers) -> bool
        requires { Low layers.now.of }
        ensures { Tested self.now.negated self.now.heads.bits layers.now.of layers.now.at result }
    {
        for h in self.heads.members() {
            let not = AtomSet {
                bits: self.negated[h],
            };
            let level = usize::from(layers.of[h]);
            let on = AtomSet {
                bits: layers.at[level],
            };
            if !not.is_disjoint(on) {
                return false;
            }
        }
        true
    }
}
