// The members of a set of credentials, and what they weigh.
ghost use Rattle.std.specs.Prelude.{◌≡◌, length};
ghost use Rattle.atoms.specs.Sets.{difference};
ghost use Rattle.preference.specs.Subsets.{MembersOf, WeightsListed};
ghost use Rattle.preference.specs.Weights.{weight_at};

// The credentials of a set that are not in another.
pub fn without(set: u16, other: u16) -> u16
    ensures { result ≡ difference set other }
{
    set - (set & other)
}

// Each as a set of its own, the lowest first, put into a lent array.
pub fn write_members(members: &mut [u16; 16], set: u16)
    requires { length members.old ≡ 16 }
    ensures { MembersOf set members.new }
{
    let mut left = set;
    let mut n: usize = 0;
    for k in 0..16u32 {
        if left == 0 {
            return;
        }
        // Each credential is put at the next place, and counts there if it is a member.
        members[n] = 1 << k;
        n += usize::from(left % 2);
        left /= 2;
    }
}

// Their weights, those of the lowest first, put into a lent array. Credential k weighs weights[k].
pub fn write_weights(listed: &mut [u8; 16], set: u16, weights: &[u8; 16])
    requires { length listed.old ≡ 16 }
    ensures { WeightsListed (weight_at weights.now) set listed.new }
{
    let mut left = set;
    let mut next: usize = 0;
    for k in 0..weights.len() {
        if left == 0 {
            return;
        }
        // Each weight is put at the next place, and counts there if its credential is a member.
        listed[next] = weights[k];
        next += usize::from(left % 2);
        left /= 2;
    }
}
