// Which lanes of a block take a member.
ghost use Rattle.std.specs.Prelude.{◌<◌};
ghost use Rattle.lanes.specs.Candidates.{Pattern, Takers};

use lane_table::lane_set::LaneSet;

// The lanes of block b whose candidates take member j: bit j of their numbers is set.
pub fn takers(j: usize, b: usize) -> LaneSet
    requires { j < 16 }
    ensures { Takers j b result }
{
    if j < 6 {
        return LaneSet::splat(pattern(j));
    }
    if j == 6 {
        return LaneSet {
            a: 0,
            b: u64::MAX,
            c: 0,
            d: u64::MAX,
        };
    }
    if j == 7 {
        return LaneSet {
            a: 0,
            b: 0,
            c: u64::MAX,
            d: u64::MAX,
        };
    }
    if (b >> (j - 8)) % 2 == 1 {
        LaneSet::splat(u64::MAX)
    } else {
        LaneSet::splat(0)
    }
}

// Bit i of the word is bit j of i.
fn pattern(j: usize) -> u64
    requires { j < 6 }
    ensures { Pattern j result }
{
    match j {
        0 => 0xaaaa_aaaa_aaaa_aaaa,
        1 => 0xcccc_cccc_cccc_cccc,
        2 => 0xf0f0_f0f0_f0f0_f0f0,
        3 => 0xff00_ff00_ff00_ff00,
        4 => 0xffff_0000_ffff_0000,
        _ => 0xffff_ffff_0000_0000,
    }
}
