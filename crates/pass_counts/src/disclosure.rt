// The disclosure rules, closed over from one set.
ghost use Rattle.form.specs.WrittenForm.{WellFormed};

use atoms::AtomSet;
use fixpoint::close;
use layout::listed::rules_of;
use records::DISCLOSURE;

// Prints the count, and then the credentials.
pub(crate) fn closed(rt: &impl Print, policy: &[u8], shown: AtomSet)
    requires { WellFormed policy.now }
{
    let listed = rules_of(policy, DISCLOSURE);
    let fixpoint = close(&listed.rules, 0, listed.count, shown);
    let credentials = fixpoint.set.bits % 0x1_0000;
    let _ = print!(rt; " disclosure {} set {credentials:04x}", fixpoint.passes);
}
