// A line of output, as it is put together.
ghost use Rattle.std.specs.Prelude.{◌≡◌, [], ◌∷◌, ◌+◌, ◌<◌, ◌≤◌, length};
ghost use Rattle.transcript.specs.Numerals.{decimal, digit, hexadecimal};
ghost use Rattle.lines.specs.Lines.{Appends, Prints, Room, text_of};

use arrayvec::ArrayString;
use itoa::Buffer;

// The longest line: 255 preview round 255 got ffff ask ffff, and its end.
pub const LINE_BYTES: usize = 40;

// The text that is to be printed.
#[derive(Clone, Copy)]
pub struct Line {
    pub text: ArrayString<LINE_BYTES>,
}

impl Line {
    pub fn empty() -> Line
        ensures { Prints result [] }
    {
        Line {
            text: ArrayString::new(),
        }
    }

    // What is to be printed.
    pub fn as_bytes(&self) -> &[u8]
        ensures says { result.now ≡ text_of self.now }
        ensures fits { Room self.now 0 }
    {
        self.as_str().as_bytes()
    }

    // The same as text.
    pub(crate) fn as_str(&self) -> &str
        ensures says { result.now ≡ text_of self.now }
        ensures fits { Room self.now 0 }
    {
        self.text.as_str()
    }

    pub(crate) fn text(mut self, text: &str) -> Line
        requires { Room self (length text.now) }
        ensures { Appends self result text.now }
    {
        self.text.push_str(text);
        self
    }

    // A number in decimal.
    #[tactic(auto, using(crate::proofs::LineLaws::decimal_formatted, transcript::proofs::NumeralLaws::decimal_most))]
    pub(crate) fn decimal(self, n: u8) -> Line
        requires { Room self 3 }
        ensures says { Appends self result (decimal n) }
        ensures short { length (text_of result) ≤ length (text_of self) + 3 }
    {
        let mut buffer = Buffer::new();
        self.text(buffer.format(n))
    }

    // A set of credentials, as four hexadecimal digits. `write!` with `{:04x}` is no plainer: it gives a Result, which may be an error.
    #[tactic(auto, unfolding(transcript::specs::Numerals::hexadecimal))]
    pub(crate) fn set(self, credentials: u16) -> Line
        requires { Room self 4 }
        ensures says { Appends self result (hexadecimal credentials) }
        ensures four { length (text_of result) ≡ length (text_of self) + 4 }
    {
        let high = self.digit(credentials / 4096).digit(credentials / 256 % 16);
        high.digit(credentials / 16 % 16).digit(credentials % 16)
    }

    // A hexadecimal digit.
    fn digit(mut self, d: u16) -> Line
        requires { (d < 16) × Room self 1 }
        ensures { Appends self result (digit d ∷ []) }
    {
        let _ = self.text.try_push(char::from(digit(d)));
        self
    }
}

// A digit: 0 to 9, then a to f.
#[tactic(auto, using(transcript::proofs::NumeralLaws::digit_ten, transcript::proofs::NumeralLaws::digit_letter))]
fn digit(d: u16) -> u8
    requires { d < 16 }
    ensures says { result ≡ digit d }
    ensures ascii { result < 128 }
{
    if d < 10 { 48 + d as u8 } else { 87 + d as u8 }
}
