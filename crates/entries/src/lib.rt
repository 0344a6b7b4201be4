// A log record (document 02, R-1): read, written, tested, and held against another.
#![tactic(auto)]

ghost use Rattle.std.specs.Prelude.{◌≡◌};
ghost use Rattle.logs.specs.Agreement.{agree};
ghost use Rattle.logs.specs.Entries.{read_entry, write_entry};
ghost use Rattle.logs.specs.LogForm.{is_sound_entry};
ghost use Rattle.entries.specs.Types.{entry_of};

pub const ENTRY_BYTES: usize = 8;

// What a record says was answered: bytes, and no enum with TryFrom, which is no plainer, since a log may hold any byte here and a record keeps the
// one it has, so that the enum would be made only to be matched in `is_sound`.
pub const GRANT: u8 = 1;

pub const DENY: u8 = 2;

pub const ASK: u8 = 3;

// What a log record says; the last two bytes are `pad`.
#[derive(Clone, Copy)]
pub struct Entry {
    pub shown: u16,
    pub answer: u8,
    pub asked: u16,
    pub count: u8,
    pub pad: u16,
}

impl Entry {
    // The eight bytes of the record; a method, since it is a public function by this name.
    #[tactic(auto, unfolding(logs::specs::Entries::write_entry, encoding::specs::LittleEndian::bytes_of))]
    pub fn bytes(self) -> [u8; ENTRY_BYTES]
        ensures { result ≡ write_entry (entry_of self) }
    {
        let [shown_low, shown_high] = self.shown.to_le_bytes();
        let [asked_low, asked_high] = self.asked.to_le_bytes();
        let [pad_low, pad_high] = self.pad.to_le_bytes();
        [
            shown_low,
            shown_high,
            self.answer,
            asked_low,
            asked_high,
            self.count,
            pad_low,
            pad_high,
        ]
    }

    // Whether answer, asked set and pad go together: what refusal 11 tests.
    #[tactic(auto, unfolding(logs::specs::LogForm::is_sound_entry))]
    pub fn is_sound(self) -> bool
        ensures { result ≡ is_sound_entry (entry_of self) }
    {
        if self.pad != 0 {
            return false;
        }
        match self.answer {
            GRANT | DENY => self.asked == 0,
            ASK => self.asked != 0,
            _ => false,
        }
    }

    // Whether two records agree: by answer and asked set alone, so this is no derived equality.
    #[tactic(auto, unfolding(logs::specs::Agreement::agree))]
    pub fn agrees(self, other: Entry) -> bool
        ensures { result ≡ agree (entry_of self) (entry_of other) }
    {
        self.answer == other.answer && self.asked == other.asked
    }
}

// The record that eight bytes say.
impl From<[u8; ENTRY_BYTES]> for Entry {
    ghost from_gives = { λ bytes x. entry_of x ≡ read_entry bytes };

    #[tactic(auto, unfolding(logs::specs::Entries::read_entry, encoding::specs::LittleEndian::little_endian))]
    fn from(bytes: [u8; ENTRY_BYTES]) -> Entry {
        Entry {
            shown: u16::from_le_bytes([bytes[0], bytes[1]]),
            answer: bytes[2],
            asked: u16::from_le_bytes([bytes[3], bytes[4]]),
            count: bytes[5],
            pad: u16::from_le_bytes([bytes[6], bytes[7]]),
        }
    }
}
