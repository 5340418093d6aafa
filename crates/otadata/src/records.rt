ghost use Rattle.std.specs.Prelude.{◌≡◌, is_ok, IsTrue, IfOk};
ghost use Rattle.otadata.specs.Record.{is_blank, is_sequence, made};
ghost use Rattle.otadata.specs.declared.records.Fault.TheVariants.{BadState};

use crate::check::check_word;
use crate::numbers::Numbered;
use crate::states::{NoState, State};
use crate::{LAST_SEQUENCE, RECORD_SIZE};
use std::error::Error;
use std::fmt;

/// The sequence number of a record.
#[derive(Clone, Copy, Debug, PartialEq, Eq, PartialOrd, Ord, Hash)]
pub struct Sequence(pub u32);

impl Sequence {
    ghost use Rattle.otadata.specs.Record.{is_sequence, slot_of};

    /// Whether a good record may have the sequence.
    pub fn is_good(self) -> bool
        ensures { result ≡ is_sequence self.0 }
    {
        (1..=LAST_SEQUENCE).contains(&self.0)
    }

    /// The slot that a good record of this sequence names, with `n` slots; slot 0 where there are none.
    pub fn slot(self, n: u32) -> Slot
        ensures { result ≡ slot_of n self }
    {
        Slot(self.0.saturating_sub(1).checked_rem(n).unwrap_or(0))
    }
}

/// The number of an OTA slot.
#[derive(Clone, Copy, Debug, PartialEq, Eq, PartialOrd, Ord, Hash)]
pub struct Slot(pub u32);

/// A record without its check word, which follows from the sequence. It is good where its sequence is.
#[derive(Clone, Copy, Debug, PartialEq, Eq)]
pub struct Record {
    pub sequence: Sequence,
    pub label: [u8; 20],
    pub state: State,
}

/// Why bytes hold no good record: the first of these that applies.
#[derive(Clone, Copy, Debug, PartialEq, Eq, PartialOrd, Ord, Hash)]
pub enum Fault {
    /// They are not 32 bytes.
    WrongSize,
    /// Every byte is 0xFF.
    Blank,
    /// The sequence is 0 or above the highest.
    BadSequence,
    /// The check word is not that of the sequence.
    BadCheckWord,
    /// The state is none of the six.
    BadState,
}

/// What bytes read as: a good record, or why there is none.
pub type Reading = Result<Record, Fault>;

impl Record {
    ghost use Rattle.otadata.specs.Record.{read, is_good, bytes_of};

    /// The good record in these bytes.
    #[tactic(auto, unfolding(crate::specs::Record::read, crate::specs::Record::is_good))]
    pub fn read(bytes: &[u8]) -> Reading
        ensures exact { result ≡ read bytes.now }
        ensures good { is_ok result ≡ is_good bytes.now }
        ensures made_back { IfOk result (λ r. bytes_of r ≡ bytes.now) }
    {
        let bytes: &[u8; RECORD_SIZE] = bytes.try_into().map_err(|_| Fault::WrongSize)?;
        if is_blank(bytes) {
            return Err(Fault::Blank);
        }
        let sequence = Sequence(u32::from_le_bytes(bytes[0..4].try_into().unwrap()));
        if !sequence.is_good() {
            return Err(Fault::BadSequence);
        }
        let check = u32::from_le_bytes(bytes[28..32].try_into().unwrap());
        if check != check_word(sequence) {
            return Err(Fault::BadCheckWord);
        }
        let word = u32::from_le_bytes(bytes[24..28].try_into().unwrap());
        let state = State::try_from(word)?;
        let label = bytes[4..24].try_into().unwrap();
        Ok(Record {
            sequence,
            label,
            state,
        })
    }

    /// The 32 bytes of the record, with its check word.
    #[tactic(auto, using(crate::proofs::RoundTrip::read_bytes_of), unfolding(crate::specs::Record::fields))]
    pub fn to_bytes(self) -> [u8; RECORD_SIZE]
        ensures bytes { result ≡ bytes_of self }
        ensures reads_back { IsTrue (is_sequence self.sequence.0) → read result ≡ Ok self }
    {
        let mut bytes = [0u8; RECORD_SIZE];
        let (sequence, rest) = bytes.split_at_mut(4);
        let (label, rest) = rest.split_at_mut(20);
        let (state, check) = rest.split_at_mut(4);
        sequence.copy_from_slice(&self.sequence.0.to_le_bytes());
        label.copy_from_slice(&self.label);
        state.copy_from_slice(&self.state.word().to_le_bytes());
        check.copy_from_slice(&check_word(self.sequence).to_le_bytes());
        bytes
    }
}

/// Whether every byte is 0xFF.
fn is_blank(bytes: &[u8]) -> bool
    ensures { result ≡ is_blank bytes.now }
{
    bytes.iter().all(|&byte| byte == 0xFF)
}

impl From<NoState> for Fault {
    ghost from_gives = { λ _ fault. fault ≡ BadState };

    fn from(_: NoState) -> Fault {
        Fault::BadState
    }
}

impl Fault {
    ghost use Rattle.otadata.specs.Answer.{code_of, name_of};

    /// The value that an answer gives; that of a good record is 1.
    pub fn code(self) -> Option<u32>
        ensures { result ≡ code_of self }
    {
        match self {
            Fault::WrongSize => None,
            Fault::Blank => Some(2),
            Fault::BadSequence => Some(3),
            Fault::BadCheckWord => Some(4),
            Fault::BadState => Some(5),
        }
    }

    /// The name that is printed.
    pub fn name(self) -> &'static str
        ensures { result.now ≡ name_of self }
    {
        match self {
            Fault::WrongSize => "wrong size",
            Fault::Blank => "blank",
            Fault::BadSequence => "bad sequence",
            Fault::BadCheckWord => "bad check",
            Fault::BadState => "bad state",
        }
    }
}

impl Numbered for Fault {
    ghost use Rattle.otadata.specs.Answer.{number_of};

    ghost number = { number_of };

    fn number(self) -> u32 {
        match self {
            Fault::WrongSize => 2,
            _ => 0,
        }
    }
}

impl fmt::Display for Fault {
    ghost use Rattle.std.specs.Prelude.{Some};
    ghost use Rattle.otadata.specs.Answer.{name_of};

    ghost output = { λ fault. Some (name_of fault) };

    fn fmt<W: fmt::Write>(&self, f: &mut fmt::Formatter<W>) -> fmt::Result {
        f.write_str(self.name())
    }
}

impl Error for Fault {}

/// Makes the record of a sequence, a label and a state word.
#[tactic(auto, using(crate::proofs::RoundTrip::is_good_fields), unfolding(crate::specs::Record::made))]
pub fn make(sequence: Sequence, label: [u8; 20], word: u32) -> Result<[u8; RECORD_SIZE], NotGood>
    ensures { result ≡ made sequence label word }
{
    let state = State::try_from(word).map_err(|_| NotGood)?;
    if !sequence.is_good() {
        return Err(NotGood);
    }
    let record = Record {
        sequence,
        label,
        state,
    };
    Ok(record.to_bytes())
}

/// The refusal of fields that make no good record.
#[derive(Clone, Copy, Debug, PartialEq, Eq)]
pub struct NotGood;

impl Numbered for NotGood {
    ghost use Rattle.otadata.specs.Answer.{number_of_not_good};

    ghost number = { number_of_not_good };

    fn number(self) -> u32 {
        17
    }
}

impl fmt::Display for NotGood {
    ghost use Rattle.std.specs.Prelude.{Some};
    ghost use Rattle.otadata.specs.Answer.{text_of_not_good};

    ghost output = { λ refusal. Some (text_of_not_good refusal) };

    fn fmt<W: fmt::Write>(&self, f: &mut fmt::Formatter<W>) -> fmt::Result {
        f.write_str("the fields make no good record")
    }
}

impl Error for NotGood {}
