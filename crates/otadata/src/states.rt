ghost use Rattle.std.specs.Prelude.{◌≡◌, ok_or, Some};
ghost use Rattle.otadata.specs.State.{word_of, is_usable, state_of, name_of, text_of_no_state};

use std::error::Error;
use std::fmt;

/// The state of a good record, and the word that stands for it.
#[derive(Clone, Copy, Debug, PartialEq, Eq, PartialOrd, Ord, Hash)]
pub enum State {
    New = 0,
    Pending = 1,
    Valid = 2,
    Invalid = 3,
    Aborted = 4,
    Undefined = 0xFFFF_FFFF,
}

impl State {
    /// The word that stands for the state in a record.
    pub fn word(self) -> u32
        ensures { result ≡ word_of self }
    {
        self as u32
    }

    /// Whether a record in this state may be started.
    pub fn is_usable(self) -> bool
        ensures { result ≡ is_usable self }
    {
        !matches!(self, State::Invalid | State::Aborted)
    }

    /// The name that is printed.
    pub fn name(self) -> &'static str
        ensures { result.now ≡ name_of self }
    {
        match self {
            State::New => "new",
            State::Pending => "pending",
            State::Valid => "valid",
            State::Invalid => "invalid",
            State::Aborted => "aborted",
            State::Undefined => "undefined",
        }
    }
}

impl From<State> for u32 {
    ghost from_gives = { λ state word. word ≡ word_of state };

    fn from(state: State) -> u32 {
        state.word()
    }
}

/// A word that stands for no state.
#[derive(Clone, Copy, Debug, PartialEq, Eq, Hash)]
pub struct NoState(pub u32);

impl TryFrom<u32> for State {
    type Error = NoState;

    ghost try_from_gives = { λ word r. r ≡ ok_or (state_of word) (record { 0 = word }) };

    fn try_from(word: u32) -> Result<Self, NoState> {
        match word {
            0 => Ok(State::New),
            1 => Ok(State::Pending),
            2 => Ok(State::Valid),
            3 => Ok(State::Invalid),
            4 => Ok(State::Aborted),
            0xFFFF_FFFF => Ok(State::Undefined),
            _ => Err(NoState(word)),
        }
    }
}

impl fmt::Display for State {
    ghost output = { λ state. Some (name_of state) };

    fn fmt<W: fmt::Write>(&self, f: &mut fmt::Formatter<W>) -> fmt::Result {
        f.write_str(self.name())
    }
}

impl fmt::Display for NoState {
    ghost output = { λ none. Some (text_of_no_state none) };

    fn fmt<W: fmt::Write>(&self, f: &mut fmt::Formatter<W>) -> fmt::Result {
        write!(f, "no state has the word {}", self.0)
    }
}

impl Error for NoState {}
