ghost use Rattle.std.specs.Prelude.{◌≡◌, ℕ};
ghost use Rattle.otadata.specs.Number.{reply_number};

/// A refusal, which has a number.
pub trait Numbered {
    ghost number: { Self → ℕ };

    /// Its number; 0 of an answer that refuses nothing.
    fn number(self) -> u32
        ensures { result ≡ number self };
}

/// The number that a call replies: 0 where it is done.
pub fn number_of<T: Drop, E: Numbered>(reply: Result<T, E>) -> u32
    ensures { result ≡ reply_number E.number reply }
{
    match reply {
        Ok(_) => 0,
        Err(refusal) => refusal.number(),
    }
}
