// Messages of twelve bytes, in either direction.
ghost use Rattle.std.specs.Prelude.{◌≡◌, ℕ, List, Ok, Result};

// A message is read back from the bytes that it was written to.
pub trait Coded: Sized {
    // why bytes are no such message
    type Fault;

    ghost bytes_of: { Self → List ℕ };

    ghost message_of: { List ℕ → Result Self Self.Fault };

    // The message, or the first reason why these twelve bytes are none.
    fn read(bytes: &[u8; 12]) -> Result<Self, Self::Fault>
        ensures { result ≡ message_of bytes.now };

    // Its twelve bytes; those that it does not specify are 0.
    fn write(self) -> [u8; 12]
        ensures { result ≡ bytes_of self };

    ghost read_back: { (message : Self) → message_of (bytes_of message) ≡ Ok message };
}

// Reading undoes writing, for every message.
pub fn reading_undoes_writing<M: Coded>(message: M) -> Result<M, M::Fault>
    ensures result { result ≡ Ok message }
    ensures law { (m : M) → M.message_of (M.bytes_of m) ≡ Ok m }
{
    M::read(&message.write())
}
