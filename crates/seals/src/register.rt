// A register of seals: the set of (replica, bytes) pairs that were sealed, and which lengths fit.
// Whoever makes one says by a ghost member what it means: what is sealed and what fits, also after further pairs.
// A pair comes as its two parts, which callers hold apart.
ghost use Rattle.std.specs.Prelude.{◌≡◌, true, length, Ok};
ghost use Rattle.seals.specs.Registers.{RegisterState, after_sealing, sealing};

use crate::fault::RegisterFault;

pub trait Register {
    ghost state: { Self → RegisterState };

    fn is_sealed(&mut self, replica: u8, bytes: &[u8]) -> bool
        ensures answer { result ≡ (state self.old).sealed replica bytes.now }
        ensures unchanged { state self.new ≡ state self.old };

    fn has_room(&mut self, length: usize) -> bool
        ensures answer { result ≡ (state self.old).fits length }
        ensures unchanged { state self.new ≡ state self.old };

    fn seal(&mut self, replica: u8, bytes: &[u8]) -> Result<(), RegisterFault>
        ensures answer { result ≡ sealing (state self.old) replica bytes.now }
        ensures leaves { state self.new ≡ after_sealing (state self.old) replica bytes.now }
        ensures succeeds { (state self.old).fits (length bytes.now) ≡ true → result ≡ Ok tt };
}
