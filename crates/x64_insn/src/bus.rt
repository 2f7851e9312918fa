//! What an instruction sees of memory.

ghost use Rattle.std.specs.Prelude.{◌≡◌, ◌<◌, IfSome, if◌then◌else◌};
ghost use Rattle.jz_words.specs.Sizes.{bytes_of, modulus};
ghost use Rattle.jz_words.specs.Memory.{Memory, loaded, all_valid, stored};

use jz_words::Size;

/// Memory as a finite map of valid bytes. Addresses are counted modulo 2^64.
pub trait Bus {
    /// The valid bytes by their addresses.
    ghost bytes: { Self → Memory };

    /// The bytes of an access as a little-endian number, where each of them is valid.
    fn load(&self, addr: u64, size: Size) -> Option<u64>
        ensures value { result ≡ loaded (bytes self.now) addr (bytes_of size) }
        ensures fits { IfSome result (λ v. v < modulus size) };

    /// Writes the lowest bytes of a number, where each byte of the access is valid; else changes
    /// nothing.
    fn store(&mut self, addr: u64, size: Size, v: u64) -> bool
        ensures valid { result ≡ all_valid (bytes self.old) addr (bytes_of size) }
        ensures bytes { bytes self.new
            ≡ (if result then stored (bytes self.old) addr (bytes_of size) v else bytes self.old) };
}
