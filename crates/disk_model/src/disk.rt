//! A disk as the code above it sees it: calls that may fail, and a past that says what a crash
//! leaves.
ghost use Rattle.std.specs.Prelude.{◌≡◌, ◌≢◌, ℕ, ◌+◌, ◌-◌, ◌<◌, ◌≤◌, ◌++◌, length, min, take, drop, IfOk, OnOk, OnErr};
ghost use Rattle.disk_model.specs.Past.{Past, seen, with_write, with_cut, with_sync};
ghost use Rattle.disk_model.specs.Images.{TearsWrite, TearsCut};
ghost use Rattle.disk_model.specs.Faults.{CountsFault};

use crate::fault::DiskFailed;

/// A disk of four files, with the numbers 0 to 3, of bytes numbered from 0.
///
/// A disk that is honest tells its past: what a read of each file gives, and what a crash may leave
/// (`specs/Past.antt`, `specs/Images.antt`). An honest disk stays honest. Lengths and counts of
/// faults are told by every disk.
pub trait Disk {
    // Whether it does what it says.
    ghost is_honest: { Self → Type 0 };

    // What its calls did, on an honest disk.
    ghost past: { Self → Past };

    // The length of each file.
    ghost size: { Self → ℕ → ℕ };

    // How often it failed: a number of 64 bits that never falls.
    ghost fault_count: { Self → ℕ };

    /// Reads the bytes of a file from an offset on into the room, and answers how many it read: as
    /// many as fit, and fewer only at the end of the file.
    fn read_at(&mut self, file: u8, at: u64, room: &mut [u8]) -> Result<usize, DiskFailed>
        requires file { file < 4 }
        requires within { at ≤ size self.old file }
        ensures count { IfOk result (λ n. n ≡ min (length room.old) (size self.old file - at)) }
        ensures moved { is_honest self.old → IfOk result (λ n.
            room.new ≡ take n (drop at (seen (past self.old) file)) ++ drop n room.old) }
        ensures honest { is_honest self.old → is_honest self.new }
        ensures same { is_honest self.old → past self.new ≡ past self.old }
        ensures sizes { (f : ℕ) → size self.new f ≡ size self.old f }
        ensures faults { CountsFault (fault_count self.old) (fault_count self.new) result };

    /// Writes bytes over those of a file from an offset on, and past its end.
    fn write_at(&mut self, file: u8, at: u64, bytes: &[u8]) -> Result<(), DiskFailed>
        requires file { file < 4 }
        requires within { at ≤ size self.old file }
        ensures written { is_honest self.old → OnOk result
            (past self.new ≡ with_write (past self.old) file at bytes.now) }
        ensures torn { is_honest self.old → OnErr result
            (TearsWrite (past self.old) (past self.new) file at (length bytes.now)) }
        ensures honest { is_honest self.old → is_honest self.new }
        ensures reaches { OnOk result (at + length bytes.now ≤ size self.new file) }
        ensures no_less { size self.old file ≤ size self.new file }
        ensures others { (f : ℕ) → f ≢ file → size self.new f ≡ size self.old f }
        ensures faults { CountsFault (fault_count self.old) (fault_count self.new) result };

    /// Cuts a file to a length.
    fn cut(&mut self, file: u8, length: u64) -> Result<(), DiskFailed>
        requires file { file < 4 }
        requires within { length ≤ size self.old file }
        ensures cut { is_honest self.old → OnOk result
            (past self.new ≡ with_cut (past self.old) file length) }
        ensures torn { is_honest self.old → OnErr result
            (TearsCut (past self.old) (past self.new) file length) }
        ensures honest { is_honest self.old → is_honest self.new }
        ensures exact { OnOk result (size self.new file ≡ length) }
        ensures no_less { length ≤ size self.new file }
        ensures no_more { size self.new file ≤ size self.old file }
        ensures others { (f : ℕ) → f ≢ file → size self.new f ≡ size self.old f }
        ensures faults { CountsFault (fault_count self.old) (fault_count self.new) result };

    /// Brings a file to the disk: after `Ok` a crash leaves of it what a read gives.
    fn sync(&mut self, file: u8) -> Result<(), DiskFailed>
        requires { file < 4 }
        ensures synced { is_honest self.old → OnOk result
            (past self.new ≡ with_sync (past self.old) file) }
        ensures kept { is_honest self.old → OnErr result (past self.new ≡ past self.old) }
        ensures honest { is_honest self.old → is_honest self.new }
        ensures sizes { (f : ℕ) → size self.new f ≡ size self.old f }
        ensures faults { CountsFault (fault_count self.old) (fault_count self.new) result };

    /// The length of a file, in bytes.
    fn len(&mut self, file: u8) -> Result<u64, DiskFailed>
        requires { file < 4 }
        ensures length { IfOk result (λ n. n ≡ size self.old file) }
        ensures honest { is_honest self.old → is_honest self.new }
        ensures same { is_honest self.old → past self.new ≡ past self.old }
        ensures sizes { (f : ℕ) → size self.new f ≡ size self.old f }
        ensures faults { CountsFault (fault_count self.old) (fault_count self.new) result };

    /// How often a call of this disk failed. The count stands still at the greatest `u64`.
    fn faults(&self) -> u64
        ensures { result ≡ fault_count self.now };

    // What a read of a file gives has the file's length.
    ghost sizes_are: { (disk : Self) → is_honest disk → (file : ℕ) →
        size disk file ≡ length (seen (past disk) file) };
}
