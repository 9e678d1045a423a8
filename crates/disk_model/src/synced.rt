//! A change of a file that is on the disk when it is done.
ghost use Rattle.std.specs.Prelude.{◌≡◌, ◌≢◌, ℕ, ◌+◌, ◌<◌, ◌≤◌, List, length, take, OnOk};
ghost use Rattle.disk_model.specs.Past.{seen, written};
ghost use Rattle.disk_model.specs.Images.{EachHolds, LeavesOnly};
ghost use Rattle.disk_model.specs.OneFile.{KeepsOthers, InFile, IsTornFrom, IsCutFrom};
ghost use Rattle.disk_model.specs.Faults.{CountsFault};

use crate::disk::Disk;
use crate::fault::DiskFailed;

/// Writes bytes over those of a file from an offset on, and brings the file to the disk.
pub fn write_synced<D: Disk>(
    disk: &mut D,
    file: u8,
    at: u64,
    bytes: &[u8],
) -> Result<(), DiskFailed>
    requires file { file < 4 }
    requires within { at ≤ D.size disk.old file }
    ensures honest { D.is_honest disk.old → D.is_honest disk.new }
    // After Ok a crash leaves the file with the bytes written.
    ensures durable { D.is_honest disk.old → OnOk result (EachHolds (D.past disk.new) file
        (λ held. held ≡ written (seen (D.past disk.old) file) at bytes.now)) }
    // In any case it leaves the file as it was, with a part of the bytes.
    ensures torn { D.is_honest disk.old → EachHolds (D.past disk.new) file
        (IsTornFrom (D.past disk.old) file at (length bytes.now)) }
    ensures any_moment { D.is_honest disk.old → LeavesOnly (D.past disk.old) (D.past disk.new)
        (InFile (D.past disk.old) file
        (IsTornFrom (D.past disk.old) file at (length bytes.now))) }
    ensures others { D.is_honest disk.old →
        KeepsOthers (D.past disk.old) (D.past disk.new) file }
    ensures reaches { OnOk result (at + length bytes.now ≤ D.size disk.new file) }
    ensures no_less { D.size disk.old file ≤ D.size disk.new file }
    ensures sizes { (f : ℕ) → f ≢ file → D.size disk.new f ≡ D.size disk.old f }
    ensures faults { CountsFault (D.fault_count disk.old) (D.fault_count disk.new) result }
{
    disk.write_at(file, at, bytes)?;
    disk.sync(file)
}

/// Cuts a file to a length, and brings it to the disk.
pub fn cut_synced<D: Disk>(disk: &mut D, file: u8, length: u64) -> Result<(), DiskFailed>
    requires file { file < 4 }
    requires within { length ≤ D.size disk.old file }
    ensures honest { D.is_honest disk.old → D.is_honest disk.new }
    // After Ok a crash leaves the front of the file.
    ensures durable { D.is_honest disk.old → OnOk result (EachHolds (D.past disk.new) file
        (λ held. held ≡ take length (seen (D.past disk.old) file))) }
    // In any case it leaves the file as it was, or shortened.
    ensures shortened { D.is_honest disk.old → EachHolds (D.past disk.new) file
        (IsCutFrom (D.past disk.old) file length) }
    ensures any_moment { D.is_honest disk.old → LeavesOnly (D.past disk.old) (D.past disk.new)
        (InFile (D.past disk.old) file (IsCutFrom (D.past disk.old) file length)) }
    ensures others { D.is_honest disk.old →
        KeepsOthers (D.past disk.old) (D.past disk.new) file }
    ensures exact { OnOk result (D.size disk.new file ≡ length) }
    ensures no_less { length ≤ D.size disk.new file }
    ensures no_more { D.size disk.new file ≤ D.size disk.old file }
    ensures sizes { (f : ℕ) → f ≢ file → D.size disk.new f ≡ D.size disk.old f }
    ensures faults { CountsFault (D.fault_count disk.old) (D.fault_count disk.new) result }
{
    disk.cut(file, length)?;
    disk.sync(file)
}
