// A mending as a call. Rule: docs/SPECIFICATION.md, "Mending a drawing".
ghost use Rattle.std.specs.Prelude.{◌≡◌, ◌≤◌, length};
ghost use Rattle.component.specs.Record.{record_count};
ghost use Rattle.meeting.specs.Meeting.{Judges};
ghost use Rattle.mend.specs.Mend.{mended, Mends};
ghost use Rattle.mend.specs.Sifting.{IsSifted};

use crate::Mended;
use crate::copying::{copy_components, copy_kept, list_dropped};
use crate::sifting::sift;
use kinds::{Refusal, refused_by};

// Marks the records that are kept, and judges what they make.
fn judge_mended(file: &[u8], kept: &mut [u8]) -> Result<(), Refusal>
    requires { (record_count file.now ≤ 1024) × (length kept.old ≡ 1024) }
    ensures judges { Judges (mended file.now) result }
    ensures sifted { IsSifted file.now (record_count file.now) kept.new }
{
    let mut buffer = [0u8; 24576];
    let parts = copy_components(file, &mut buffer);
    sift(file, &buffer[0..parts], kept);
    let length = copy_kept(file, kept, &mut buffer);
    meeting::judge(&buffer[0..length])
}

// Mends a damaged drawing: drops a part record at the end, and each connection or input map that check 12 refuses or whose input an earlier kept
// one has entered. What is left is judged; where it is accepted it is written, and the dropped positions are listed.
pub fn mend(file: &[u8], out: &mut [u8], dropped: &mut [u16]) -> Result<Mended, Refusal>
    ensures { Mends file.now out.old dropped.old result out.new dropped.new }
{
    let n = file.len() / 24;
    if (n < 1) | (1024 < n) {
        return Err(refused_by(1));
    }
    if (out.len() < file.len()) | (dropped.len() < 1025) {
        return Err(refused_by(2));
    }
    let mut kept = [0u8; 1024];
    judge_mended(file, &mut kept)?;
    let bytes = copy_kept(file, &kept, out);
    let positions = list_dropped(file, &kept, dropped);
    Ok(Mended { bytes, positions })
}
