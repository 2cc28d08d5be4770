// Records copied into a buffer, one behind the other. Rule: docs/SPECIFICATION.md, "Mending a drawing".
ghost use Rattle.std.specs.Prelude.{◌≡◌, ◌+◌, ◌*◌, ◌≤◌, ◌<◌, length};
ghost use Rattle.std.proofs.lemmas.List.Edits.{sets};
ghost use Rattle.lists.specs.Lists.{overlay};
ghost use Rattle.component.specs.Record.{part_at, record_count};
ghost use Rattle.mend.specs.Mend.{mended, dropped};
ghost use Rattle.mend.specs.Sifting.{plain_part, parts_of, IsSifted};

// Copies the record at p to a place of a buffer.
fn copy_record(file: &[u8], p: usize, buffer: &mut [u8], at: usize)
    requires { (p < record_count file.now) × (at + 24 ≤ length buffer.old) }
    ensures { buffer.new ≡ sets buffer.old at (part_at file.now p) }
{
    let first = 24 * p;
    buffer[at..at + 24].copy_from_slice(&file[first..first + 24]);
}

// The same of a component's record, with field D at 0, as check 3 wants it.
fn copy_component(file: &[u8], p: usize, buffer: &mut [u8], at: usize)
    requires { (p < record_count file.now) × (at + 24 ≤ length buffer.old) }
    ensures { buffer.new ≡ sets buffer.old at (plain_part (part_at file.now p)) }
{
    copy_record(file, p, buffer, at);
    buffer[at + 10] = 0;
    buffer[at + 11] = 0;
}

// The component records of a file as a file of their own, in which a component's number is its position. The answer is its length.
pub(crate) fn copy_components(file: &[u8], buffer: &mut [u8]) -> usize
    requires { (record_count file.now ≤ 1024) × (24 * record_count file.now ≤ length buffer.old) }
    ensures { (buffer.new ≡ overlay (parts_of file.now) buffer.old) × (result ≡ length (parts_of file.now)) }
{
    let mut at: usize = 0;
    for p in 0..file.len() / 24 {
        if file[24 * p] == 1 {
            copy_component(file, p, buffer, at);
            at += 24;
        }
    }
    at
}

// The records that are marked as kept, in order with their bytes. The answer is how many bytes they are.
pub(crate) fn copy_kept(file: &[u8], kept: &[u8], buffer: &mut [u8]) -> usize
    requires { IsSifted file.now (record_count file.now) kept.now × (record_count file.now ≤ 1024)
        × (24 * record_count file.now ≤ length buffer.old) }
    ensures { (buffer.new ≡ overlay (mended file.now) buffer.old) × (result ≡ length (mended file.now)) }
{
    let mut at: usize = 0;
    for p in 0..file.len() / 24 {
        if kept[p] != 0 {
            copy_record(file, p, buffer, at);
            at += 24;
        }
    }
    at
}

// The positions of the records that are not marked, and last that of a part record. The answer is how many they are.
pub(crate) fn list_dropped(file: &[u8], kept: &[u8], list: &mut [u16]) -> usize
    requires { IsSifted file.now (record_count file.now) kept.now × (record_count file.now ≤ 1024) × (1025 ≤ length list.old) }
    ensures { (list.new ≡ overlay (dropped file.now) list.old) × (result ≡ length (dropped file.now)) }
{
    let n = file.len() / 24;
    let mut count: usize = 0;
    for p in 0..n {
        if kept[p] == 0 {
            list[count] = p as u16;
            count += 1;
        }
    }
    if file.len() % 24 != 0 {
        list[count] = n as u16;
        count += 1;
    }
    count
}
