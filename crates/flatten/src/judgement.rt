// The verdict on a file's bytes. Rule: docs/SPECIFICATION.md, "Numbers given back". Check 2 is not made: no table is lent.
ghost use Rattle.std.specs.Prelude.{◌≡◌, true, false, ℕ, ◌+◌, ◌≤◌, ◌<◌, length};
ghost use Rattle.component.specs.Record.{record_at, record_count};
ghost use Rattle.index.specs.Index.{IsIndex};
ghost use Rattle.checks.specs.Checks.{IsFirst};
ghost use Rattle.flatten.specs.Verdict.{verdict};
ghost use Rattle.flatten.specs.Searches.{fails_at, PassedBefore, Judged};

use crate::widths::first15;
use checks::{
    check3, check4, check5, check6, check7, check8, check9, check12, check14, first10, first11,
    first13,
};
use component::is_sized;
use index::fill_index;
use kinds::{Refusal, refused_by};

// The first of n positions that fails a test; n where none does. Where it is called n is the file's count of records, so that once it stands there
// the loop's end is also the test that a record of the file is read.
#[inline(always)]
fn first_failing<F: Fn(usize) -> bool>(n: usize, fails: F) -> usize
    requires { (p : ℕ) → p < n → F.pre fails p }
    ensures { (result ≤ n) × ((p : ℕ) → p < result → F.post fails p false) × (result < n → F.post fails result true) }
{
    for p in 0..n {
        if fails(p) {
            return p;
        }
    }
    n
}

// Check k over all records, the checks before it having passed: refused at the first record, in file order, that fails it, p being that record.
fn refused_at(file: &[u8], k: u32, p: usize) -> Result<(), Refusal>
    requires passed_before { PassedBefore (record_at file.now) (record_count file.now) k }
    requires first { (record_count file.now ≤ 1024) × (3 ≤ k) × (k < 16)
        × IsFirst (fails_at (record_at file.now) (record_count file.now) k) (record_count file.now) p }
    ensures { Judged (k + 1) (record_at file.now) (record_count file.now) result }
{
    if p < file.len() / 24 {
        return Err(Refusal {
            number: k,
            position: p as u32,
            earlier: 0,
        });
    }
    Ok(())
}

// The checks 3 to 11 in number order, each over all records before the next begins: accepted where they have passed.
fn judge_early(file: &[u8]) -> Result<(), Refusal>
    requires { record_count file.now ≤ 1024 }
    ensures { Judged 12 (record_at file.now) (record_count file.now) result }
{
    let n = file.len() / 24;
    refused_at(file, 3, first_failing(n, |p| check3(file, p)))?;
    refused_at(file, 4, first_failing(n, |p| check4(file, p)))?;
    refused_at(file, 5, first_failing(n, |p| check5(file, p)))?;
    refused_at(file, 6, first_failing(n, |p| check6(file, p)))?;
    refused_at(file, 7, first_failing(n, |p| check7(file, p)))?;
    refused_at(file, 8, first_failing(n, |p| check8(file, p)))?;
    refused_at(file, 9, first_failing(n, |p| check9(file, p)))?;
    refused_at(file, 10, first10(file))?;
    refused_at(file, 11, first11(file))
}

// The checks 12 to 15 likewise, where those before have passed and the index is filled.
fn judge_late(file: &[u8], index: &[u16]) -> Result<(), Refusal>
    requires { IsIndex file.now index.now × PassedBefore (record_at file.now) (record_count file.now) 12 }
    ensures { Judged 16 (record_at file.now) (record_count file.now) result }
{
    let n = file.len() / 24;
    refused_at(file, 12, first_failing(n, |p| check12(file, index, p)))?;
    refused_at(file, 13, first13(file, index))?;
    refused_at(file, 14, first_failing(n, |p| check14(file, index, p)))?;
    refused_at(file, 15, first15(file, index))
}

// The verdict on a file's bytes, 13 for any two records that meet; the lent index, of 3,072 words, is filled where the file is accepted. `verdict` calls
// it, and crate meeting, which says of two records that meet what they are.
pub fn verdict_indexed(file: &[u8], index: &mut [u16]) -> Result<(), Refusal>
    requires { length index.old ≡ 3072 }
    ensures value { result ≡ verdict file.now }
    ensures index { result ≡ Ok tt → IsIndex file.now index.new }
{
    if !is_sized(file) {
        return Err(refused_by(1));
    }
    judge_early(file)?;
    fill_index(file, index);
    judge_late(file, index)
}

// The verdict on a file's bytes, for the host's first call.
pub fn verdict(file: &[u8]) -> Result<(), Refusal>
    ensures { result ≡ verdict file.now }
{
    let mut index = [0u16; 3072];
    verdict_indexed(file, &mut index)
}
