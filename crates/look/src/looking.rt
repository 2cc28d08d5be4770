// A look as a call. Rule: docs/SPECIFICATION.md, "Looking at a box".
ghost use Rattle.std.specs.Prelude.{◌≡◌, length, true};
ghost use Rattle.component.specs.Record.{record_at, record_count};
ghost use Rattle.index.specs.Index.{IsIndex};
ghost use Rattle.flatten.specs.Verdict.{verdict};
ghost use Rattle.kinds.specs.Given.{refusing};
ghost use Rattle.tables.specs.Tables.{full_size};
ghost use Rattle.look.specs.Look.{look_number, loads_own, Looks};

use crate::Looked;
use crate::showing::show;
use boxes::{is_dangling, is_matched, place_of};
use kinds::{Refusal, refused_by};
use net::check_net;
use tables::Lent;

// Full size of the lists for the answer.
const PORTS: usize = 256;

// What is judged before the tables are looked into: a load's own verdict, and 2 for a short list. The lent index, of 3,072 words, is filled where
// the file is accepted.
fn judge_look(
    file: &[u8],
    lent: &Lent,
    numbers: &[u64],
    widths: &[u64],
    index: &mut [u16],
) -> Result<(), Refusal>
    requires { length index.old ≡ 3072 }
    ensures value { result ≡ loads_own file.now lent.now numbers.now widths.now }
    ensures index { result ≡ Ok tt → IsIndex file.now index.new }
{
    if component::is_sized(file) & ((numbers.len() < PORTS) | (widths.len() < PORTS)) {
        return Err(refused_by(2));
    }
    load::judge_load(file, lent, index)
}

// What is checked after a load's own refusals: 16; 20, file and tables do not match, or no such path; 21, nothing behind some input.
fn check_look(file: &[u8], index: &[u16], lent: &Lent, place: usize) -> Result<(), Refusal>
    requires file_value { (verdict file.now ≡ Ok tt) × IsIndex file.now index.now }
    requires lent_value { full_size lent.now ≡ true }
    ensures { result ≡ refusing (look_number (record_at file.now) (record_count file.now) lent.now place) }
{
    check_net(lent)?;
    if !is_matched(file, index, lent) {
        return Err(refused_by(20));
    }
    if file.len() / 24 <= place {
        return Err(refused_by(20));
    }
    if is_dangling(file, index, place) {
        return Err(refused_by(21));
    }
    Ok(())
}

// Looks at the component that a path of ids names, from the root's children down; an empty path names the root. Numbers and widths of its
// ports go to the front of two lists, inputs first. The tables are as they were, and a refusal leaves both lists too.
pub fn look(
    file: &[u8],
    lent: &Lent,
    path: &[u32],
    numbers: &mut [u64],
    widths: &mut [u64],
) -> Result<Looked, Refusal>
    ensures { Looks file.now lent.now path.now numbers.old widths.old result numbers.new widths.new }
{
    let mut index = [0u16; 3072];
    judge_look(file, lent, numbers, widths, &mut index)?;
    let place = place_of(file, path);
    check_look(file, &index, lent, place)?;
    Ok(show(
        file,
        &index,
        lent.components(),
        lent.inputs(),
        lent.outputs(),
        place,
        numbers,
        widths,
    ))
}
