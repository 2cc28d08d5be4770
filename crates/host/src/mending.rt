// Mending a drawing, called from C.
ghost use Rattle.std.specs.Prelude.{◌≡◌, [], ◌∷◌};
ghost use Rattle.host.specs.Host.{CallMends};

use mend::Mended;
use words::lay;

// The words of a mending: how many bytes and how many positions are written.
fn mended_words(mended: Mended) -> [u64; 2]
    ensures { result ≡ mended.bytes ∷ mended.positions ∷ [] }
{
    [mended.bytes as u64, mended.positions as u64]
}

// Mends a damaged drawing into a buffer as long as the file; the positions of what was dropped, into a list of 1,025; how many bytes and how many
// positions they are, into two lent words.
pub fn berxundar_mend(file: &[u8], mended: &mut [u8], dropped: &mut [u16], found: &mut [u64]) -> u32
    ensures { CallMends file.now mended.old mended.new dropped.old dropped.new
        found.old found.new result }
{
    let n = file.len() / 24;
    if (n < 1) | (1024 < n) {
        return 65536;
    }
    if found.len() < 2 {
        return 131072;
    }
    let answer = mend::mend(file, mended, dropped);
    lay(found, answer.map(mended_words))
}
