// The listing program: reads a drawing from standard input and writes its listing.
// Rule: docs/SPECIFICATION.md, "The lamp drawing and marked cases".
#![tactic(auto)]

ghost use Rattle.text.specs.Text.{Puts};
ghost use Rattle.listing.specs.Listing.{listing};

// The descriptor of standard input.
const STDIN: i32 = 0;

// Lists a drawing in a lent buffer, and answers how many bytes that is.
fn list(file: &[u8], out: &mut [u8]) -> usize
    ensures { Puts out.old 0 (listing file.now) out.new result }
{
    let mut components = [0u64; 2048];
    let mut inputs = [0u64; 1024];
    let mut outputs = [0u64; 1024];
    let mut wires = [0u16; 4096];
    let mut current = [0u16; 256];
    let mut following = [0u16; 256];
    let mut standing = [0u16; 256];
    let answer = load::load(
        file,
        &mut components,
        &mut inputs,
        &mut outputs,
        &mut wires,
        &mut current,
        &mut following,
        &mut standing,
    );
    match answer {
        Ok(counts) => {
            let wired = lines::put_net(out, 0, &components, &wires, counts);
            running::put_rounds(
                &components,
                &mut inputs,
                &mut outputs,
                &wires,
                &mut current,
                &mut following,
                &mut standing,
                counts,
                out,
                wired,
            )
        }
        Err(refusal) => lines::put_refused(out, 0, refusal),
    }
}

fn main() {
    // One record more than the largest file, so that a file that is too long is seen to be.
    let mut file = [0u8; 24600];
    let mut out = io::large_buffer();
    let count = io::read_full(STDIN, &mut file);
    let end = list(&file[..count], &mut out);
    text::flush(&out, end);
}
