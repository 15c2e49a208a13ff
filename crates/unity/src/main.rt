// Prints how united the benches are, from the lines on standard input, or the refusal (document 02, A9). 64 KiB are read: of a longer text
// the first 20,301 bytes decide (crate `unity_text`, first-bytes-decide). What is printed takes at most 1,024 bytes (printed-fits).
#![tactic(auto)]

ghost use Rattle.std.specs.Prelude.{◌≤◌, length};

use std::io::Read;

// Reads until the text is full, the input ends or a read fails: how many bytes stand at its start.
fn read_full(file: &mut impl Read, text: &mut [u8]) -> usize
    ensures { result ≤ length text.new }
{
    let mut done = 0;
    // Kept: beside stdio::read_input, which tells standard error of a failed read: this program takes it for the end of its input and prints
    // nothing of it, and what a program prints stays. A `while`, since how many reads it takes is known only by what they give.
    while done < text.len() {
        match file.read(&mut text[done..]) {
            Ok(0) | Err(_) => break,
            Ok(n) => done += n,
        }
    }
    done
}

fn main(rt: HostRuntime) {
    let mut text = [0u8; 65536];
    let mut input = rt.reader();
    let n = read_full(&mut input, &mut text);
    let mut out = [0u8; 1024];
    if let Ok(end) = unity_text::print_unity(&text[..n], &mut out) {
        let _ = rt.write_all(&out[..end]);
    }
}
